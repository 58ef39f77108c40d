//! The accepted modules of examples.

pub const ACCEPTED: &[(&str, &[u8])] = &[
    (
        "asks",
        b"module 1\nfunc asks\nas v0 list else @7\nnone v1\nas v1 none else @6\nnum v2 1 else @6\n\
          as v2 num else @5\ndrop v2\ndrop v1\nfail\nend\n",
    ),
    (
        "cache",
        b"module 3\nstatic 0\nfunc store\nnum v1 7 else @8\ntake v2 0\nlock v2\nset v2 0 v1 else @4\nunlock v2\n\
          drop v2\nnone v1\nret v1\nfail\nend\nfunc load\ntake v1 0\nlock v1\nfetch v2 v1 0 else @6\nunlock v1\n\
          drop v1\nret v2\nunlock v1\ndrop v1\nfail\nend\n",
    ),
    (
        "constants",
        b"module 3\nstatic 10 20 30\nfunc second\ntake v1 0\nlock v1\nfetch v2 v1 1 else @6\nunlock v1\ndrop v1\n\
          ret v2\nunlock v1\ndrop v1\nfail\nend\n",
    ),
    (
        "copy",
        b"module 1\nfunc copy\nopen v1 0 r else @13\nconnect v2 0 else @12\nlock v1\nread v3 v1 4 else @10\n\
          unlock v1\nlock v2\nwrite v2 v3 else @7\nunlock v2\ndrop v3\ngoto @11\nunlock v1\ndrop v2\ndrop v1\n\
          fail\nend\n",
    ),
    (
        "first",
        b"module 1\nfunc f\nnewref v1 v0\ndrop v1\nfail\nend\n",
    ),
    (
        "four_ends",
        b"module 1\nfunc copy\nopen v1 0 r else @24\nconnect v2 0 else @22\nlock v1\nread v3 v1 4 else @18\n\
          unlock v1\nlock v2\nwrite v2 v3 else @13\nunlock v2\ndrop v3\ndrop v2\ndrop v1\nnone v4\nret v4\n\
          unlock v2\ndrop v3\ndrop v2\ndrop v1\nfail\nunlock v1\ndrop v2\ndrop v1\nfail\ndrop v1\nfail\nfail\n\
          end\n",
    ),
    (
        "keep",
        b"module 2\nfunc keep steal num\nlock v0\nset v0 0 v1 else @2\nunlock v0\nfail\nend\nfunc f\n\
          num v1 7 else @3\ncall v2 keep v1 else @3\ndrop v2\nfail\nend\n",
    ),
    (
        "latest",
        b"module 1\nfunc latest\nnum v1 1 else @6\nnum v2 2 else @4\ndrop v1\ngoto @5\nmove v2 v1\nret v2\n\
          none v2\nret v2\nend\n",
    ),
    (
        "list",
        b"module 1\nfunc fresh\nlist v1 3 else @4\nnewref v2 v1\ndrop v1\nret v2\nfail\nend\n",
    ),
    (
        "long_list",
        b"module 3\nfunc f\nlist v1 64 else @6\nnum v2 1 else @5\nlock v1\nset v1 63 v2 else @4\nunlock v1\n\
          drop v1\nfail\nend\n",
    ),
    (
        "loop",
        b"module 1\nfunc numbers\nnum v1 1 else @3\ndrop v1\nagain @0 3\nfail\nend\n",
    ),
    (
        "opens",
        b"module 1\nfunc f\nopen v1 0 r else @2\ndrop v1\nfail\nend\n",
    ),
    (
        "own_turns",
        b"module 2\nfunc numbers\nnum v1 1 else @3\ndrop v1\nagain @0 2\nfail\nend\nfunc f\n\
          call v1 numbers else @2\ndrop v1\nagain @0 1\nfail\nend\n",
    ),
    (
        "returns",
        b"module 1\nfunc share\nnewref v1 v0\nret v1\nend\nfunc keep_two\nnewref v1 v0\nnewref v2 v1\ndrop v1\n\
          ret v2\nend\n",
    ),
    (
        "show",
        b"module 2\nfunc show borrow any\nnewref v2 v1\nret v2\nend\nfunc f\nnum v1 7 else @4\n\
          call v2 show v1 else @3\ndrop v2\ndrop v1\nfail\nend\n",
    ),
    ("smallest", b"module 1\nfunc f\nfail\nend\n"),
    (
        "swap",
        b"module 1\nfunc swap\nnum v1 7 else @7\nlock v0\nset v0 0 v1 else @6\nunlock v0\nnone v1\nret v1\n\
          unlock v0\nfail\nend\nfunc clear\nnone v1\nlock v0\nput v0 0 v1 else @3\nunlock v0\nret v1\nend\n",
    ),
];
