//! Functions that are accepted. The cases of the checker have them too.

/// Functions of a module of version 1.
pub const FUNCTIONS: &[&[u8]] = &[
    b"fail\n",
    b"newref v1 v0\ndrop v1\nfail\n",
    b"newref v1 v0\nret v1\n",
    b"newref v0 v0\nret v0\n",
    b"num v1 1 else @4\nnum v2 2 else @3\ndrop v2\ndrop v1\nfail\n",
    b"num v1 1 else @2\nret v1\nfail\n",
    b"num v1 1 else @2\ndrop v1\nfail\n",
    b"num v0 1 else @2\ndrop v0\nfail\n",
    b"num v1 1 else @2\ngoto @3\nfail\nret v1\n",
    b"list v1 1 else @2\nret v1\nfail\n",
    b"list v1 8 else @2\ndrop v1\nfail\n",
    b"list v0 3 else @2\ndrop v0\nfail\n",
    b"list v1 2 else @4\nlist v2 8 else @3\ndrop v2\ndrop v1\nfail\n",
    b"none v0\nret v0\n",
    b"none v1\nmove v0 v1\nret v0\n",
    b"num v1 1 else @4\nmove v2 v1\nmove v1 v2\ndrop v1\nfail\n",
    b"goto @1\nfail\n",
    b"as v0 list else @1\nfail\n",
    b"none v1\nas v1 none else @3\nret v1\nret v1\n",
    b"num v1 1 else @5\nas v1 num else @3\ngoto @3\ndrop v1\nfail\nfail\n",
    b"open v1 0 rwc else @2\ndrop v1\nfail\n",
    b"connect v1 15 else @2\nret v1\nfail\n",
    b"open v0 0 w else @2\ndrop v0\nfail\n",
    b"open v1 0 r else @6\nlock v1\nread v2 v1 4096 else @4\ndrop v2\nunlock v1\ndrop v1\nfail\n",
    b"connect v1 0 else @7\nnum v2 5 else @6\nlock v1\nwrite v1 v2 else @4\nunlock v1\ndrop v2\ndrop v1\nfail\n",
    b"open v1 0 rw else @7\nlock v1\nread v2 v1 8 else @5\nwrite v1 v2 else @4\ndrop v2\nunlock v1\ndrop v1\nfail\n",
    b"open v1 0 r else @7\nlock v1\nread v0 v1 1 else @4\ndrop v0\nunlock v1\ndrop v1\nfail\nfail\n",
    b"lock v0\nfetch v1 v0 0 else @11\nunlock v0\nas v1 sock else @9\nlock v1\nread v2 v1 1 else @7\ndrop v2\n\
      unlock v1\nret v1\ndrop v1\nfail\nunlock v0\nfail\n",
    b"open v1 0 r else @7\nlock v1\nread v2 v1 64 else @5\ndrop v2\nagain @2 100\nunlock v1\ndrop v1\nfail\n",
    b"num v1 7 else @6\nlock v0\nset v0 200 v1 else @5\nunlock v0\nfail\nunlock v0\nfail\n",
    b"num v1 7 else @7\nlock v0\nset v0 0 v1 else @6\nunlock v0\nnone v1\nret v1\nunlock v0\nfail\n",
    b"list v1 1 else @6\nnewref v2 v1\nlock v1\nset v1 0 v2 else @4\nunlock v1\ndrop v1\nfail\n",
    b"none v1\nlock v0\nput v0 0 v1 else @3\nunlock v0\nret v1\n",
    b"num v1 7 else @12\nlock v0\nput v0 0 v1 else @3\nput v0 1 v1 else @4\nunlock v0\ndrop v1\nnone v1\n\
      lock v0\nput v0 0 v1 else @9\nput v0 1 v1 else @10\nunlock v0\nret v1\nfail\n",
    b"lock v0\nput v0 0 v0 else @2\nunlock v0\nfail\n",
    b"lock v0\nborrow v1 v0 0 else @6\nnewref v2 v1\nunlock v0\ndrop v2\nfail\nunlock v0\nfail\n",
    b"lock v0\nborrow v1 v0 0 else @3\nput v0 1 v1 else @3\nunlock v0\nfail\n",
    b"lock v0\nfetch v1 v0 0 else @4\nunlock v0\nret v1\nunlock v0\nfail\n",
    b"none v1\nlock v0\nput v0 0 v1 else @3\nfetch v2 v0 1 else @5\nset v0 0 v2 else @5\nunlock v0\nret v1\n",
    b"lock v0\nborrow v1 v0 0 else @5\nborrow v1 v0 1 else @5\nunlock v0\nfail\nunlock v0\nfail\n",
    b"lock v0\nborrow v1 v0 0 else @5\nnone v1\nunlock v0\nret v1\nunlock v0\nfail\n",
    b"lock v0\nunlock v0\nfail\n",
    b"lock v0\nunlock v0\nlock v0\nunlock v0\nfail\n",
    b"newref v1 v0\nlock v1\nunlock v1\nret v1\n",
    b"list v1 1 else @4\nlock v1\nunlock v1\ndrop v1\nfail\n",
    b"lock v0\nas v0 list else @2\nunlock v0\nfail\n",
    b"lock v0\nnone v1\nnewref v2 v0\nmove v3 v2\ndrop v3\ndrop v1\nunlock v0\nfail\n",
    b"newref v1 v0\nlock v0\ndrop v1\nunlock v0\nfail\n",
    b"lock v0\nfetch v1 v0 0 else @9\nunlock v0\nas v1 list else @7\nlock v1\nunlock v1\nret v1\ndrop v1\n\
      fail\nunlock v0\nfail\n",
    b"again @0 1\nfail\n",
    b"num v1 1 else @3\ndrop v1\nagain @0 3\nfail\n",
    b"none v1\nnewref v2 v1\ndrop v2\nagain @1 65535\nret v1\n",
    b"newref v1 v0\nnone v2\ndrop v2\nagain @1 9\ndrop v1\nagain @0 9\nfail\n",
    b"lock v0\nput v0 0 v0 else @2\nagain @1 8\nunlock v0\nagain @0 2\nfail\n",
    b"lock v0\nunlock v0\nagain @0 1\nagain @0 1\nfail\n",
    b"goto @2\nfail\nagain @1 1\nfail\n",
    b"goto @2\ndrop v5\nagain @0 2\nfail\n",
    b"goto @2\ndrop v5\nfail\nagain @1 2\nfail\n",
];

/// The lines of modules of version 2.
pub const CALLS: &[&[u8]] = &[
    b"func keep steal num\nlock v0\nset v0 0 v1 else @2\nunlock v0\nfail\nend\nfunc f\nnum v1 7 else @3\n\
      call v2 keep v1 else @3\ndrop v2\nfail\nend\n",
    b"func g steal any\nret v1\nend\nfunc f\nnum v1 1 else @4\ncall v2 g v1 else @4\ncall v1 g v2 else @4\n\
      drop v1\nfail\nend\n",
    b"func k borrow any borrow list\nfail\nend\nfunc f\ncall v0 k v0 v0 else @2\ndrop v0\nfail\nend\n",
    b"func k steal list borrow list\nlock v1\nunlock v1\nret v1\nend\nfunc f\nlist v1 2 else @3\n\
      call v2 k v1 v0 else @3\ndrop v2\nfail\nend\n",
    b"func show borrow any\nnewref v2 v1\nret v2\nend\nfunc f\nnum v1 7 else @4\ncall v2 show v1 else @3\n\
      drop v2\ndrop v1\nfail\nend\n",
    b"func keep steal num\nlock v0\nset v0 0 v1 else @2\nunlock v0\nfail\nend\nfunc hold borrow any\n\
      newref v2 v1\nnum v3 9 else @4\ncall v4 keep v3 else @4\ndrop v4\nret v2\nend\nfunc f\n\
      num v1 7 else @7\nnum v2 8 else @6\ncall v3 hold v2 else @5\ndrop v3\ngoto @5\ndrop v2\ndrop v1\nfail\n\
      end\n",
    b"func g\nnum v1 1 else @3\ndrop v1\nagain @0 2\nfail\nend\nfunc f\ncall v1 g else @2\ndrop v1\n\
      again @0 1\nfail\nend\n",
    b"func a\nfail\nend\nfunc b\ncall v1 a else @2\ndrop v1\nfail\nend\nfunc c\ncall v1 b else @2\ndrop v1\n\
      fail\nend\nfunc d\ncall v1 c else @2\ndrop v1\nfail\nend\nfunc e\ncall v1 d else @2\ndrop v1\nfail\n\
      end\nfunc f\ncall v1 e else @2\ndrop v1\nfail\nend\nfunc g\ncall v1 f else @2\ndrop v1\nfail\nend\n\
      func h\ncall v1 g else @2\ndrop v1\nfail\nend\n",
];

/// Functions of a module with one static list.
pub const STATICS: &[&[u8]] = &[
    b"take v1 0\ndrop v1\nfail\n",
    b"take v1 0\nret v1\n",
    b"take v0 0\ndrop v0\nfail\n",
    b"take v1 0\nlock v1\nunlock v1\ndrop v1\nfail\n",
    b"take v1 0\nas v1 list else @2\ndrop v1\nfail\n",
    b"take v1 0\nnewref v2 v1\nlock v1\ndrop v2\nunlock v1\ndrop v1\nfail\n",
];
