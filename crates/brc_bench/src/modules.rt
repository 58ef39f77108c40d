//! The modules that are soaked, and what each call of their functions leads to.

/// The workers of a heap.
pub const WORKERS: u8 = 32;

/// The rows of each worker.
pub const ROWS: u16 = 1024;

/// A module whose first function each worker calls, and what is known of a call of it, whatever the schedule.
#[derive(Clone, Copy)]
pub struct Soaked {
    pub name: &'static str,
    pub text: &'static [u8],
    /// How often each worker of a heap calls the function.
    pub times: u32,
    /// The objects that a call makes while the worker has rows for them.
    pub births: u32,
    /// Those of them that keep themselves alive.
    pub kept: u32,
    /// Those of them that are files and sockets.
    pub opened: u32,
}

/// References are made and dropped, all of them to the root. From `returns.brc`.
const REFERENCES: &[u8] = b"module 1\nfunc f\nnewref v1 v0\nnewref v2 v1\ndrop v1\nret v2\nend\n";

/// A loop makes a number and drops it, four times. From `loop.brc`.
const NUMBERS: &[u8] = b"module 1\nfunc f\nnum v1 1 else @3\ndrop v1\nagain @0 3\nfail\nend\n";

/// Objects are asked for their kinds. From `asks.brc`.
const KINDS: &[u8] =
    b"module 1\nfunc f\nas v0 list else @7\nnone v1\nas v1 none else @6\nnum v2 1 else @6\n\
    as v2 num else @5\ndrop v2\ndrop v1\nfail\nend\n";

/// A new list is returned. From `list.brc`.
const RETURNED: &[u8] =
    b"module 1\nfunc f\nlist v1 3 else @4\nnewref v2 v1\ndrop v1\nret v2\nfail\nend\n";

/// A number is swapped into the root, in place of one that another worker may have made. From `swap.brc`.
const SWAPPED: &[u8] =
    b"module 1\nfunc f\nnum v1 7 else @7\nlock v0\nset v0 0 v1 else @6\nunlock v0\nnone v1\nret v1\n\
    unlock v0\nfail\nend\n";

/// A number is swapped into the root, and then none is put there. From both functions of `swap.brc`.
const CLEARED: &[u8] =
    b"module 1\nfunc f\nnum v1 7 else @10\nlock v0\nset v0 0 v1 else @9\nunlock v0\nnone v1\n\
    lock v0\nput v0 0 v1 else @7\nunlock v0\nret v1\nunlock v0\nfail\nend\n";

/// An item of the root is borrowed, and a reference to it is returned. From `from_c/item_after_section_mended.brc`.
const BORROWED: &[u8] =
    b"module 1\nfunc f\nnum v1 7 else @10\nlock v0\nset v0 0 v1 else @9\nunlock v0\nlock v0\n\
    borrow v2 v0 0 else @9\nnewref v2 v2\nunlock v0\nret v2\nunlock v0\nfail\nend\n";

/// An item of the root is fetched and dropped, four times. From `from_c/loop_releases_last_mended.brc`.
const FETCHED: &[u8] =
    b"module 1\nfunc f\nnum v1 7 else @12\nlock v0\nset v0 0 v1 else @11\nunlock v0\nlock v0\n\
    fetch v1 v0 0 else @11\nunlock v0\ndrop v1\nagain @4 3\nnone v1\nret v1\nunlock v0\nfail\nend\n";

/// An item of the root is put into a new list, which is returned. From `from_c/second_section_mended.brc`.
const MOVED: &[u8] =
    b"module 1\nfunc f\nnum v1 7 else @16\nlock v0\nset v0 0 v1 else @17\nunlock v0\n\
    list v1 1 else @16\nlock v0\nfetch v2 v0 0 else @14\nunlock v0\nlock v1\nset v1 0 v2 else @12\nunlock v1\nret v1\n\
    unlock v1\ngoto @15\nunlock v0\ndrop v1\nfail\nunlock v0\nfail\nend\n";

/// A number is put into a list that other workers lock too, in the root. From `from_c/kind_not_asked_mended.brc`.
const SHARED: &[u8] =
    b"module 1\nfunc f\nlist v1 1 else @16\nlock v0\nset v0 0 v1 else @17\nunlock v0\nlock v0\n\
    fetch v2 v0 0 else @17\nunlock v0\nas v2 list else @15\nnum v3 7 else @12\nlock v2\nset v2 0 v3 else @11\n\
    unlock v2\ndrop v2\nnone v1\nret v1\ndrop v2\nfail\nunlock v0\nfail\nend\n";

/// Thirty-two lists are made, each inside the next, and die with the last one. From `list.brc`.
const NESTED: &[u8] =
    b"module 1\nfunc f\nlist v1 1 else @8\nlist v2 1 else @7\nlock v2\nset v2 0 v1 else @4\nunlock v2\n\
    move v1 v2\nagain @1 30\ndrop v1\nfail\nend\n";

/// The root's item is put into a new list, and that into the root: lists pile up until main leaves. From `list.brc`.
const CHAINED: &[u8] =
    b"module 1\nfunc f\nlist v1 1 else @12\nlock v0\nfetch v2 v0 0 else @8\nunlock v0\nlock v1\n\
    set v1 0 v2 else @6\nunlock v1\ngoto @9\nunlock v0\nlock v0\nset v0 0 v1 else @11\nunlock v0\nfail\nend\n";

/// A file and a peer are opened, and a number is read and written. From `copy.brc`.
const COPIED: &[u8] =
    b"module 1\nfunc f\nopen v1 0 r else @13\nconnect v2 0 else @12\nlock v1\nread v3 v1 4 else @10\n\
    unlock v1\nlock v2\nwrite v2 v3 else @7\nunlock v2\ndrop v3\ngoto @11\nunlock v1\ndrop v2\ndrop v1\nfail\nend\n";

/// A file of the root is read and written, which another worker may have opened and may close. From `copy.brc`.
const FILES: &[u8] =
    b"module 1\nfunc f\nopen v1 0 rwc else @16\nlock v0\nset v0 0 v1 else @19\nunlock v0\nlock v0\n\
    fetch v2 v0 0 else @19\nunlock v0\nas v2 file else @17\nlock v2\nread v3 v2 4 else @14\nwrite v2 v3 else @11\n\
    unlock v2\ndrop v3\ngoto @15\nunlock v2\ndrop v2\nfail\ndrop v2\nfail\nunlock v0\nfail\nend\n";

/// A list is put into itself, and so is never closed. From `list.brc`.
const IN_ITSELF: &[u8] =
    b"module 1\nfunc f\nlist v1 1 else @6\nnewref v2 v1\nlock v1\nset v1 0 v2 else @4\nunlock v1\n\
    drop v1\nfail\nend\n";

/// Two numbers are made, and one is returned. The rows run out, and later calls make none. From `latest.brc`.
const ROWS_RUN_OUT: &[u8] =
    b"module 1\nfunc f\nnum v1 1 else @6\nnum v2 2 else @4\ndrop v1\ngoto @5\nmove v2 v1\nret v2\n\
    none v2\nret v2\nend\n";

/// All modules.
pub const MODULES: [Soaked; 16] = [
    Soaked {
        name: "references",
        text: REFERENCES,
        times: 4096,
        births: 0,
        kept: 0,
        opened: 0,
    },
    Soaked {
        name: "numbers",
        text: NUMBERS,
        times: 256,
        births: 4,
        kept: 0,
        opened: 0,
    },
    Soaked {
        name: "kinds",
        text: KINDS,
        times: 1024,
        births: 1,
        kept: 0,
        opened: 0,
    },
    Soaked {
        name: "returned",
        text: RETURNED,
        times: 1024,
        births: 1,
        kept: 0,
        opened: 0,
    },
    Soaked {
        name: "swapped",
        text: SWAPPED,
        times: 1024,
        births: 1,
        kept: 0,
        opened: 0,
    },
    Soaked {
        name: "cleared",
        text: CLEARED,
        times: 1024,
        births: 1,
        kept: 0,
        opened: 0,
    },
    Soaked {
        name: "borrowed",
        text: BORROWED,
        times: 1024,
        births: 1,
        kept: 0,
        opened: 0,
    },
    Soaked {
        name: "fetched",
        text: FETCHED,
        times: 1024,
        births: 1,
        kept: 0,
        opened: 0,
    },
    Soaked {
        name: "moved",
        text: MOVED,
        times: 512,
        births: 2,
        kept: 0,
        opened: 0,
    },
    Soaked {
        name: "shared",
        text: SHARED,
        times: 512,
        births: 2,
        kept: 0,
        opened: 0,
    },
    Soaked {
        name: "nested",
        text: NESTED,
        times: 32,
        births: 32,
        kept: 0,
        opened: 0,
    },
    Soaked {
        name: "chained",
        text: CHAINED,
        times: 1024,
        births: 1,
        kept: 0,
        opened: 0,
    },
    Soaked {
        name: "copied",
        text: COPIED,
        times: 341,
        births: 3,
        kept: 0,
        opened: 2,
    },
    Soaked {
        name: "files",
        text: FILES,
        times: 512,
        births: 2,
        kept: 0,
        opened: 1,
    },
    Soaked {
        name: "in itself",
        text: IN_ITSELF,
        times: 1024,
        births: 1,
        kept: 1,
        opened: 0,
    },
    Soaked {
        name: "rows run out",
        text: ROWS_RUN_OUT,
        times: 600,
        births: 2,
        kept: 0,
        opened: 0,
    },
];
