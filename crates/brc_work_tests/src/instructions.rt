//! Instructions that the worked runs don't reach, or reach by one exit alone. What each module leads to follows from
//! docs/LANGUAGE.md; the comment beside it says how. The root is one of the objects in each count.

use crate::faults::Case;

/// The root's first cell has the number: it is borrowed, and a reference to it is made and returned. Nothing else is
/// created.
const BORROW: &[u8] =
    b"module 1\nfunc f\nnum v1 7 else @11\nlock v0\nset v0 0 v1 else @10\nborrow v2 v0 0 else @7\n\
    newref v3 v2\nunlock v0\nret v3\nunlock v0\nnum v1 8 else @11\nret v1\nunlock v0\nfail\nend\n";

/// The same of the second cell, which is empty: `borrow` goes to @7, where a second number is made.
const BORROW_NOTHING: &[u8] =
    b"module 1\nfunc f\nnum v1 7 else @11\nlock v0\nset v0 0 v1 else @10\n\
    borrow v2 v0 1 else @7\nnewref v3 v2\nunlock v0\nret v3\nunlock v0\nnum v1 8 else @11\nret v1\nunlock v0\nfail\n\
    end\n";

/// The same with `fetch`, which makes the reference itself.
const FETCH: &[u8] =
    b"module 1\nfunc f\nnum v1 7 else @10\nlock v0\nset v0 0 v1 else @9\nfetch v2 v0 0 else @6\n\
    unlock v0\nret v2\nunlock v0\nnum v1 8 else @10\nret v1\nunlock v0\nfail\nend\n";

/// The root has eight cells, so index 8 is out of range: `fetch` goes to @6, where a second number is made.
const FETCH_NOTHING: &[u8] = b"module 1\nfunc f\nnum v1 7 else @10\nlock v0\nset v0 0 v1 else @9\n\
    fetch v2 v0 8 else @6\nunlock v0\nret v2\nunlock v0\nnum v1 8 else @10\nret v1\nunlock v0\nfail\nend\n";

/// A file in the root is fetched, and what was fetched is given up. The cell keeps the file open, so call 1 of the host
/// is to connect, and the closes come after it.
const FETCH_FILE: &[u8] =
    b"module 1\nfunc f\nopen v1 0 r else @8\nlock v0\nset v0 0 v1 else @9\nfetch v2 v0 0 else @9\n\
    unlock v0\ndrop v2\nconnect v3 0 else @8\ndrop v3\nfail\nunlock v0\nfail\nend\n";

/// `put` makes a reference for the cell, and `v1` gives up its own: the list is left, since its cell references it.
const PUT: &[u8] =
    b"module 1\nfunc f\nlist v1 1 else @5\nlock v1\nput v1 0 v1 else @3\nunlock v1\ndrop v1\nfail\nend\n";

/// Index 1 is out of range, so `put` changes nothing: the list is closed.
const PUT_NOWHERE: &[u8] =
    b"module 1\nfunc f\nlist v1 1 else @5\nlock v1\nput v1 1 v1 else @3\nunlock v1\ndrop v1\nfail\nend\n";

/// The second `put` gives up the reference that the cell had: the list is closed.
const PUT_TWICE: &[u8] =
    b"module 1\nfunc f\nlist v1 1 else @8\nnone v2\nlock v1\nput v1 0 v1 else @4\n\
    put v1 0 v2 else @5\nunlock v1\ndrop v2\ndrop v1\nfail\nend\n";

/// What was fetched is a number, so a list is made besides.
const AS_NUMBER: &[u8] =
    b"module 1\nfunc f\nnum v1 7 else @13\nlock v0\nset v0 0 v1 else @12\nfetch v2 v0 0 else @12\n\
    unlock v0\nas v2 num else @10\nlist v3 2 else @8\ndrop v3\ndrop v2\nfail\ndrop v2\nfail\nunlock v0\nfail\nend\n";

/// What was fetched is no list, so none is made.
const AS_LIST: &[u8] =
    b"module 1\nfunc f\nnum v1 7 else @13\nlock v0\nset v0 0 v1 else @12\nfetch v2 v0 0 else @12\n\
    unlock v0\nas v2 list else @10\nlist v3 2 else @8\ndrop v3\ndrop v2\nfail\ndrop v2\nfail\nunlock v0\nfail\nend\n";

/// The root is a list, so a number is made.
const AS_ROOT: &[u8] =
    b"module 1\nfunc f\nas v0 list else @3\nnum v1 1 else @3\ndrop v1\nfail\nend\n";

/// The first number is handed on to `v2`, so `v1` may have a second one.
const MOVE: &[u8] =
    b"module 1\nfunc f\nnum v1 7 else @5\nmove v2 v1\nnum v1 8 else @4\ndrop v1\ndrop v2\nfail\nend\n";

/// A reference more to the number: one is given up, and the caller gets the other.
const NEWREF: &[u8] =
    b"module 1\nfunc f\nnum v1 7 else @4\nnewref v2 v1\ndrop v1\nret v2\nfail\nend\n";

/// A reference more to the file: the first one is given up, and the other keeps the file open. So call 1 of the host is
/// to connect, and the closes come after it.
const NEWREF_FILE: &[u8] =
    b"module 1\nfunc f\nopen v1 0 r else @6\nnewref v2 v1\ndrop v1\nconnect v3 0 else @5\n\
    drop v3\ndrop v2\nfail\nend\n";

/// A reference more to the root, which the caller gets. Nothing is created.
const NEWREF_ROOT: &[u8] = b"module 1\nfunc f\nnewref v1 v0\nret v1\nend\n";

/// None is there already, and no reference to it is counted.
const NONE: &[u8] = b"module 1\nfunc f\nnone v1\nnewref v2 v1\nmove v3 v1\ndrop v2\nret v3\nend\n";

/// None in the cell of a list, which is closed with what it has.
const NONE_IN_LIST: &[u8] =
    b"module 1\nfunc f\nlist v1 1 else @6\nnone v2\nlock v1\nset v1 0 v2 else @4\nunlock v1\ndrop v1\nfail\nend\n";

/// A file and a number, which is written to it. The host's calls are 0 open, 1 write and 2 close.
const WRITE: &[u8] =
    b"module 1\nfunc f\nopen v1 0 w else @7\nnum v2 17 else @6\nlock v1\nwrite v1 v2 else @4\n\
    unlock v1\ndrop v2\ndrop v1\nfail\nend\n";

/// The call goes on behind the first `fail`, and makes a number.
const GOTO: &[u8] = b"module 1\nfunc f\ngoto @2\nfail\nnum v1 1 else @4\nret v1\nfail\nend\n";

/// The caller releases the list that it gets, so the list is closed, and with it the number in its cell.
const RET: &[u8] =
    b"module 1\nfunc f\nlist v1 1 else @7\nnum v2 7 else @6\nlock v1\nset v1 0 v2 else @4\nunlock v1\n\
    ret v1\ndrop v1\nfail\nend\n";

/// The caller releases the file that it gets, which is call 1 of the host.
const RET_FILE: &[u8] = b"module 1\nfunc f\nopen v1 0 r else @2\nret v1\nfail\nend\n";

pub const CASES: &[Case] = &[
    ("borrow", BORROW, &[], [2, 2, 0, 0, 0]),
    (
        "borrow of an empty cell",
        BORROW_NOTHING,
        &[],
        [3, 3, 0, 0, 0],
    ),
    ("fetch", FETCH, &[], [2, 2, 0, 0, 0]),
    ("fetch out of range", FETCH_NOTHING, &[], [3, 3, 0, 0, 0]),
    ("fetch of a file", FETCH_FILE, &[], [3, 3, 0, 0, 0]),
    (
        "fetch of a file before a fault",
        FETCH_FILE,
        &[1],
        [2, 2, 0, 1, 0],
    ),
    ("put", PUT, &[], [2, 1, 1, 0, 0]),
    ("put out of range", PUT_NOWHERE, &[], [2, 2, 0, 0, 0]),
    ("put over an item", PUT_TWICE, &[], [2, 2, 0, 0, 0]),
    ("as num of a number", AS_NUMBER, &[], [3, 3, 0, 0, 0]),
    ("as list of a number", AS_LIST, &[], [2, 2, 0, 0, 0]),
    ("as list of the root", AS_ROOT, &[], [2, 2, 0, 0, 0]),
    ("move", MOVE, &[], [3, 3, 0, 0, 0]),
    ("newref", NEWREF, &[], [2, 2, 0, 0, 0]),
    ("newref of a file", NEWREF_FILE, &[], [3, 3, 0, 0, 0]),
    (
        "newref of a file before a fault",
        NEWREF_FILE,
        &[1],
        [2, 2, 0, 1, 0],
    ),
    ("newref of the root", NEWREF_ROOT, &[], [1, 1, 0, 0, 0]),
    ("none", NONE, &[], [1, 1, 0, 0, 0]),
    ("none in a list", NONE_IN_LIST, &[], [2, 2, 0, 0, 0]),
    ("write", WRITE, &[], [3, 3, 0, 0, 0]),
    ("write fails", WRITE, &[1], [3, 3, 0, 1, 0]),
    ("close after write fails", WRITE, &[2], [3, 3, 0, 0, 1]),
    ("goto", GOTO, &[], [2, 2, 0, 0, 0]),
    ("ret", RET, &[], [3, 3, 0, 0, 0]),
    ("ret of a file", RET_FILE, &[], [2, 2, 0, 0, 0]),
    (
        "ret of a file whose close fails",
        RET_FILE,
        &[1],
        [2, 2, 0, 0, 1],
    ),
];
