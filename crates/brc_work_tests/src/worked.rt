//! Worked runs: what is born, what dies with it, and what is left.

use crate::faults::COPY;
use crate::runs::{Counts, MOST_ROWS, Outcome, run_twice};
use crate::{faults, instructions};
use std::test::*;

/// A run in which no call of the host fails: its name, the module, the worker's rows, the number of calls, and what it
/// leads to.
type Case<'a> = (&'a str, &'a [u8], u16, u32, Counts);

/// It does nothing.
pub const NOTHING: &[u8] = b"module 1\nfunc f\nfail\nend\n";

/// The root has eight cells: `set` gives the number up.
pub const SET_OUT_OF_RANGE: &[u8] =
    b"module 1\nfunc f\nnum v1 7 else @6\nlock v0\nset v0 200 v1 else @5\nunlock v0\nfail\n\
    unlock v0\nfail\nend\n";

/// Each call's number takes the place of the last one's in the root.
const SWAP: &[u8] =
    b"module 1\nfunc f\nnum v1 7 else @7\nlock v0\nset v0 0 v1 else @6\nunlock v0\nnone v1\nret v1\n\
    unlock v0\nfail\nend\n";

/// A list is put into itself.
pub const IN_ITSELF: &[u8] =
    b"module 1\nfunc f\nlist v1 1 else @6\nnewref v2 v1\nlock v1\nset v1 0 v2 else @4\nunlock v1\n\
    drop v1\nfail\nend\n";

/// Two numbers, the second of which needs a second row.
const TWO_NUMBERS: &[u8] =
    b"module 1\nfunc f\nnum v1 1 else @4\nnum v2 2 else @3\ndrop v2\ndrop v1\nfail\nend\n";

/// Four numbers, one in each pass.
pub const FOUR_PASSES: &[u8] =
    b"module 1\nfunc f\nnum v1 1 else @3\ndrop v1\nagain @0 3\nfail\nend\n";

/// A thousand lists, each in the one after it. Where a row is missing, those that are there are given up.
const DEEP: &[u8] =
    b"module 1\nfunc f\nlist v1 1 else @8\nlist v2 1 else @7\nlock v2\nset v2 0 v1 else @4\nunlock v2\n\
    move v1 v2\nagain @1 998\ndrop v1\nfail\nend\n";

/// `keep` steals the number, and puts it into the root.
pub const KEEP: &[u8] =
    b"module 2\nfunc keep steal num\nlock v0\nset v0 0 v1 else @2\nunlock v0\nfail\nend\n\
    func f\nnum v1 7 else @3\ncall v2 keep v1 else @3\ndrop v2\nfail\nend\n";

/// `show` borrows the number, and returns a reference of its own to it.
const SHOW: &[u8] = b"module 2\nfunc show borrow any\nnewref v2 v1\nret v2\nend\n\
    func f\nnum v1 7 else @4\ncall v2 show v1 else @3\ndrop v2\ndrop v1\nfail\nend\n";

/// `g` steals the number and hands it back, twice.
pub const HAND_BACK: &[u8] = b"module 2\nfunc g steal any\nret v1\nend\n\
    func f\nnum v1 1 else @4\ncall v2 g v1 else @4\ncall v1 g v2 else @4\ndrop v1\nfail\nend\n";

/// `f` lends its second number to `hold`, which returns a reference to it and hands a number of its own to `keep`.
pub const THREE_OPEN: &[u8] =
    b"module 2\nfunc keep steal num\nlock v0\nset v0 0 v1 else @2\nunlock v0\nfail\nend\n\
    func hold borrow any\nnewref v2 v1\nnum v3 9 else @4\ncall v4 keep v3 else @4\ndrop v4\nret v2\nend\n\
    func f\nnum v1 7 else @7\nnum v2 8 else @6\ncall v3 hold v2 else @5\ndrop v3\ngoto @5\ndrop v2\n\
    drop v1\nfail\nend\n";

/// `g` makes three numbers, and `f` calls it twice: each open call has turns of its own.
pub const OWN_TURNS: &[u8] = b"module 2\nfunc g\nnum v1 1 else @3\ndrop v1\nagain @0 2\nfail\nend\n\
    func f\ncall v1 g else @2\ndrop v1\nagain @0 1\nfail\nend\n";

/// Eight open calls, of which the innermost makes a number. Each hands it on to its caller, and `f` gives it up.
const EIGHT_OPEN: &[u8] =
    b"module 2\nfunc a\nnum v1 7 else @2\nret v1\nfail\nend\nfunc b\ncall v2 a else @2\nret v2\nfail\nend\n\
    func c\ncall v3 b else @2\nret v3\nfail\nend\nfunc d\ncall v4 c else @2\nret v4\nfail\nend\n\
    func e\ncall v5 d else @2\nret v5\nfail\nend\nfunc g\ncall v6 e else @2\nret v6\nfail\nend\n\
    func h\ncall v7 g else @2\nret v7\nfail\nend\nfunc f\ncall v0 h else @2\ndrop v0\nfail\nend\n";

/// Takes a static list, and the second number out of it.
pub const TAKE: &[u8] =
    b"module 3\nstatic 5 6\nfunc f\ntake v1 0\nlock v1\nfetch v2 v1 1 else @6\nunlock v1\ndrop v2\n\
    goto @7\nunlock v1\ndrop v1\nfail\nend\n";

/// Puts none in place of a static list's first number.
pub const EMPTY_FIRST: &[u8] =
    b"module 3\nstatic 5 6\nfunc f\ntake v1 0\nnone v2\nlock v1\nset v1 0 v2 else @4\nunlock v1\n\
    drop v1\nfail\nend\n";

/// Puts a number into the last cell of a long list.
const LAST_OF_64: &[u8] =
    b"module 3\nfunc f\nlist v1 64 else @6\nnum v2 1 else @5\nlock v1\nset v1 63 v2 else @4\nunlock v1\n\
    drop v1\nfail\nend\n";

/// Gives up a second reference to a static list while it is locked.
const TWICE_TAKEN: &[u8] =
    b"module 3\nstatic 5\nfunc f\ntake v1 0\ntake v2 0\nlock v1\ndrop v2\nunlock v1\ndrop v1\nfail\nend\n";

/// Puts the second static list into itself, in place of its number.
const STATIC_IN_ITSELF: &[u8] =
    b"module 3\nstatic 5 6\nstatic 7\nfunc f\ntake v1 1\nlock v1\nput v1 0 v1 else @3\nunlock v1\n\
    drop v1\nfail\nend\n";

const CASES: &[Case] = &[
    ("nothing", NOTHING, MOST_ROWS, 1, [1, 1, 0, 0, 0]),
    (
        "set out of range",
        SET_OUT_OF_RANGE,
        MOST_ROWS,
        1,
        [2, 2, 0, 0, 0],
    ),
    ("swap once", SWAP, MOST_ROWS, 1, [2, 2, 0, 0, 0]),
    (
        "swap a thousand times",
        SWAP,
        MOST_ROWS,
        1000,
        [1001, 1001, 0, 0, 0],
    ),
    ("list in itself", IN_ITSELF, MOST_ROWS, 1, [2, 1, 1, 0, 0]),
    ("two numbers, one row", TWO_NUMBERS, 1, 1, [2, 2, 0, 0, 0]),
    ("two numbers", TWO_NUMBERS, MOST_ROWS, 1, [3, 3, 0, 0, 0]),
    ("four passes", FOUR_PASSES, MOST_ROWS, 1, [5, 5, 0, 0, 0]),
    (
        "four passes, twice",
        FOUR_PASSES,
        MOST_ROWS,
        2,
        [9, 9, 0, 0, 0],
    ),
    (
        "four passes, three rows",
        FOUR_PASSES,
        3,
        1,
        [4, 4, 0, 0, 0],
    ),
    ("deep lists", DEEP, MOST_ROWS, 1, [1001, 1001, 0, 0, 0]),
    ("deep lists, 500 rows", DEEP, 500, 1, [501, 501, 0, 0, 0]),
    ("keep", KEEP, MOST_ROWS, 1, [2, 2, 0, 0, 0]),
    (
        "keep, 1000 times",
        KEEP,
        MOST_ROWS,
        1000,
        [1001, 1001, 0, 0, 0],
    ),
    ("show", SHOW, MOST_ROWS, 1, [2, 2, 0, 0, 0]),
    ("hand back, twice", HAND_BACK, MOST_ROWS, 2, [3, 3, 0, 0, 0]),
    (
        "three open calls",
        THREE_OPEN,
        MOST_ROWS,
        1,
        [4, 4, 0, 0, 0],
    ),
    (
        "three open calls, 20 times",
        THREE_OPEN,
        MOST_ROWS,
        20,
        [61, 61, 0, 0, 0],
    ),
    // The innermost number has no row, so `hold` doesn't call `keep`.
    (
        "three open calls, two rows",
        THREE_OPEN,
        2,
        1,
        [3, 3, 0, 0, 0],
    ),
    ("own turns", OWN_TURNS, MOST_ROWS, 1, [7, 7, 0, 0, 0]),
    ("own turns, four rows", OWN_TURNS, 4, 1, [5, 5, 0, 0, 0]),
    (
        "eight open calls",
        EIGHT_OPEN,
        MOST_ROWS,
        5,
        [6, 6, 0, 0, 0],
    ),
    (
        "eight open calls, three rows",
        EIGHT_OPEN,
        3,
        5,
        [4, 4, 0, 0, 0],
    ),
    ("a list of 64 cells", LAST_OF_64, 4, 1, [3, 3, 0, 0, 0]),
    // A worker with few rows asks the host for nothing that it has no row for: the file's row is the first, the
    // connection's the second, and the number's the third.
    ("copy with a row", COPY, 1, 1, [2, 2, 0, 0, 0]),
    ("copy with two rows", COPY, 2, 1, [3, 3, 0, 0, 0]),
    ("copy with three rows", COPY, 3, 1, [4, 4, 0, 0, 0]),
];

/// Runs of modules with static lists, whose numbers count as objects: besides, how many numbers the lists have.
const STATIC_CASES: &[(Case, u32)] = &[
    (("take", TAKE, 4, 1, [3, 1, 2, 0, 0]), 2),
    (("take, 100 times", TAKE, 4, 100, [3, 1, 2, 0, 0]), 2),
    (("empty first", EMPTY_FIRST, 4, 1, [3, 2, 1, 0, 0]), 2),
    (("twice taken", TWICE_TAKEN, 4, 10, [2, 1, 1, 0, 0]), 1),
    (("in itself", STATIC_IN_ITSELF, 4, 1, [4, 2, 2, 0, 0]), 3),
];

/// Returns what a run without a bound leads to, if the static lists have so many numbers: the worker counts a birth for
/// each object but those and the root, and the gate hears each call begin and end.
fn outcome_of(want: Counts, numbers: u32, times: u32) -> Outcome {
    let births = want[0].saturating_sub(1 + u64::from(numbers));
    (want, births, Some(2 * u64::from(times)), true)
}

#[test]
fn runs_make_and_close_what_their_modules_say(rt: HostRuntime) -> Result<(), Fail> {
    let alloc = rt.alloc();
    for (name, text, rows, times, want) in CASES {
        let found = run_twice(&rt, alloc, text, (*rows, *times, u64::MAX, &[]))?;
        assert_eq!(rt; found, outcome_of(*want, 0, *times), "{name}");
    }
    for ((name, text, rows, times, want), numbers) in STATIC_CASES {
        let found = run_twice(&rt, alloc, text, (*rows, *times, u64::MAX, &[]))?;
        assert_eq!(rt; found, outcome_of(*want, *numbers, *times), "{name}");
    }
    for cases in [instructions::CASES, faults::CASES] {
        for (name, text, plan, want) in cases {
            let found = run_twice(&rt, alloc, text, (MOST_ROWS, 1, u64::MAX, plan))?;
            assert_eq!(rt; found, outcome_of(*want, 0, 1), "{name}");
        }
    }
    Ok(())
}
