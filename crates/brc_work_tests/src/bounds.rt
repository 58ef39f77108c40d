//! Workers that are stopped by a bound: they have given up what they held, and everything that isn't in a cycle is
//! closed.

use crate::beside::beside;
use crate::faults::{COPY, FILE_IN_CALLS};
use crate::hearing::Hearing;
use crate::runs::{MOST_ROWS, run_apart, run_twice};
use crate::worked::{
    FOUR_PASSES, HAND_BACK, IN_ITSELF, KEEP, NOTHING, OWN_TURNS, SET_OUT_OF_RANGE, THREE_OPEN,
};
use brc_check::Checked;
use brc_fixtures::accepted;
use brc_host::FakeHost;
use std::alloc::Global;
use std::sync::Wait;
use std::test::*;
use std::thread::Threads;

/// Each bound from 0 to this one is tried.
const MOST_STEPS: u64 = 20;

/// At bound 6 a variable borrows the item of a list that is locked.
const BORROWING: &[u8] =
    b"module 1\nfunc f\nlist v1 1 else @11\nnum v2 3 else @10\nnewref v3 v0\nlock v1\nput v1 0 v2 else @7\n\
    borrow v4 v1 0 else @7\nput v1 0 v3 else @7\nunlock v1\ndrop v3\ndrop v2\ndrop v1\nfail\nend\n";

/// A call that is stopped at each bound: its name, the module, how many instructions the whole call and those that it
/// makes begin, and how many objects are created, closed and alive at the end, at the bounds from 0 on. The last ones
/// are those of all further bounds.
type Case<'a> = (&'a str, &'a [u8], u64, &'a [[u64; 3]]);

const CASES: &[Case] = &[
    (
        "borrowing",
        BORROWING,
        12,
        &[[1, 1, 0], [2, 2, 0], [3, 3, 0]],
    ),
    // From the fourth instruction on the list is in itself.
    (
        "list in itself",
        IN_ITSELF,
        7,
        &[[1, 1, 0], [2, 2, 0], [2, 2, 0], [2, 2, 0], [2, 1, 1]],
    ),
    (
        "copy",
        COPY,
        13,
        &[[1, 1, 0], [2, 2, 0], [3, 3, 0], [3, 3, 0], [4, 4, 0]],
    ),
    ("keep", KEEP, 7, &[[1, 1, 0], [2, 2, 0]]),
    ("hand back", HAND_BACK, 7, &[[1, 1, 0], [2, 2, 0]]),
    (
        "three open calls",
        THREE_OPEN,
        16,
        &[
            [1, 1, 0],
            [2, 2, 0],
            [3, 3, 0],
            [3, 3, 0],
            [3, 3, 0],
            [4, 4, 0],
        ],
    ),
    (
        "own turns",
        OWN_TURNS,
        25,
        &[
            [1, 1, 0],
            [1, 1, 0],
            [2, 2, 0],
            [2, 2, 0],
            [2, 2, 0],
            [3, 3, 0],
            [3, 3, 0],
            [3, 3, 0],
            [4, 4, 0],
            [4, 4, 0],
            [4, 4, 0],
            [4, 4, 0],
            [4, 4, 0],
            [4, 4, 0],
            [5, 5, 0],
            [5, 5, 0],
            [5, 5, 0],
            [6, 6, 0],
            [6, 6, 0],
            [6, 6, 0],
            [7, 7, 0],
        ],
    ),
    (
        "file in calls",
        FILE_IN_CALLS,
        12,
        &[
            [1, 1, 0],
            [1, 1, 0],
            [2, 2, 0],
            [2, 2, 0],
            [2, 2, 0],
            [2, 2, 0],
            [2, 2, 0],
            [3, 3, 0],
        ],
    ),
];

/// A run with a bound, which none meets at `u64::MAX`: its name, the module, the calls, the bound, whether the worker
/// makes all calls, and how many beginnings and ends of calls the gate hears.
type Bounded<'a> = (&'a str, &'a [u8], u32, u64, bool, u64);

const BOUNDED: &[Bounded] = &[
    ("no call and no bound", FOUR_PASSES, 0, u64::MAX, true, 0),
    ("a call", FOUR_PASSES, 1, u64::MAX, true, 2),
    ("three calls", FOUR_PASSES, 3, u64::MAX, true, 6),
    ("100 calls", FOUR_PASSES, 100, u64::MAX, true, 200),
    ("no call", NOTHING, 0, 0, true, 0),
    ("no step", NOTHING, 2, 0, false, 0),
    ("the second call isn't begun", NOTHING, 2, 1, false, 2),
    ("a step for each call", NOTHING, 2, 2, true, 4),
    ("no step for set", SET_OUT_OF_RANGE, 1, 0, false, 0),
    (
        "the first call isn't ended",
        SET_OUT_OF_RANGE,
        1,
        4,
        false,
        1,
    ),
    ("the first call is ended", SET_OUT_OF_RANGE, 1, 5, true, 2),
    (
        "the second call isn't ended",
        SET_OUT_OF_RANGE,
        2,
        6,
        false,
        3,
    ),
];

/// Two functions that store objects in the root. `own` puts a number into two cells, and then none; `other` takes what
/// is in the second cell, and stores it in the first.
const TWO_FUNCTIONS: &[u8] =
    b"module 1\nfunc own\nnum v1 7 else @12\nlock v0\nput v0 0 v1 else @3\nput v0 1 v1 else @4\nunlock v0\n\
    drop v1\nnone v1\nlock v0\nput v0 0 v1 else @9\nput v0 1 v1 else @10\nunlock v0\nret v1\nfail\nend\n\
    func other\nnone v1\nlock v0\nput v0 0 v1 else @3\nfetch v2 v0 1 else @5\nset v0 0 v2 else @5\n\
    unlock v0\nret v1\nend\n";

/// How many instructions a call of `own` begins, of which the first makes a number.
const OWN_STEPS: u64 = 12;

/// Lets two workers call the first function four times each, the second one, or one each, and begin at most `steps`
/// instructions. Returns of each whether one has made all its calls, and the objects that were created, closed and are
/// alive.
fn all_stopped<R: Threads + Wait + Sync>(
    rt: &R,
    alloc: Global,
    steps: u64,
) -> Result<[(bool, [u64; 3]); 3], Fail> {
    let checked = accepted(alloc, TWO_FUNCTIONS)?;
    all_stop(rt, alloc, &checked, steps)
}

/// Does what `all_stopped` does, of the module.
fn all_stop<R: Threads + Wait + Sync>(
    rt: &R,
    alloc: Global,
    checked: &Checked,
    steps: u64,
) -> Result<[(bool, [u64; 3]); 3], Fail> {
    Ok([
        both_stop(rt, alloc, checked, 0, steps)?,
        both_stop(rt, alloc, checked, 1, steps)?,
        beside(rt, alloc, checked, steps)?,
    ])
}

/// Lets two workers call the function of this number four times. Returns what `all_stopped` does.
fn both_stop<R: Threads + Wait + Sync>(
    rt: &R,
    alloc: Global,
    checked: &Checked,
    function: usize,
    steps: u64,
) -> Result<(bool, [u64; 3]), Fail> {
    let mut hosts = [FakeHost::new(&[]), FakeHost::new(&[])];
    let gate = Hearing::new();
    let (ends, objects, _) = run_apart(
        rt, alloc, checked, function, 2, MOST_ROWS, 4, steps, &mut hosts, &gate,
    )?;
    let [Some(one), Some(other)] = ends else {
        return Err("there are two workers")?;
    };
    Ok((one.is_done() || other.is_done(), objects))
}

/// Returns what two workers that call the first function, the second one, or one each lead to at this bound.
fn stops_of(steps: u64) -> [(bool, [u64; 3]); 3] {
    let calls = steps.div_ceil(OWN_STEPS);
    let own = calls.saturating_mul(2).saturating_add(1);
    let beside = calls.saturating_add(1);
    [
        (false, [own, own, 0]),
        (false, [1, 1, 0]),
        (false, [beside, beside, 0]),
    ]
}

/// Returns how many objects the case has at this bound: those that were created, closed and are alive.
fn objects_at(wants: &[[u64; 3]], steps: u64) -> [u64; 3] {
    match wants.get(steps as usize).or(wants.last()) {
        Some(want) => *want,
        None => [0; 3],
    }
}

/// A stopped worker has given up what it owned; a run is done unless its bound is met; and of two workers both stop,
/// whether they call one function or one each, as their four calls begin more instructions than any of the bounds.
#[test]
fn bounds_stop_workers(rt: HostRuntime) -> Result<(), Fail> {
    let alloc = rt.alloc();
    for steps in 0..=MOST_STEPS {
        for (name, text, instructions, wants) in CASES {
            let (counts, _, _, done) = run_twice(&rt, alloc, text, (MOST_ROWS, 1, steps, &[]))?;
            let [created, closed, alive] = objects_at(wants, steps);
            let wanted = ([created, closed, alive, 0, 0], steps >= *instructions);
            assert_eq!(rt; (counts, done), wanted, "{name}, {steps} steps");
        }
        assert_eq!(rt;
            all_stopped(&rt, alloc, steps)?,
            stops_of(steps),
            "{steps} steps"
        );
    }
    for (name, text, calls, steps, is_done, heard) in BOUNDED {
        let (_, _, found, done) = run_twice(&rt, alloc, text, (MOST_ROWS, *calls, *steps, &[]))?;
        assert_eq!(rt; (done, found), (*is_done, Some(*heard)), "{name}");
    }
    Ok(())
}
