//! Many workers that a bound stops wherever they are, and a million locks of one list.

use crate::runs::{Counts, Open, Run, THREE_OPEN, report_of};
use brc_run::System;
use std::alloc::Global;

/// The modules that are stopped.
const MODULES: [&[u8]; 2] = [SHARED, THREE_OPEN];

/// The greatest bound. The calls of a worker begin more instructions.
const MOST_STEPS: u64 = 50;

/// How often each module meets each bound.
const ROUNDS: u64 = 4;

/// Stores a new list in the root, and then a number in the list that it finds there, which may be another worker's.
const SHARED: &[u8] =
    b"module 1\nfunc f\nlist v1 1 else @16\nlock v0\nset v0 0 v1 else @17\nunlock v0\nlock v0\n\
    fetch v2 v0 0 else @17\nunlock v0\nas v2 list else @15\nnum v3 7 else @12\nlock v2\nset v2 0 v3 else @11\n\
    unlock v2\ndrop v2\nnone v1\nret v1\ndrop v2\nfail\nunlock v0\nfail\nend\n";

/// Puts a static list's first number into its second cell too.
const SAME_IN_BOTH: &[u8] =
    b"module 3\nstatic 5 6\nfunc f\ntake v1 0\nlock v1\nfetch v2 v1 0 else @8\nput v1 1 v2 else @4\nunlock v1\n\
    drop v2\ndrop v1\nfail\nunlock v1\ndrop v1\nfail\nend\n";

/// A million locks and changes of one list.
const LOCKS: Run = (32, 4, 31_250, u64::MAX);

/// Lets 32 workers call the module. Returns the report's numbers.
fn counts_of<R: System>(rt: &R, alloc: Global, text: &[u8], run: Run) -> Counts {
    report_of(rt, alloc, text, run, &[], &[], &Open).unwrap_or([0; 7])
}

// A number that was in the second cell of the list is closed once.
#[test]
fn workers_that_are_stopped_leave_nothing(rt: HostRuntime) {
    for text in MODULES {
        for number in 0..ROUNDS * (MOST_STEPS + 1) {
            let steps = number % (MOST_STEPS + 1);
            let counts = counts_of(&rt, rt.alloc(), text, (32, 8, 4, steps));
            let created = counts[2];
            assert_eq!(rt; counts, [32, 0, created, created, 0, 0, 0], "{steps} steps");
        }
    }
    assert_eq!(rt;
        counts_of(&rt, rt.alloc(), SAME_IN_BOTH, LOCKS),
        [32, 0, 3, 2, 1, 0, 0]
    );
}
