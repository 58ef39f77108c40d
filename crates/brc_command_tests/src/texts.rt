//! Schedules over modules that are given as texts: the report, the trace, and what each fault says.

use crate::acting::{LEAKING, MISSPELT, SMALLEST};
use brc_command::{StepFault, step_text, trace_text};
use std::alloc::{AllocError, Global};
use std::test::Fail;

// Worker 1 calls `f` once and exits. Main then claims the root, which the worker has queued.
const PLAN: &[u8] =
    b"schedule 1\nworkers 1\nrows 1\ncall 1 f 1\nstep 1 ok 10\nclaim 0 1\nstep 0 ok 5\n";

// The lines as they follow from the rules, and the report: main has the last reference to the root.
const TRACE: &[u8] = b"1  thread 1  f @0 fail  Silent
2  thread 1  exit: root  OtherReleases  row 1 local: owner 0, 2
3  thread 1  exit: root  SharedRead  row 1 shared: 0 default
4  thread 1  exit: root  Queues  row 1 shared: 0 default -> 0 queued  row 1 given up, row 1 queued
5  thread 1  exit: root  Marked  row 1 mark: clear -> set
6  thread 1  exit: root  OwnerRuns  thread 0: running
7  thread 1  exit: leave  SaysLeaving  thread 1: running -> leaving
8  thread 1  exit: gone  SaysGone  thread 1: leaving -> gone
11  thread 0  claim of row 1  MarkClaimed  row 1 mark: set -> clear
12  thread 0  claim of row 1  LocalTakenOut  row 1 local: owner 0, 2 -> nobody
13  thread 0  claim of row 1  MergeRead  row 1 shared: 0 queued
14  thread 0  claim of row 1  MergesForHanded  row 1 shared: 0 queued -> 2 merged  row 1 merged
15  thread 0  claim of row 1  SharedRead  row 1 shared: 2 merged
16  thread 0  claim of row 1  Decrements  row 1 shared: 2 merged -> 1 merged
threads 1
running 1
created 1
closed 0
alive 1
host faults 0
close faults 0
left 1 list
";

/// Two functions over one number: `own` puts it into two cells of the root, and `other` takes it out of them.
const OWN_AND_OTHER: &[u8] =
    b"module 1\nfunc own\nnum v1 7 else @12\nlock v0\nput v0 0 v1 else @3\nput v0 1 v1 else @4\nunlock v0\ndrop v1\n\
      none v1\nlock v0\nput v0 0 v1 else @9\nput v0 1 v1 else @10\nunlock v0\nret v1\nfail\nend\n\
      func other\nnone v1\nlock v0\nput v0 0 v1 else @3\nfetch v2 v0 1 else @5\nset v0 0 v2 else @5\nunlock v0\n\
      ret v1\nend\n";

// Worker 2 finds a number of worker 1 as it was at birth and queues it. Worker 1 merges, and closes it at its exit.
const MERGED_AT_EXIT: &[u8] =
    b"schedule 1\nworkers 2\nrows 4\ncall 1 own 1\ncall 2 other 1\nstep 1 ok 12\nstep 2 ok 1000\n\
      step 1 ok 1000\nstep 0 ok 1000\n";

const BOTH_CLOSED: &[u8] =
    b"threads 2\nrunning 0\ncreated 2\nclosed 2\nalive 0\nhost faults 0\nclose faults 0\n";

const NO_WORKERS: &[u8] = b"schedule 1\nworkers 0\n";

const NO_FUNCTION: &[u8] = b"schedule 1\nworkers 1\nrows 4\ncall 1 g 1\n";

// Whether the steps are traced, a module, a schedule, what is written, and why it isn't stepped.
const STEPPED: &[(bool, &[u8], &[u8], &[u8], &str)] = &[
    (false, OWN_AND_OTHER, MERGED_AT_EXIT, BOTH_CLOSED, ""),
    (true, SMALLEST, PLAN, TRACE, ""),
    (false, MISSPELT, PLAN, b"", "unreadable line 3 L2"),
    (true, MISSPELT, PLAN, b"", "unreadable line 3 L2"),
    (
        false,
        SMALLEST,
        NO_WORKERS,
        b"",
        "unreadable schedule line 2 L3",
    ),
    (
        true,
        SMALLEST,
        NO_WORKERS,
        b"",
        "unreadable schedule line 2 L3",
    ),
    (false, LEAKING, PLAN, b"", "refused f @1 C5"),
    (true, LEAKING, PLAN, b"", "refused f @1 C5"),
    (false, SMALLEST, NO_FUNCTION, b"", "no function g"),
    (true, SMALLEST, NO_FUNCTION, b"", "no function g"),
];

/// Steps the schedule, or traces it.
fn steps(
    alloc: Global,
    is_traced: bool,
    module: &[u8],
    schedule: &[u8],
    out: &mut Vec<u8>,
) -> Result<(), StepFault> {
    if is_traced {
        trace_text(alloc, module, schedule, out)
    } else {
        step_text(alloc, module, schedule, out)
    }
}

/// Returns why it ended, and nothing if the schedule was stepped.
fn said(alloc: Global, ended: Result<(), StepFault>) -> Result<String, AllocError> {
    match ended {
        Ok(()) => format!(in alloc; ""),
        Err(fault) => format!(in alloc; "{fault}"),
    }
}

#[test]
fn texts_are_stepped_and_traced(rt: HostRuntime) -> Result<(), Fail> {
    let alloc = rt.alloc();
    for (is_traced, module, schedule, text, fault) in STEPPED {
        let mut out: Vec<u8> = Vec::new(alloc);
        let ended = said(alloc, steps(alloc, *is_traced, module, schedule, &mut out))?;
        assert_eq!(rt; (out.as_slice(), ended.as_str()), (*text, *fault));
    }
    let ended = said(alloc, Err(StepFault::Output))?;
    assert_eq!(rt; ended.as_str(), "cannot write");
    Ok(())
}
