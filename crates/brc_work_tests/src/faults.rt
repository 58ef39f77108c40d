//! Runs over a host that fails: its faults are counted, and each file or connection that it has opened is closed once.

use crate::hearing::Hearing;
use crate::runs::{Counts, MOST_ROWS, Run, run_apart, run_twice};
use brc_check::Checked;
use brc_fixtures::accepted;
use brc_host::{FakeHost, Host};
use brc_work::Totals;
use std::alloc::Global;
use std::sync::Wait;
use std::test::*;
use std::thread::Threads;

/// A run of one call with 1024 rows: its name, the module, which calls of the host fail, and what it leads to.
pub type Case<'a> = (&'a str, &'a [u8], &'a [u64], Counts);

/// Opens a file, and gives it up: calls 0 and 1 of the host.
const OPEN: &[u8] = b"module 1\nfunc f\nopen v1 0 r else @2\ndrop v1\nfail\nend\n";

/// Connects to a peer, and gives the connection up.
const CONNECT: &[u8] = b"module 1\nfunc f\nconnect v1 0 else @2\ndrop v1\nfail\nend\n";

/// Writes to a peer how many bytes it has read from a file. The host's calls are 0 open, 1 connect, 2 read, 3 write,
/// and if those of opening succeed, at the end the closes of the connection and of the file: 4 and 5 in a whole copy.
pub const COPY: &[u8] =
    b"module 1\nfunc f\nopen v1 0 r else @13\nconnect v2 0 else @12\nlock v1\nread v3 v1 4 else @10\n\
    unlock v1\nlock v2\nwrite v2 v3 else @7\nunlock v2\ndrop v3\ngoto @11\nunlock v1\ndrop v2\ndrop v1\nfail\nend\n";

/// Opens a file and puts it into the root, which is closed as main leaves. So is the file: call 1 of the host.
const KEPT: &[u8] =
    b"module 1\nfunc f\nopen v1 0 r else @4\nlock v0\nset v0 0 v1 else @3\nunlock v0\nfail\nend\n";

/// `f` gets a file from `opened`, and lends it to `length`, which returns how many bytes it has read. The host's calls
/// are 0 open, 1 read and 2 close.
pub const FILE_IN_CALLS: &[u8] = b"module 2\nfunc opened\nopen v1 0 r else @2\nret v1\nfail\nend\n\
    func length borrow file\nlock v1\nread v2 v1 4 else @4\nunlock v1\nret v2\nunlock v1\nfail\nend\n\
    func f\ncall v1 opened else @5\nas v1 file else @6\ncall v2 length v1 else @4\ndrop v2\ndrop v1\nfail\n\
    drop v1\nfail\nend\n";

pub const CASES: &[Case] = &[
    ("open", OPEN, &[], [2, 2, 0, 0, 0]),
    ("open fails", OPEN, &[0], [1, 1, 0, 1, 0]),
    (
        "close of what was opened fails",
        OPEN,
        &[1],
        [2, 2, 0, 0, 1],
    ),
    ("file in the root", KEPT, &[], [2, 2, 0, 0, 0]),
    (
        "close of a file in the root fails",
        KEPT,
        &[1],
        [2, 2, 0, 0, 1],
    ),
    ("connect", CONNECT, &[], [2, 2, 0, 0, 0]),
    ("connect fails", CONNECT, &[0], [1, 1, 0, 1, 0]),
    ("copy", COPY, &[], [4, 4, 0, 0, 0]),
    ("copy's open fails", COPY, &[0], [1, 1, 0, 1, 0]),
    ("copy's connect fails", COPY, &[1], [2, 2, 0, 1, 0]),
    ("copy's read fails", COPY, &[2], [3, 3, 0, 1, 0]),
    ("copy's write fails", COPY, &[3], [4, 4, 0, 1, 0]),
    ("copy's first close fails", COPY, &[4], [4, 4, 0, 0, 1]),
    ("copy's second close fails", COPY, &[5], [4, 4, 0, 0, 1]),
    ("copy's closes fail", COPY, &[4, 5], [4, 4, 0, 0, 2]),
    ("a call that copy doesn't make", COPY, &[6], [4, 4, 0, 0, 0]),
    ("file in calls", FILE_IN_CALLS, &[], [3, 3, 0, 0, 0]),
    (
        "file in calls, whose open fails",
        FILE_IN_CALLS,
        &[0],
        [1, 1, 0, 1, 0],
    ),
    (
        "file in calls, whose read fails",
        FILE_IN_CALLS,
        &[1],
        [2, 2, 0, 1, 0],
    ),
    (
        "file in calls, whose close fails",
        FILE_IN_CALLS,
        &[2],
        [3, 3, 0, 0, 1],
    ),
];

/// What a worker has left: the births, the faults of calls and of closes that it has counted, and the files and
/// connections that its host has opened and closed.
type Left = (u32, u64, u64, u64, u64);

/// Lets two workers call `COPY` once, each over a host that fails in the calls of its plan. Returns what each has left,
/// the objects that were created, closed and are alive, and how many closes of main's have failed.
fn two_copies<R: Threads + Wait + Sync>(
    rt: &R,
    alloc: Global,
    plans: [&[u64]; 2],
) -> Result<([Left; 2], [u64; 3], u64), Fail> {
    let checked = accepted(alloc, COPY)?;
    copies_of(rt, alloc, &checked, plans)
}

/// Does what `two_copies` does, of the module.
fn copies_of<R: Threads + Wait + Sync>(
    rt: &R,
    alloc: Global,
    checked: &Checked,
    plans: [&[u64]; 2],
) -> Result<([Left; 2], [u64; 3], u64), Fail> {
    let mut hosts = [FakeHost::new(plans[0]), FakeHost::new(plans[1])];
    let gate = Hearing::new();
    let (ends, objects, last) = run_apart(
        rt,
        alloc,
        checked,
        0,
        2,
        MOST_ROWS,
        1,
        u64::MAX,
        &mut hosts,
        &gate,
    )?;
    let [Some(one), Some(other)] = ends else {
        return Err("there are two workers")?;
    };
    let left = [
        left_by(one.totals(), &hosts[0]),
        left_by(other.totals(), &hosts[1]),
    ];
    Ok((left, objects, last))
}

fn left_by(totals: Totals, host: &FakeHost<'_>) -> Left {
    (
        totals.created,
        totals.host_faults,
        totals.close_faults,
        host.opened(),
        host.closed(),
    )
}

/// What is left if of two workers the first one's open fails, and of the second, which makes the whole copy, both
/// closes.
const LEFT: ([Left; 2], [u64; 3], u64) = ([(0, 1, 0, 0, 0), (3, 0, 2, 2, 2)], [4, 4, 0], 0);

/// Everything is closed, whichever two calls of a copy fail.
#[test]
fn faults_of_hosts_are_counted(rt: HostRuntime) -> Result<(), Fail> {
    let alloc = rt.alloc();
    for second in 1..7u64 {
        for first in 0..second {
            let run: Run = (MOST_ROWS, 1, u64::MAX, &[first, second]);
            let (counts, _, _, _) = run_twice(&rt, alloc, COPY, run)?;
            let [created, _, _, host_faults, close_faults] = counts;
            let wanted = [created, created, 0, host_faults, close_faults];
            assert_eq!(rt; counts, wanted, "calls {first} and {second}");
        }
    }
    assert_eq!(rt; two_copies(&rt, alloc, [&[0], &[4, 5]])?, LEFT);
    Ok(())
}
