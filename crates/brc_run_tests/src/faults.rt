//! Runs over hosts that fail by plan: the report has the faults of each worker's host, and of main's.

use crate::runs::{COPY, Counts, Open, report_over};
use brc_host::{FakeHost, Host};
use brc_work::Gate;
use std::alloc::AllocGlobal;
use std::sync::Wait;
use std::sync::atomic::{AtomicBool, AtomicU64, Ordering};
use std::thread::Threads;

/// Opens a file and puts it into the root, in the place of the file that another worker has put there.
const KEPT: &[u8] =
    b"module 1\nfunc f\nopen v1 0 r else @4\nlock v0\nset v0 0 v1 else @3\nunlock v0\nfail\nend\n";

/// Which calls of each of two workers' hosts fail, and the report, each worker having made one copy.
const COPIES: &[([&[u64]; 2], Counts)] = &[
    ([&[], &[]], [2, 0, 7, 7, 0, 0, 0]),
    ([&[0], &[]], [2, 0, 4, 4, 0, 1, 0]),
    ([&[], &[1]], [2, 0, 5, 5, 0, 1, 0]),
    ([&[2], &[]], [2, 0, 6, 6, 0, 1, 0]),
    ([&[], &[3]], [2, 0, 7, 7, 0, 1, 0]),
    ([&[4], &[]], [2, 0, 7, 7, 0, 0, 1]),
    ([&[], &[5]], [2, 0, 7, 7, 0, 0, 1]),
    ([&[0], &[4, 5]], [2, 0, 4, 4, 0, 1, 2]),
    ([&[3, 5], &[2, 3]], [2, 0, 6, 6, 0, 2, 2]),
];

/// Lets each of two workers make a copy, over hosts of these plans. Returns the report, and whether each host has
/// closed what it had opened.
fn copied<R: AllocGlobal + Threads + Wait + Sync>(
    rt: &R,
    [one, other]: [&[u64]; 2],
) -> Option<(Counts, bool)> {
    let mut hosts = [FakeHost::new(one), FakeHost::new(other)];
    let mut main_host = FakeHost::new(&[]);
    let counts = report_over(rt, rt.alloc(), COPY, &mut hosts, &mut main_host, &Open)?;
    let [one, other] = &hosts;
    let are_closed = one.opened() == one.closed() && other.opened() == other.closed();
    Some((counts, are_closed))
}

/// How often a worker looks for the other before it misses it.
const MOST_TURNS: u64 = 100_000_000;

/// Lets the first worker make its call, then the second, and lets the first leave once the second's has ended.
#[derive(Drop)]
struct Turns {
    ended: AtomicU64,
    missed: AtomicBool,
}

impl Turns {
    /// Waits until `calls` calls have ended.
    fn wait(&self, calls: u64) {
        for _ in 0..MOST_TURNS {
            if self.ended.load(Ordering::SeqCst) >= calls {
                return;
            }
        }
        self.missed.store(true, Ordering::SeqCst);
    }
}

impl Gate for Turns {
    fn before(&self, thread: u8, _call: u32) {
        if thread == 2 {
            self.wait(1);
        }
    }

    fn after(&self, thread: u8, _call: u32) {
        self.ended.fetch_add(1, Ordering::SeqCst);
        if thread == 1 {
            self.wait(2);
        }
    }
}

/// Which calls of the first worker's host and of main's fail, and how many closes then have failed.
const EXITS: [([&[u64]; 2], u64); 4] = [
    ([&[], &[]], 0),
    ([&[1], &[]], 1),
    ([&[], &[0]], 1),
    ([&[1], &[0]], 2),
];

/// Lets two workers open a file each, one after the other, over hosts of these plans for the first worker and main, and
/// of one for the second whose close fails. Returns the report, what the workers' hosts and main's have closed, and
/// whether a worker has missed the other.
fn kept<R: AllocGlobal + Threads + Wait + Sync>(
    rt: &R,
    [first, main]: [&[u64]; 2],
) -> Option<(Counts, [u64; 3], bool)> {
    let gate = Turns {
        ended: AtomicU64::new(0),
        missed: AtomicBool::new(false),
    };
    let mut hosts = [FakeHost::new(first), FakeHost::new(&[1])];
    let mut main_host = FakeHost::new(main);
    let counts = report_over(rt, rt.alloc(), KEPT, &mut hosts, &mut main_host, &gate)?;
    let [one, other] = &hosts;
    let closed = [one.closed(), other.closed(), main_host.closed()];
    Some((counts, closed, gate.missed.load(Ordering::SeqCst)))
}

/// Everything is closed, whichever calls fail. At the exits, the second worker takes the first one's file out of the root,
/// which it doesn't own: so the first one's exit merges and closes it, by call 1 of the first host. The second file is
/// closed as main leaves, by call 0 of main's host.
#[test]
fn faults_are_reported(rt: HostRuntime) {
    for (plans, want) in COPIES {
        assert_eq!(rt; copied(&rt, *plans), Some((*want, true)));
    }
    for second in 1..7u64 {
        for first in 0..second {
            let plan = [first, second];
            let copied = copied(&rt, [&plan, &plan]);
            let [_, _, created, _, _, host_faults, close_faults] = copied
                .unwrap_or(([0; 7], false))
                .0;
            let want = [2, 0, created, created, 0, host_faults, close_faults];
            assert_eq!(rt; copied, Some((want, true)), "{first} and {second}");
        }
    }
    for (plans, close_faults) in EXITS {
        let counts = [2, 0, 3, 3, 0, 0, close_faults];
        assert_eq!(rt; kept(&rt, plans), Some((counts, [1, 0, 1], false)));
    }
}
