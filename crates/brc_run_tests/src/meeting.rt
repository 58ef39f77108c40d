//! Workers that wait for each other: they do run at the same time.

use crate::runs::{Counts, MOST_ROWS, counted_of};
use brc_run::System;
use brc_work::Gate;
use crossbeam_queue::ArrayQueue;
use std::alloc::AllocGlobal;
use std::sync::Wait;

/// How often a worker looks for the others before it misses them.
const MOST_TURNS: u64 = 100_000_000;

/// It does nothing.
const NOTHING: &[u8] = b"module 1\nfunc f\nfail\nend\n";

/// Holds each worker before its first call, until as many workers are there as are to meet.
#[derive(Drop)]
struct Meeting<'r, R> {
    rt: &'r R,
    wanted: usize,
    come: ArrayQueue<()>,
    missed: ArrayQueue<()>,
}

impl<R: Wait> Gate for Meeting<'_, R> {
    fn before(&self, _thread: u8, call: u32) {
        if call > 0 {
            return;
        }
        // There is room for the signal of each worker.
        let _ = self.come.push(self.rt, ());
        for _ in 0..MOST_TURNS {
            if self.come.len(self.rt) >= self.wanted {
                return;
            }
        }
        let _ = self.missed.push(self.rt, ());
    }

    fn after(&self, _thread: u8, _call: u32) {}
}

/// Lets this number of workers meet: each one's first call begins once all of them are there before theirs. Returns the
/// report's numbers; how often an object was queued, merged and claimed; and whether more exchanges were lost than
/// these, or a worker has missed another one.
fn meet<R: AllocGlobal + System>(
    rt: &R,
    threads: u8,
    most_lost: u64,
) -> Option<(Counts, [u64; 3], bool)> {
    let gate = Meeting {
        rt,
        wanted: usize::from(threads),
        come: ArrayQueue::new(rt.alloc(), 32).ok()?,
        missed: ArrayQueue::new(rt.alloc(), 32).ok()?,
    };
    let run = (threads, MOST_ROWS, 1, u64::MAX);
    let (counts, meetings) = counted_of(rt, rt.alloc(), NOTHING, run, &[], &[], &gate)?;
    let [queued, merged, claimed, lost] = meetings;
    let missed = lost > most_lost || gate.missed.pop(rt).is_some();
    Some((counts, [queued, merged, claimed], missed))
}

// The first worker that leaves queues the root, and main takes it out of its queue and merges it. Each worker exchanges
// the root's shared word once, and loses an exchange at most once to each one that comes before it.
#[test]
fn two_calls_meet(rt: HostRuntime) {
    assert_eq!(rt;
        meet(&rt, 2, 1),
        Some(([2, 0, 1, 1, 0, 0, 0], [1, 1, 1], false))
    );
}

#[test]
fn four_meet(rt: HostRuntime) {
    assert_eq!(rt;
        meet(&rt, 4, 6),
        Some(([4, 0, 1, 1, 0, 0, 0], [1, 1, 1], false))
    );
}
