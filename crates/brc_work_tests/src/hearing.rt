//! A gate that hears the calls of one worker.

use brc_work::Gate;
use std::sync::atomic::{AtomicBool, AtomicU64, Ordering};

/// The thread of the one worker.
pub const WORKER: u8 = 1;

/// Counts what it hears, and notes whether all of it comes in order: the beginning and the end of the worker's call 0,
/// those of call 1, and so on.
#[derive(Drop)]
pub struct Hearing {
    heard: AtomicU64,
    in_order: AtomicBool,
}

impl Hearing {
    /// Returns a gate that has heard nothing yet.
    pub fn new() -> Hearing {
        Hearing {
            heard: AtomicU64::new(0),
            in_order: AtomicBool::new(true),
        }
    }

    /// Hears of the thread what should be heard as `number`, from 0.
    fn hears(&self, thread: u8, number: u64) {
        let before = self.heard.fetch_add(1, Ordering::SeqCst);
        if thread != WORKER || before != number {
            self.in_order.store(false, Ordering::SeqCst);
        }
    }

    /// Returns how many beginnings and ends of calls it has heard, or `None` if they didn't come in order.
    pub fn heard(&self) -> Option<u64> {
        if self.in_order.load(Ordering::SeqCst) {
            Some(self.heard.load(Ordering::SeqCst))
        } else {
            None
        }
    }
}

impl Gate for Hearing {
    fn before(&self, thread: u8, call: u32) {
        self.hears(thread, 2 * u64::from(call));
    }

    fn after(&self, thread: u8, call: u32) {
        self.hears(thread, 2 * u64::from(call) + 1);
    }
}

/// Returns what a gate has heard after these beginnings (`true`) and ends of calls, each with its thread and number.
pub fn heard_after(calls: &[(bool, u8, u32)]) -> Option<u64> {
    let gate = Hearing::new();
    for (begins, thread, call) in calls {
        if *begins {
            gate.before(*thread, *call);
        } else {
            gate.after(*thread, *call);
        }
    }
    gate.heard()
}

/// Calls in an order, and what the gate has heard.
pub type Order<'a> = (&'a str, &'a [(bool, u8, u32)], Option<u64>);

pub const ORDERS: &[Order] = &[
    ("no call", &[], Some(0)),
    (
        "a call and a half",
        &[(true, 1, 0), (false, 1, 0), (true, 1, 1)],
        Some(3),
    ),
    ("no beginning", &[(false, 1, 0)], None),
    ("no end", &[(true, 1, 0), (true, 1, 1)], None),
    ("not from 0", &[(true, 1, 1)], None),
    ("main's thread", &[(true, 0, 0)], None),
];
