//! The rows of the table that the program measures.

use crate::heaps::over_heaps;
use crate::threads::in_threads;
use anyhow::{Result, bail};
use std::alloc::Global;
use std::sync::Wait;
use std::thread::Threads;
use std::time::{Clock, Duration};

/// The workers of a heap.
pub const WORKERS: u8 = 4;

/// The row of the root, which main owns.
pub const ROOT: u32 = 1;

/// The pairs of each thread in a measured run.
const PAIRS: u32 = 5_000_000;

/// The births or lives in a measured run.
const BIRTHS: u32 = 1_000_000;

/// The objects that are posted and merged in a measured run.
const POSTS: u32 = 500_000;

/// The locked swaps of each thread in a measured run.
const SWAPS: u32 = 2_000_000;

/// What a row measures.
#[derive(Clone, Copy)]
pub enum Work {
    /// Each thread, main among them, retains and releases the root.
    PairsOfMain,
    /// Each thread retains and releases the root.
    PairsAtRoot,
    /// Each thread retains and releases an object of its own.
    Pairs,
    /// Each thread swaps an item of a list of its own.
    Swaps,
    /// Each thread swaps the same item of the root.
    SwapsAtRoot,
    /// Workers give birth to numbers, one worker after another.
    Births,
    /// The same, and each number dies at once.
    Lives,
    /// Numbers are handed to another worker, posted by it, and merged by their owner.
    Turns,
    /// The same, of which the posts alone are timed.
    Posts,
    /// The same, of which the merges alone are timed.
    Merges,
}

/// A row of the table.
pub struct Row {
    pub name: &'static str,
    pub work: Work,
    pub threads: u8,
    /// How often each thread does the work in a measured run.
    pub times: u32,
}

pub const TABLE: [Row; 13] = [
    Row {
        name: "the owner alone (main at the root)",
        work: Work::PairsOfMain,
        threads: 1,
        times: PAIRS,
    },
    Row {
        name: "another thread alone (at the root)",
        work: Work::PairsAtRoot,
        threads: 1,
        times: PAIRS,
    },
    Row {
        name: "owner and another at one row",
        work: Work::PairsOfMain,
        threads: 2,
        times: PAIRS,
    },
    Row {
        name: "1 thread, own row",
        work: Work::Pairs,
        threads: 1,
        times: PAIRS,
    },
    Row {
        name: "2 threads, own rows",
        work: Work::Pairs,
        threads: 2,
        times: PAIRS,
    },
    Row {
        name: "4 threads, own rows",
        work: Work::Pairs,
        threads: 4,
        times: PAIRS,
    },
    Row {
        name: "births",
        work: Work::Births,
        threads: 1,
        times: BIRTHS,
    },
    Row {
        name: "birth and death",
        work: Work::Lives,
        threads: 1,
        times: BIRTHS,
    },
    Row {
        name: "hand over, post and merge",
        work: Work::Turns,
        threads: 1,
        times: POSTS,
    },
    Row {
        name: "post",
        work: Work::Posts,
        threads: 1,
        times: POSTS,
    },
    Row {
        name: "merge",
        work: Work::Merges,
        threads: 1,
        times: POSTS,
    },
    Row {
        name: "locked swap, 1 thread, own list",
        work: Work::Swaps,
        threads: 1,
        times: SWAPS,
    },
    Row {
        name: "locked swap, 2 threads, one list",
        work: Work::SwapsAtRoot,
        threads: 2,
        times: SWAPS,
    },
];

/// How often the threads did what they were asked to, and how long the slowest took.
#[derive(Drop)]
pub struct Run {
    pub done: u32,
    pub time: Duration,
}

/// Makes one run of the row, in which each thread does the row's work `times` times.
///
/// # Errors
///
/// If a thread ended early: such a run would pass for a fast one.
pub fn measured<R: Clock + Threads + Wait + Sync>(
    rt: &R,
    alloc: Global,
    row: &Row,
    times: u32,
) -> Result<Run> {
    let run = match row.work {
        Work::PairsOfMain | Work::PairsAtRoot | Work::Pairs | Work::Swaps | Work::SwapsAtRoot =>
            in_threads(rt, alloc, row.work, row.threads, times)?,
        work => over_heaps(rt, alloc, work, times)?,
    };
    if run.done != times.saturating_mul(u32::from(row.threads)) {
        bail!("{}: a thread ended early", row.name);
    }
    Ok(run)
}
