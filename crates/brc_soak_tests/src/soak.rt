//! A soak with one seed: eight workers, their leave, and the end of the heap beside the workers' notes.

ghost use Rattle.std.specs.Prelude.{◌≡◌, OnOk};
ghost use Rattle.brc_fixtures.specs.Resting.{IsAlone};

use crate::ledger::ROWS;
use crate::log::{CELLS, Log};
use crate::recount::Recount;
use crate::worker::{Worker, works};
use brc_fixtures::{hand_of, opened};
use brc_heap::{Final, Hand, Heap, ROOT};
use brc_host::{FakeHost, FakeResource, Host};
use brc_lang::Kind;
use brc_queue::Queue;
use std::alloc::{AllocError, Global};
use std::sync::{Mutex, Wait};
use std::test::*;
use std::thread;
use std::thread::Threads;

/// The workers, and the rows of each.
const WORKERS: u8 = 8;

/// How the objects of a heap ended, in numbers.
#[derive(Clone, Copy, Debug, PartialEq, Eq)]
pub struct Totals {
    pub created: u64,
    pub closed: u64,
    pub kept: u64,
    pub open_files: u64,
}

/// What a soak has come to.
#[derive(Clone, Copy)]
pub struct Soaked {
    /// As the ended heap and the hosts say.
    pub found: Totals,
    /// As the workers' notes say.
    pub noted: Totals,
    /// How many rows, and how many cells of lists that aren't closed, are other than the notes say.
    pub wrong: u64,
    /// How many reads weren't what the swap after them found, and how many closes have failed.
    pub faults: u64,
    /// How many threads have left, main among them.
    pub left: u64,
    /// How many calls of the rarest kind were made.
    pub least: u64,
}

/// Returns the workers, each with a seed of its own.
fn workers_of<'a>(
    alloc: Global,
    heap: &'a Heap<FakeResource>,
    main: &mut Hand<FakeResource>,
    seed: u64,
) -> Result<Vec<Worker<'a>>, Fail>
    requires alone { IsAlone heap.now main.old }
    requires main { main.old.view.thread ≡ 0 }
    ensures alone { OnOk result (IsAlone heap.now main.new) }
    ensures main { OnOk result (main.new.view.thread ≡ 0) }
{
    let mut workers = vec![in alloc]?;
    for thread in 1..WORKERS + 1 {
        let hand = hand_of(heap, main, thread)?;
        let own = seed.wrapping_mul(1000).wrapping_add(u64::from(thread));
        workers.push(Worker::new(heap, hand, own))?;
    }
    Ok(workers)
}

/// Lets a worker do its work, and adds what it has noted.
fn works_and_adds<R: Wait>(rt: &R, worker: Worker<'_>, all: &Mutex<Log>) {
    let log = works(rt, worker);
    all.lock(rt).add(&log);
}

/// Lets all workers work in threads of their own, until they have left.
fn all_work<R: Threads + Wait + Sync>(
    rt: &R,
    workers: Vec<Worker<'_>>,
    all: &Mutex<Log>,
) -> Result<(), AllocError> {
    thread::scope(thread::scope_env(), rt, |scope| -> Result<(), AllocError> {
        for worker in workers {
            scope.spawn(move || works_and_adds(rt, worker, all))?;
        }
        Ok(())
    })
}

/// Lets main leave, once the workers have left, and ends the heap. Returns what is left of it, or `None` if main or
/// another thread couldn't leave.
fn ended<R: Wait>(
    rt: &R,
    heap: Heap<FakeResource>,
    main: Hand<FakeResource>,
    log: &mut Log,
) -> Option<Final<FakeResource>>
    requires alone { IsAlone heap main }
    requires main { main.view.thread ≡ 0 }
{
    let mut main = main;
    if main.head() != 0 {
        return None;
    }
    let mut host = FakeHost::new(&[]);
    let failed = Queue::new(&heap).leave(rt, &mut main, &mut host);
    log.failed_closes = log.failed_closes.saturating_add(failed);
    log.left = log.left.saturating_add(1);
    log.closes = log.closes.saturating_add(host.closed());
    heap.finish(main).ok()
}

/// Returns the totals of the ended heap. Files are open, by the hosts, that were opened and not closed.
fn found_totals(end: &Final<FakeResource>, log: &Log) -> Totals {
    let mut created: u64 = 0;
    let mut closed: u64 = 0;
    for row in ROOT..end.rows() {
        if end.born(row) {
            created = created.saturating_add(1);
        }
        if end.closed(row) {
            closed = closed.saturating_add(1);
        }
    }
    Totals {
        created,
        closed,
        kept: created.saturating_sub(closed),
        open_files: log.opened.saturating_sub(log.closes),
    }
}

/// Returns the totals by the workers' notes. The root was born with the heap.
fn noted_totals(log: &Log, recount: &Recount) -> Totals {
    let mut noted = Totals {
        created: log.made.births.saturating_add(1),
        closed: 0,
        kept: 0,
        open_files: 0,
    };
    for row in 1..ROWS {
        if recount.closed[row] {
            noted.closed = noted.closed.saturating_add(1);
        } else if log.born[row] > 0 {
            noted.kept = noted.kept.saturating_add(1);
            if log.is_file[row] {
                noted.open_files = noted.open_files.saturating_add(1);
            }
        }
    }
    noted
}

/// Returns the word of a cell at the end: 0 if it is empty, or the row of its item plus 1.
fn cell_word(end: &Final<FakeResource>, row: u32, cell: u32) -> i64 {
    if row >= end.rows() || cell >= 8 {
        return -1;
    }
    match end.cell(row, cell) {
        None => 0,
        Some(item) => i64::from(item) + 1,
    }
}

/// Returns whether the row is as the notes say: whether an object was born there, and whether it is closed.
fn is_row(end: &Final<FakeResource>, log: &Log, recount: &Recount, row: u32) -> bool {
    let place = row as usize;
    if row >= end.rows() || place >= ROWS {
        return false;
    }
    let born = if row == ROOT { 1 } else { log.born[place] };
    (born == 1) == end.born(row)
        && born < 2
        && recount.closed[place] == end.closed(row)
        && log.is_file[place] == (end.kind(row) == Kind::File)
}

/// Returns how many rows, and how many cells of lists that aren't closed, are other than the notes say.
fn wrong_of(end: &Final<FakeResource>, log: &Log, recount: &Recount) -> u64 {
    let mut wrong: u64 = 0;
    for row in ROOT..ROWS as u32 {
        if !is_row(end, log, recount, row) {
            wrong = wrong.saturating_add(1);
        }
        if recount.closed[row as usize] {
            continue;
        }
        for cell in 0..CELLS {
            let noted = log.words[row as usize * CELLS + cell];
            if cell_word(end, row, cell as u32) != noted {
                wrong = wrong.saturating_add(1);
            }
        }
    }
    wrong
}

/// Compares the ended heap with the notes.
fn compared(end: &Final<FakeResource>, log: &Log) -> Soaked {
    let recount = Recount::new(log);
    Soaked {
        found: found_totals(end, log),
        noted: noted_totals(log, &recount),
        wrong: wrong_of(end, log, &recount),
        faults: log.wrong_reads.saturating_add(log.failed_closes),
        left: log.left,
        least: log.made.least(),
    }
}

/// Lets the workers make random calls from this seed on, and leave. Returns their notes.
fn noted<R: Threads + Wait + Sync>(
    rt: &R,
    alloc: Global,
    heap: &Heap<FakeResource>,
    main: &mut Hand<FakeResource>,
    seed: u64,
) -> Result<Log, Fail>
    requires alone { IsAlone heap.now main.old }
    requires main { main.old.view.thread ≡ 0 }
    ensures alone { OnOk result (IsAlone heap.now main.new) }
    ensures main { OnOk result (main.new.view.thread ≡ 0) }
{
    let workers = workers_of(alloc, heap, main, seed)?;
    let all = Mutex::new(Log::new());
    all_work(rt, workers, &all)?;
    let mut log = all.into_inner();
    log.born[ROOT as usize] = 1;
    Ok(log)
}

/// Does what `soak` does, with the heap.
fn soak_in<R: Threads + Wait + Sync>(
    rt: &R,
    alloc: Global,
    heap: Heap<FakeResource>,
    mut main: Hand<FakeResource>,
    seed: u64,
) -> Result<Option<Soaked>, Fail>
    requires alone { IsAlone heap main }
    requires main { main.view.thread ≡ 0 }
{
    let mut log = noted(rt, alloc, &heap, &mut main, seed)?;
    match ended(rt, heap, main, &mut log) {
        Some(end) => Ok(Some(compared(&end, &log))),
        None => Ok(None),
    }
}

/// Lets eight workers make random calls from this seed on, and leave. Returns what they have come to, or `None` if a
/// thread couldn't leave.
pub fn soak<R: Threads + Wait + Sync>(
    rt: &R,
    alloc: Global,
    seed: u64,
) -> Result<Option<Soaked>, Fail> {
    let (heap, main) = opened(alloc, WORKERS, 8)?;
    soak_in(rt, alloc, heap, main, seed)
}
