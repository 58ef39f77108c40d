//! Threads that retain and release objects, or swap items of lists, all at once.

ghost use Rattle.std.specs.Prelude.{◌≡◌, [], ◌∷◌, OnOk};
ghost use Rattle.brc_model.specs.Layout.{root_row};
ghost use Rattle.brc_bench.specs.Swaps.{IsAtRest, IsAtPlace, place-prop};

use crate::pairs::pairs;
use crate::plain::plain_module;
use crate::resting::worker;
use crate::swaps::{CELL, locked_swaps};
use crate::work::{ROOT, Run, WORKERS, Work};
use anyhow::{Result, bail};
use brc_heap::{Hand, Heap};
use brc_host::FakeResource;
use brc_lang::Kind;
use brc_list::Lists;
use std::alloc::{AllocError, Global};
use std::sync::{Mutex, Wait};
use std::thread;
use std::thread::Threads;
use std::time::{Clock, Duration, Instant};

/// The rows of each worker, more than a tile has, so that no two workers' first rows are in one tile.
const ROWS_EACH: u16 = 64;

/// The cells of a worker's list.
const CELLS: u32 = 8;

/// A hand with the object that it uses, and with an item if it is to swap that, for a thread to take with it.
#[derive(Drop)]
struct Worker<'a> {
    heap: &'a Heap<FakeResource>,
    hand: Hand<FakeResource>,
    row: u32,
    item: Option<u32>,
    ghost ready: { IsAtPlace heap.now hand row item } by { place-prop heap.now hand row item },
}

/// Gives out the worker's hand, which gives birth to a list and to a number.
fn worker_for<'a>(
    heap: &'a Heap<FakeResource>,
    main: &mut Hand<FakeResource>,
    thread: u8,
    work: Work,
) -> Result<Worker<'a>>
    requires resting { IsAtRest heap.now main.old }
    requires references { main.old.view.references ≡ root_row ∷ [] }
    requires main { main.old.view.thread ≡ 0 }
    ensures resting { OnOk result (IsAtRest heap.now main.new) }
    ensures references { OnOk result (main.new.view.references ≡ root_row ∷ []) }
    ensures main { OnOk result (main.new.view.thread ≡ 0) }
{
    heap.words().layout_is_plain();
    let mut hand = worker(heap, main, thread)?;
    if !heap.room(&hand) {
        bail!("no room");
    }
    let list = heap.birth(&mut hand, Kind::List, CELLS, None);
    if !heap.room(&hand) {
        bail!("no room");
    }
    let item = heap.birth(&mut hand, Kind::Num, 0, None);
    Ok(match work {
        Work::Pairs => Worker {
            heap,
            hand,
            row: list,
            item: None,
        },
        Work::Swaps => Worker {
            heap,
            hand,
            row: list,
            item: Some(item),
        },
        Work::SwapsAtRoot => Worker {
            heap,
            hand,
            row: ROOT,
            item: Some(item),
        },
        _ => Worker {
            heap,
            hand,
            row: ROOT,
            item: None,
        },
    })
}

/// Retains and releases the worker's object, or makes locked swaps of its item, and adds the time to that of all
/// workers. Half as many untimed ones come first: new threads may share a processor until the kernel moves them apart.
fn work<R: Clock + Wait>(rt: &R, worker: Worker<'_>, times: u32, all: &Mutex<Run>) -> Result<()> {
    let Worker {
        heap,
        mut hand,
        row,
        item,
    } = worker;
    let lists = Lists::new(heap);
    let mut held = item;
    if lists.size(&mut hand, row) <= CELL {
        bail!("no list");
    }
    let (done, time) = if held.is_some() {
        if locked_swaps(&lists, &mut hand, row, &mut held, times / 2) != times / 2 {
            bail!("a thread ended early");
        }
        let start = Instant::now(rt)?;
        let done = locked_swaps(&lists, &mut hand, row, &mut held, times);
        (done, start.elapsed(rt)?)
    } else {
        if pairs(heap, &mut hand, row, times / 2) != times / 2 {
            bail!("a thread ended early");
        }
        let start = Instant::now(rt)?;
        let done = pairs(heap, &mut hand, row, times);
        (done, start.elapsed(rt)?)
    };
    let mut run = all.lock(rt);
    run.done = run.done.saturating_add(done);
    run.time = run.time.max(time);
    Ok(())
}

/// Lets all workers work at once, each in a thread of its own.
fn all_work<R: Clock + Threads + Wait + Sync>(
    rt: &R,
    workers: Vec<Worker<'_>>,
    times: u32,
    all: &Mutex<Run>,
) -> std::result::Result<(), AllocError> {
    thread::scope(
        thread::scope_env(),
        rt,
        |scope| -> std::result::Result<(), AllocError> {
            for worker in workers {
                scope.spawn(move || work(rt, worker, times, all))?;
            }
            Ok(())
        },
    )
}

/// Returns a worker for each of the threads. If main is one of them, its hand is the last worker's.
fn workers_of<'a>(
    alloc: Global,
    heap: &'a Heap<FakeResource>,
    main: Hand<FakeResource>,
    work: Work,
    threads: u8,
) -> Result<Vec<Worker<'a>>>
    requires resting { IsAtRest heap.now main }
    requires references { main.view.references ≡ root_row ∷ [] }
    requires main { main.view.thread ≡ 0 }
{
    let mut main = main;
    let of_main = matches!(work, Work::PairsOfMain);
    let mut workers = Vec::new(alloc);
    for thread in 1 + u8::from(of_main)..threads.saturating_add(1) {
        workers.push(worker_for(heap, &mut main, thread, work)?)?;
    }
    if of_main {
        workers.push(Worker {
            heap,
            hand: main,
            row: ROOT,
            item: None,
        })?;
    }
    Ok(workers)
}

/// Lets `threads` threads of one heap do the work at once, `times` times each. Returns how often they did it in all,
/// and how long the slowest took.
#[tactic(auto, using(crate::proofs::NoLines::has_no_lines))]
pub fn in_threads<R: Clock + Threads + Wait + Sync>(
    rt: &R,
    alloc: Global,
    work: Work,
    threads: u8,
    times: u32,
) -> Result<Run> {
    let plain = plain_module(alloc);
    let (heap, main) = Heap::new(alloc, WORKERS, ROWS_EACH, &plain)?;
    let workers = workers_of(alloc, &heap, main, work, threads)?;
    let all = Mutex::new(Run {
        done: 0,
        time: Duration::ZERO,
    });
    all_work(rt, workers, times, &all)?;
    Ok(all.into_inner())
}
