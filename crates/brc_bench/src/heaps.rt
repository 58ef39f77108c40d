//! What the program measures of objects that are born: it uses as many heaps as it takes, one after another.

ghost use Rattle.std.specs.Prelude.{◌≡◌, [], ◌∷◌};
ghost use Rattle.brc_model.specs.Layout.{root_row};
ghost use Rattle.brc_bench.specs.Swaps.{IsAtRest};

use crate::lives::lives;
use crate::pairs::births;
use crate::plain::plain_module;
use crate::posts::{hands_over, posts_each};
use crate::resting::worker;
use crate::work::{Run, WORKERS, Work};
use anyhow::{Result, bail};
use brc_heap::{Hand, Heap};
use brc_host::{FakeHost, FakeResource};
use brc_queue::Queue;
use std::alloc::Global;
use std::collections::VecDeque;
use std::sync::Wait;
use std::time::{Clock, Duration, Instant};

/// The rows of each worker. Such a heap has 209 KiB of words, which stay in a core's own cache from their first store
/// on: a birth in a larger heap waits for memory, and how long depends on where the allocator took it.
pub const ROWS_EACH: u16 = 512;

/// The most heaps that are used.
const MOST_HEAPS: u32 = 10_000;

/// Does the work `times` times, over as many heaps as it takes. The heaps are made outside the time.
#[tactic(auto, using(crate::proofs::NoLines::has_no_lines))]
pub fn over_heaps<R: Clock + Wait>(rt: &R, alloc: Global, work: Work, times: u32) -> Result<Run> {
    let mut run = Run {
        done: 0,
        time: Duration::ZERO,
    };
    let plain = plain_module(alloc);
    for _ in 0..MOST_HEAPS {
        if run.done >= times {
            break;
        }
        let most = times - run.done;
        let (heap, mut main) = Heap::new(alloc, WORKERS, ROWS_EACH, &plain)?;
        let more = match work {
            Work::Births | Work::Lives => in_turn(rt, &heap, &mut main, work, most)?,
            _ => by_two(rt, alloc, &heap, &mut main, work, most)?,
        };
        run.done = run.done.saturating_add(more.done);
        run.time = run.time.saturating_add(more.time);
    }
    Ok(run)
}

/// Births or lives by one worker after another.
fn in_turn<R: Clock + Wait>(
    rt: &R,
    heap: &Heap<FakeResource>,
    main: &mut Hand<FakeResource>,
    work: Work,
    most: u32,
) -> Result<Run>
    requires resting { IsAtRest heap.now main.old }
    requires references { main.old.view.references ≡ root_row ∷ [] }
    requires main { main.old.view.thread ≡ 0 }
{
    let mut run = Run {
        done: 0,
        time: Duration::ZERO,
    };
    for thread in 1..=WORKERS {
        let mut hand = worker(heap, main, thread)?;
        let left = most.saturating_sub(run.done);
        let start = Instant::now(rt)?;
        let made = if matches!(work, Work::Births) {
            births(heap, &mut hand, left)
        } else {
            lives(rt, heap, &mut hand, left)
        };
        run.time = run.time.saturating_add(start.elapsed(rt)?);
        run.done = run.done.saturating_add(made);
    }
    Ok(run)
}

/// A batch of two workers, which one thread drives. The first gives birth to numbers and hands them to the second, the
/// second posts them, and the first merges them.
fn by_two<R: Clock + Wait>(
    rt: &R,
    alloc: Global,
    heap: &Heap<FakeResource>,
    main: &mut Hand<FakeResource>,
    work: Work,
    most: u32,
) -> Result<Run>
    requires resting { IsAtRest heap.now main.old }
    requires references { main.old.view.references ≡ root_row ∷ [] }
    requires main { main.old.view.thread ≡ 0 }
{
    let mut owner = worker(heap, main, 1)?;
    let mut other = worker(heap, main, 2)?;
    let mut rows = VecDeque::new(alloc);
    let mut host = FakeHost::new(&[]);
    let start = Instant::now(rt)?;
    let at_once = matches!(work, Work::Turns);
    let done = hands_over(heap, &mut owner, &mut other, &mut rows, most, at_once)?;
    let handed = start.elapsed(rt)?;
    posts_each(heap, &mut other, &mut rows)?;
    let posted = start.elapsed(rt)?;
    if owner.head() != 0 || Queue::new(heap).merge_pending(rt, &mut owner, &mut host) != 0 {
        bail!("a close failed");
    }
    let merged = start.elapsed(rt)?;
    let time = match work {
        Work::Posts => posted.saturating_sub(handed),
        Work::Merges => merged.saturating_sub(posted),
        _ => merged,
    };
    Ok(Run { done, time })
}
