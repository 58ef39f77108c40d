//! A worker that somebody may stop: it makes its calls in rounds. docs/EMBED.md quotes this file.

ghost use Rattle.std.specs.Prelude.{◌≡◌, ◌<◌, [], length, OnSome};
ghost use Rattle.brc_model.specs.Threads.{function_at};
ghost use Rattle.brc_table.specs.Hands.{IsOf};
ghost use Rattle.brc_work.specs.Fits.{IsHeapOf};
ghost use Rattle.brc_work_tests.specs.Ready.{HoldsRoot};

use crate::calls::{leaves, makes_calls, opened, worker_hand};
use crate::hearing::{Hearing, WORKER};
use crate::runs::{MOST_ROWS, objects_left};
use crate::worked::FOUR_PASSES;
use brc_check::Checked;
use brc_fixtures::{accepted, is_callable, last_function};
use brc_heap::{Hand, Heap};
use brc_host::{FakeHost, FakeResource};
use brc_queue::Queue;
use brc_work::{Gate, Worker};
use std::alloc::Global;
use std::sync::Wait;
use std::sync::atomic::{AtomicBool, AtomicU32, Ordering};
use std::test::*;

/// How many calls a round has, and how many instructions it begins at most.
const CALLS: u32 = 10;

const STEPS: u64 = 100;

/// Calls the module's first function in rounds, until the worker is to stop. Then the worker leaves. Returns how many
/// rounds were stopped by their bound.
fn works<R: Wait, G: Gate>(
    rt: &R,
    heap: &Heap<FakeResource>,
    checked: &Checked,
    hand: &mut Hand<FakeResource>,
    host: &mut FakeHost<'_>,
    gate: &G,
    stop: &AtomicBool,
) -> u32
    requires parameters { (function_at checked.now.module.functions 0).parameters ≡ [] }
    requires heap { IsHeapOf checked.now.module heap.now }
    requires holds { HoldsRoot heap.now hand.old }
    ensures table { IsOf heap.now hand.new }
{
    // The accepted module has a first function.
    let _module = checked.module();
    let queue = Queue::new(heap);
    let worker = Worker::new(heap, &queue);
    let mut stopped: u32 = 0;
    for _ in rt.forever() {
        if stop.load(Ordering::SeqCst) {
            break;
        }
        let ran = worker.run(rt, checked, 0, CALLS, STEPS, hand, host, gate);
        if !ran.is_done() {
            stopped = stopped.saturating_add(1);
        }
    }
    queue.leave(rt, hand, host);
    stopped
}

/// After how many calls the worker is to stop.
const ENOUGH: u32 = 20;

/// Wants the worker to stop once it begins a call more than is enough.
#[derive(Drop)]
struct Enough {
    begun: AtomicU32,
    stop: AtomicBool,
}

impl Gate for Enough {
    fn before(&self, _thread: u8, _call: u32) {
        if self.begun.fetch_add(1, Ordering::SeqCst) >= ENOUGH {
            self.stop.store(true, Ordering::SeqCst);
        }
    }

    fn after(&self, _thread: u8, _call: u32) {}
}

/// Lets a worker make calls of the module until there are enough. Returns how many rounds were stopped by their bound,
/// and the objects that were created, closed and are alive.
fn in_rounds<R: Wait>(rt: &R, alloc: Global, checked: &Checked) -> Result<(u32, [u64; 3]), Fail> {
    if !is_callable(checked, 0) {
        return Err("the first function has no parameters")?;
    }
    let (heap, main) = opened(alloc, checked, 1, MOST_ROWS)?;
    match rounds_in(rt, heap, main, checked) {
        Some(ends) => Ok(ends),
        None => Err("a thread isn't gone")?,
    }
}

/// Does what `in_rounds` does, with the heap.
fn rounds_in<R: Wait>(
    rt: &R,
    heap: Heap<FakeResource>,
    mut main: Hand<FakeResource>,
    checked: &Checked,
) -> Option<(u32, [u64; 3])>
    requires parameters { (function_at checked.now.module.functions 0).parameters ≡ [] }
    requires heap { IsHeapOf checked.now.module heap }
    requires main { HoldsRoot heap main }
    requires thread { main.view.thread ≡ 0 }
{
    let stopped = rounds(rt, &heap, &mut main, checked)?;
    let objects = objects_left(heap, main)?;
    Some((stopped, objects))
}

/// Lets a worker make its rounds and leave, and then main leave. Returns how many rounds were stopped.
fn rounds<R: Wait>(
    rt: &R,
    heap: &Heap<FakeResource>,
    main: &mut Hand<FakeResource>,
    checked: &Checked,
) -> Option<u32>
    requires parameters { (function_at checked.now.module.functions 0).parameters ≡ [] }
    requires heap { IsHeapOf checked.now.module heap.now }
    requires main { HoldsRoot heap.now main.old }
    requires thread { main.old.view.thread ≡ 0 }
    ensures table { OnSome result (IsOf heap.now main.new) }
    ensures thread { OnSome result (main.new.view.thread ≡ 0) }
{
    let Ok(mut hand) = worker_hand(heap, main, WORKER) else {
        return None;
    };
    let mut host = FakeHost::new(&[]);
    let gate = Enough {
        begun: AtomicU32::new(0),
        stop: AtomicBool::new(false),
    };
    let stopped = works(rt, heap, checked, &mut hand, &mut host, &gate, &gate.stop);
    leaves(rt, heap, main, &mut host);
    Some(stopped)
}

/// The births that a worker has counted in a run, and what its gate has heard.
type Run = (u32, Option<u64>);

/// Lets a worker call the module's last function `times` times, with at most `steps` instructions, and then once more
/// without a bound. Each of the two runs has a gate of its own.
fn two_runs<R: Wait>(
    rt: &R,
    alloc: Global,
    checked: &Checked,
    times: u32,
    steps: u64,
) -> Result<[Run; 2], Fail> {
    let function = last_function(checked)?;
    let (heap, mut main) = opened(alloc, checked, 1, MOST_ROWS)?;
    let mut hand = worker_hand(&heap, &mut main, WORKER)?;
    Ok(both_runs(rt, &heap, checked, function, times, steps, &mut hand))
}

/// Does what `two_runs` does, with a hand of the heap.
fn both_runs<R: Wait>(
    rt: &R,
    heap: &Heap<FakeResource>,
    checked: &Checked,
    function: usize,
    times: u32,
    steps: u64,
    hand: &mut Hand<FakeResource>,
) -> [Run; 2]
    requires function { function < length checked.now.module.functions }
    requires parameters { (function_at checked.now.module.functions function).parameters ≡ [] }
    requires heap { IsHeapOf checked.now.module heap.now }
    requires holds { HoldsRoot heap.now hand.old }
{
    let first = run_of(rt, heap, checked, function, times, steps, hand);
    let second = run_of(rt, heap, checked, function, 1, u64::MAX, hand);
    [first, second]
}

/// Lets the worker make the calls of one run.
fn run_of<R: Wait>(
    rt: &R,
    heap: &Heap<FakeResource>,
    checked: &Checked,
    function: usize,
    times: u32,
    steps: u64,
    hand: &mut Hand<FakeResource>,
) -> Run
    requires function { function < length checked.now.module.functions }
    requires parameters { (function_at checked.now.module.functions function).parameters ≡ [] }
    requires heap { IsHeapOf checked.now.module heap.now }
    requires holds { HoldsRoot heap.now hand.old }
    ensures holds { HoldsRoot heap.now hand.new }
{
    let mut host = FakeHost::new(&[]);
    let gate = Hearing::new();
    let ran = makes_calls(
        rt, heap, checked, function, times, steps, hand, &mut host, &gate,
    );
    (ran.totals().created, gate.heard())
}

/// Two pairs of runs, and calls in rounds.
type Runs = ([Run; 2], [Run; 2], (u32, [u64; 3]));

/// Lets a worker make all of its calls, stop in the first one, and make calls in rounds.
fn all_runs<R: Wait>(rt: &R, alloc: Global, checked: &Checked) -> Result<Runs, Fail> {
    Ok((
        two_runs(rt, alloc, checked, 3, u64::MAX)?,
        two_runs(rt, alloc, checked, 3, 5)?,
        in_rounds(rt, alloc, checked)?,
    ))
}

/// The numbers that are made in rounds.
const NUMBERS: u64 = 3 * (7 * 4 + 3);

/// Each run counts its own births and calls. The first run of the second pair stops in its first call, behind its
/// second number; the hand can go on all the same.
const RUNS: Runs = (
    [(12, Some(6)), (4, Some(2))],
    [(2, Some(1)), (4, Some(2))],
    (3, [1 + NUMBERS, 1 + NUMBERS, 0]),
);

/// In rounds, a call begins 13 instructions, and makes four numbers. So a round of 100 instructions makes seven calls,
/// and stops in the eighth one behind its third number. The third round has the call that is more than enough.
#[test]
fn a_worker_runs_again(rt: HostRuntime) -> Result<(), Fail> {
    let checked = accepted(rt.alloc(), FOUR_PASSES)?;
    let found = all_runs(&rt, rt.alloc(), &checked)?;
    assert_eq!(rt; found, RUNS);
    Ok(())
}
