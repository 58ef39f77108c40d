//! Calls over a heap. The contract of each carries what the next one requires.

ghost use Rattle.std.specs.Prelude.{◌≡◌, ◌<◌, ◌≤◌, [], length, IfOk, OnOk};
ghost use Rattle.brc_model.specs.Limits.{row_limit, worker_limit};
ghost use Rattle.brc_model.specs.Threads.{function_at};
ghost use Rattle.brc_table.specs.Hands.{IsOf};
ghost use Rattle.brc_work.specs.Fits.{IsHeapOf};
ghost use Rattle.brc_work_tests.specs.Ready.{HoldsRoot};

use crate::hearing::Hearing;
use brc_check::Checked;
use brc_heap::{Final, Hand, Heap, Taken};
use brc_host::{FakeResource, Host};
use brc_queue::Queue;
use brc_work::{Ran, Worker};
use std::alloc::Global;
use std::sync::Wait;
use std::test::*;

/// Returns a heap of the module for workers that have `rows` rows each, and main's hand.
#[tactic(auto, using(crate::proofs::Opening::lists_have_rows, crate::proofs::Opening::is_heap_of))]
pub fn opened(
    alloc: Global,
    checked: &Checked,
    threads: u8,
    rows: u16,
) -> Result<(Heap<FakeResource>, Hand<FakeResource>), Fail>
    requires threads { (0 < threads) × (threads ≤ worker_limit) }
    requires rows { (0 < rows) × (rows ≤ row_limit) }
    ensures heap { IfOk result (λ made. IsHeapOf checked.now.module made.0) }
    ensures main { IfOk result (λ made. HoldsRoot made.0 made.1) }
    ensures thread { IfOk result (λ made. made.1.view.thread ≡ 0) }
{
    Ok(Heap::new(alloc, threads, rows, checked.module())?)
}

/// Gives out a worker's hand.
pub fn worker_hand(
    heap: &Heap<FakeResource>,
    main: &mut Hand<FakeResource>,
    thread: u8,
) -> Result<Hand<FakeResource>, Taken>
    requires main { HoldsRoot heap.now main.old }
    requires thread { main.old.view.thread ≡ 0 }
    ensures main { OnOk result (HoldsRoot heap.now main.new) }
    ensures thread { OnOk result (main.new.view.thread ≡ 0) }
    ensures worker { IfOk result (λ hand. HoldsRoot heap.now hand) }
{
    heap.hand_out(main, thread)
}

/// Calls the function `times` times, and begins at most `steps` instructions. Returns how the run has ended.
pub fn makes_calls<R: Wait, H: Host<Res = FakeResource>>(
    rt: &R,
    heap: &Heap<FakeResource>,
    checked: &Checked,
    function: usize,
    times: u32,
    steps: u64,
    hand: &mut Hand<FakeResource>,
    host: &mut H,
    gate: &Hearing,
) -> Ran
    requires function { function < length checked.now.module.functions }
    requires parameters { (function_at checked.now.module.functions function).parameters ≡ [] }
    requires heap { IsHeapOf checked.now.module heap.now }
    requires holds { HoldsRoot heap.now hand.old }
    ensures holds { HoldsRoot heap.now hand.new }
{
    let queue = Queue::new(heap);
    Worker::new(heap, &queue).run(rt, checked, function, times, steps, hand, host, gate)
}

/// Lets the hand's thread leave. Returns how many closes have failed.
pub fn leaves<R: Wait, H: Host<Res = FakeResource>>(
    rt: &R,
    heap: &Heap<FakeResource>,
    hand: &mut Hand<FakeResource>,
    host: &mut H,
) -> u64
    requires holds { HoldsRoot heap.now hand.old }
    ensures table { IsOf heap.now hand.new }
    ensures thread { hand.new.view.thread ≡ hand.old.view.thread }
{
    Queue::new(heap).leave(rt, hand, host)
}

/// Ends the heap. Returns what is left of it, or `None` if a thread isn't gone.
pub fn ended(heap: Heap<FakeResource>, main: Hand<FakeResource>) -> Option<Final<FakeResource>>
    requires table { IsOf heap main }
    requires thread { main.view.thread ≡ 0 }
{
    heap.finish(main).ok()
}
