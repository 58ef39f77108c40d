//! Two threads of a runtime, each with a hand, share a number through a cell of the root.

ghost use Rattle.std.specs.Prelude.{◌≡◌, ◌≢◌, None, Some, OnOk, IfOk, IfSome};
ghost use Rattle.brc_model.specs.Layout.{root_row};
ghost use Rattle.brc_table.specs.Hands.{IsOf};
ghost use Rattle.brc_queue_tests.specs.Embedded.{Holds, holds-prop};

use crate::no_files::NoFiles;
use brc_fixtures::plain_module;
use brc_free::Finaliser;
use brc_heap::{Hand, Heap, NoMemory, ROOT, Taken};
use brc_lang::Kind;
use brc_list::Lists;
use brc_queue::Queue;
use std::alloc::{AllocError, Global};
use std::sync::Wait;
use std::test::*;
use std::thread;
use std::thread::Threads;

/// The cell of the root through which the threads share.
const CELL: u32 = 0;

/// The value of the number.
const VALUE: u32 = 42;

/// A hand, which a thread takes with it.
#[derive(Drop)]
struct Worker<'a> {
    heap: &'a Heap<u32>,
    hand: Hand<u32>,
    ghost holds: { Holds heap.now hand None } by { holds-prop heap.now hand None },
    ghost apart: { hand.view.thread ≢ 0 },
}

/// Starts the thread and gives out its hand.
fn starts<'a>(heap: &'a Heap<u32>, main: &mut Hand<u32>, thread: u8) -> Result<Worker<'a>, Taken>
    requires thread { thread ≢ 0 }
    requires main { main.old.view.thread ≡ 0 }
    requires holds { Holds heap.now main.old None }
    ensures main { OnOk result (main.new.view.thread ≡ 0) }
    ensures holds { OnOk result (Holds heap.now main.new None) }
{
    let hand = heap.hand_out(main, thread)?;
    Ok(Worker { heap, hand })
}

/// Gives birth to a number. Returns its row, or `None` if the hand's block is full.
pub fn bear(heap: &Heap<u32>, hand: &mut Hand<u32>) -> Option<u32>
    requires apart { hand.old.view.thread ≢ 0 }
    requires holds { Holds heap.now hand.old None }
    ensures apart { result ≢ Some root_row }
    ensures holds { Holds heap.now hand.new result }
{
    if heap.room(hand) {
        Some(heap.birth(hand, Kind::Num, VALUE, None))
    } else {
        None
    }
}

/// Tries once to put the item into the cell. Returns what was there, or `None` if another thread has locked the root.
fn try_swap(heap: &Heap<u32>, hand: &mut Hand<u32>, item: Option<u32>) -> Option<Option<u32>>
    requires apart { item ≢ Some root_row }
    requires holds { Holds heap.now hand.old item }
    ensures busy { result ≡ None → Holds heap.now hand.new item }
    ensures swapped { IfSome result (λ found. Holds heap.now hand.new found) }
{
    let lists = Lists::new(heap);
    if lists.size(hand, ROOT) <= CELL || !lists.try_lock(hand, ROOT) {
        return None;
    }
    let found = lists.swap_item(hand, ROOT, CELL, item);
    lists.unlock(hand, ROOT);
    Some(found)
}

/// Puts the item into the cell, and waits while another thread has locked the root. Returns what was there.
fn swap<R: Wait>(rt: &R, heap: &Heap<u32>, hand: &mut Hand<u32>, item: Option<u32>) -> Option<u32>
    requires apart { item ≢ Some root_row }
    requires holds { Holds heap.now hand.old item }
    ensures holds { Holds heap.now hand.new result }
{
    for _ in rt.forever() {
        if let Some(found) = try_swap(heap, hand, item) {
            return found;
        }
    }
    unreachable!()
}

/// Tries once to make a reference to the object in the cell. Returns its row, or `None` if the cell is empty, or if
/// another thread has locked the root.
fn try_borrow(heap: &Heap<u32>, hand: &mut Hand<u32>) -> Option<u32>
    requires holds { Holds heap.now hand.old None }
    ensures holds { Holds heap.now hand.new result }
{
    let lists = Lists::new(heap);
    if lists.size(hand, ROOT) <= CELL || !lists.try_lock(hand, ROOT) {
        return None;
    }
    let item = lists.item(hand, ROOT, CELL);
    if let Some(row) = item {
        heap.retain(hand, row);
    }
    lists.unlock(hand, ROOT);
    item
}

/// Returns the value of a number.
fn value_of(heap: &Heap<u32>, hand: &mut Hand<u32>, row: u32) -> u32
    requires holds { Holds heap.now hand.old (Some row) }
    ensures holds { Holds heap.now hand.new (Some row) }
{
    heap.arg_of(hand, row)
}

/// Gives up a reference, and finalises what dies by that.
pub fn release<R: Wait>(
    rt: &R,
    heap: &Heap<u32>,
    hand: &mut Hand<u32>,
    host: &mut NoFiles,
    row: u32,
)
    requires holds { Holds heap.now hand.old (Some row) }
    ensures holds { Holds heap.now hand.new None }
{
    let queue = Queue::new(heap);
    let finaliser = Finaliser::new(heap, &queue);
    finaliser.release(rt, hand, row);
    finaliser.settle(rt, hand, host);
}

/// Does what a thread does now and then: merges the objects that other threads have queued for it.
fn safe_point<R: Wait>(rt: &R, heap: &Heap<u32>, hand: &mut Hand<u32>, host: &mut NoFiles)
    requires holds { Holds heap.now hand.old None }
    ensures holds { Holds heap.now hand.new None }
{
    Queue::new(heap).merge_pending(rt, hand, host);
}

/// Leaves.
pub fn leave<R: Wait>(rt: &R, heap: &Heap<u32>, hand: &mut Hand<u32>, host: &mut NoFiles)
    requires holds { Holds heap.now hand.old None }
    ensures table { IsOf heap.now hand.new }
    ensures thread { hand.new.view.thread ≡ hand.old.view.thread }
{
    Queue::new(heap).leave(rt, hand, host);
}

/// The first thread: gives birth to a number, and puts it into the cell.
fn gives<R: Wait>(rt: &R, worker: Worker<'_>) {
    let Worker { heap, mut hand } = worker;
    let mut host = NoFiles::new();
    let item = bear(heap, &mut hand);
    if let Some(row) = swap(rt, heap, &mut hand, item) {
        release(rt, heap, &mut hand, &mut host, row);
    }
    safe_point(rt, heap, &mut hand, &mut host);
    leave(rt, heap, &mut hand, &mut host);
}

/// Waits until a number is in the cell. Returns its value.
fn reads<R: Wait>(rt: &R, heap: &Heap<u32>, hand: &mut Hand<u32>, host: &mut NoFiles) -> u32
    requires holds { Holds heap.now hand.old None }
    ensures holds { Holds heap.now hand.new None }
{
    for _ in rt.forever() {
        safe_point(rt, heap, hand, host);
        if let Some(row) = try_borrow(heap, hand) {
            let value = value_of(heap, hand, row);
            release(rt, heap, hand, host, row);
            return value;
        }
    }
    unreachable!()
}

/// The second thread: reads the number, and takes it out of the cell. Returns its value.
fn takes<R: Wait>(rt: &R, worker: Worker<'_>) -> u32 {
    let Worker { heap, mut hand } = worker;
    let mut host = NoFiles::new();
    let value = reads(rt, heap, &mut hand, &mut host);
    if let Some(row) = swap(rt, heap, &mut hand, None) {
        release(rt, heap, &mut hand, &mut host, row);
    }
    leave(rt, heap, &mut hand, &mut host);
    value
}

/// Runs the two threads until both have left. Returns what the second one has read.
fn run<R: Threads + Wait + Sync>(
    rt: &R,
    one: Worker<'_>,
    two: Worker<'_>,
) -> Result<u32, AllocError> {
    thread::scope(
        thread::scope_env(),
        rt,
        |scope| -> Result<u32, AllocError> {
            let one = scope.spawn(move || gives(rt, one))?;
            let two = scope.spawn(move || takes(rt, two))?;
            one.join(rt);
            Ok(two.join(rt))
        },
    )
}

/// Ends the heap. Returns how many objects were born, and how many of them are closed, or `None` if a thread hasn't
/// left.
fn ended(heap: Heap<u32>, main: Hand<u32>) -> Option<(u32, u32)>
    requires table { IsOf heap main }
    requires main { main.view.thread ≡ 0 }
{
    let Ok(end) = heap.finish(main) else {
        return None;
    };
    let mut born = 0;
    let mut closed = 0;
    for row in ROOT..end.rows() {
        if end.born(row) {
            born += 1;
        }
        if end.closed(row) {
            closed += 1;
        }
    }
    Some((born, closed))
}

/// Returns a heap for two workers with four rows each, and main's hand.
#[tactic(auto, using(brc_fixtures::proofs::PlainModules::has_no_lines))]
fn opened(alloc: Global) -> Result<(Heap<u32>, Hand<u32>), NoMemory>
    ensures main { IfOk result (λ made. made.1.view.thread ≡ 0) }
    ensures holds { IfOk result (λ made. Holds made.0 made.1 None) }
{
    let plain = plain_module(alloc);
    Heap::new(alloc, 2, 4, &plain)
}

#[test]
fn two_threads_share_a_number(rt: HostRuntime) -> Result<(), Fail> {
    let (heap, mut main) = opened(rt.alloc())?;
    let one = starts(&heap, &mut main, 1)?;
    let two = starts(&heap, &mut main, 2)?;
    let value = run(&rt, one, two)?;
    leave(&rt, &heap, &mut main, &mut NoFiles::new());
    assert_eq!(rt; value, VALUE);
    // The number and the root.
    assert_eq!(rt; ended(heap, main), Some((2, 2)));
    Ok(())
}
