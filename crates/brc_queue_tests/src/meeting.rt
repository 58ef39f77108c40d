//! Two workers in threads of their own: each gives up the other's object, and leaves.

ghost use Rattle.std.specs.Prelude.{◌≡◌, ◌≢◌, ◌<◌, [], ◌∷◌, true};
ghost use Rattle.brc_model.specs.Layout.{IsCounted, root_row};
ghost use Rattle.brc_table.specs.Hands.{IsOf};
ghost use Rattle.brc_queue_tests.specs.Sharing.{HasWork, HoldsRoot, small_layout, holds-prop};

use crate::sharing::{ROW, all_closed, bears, leaves, opened, settles, tries_put, tries_take};
use brc_free::Finaliser;
use brc_heap::{Hand, Heap};
use brc_host::{FakeHost, FakeResource};
use brc_lang::Kind;
use brc_queue::Queue;
use std::alloc::Global;
use std::sync::Wait;
use std::test::*;
use std::thread;
use std::thread::Threads;

/// The row of the first object that the second worker gives birth to.
const OTHER: u32 = 4;

/// More tries than a worker needs until the other one's object is in its cell.
const TRIES: u32 = 100_000_000;

/// A worker's hand, which a thread takes with it.
#[derive(Drop)]
pub struct Worker<'a> {
    pub heap: &'a Heap<FakeResource>,
    pub hand: Hand<FakeResource>,
    ghost holds: { HoldsRoot heap.now hand } by { holds-prop heap.now hand },
}

/// Puts the number of the row into a cell of the root. Returns whether it is there.
fn puts_at(heap: &Heap<FakeResource>, hand: &mut Hand<FakeResource>, cell: u32, row: u32) -> bool
    requires counted { IsCounted small_layout row }
    requires apart { row ≢ root_row }
    requires cell { cell < 8 }
    requires holds { HasWork heap.now hand.old (row ∷ root_row ∷ []) [] }
    ensures holds { result ≡ true → HoldsRoot heap.now hand.new }
{
    for _ in 0..TRIES {
        if let Some(put) = tries_put(heap, hand, cell, row) {
            return put;
        }
    }
    false
}

/// Takes the number of the row out of a cell of the root, once it is there. Returns whether the hand has it.
fn takes_at(heap: &Heap<FakeResource>, hand: &mut Hand<FakeResource>, cell: u32, row: u32) -> bool
    requires counted { IsCounted small_layout row }
    requires cell { cell < 8 }
    requires holds { HoldsRoot heap.now hand.old }
    ensures holds { result ≡ true → HasWork heap.now hand.new (row ∷ root_row ∷ []) [] }
{
    for _ in 0..TRIES {
        if let Some(taken) = tries_take(heap, hand, cell, row) {
            return taken;
        }
    }
    false
}

/// Gives up the reference to the object of the row.
#[tactic(auto, using(crate::proofs::Rows::holds_first, crate::proofs::Rows::without_row))]
fn releases<R: Wait>(rt: &R, heap: &Heap<FakeResource>, hand: &mut Hand<FakeResource>, row: u32)
    requires counted { IsCounted small_layout row }
    requires holds { HasWork heap.now hand.old (row ∷ root_row ∷ []) [] }
    ensures holds { HoldsRoot heap.now hand.new }
{
    let queue = Queue::new(heap);
    Finaliser::new(heap, &queue).release(rt, hand, row);
}

/// Puts a number of its own into a cell of the root, takes the other worker's number out of its cell, gives it up, and
/// leaves. Returns whether the worker has done all that.
fn exchanges<R: Wait>(rt: &R, worker: Worker<'_>, own: (u32, u32), other: (u32, u32)) -> bool
    requires own { IsCounted small_layout own.1 }
    requires apart { own.1 ≢ root_row }
    requires cell { own.0 < 8 }
    requires other { IsCounted small_layout other.1 }
    requires other_cell { other.0 < 8 }
{
    let Worker { heap, mut hand } = worker;
    exchanges_by(rt, heap, &mut hand, own, other)
}

/// Does what `exchanges` does, with the worker's hand.
fn exchanges_by<R: Wait>(
    rt: &R,
    heap: &Heap<FakeResource>,
    hand: &mut Hand<FakeResource>,
    own: (u32, u32),
    other: (u32, u32),
) -> bool
    requires own { IsCounted small_layout own.1 }
    requires apart { own.1 ≢ root_row }
    requires cell { own.0 < 8 }
    requires other { IsCounted small_layout other.1 }
    requires other_cell { other.0 < 8 }
    requires holds { HoldsRoot heap.now hand.old }
{
    if !bears(heap, hand, own.1, Kind::Num, None) || !puts_at(heap, hand, own.0, own.1) {
        return false;
    }
    if !takes_at(heap, hand, other.0, other.1) {
        return false;
    }
    let mut host = FakeHost::new(&[]);
    releases(rt, heap, hand, other.1);
    settles(rt, heap, hand, &mut host) == 0 && leaves(rt, heap, hand, &mut host)
}

/// Lets two workers exchange their numbers at the same time. Returns whether both have left.
fn both_exchange<R: Threads + Wait + Sync>(rt: &R, one: Worker<'_>, two: Worker<'_>) -> bool {
    let (first, second) = thread::join(
        rt,
        move || exchanges(rt, one, (0, ROW), (1, OTHER)),
        move || exchanges(rt, two, (1, OTHER), (0, ROW)),
    );
    first && second
}

/// Lets the workers exchange their numbers, and main leave. Returns whether all have left.
fn all_exchange<R: Threads + Wait + Sync>(
    rt: &R,
    heap: &Heap<FakeResource>,
    main: &mut Hand<FakeResource>,
    one: Hand<FakeResource>,
    two: Hand<FakeResource>,
) -> bool
    requires main { HoldsRoot heap.now main.old }
    requires one { HoldsRoot heap.now one }
    requires two { HoldsRoot heap.now two }
    ensures table { IsOf heap.now main.new }
    ensures thread { main.new.view.thread ≡ main.old.view.thread }
{
    let mut host = FakeHost::new(&[]);
    let done = both_exchange(rt, Worker { heap, hand: one }, Worker { heap, hand: two });
    leaves(rt, heap, main, &mut host) && done
}

/// Plays this over a heap of its own. Returns whether all have left, and whether all objects are closed at the end.
pub fn exchanged<R: Threads + Wait + Sync>(
    rt: &R,
    alloc: Global,
) -> Result<(bool, Option<bool>), Fail> {
    let (heap, mut main, one, two) = opened(alloc)?;
    let done = all_exchange(rt, &heap, &mut main, one, two);
    Ok((done, all_closed(heap, main)))
}
