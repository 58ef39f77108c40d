//! A hand retains an item that it borrows from a locked list: its reference outlives the lock and the cell.

ghost use Rattle.std.specs.Prelude.{◌≡◌, true};
ghost use Rattle.brc_table.specs.Hands.{IsOf};
ghost use Rattle.brc_queue_tests.specs.Sharing.{HoldsRoot, HoldsBoth};

use crate::sharing::{CELLS, ROW, all_closed, bears, leaves, opened, puts, settles, takes};
use brc_heap::{Hand, Heap, LocalRelease, ROOT, SharedRelease, ZeroStep};
use brc_host::{FakeHost, FakeResource};
use brc_lang::Kind;
use brc_list::Lists;
use std::alloc::Global;
use std::sync::Wait;
use std::test::*;

/// Borrows the object of the row from the root's first cell, retains it, and unlocks the root. Returns whether the hand
/// has a reference of its own from then on.
#[tactic(auto, using(crate::proofs::Rows::with_row))]
fn retains_item(heap: &Heap<FakeResource>, hand: &mut Hand<FakeResource>) -> bool
    requires holds { HoldsRoot heap.now hand.old }
    ensures holds { result ≡ true → HoldsBoth heap.now hand.new }
{
    let lists = Lists::new(heap);
    if !lists.try_lock(hand, ROOT) || lists.size(hand, ROOT) != CELLS {
        return false;
    }
    match lists.item(hand, ROOT, 0) {
        Some(ROW) => {}
        _ => return false,
    }
    heap.retain(hand, ROW);
    lists.unlock(hand, ROOT);
    true
}

/// Gives up a reference that another thread than the owner has. Returns whether references are left.
#[tactic(auto, using(crate::proofs::Rows::without_row))]
fn gives_up_shared(heap: &Heap<FakeResource>, hand: &mut Hand<FakeResource>) -> bool
    requires holds { HoldsBoth heap.now hand.old }
    ensures holds { result ≡ true → HoldsRoot heap.now hand.new }
{
    match heap.release_local(hand, ROW) {
        LocalRelease::Share => matches!(heap.try_release_shared(hand, ROW), SharedRelease::Kept),
        _ => false,
    }
}

/// Gives up the owner's reference. Returns whether it was the last one, so that the object is in the hand's dying
/// chain.
#[tactic(auto, using(crate::proofs::Rows::without_row))]
fn gives_up_last(heap: &Heap<FakeResource>, hand: &mut Hand<FakeResource>) -> bool
    requires holds { HoldsBoth heap.now hand.old }
    ensures holds { result ≡ true → HoldsRoot heap.now hand.new }
{
    match heap.release_local(hand, ROW) {
        LocalRelease::Zero => matches!(heap.zero_step(hand, ROW), ZeroStep::Dying),
        _ => false,
    }
}

/// The first worker puts a number into the root, from which the second worker borrows and retains it. The first worker
/// takes the number out again, both give up what they hold, and all leave. Returns whether each step went so.
fn borrowed_and_retained<R: Wait>(
    rt: &R,
    heap: &Heap<FakeResource>,
    main: &mut Hand<FakeResource>,
    one: &mut Hand<FakeResource>,
    two: &mut Hand<FakeResource>,
) -> bool
    requires main { HoldsRoot heap.now main.old }
    requires one { HoldsRoot heap.now one.old }
    requires two { HoldsRoot heap.now two.old }
    ensures table { IsOf heap.now main.new }
    ensures thread { main.new.view.thread ≡ main.old.view.thread }
{
    let mut host = FakeHost::new(&[]);
    if !(bears(heap, one, ROW, Kind::Num, None)
        && puts(heap, one, false)
        && retains_item(heap, two))
    {
        return false;
    }
    if !(takes(heap, one) && gives_up_shared(heap, two) && gives_up_last(heap, one)) {
        return false;
    }
    settles(rt, heap, one, &mut host) == 0
        && leaves(rt, heap, one, &mut host)
        && leaves(rt, heap, two, &mut host)
        && leaves(rt, heap, main, &mut host)
}

/// Plays this over a heap of its own. Returns whether each step went so, and whether all objects are closed at the end.
pub fn borrowed<R: Wait>(rt: &R, alloc: Global) -> Result<(bool, Option<bool>), Fail> {
    let (heap, mut main, mut one, mut two) = opened(alloc)?;
    let done = borrowed_and_retained(rt, &heap, &mut main, &mut one, &mut two);
    Ok((done, all_closed(heap, main)))
}
