//! Hands that give birth to an object, share it through the root, and give it up.

ghost use Rattle.std.specs.Prelude.{◌≡◌, ◌≢◌, ◌<◌, [], ◌∷◌, true, None, Some, IfOk, IfSome};
ghost use Rattle.brc_model.specs.declared.duty.Duty.TheVariants.{SetMark, Look, MergeSwap, SharedLoad};
ghost use Rattle.brc_model.specs.declared.duty.Reason.TheVariants.{Handed};
ghost use Rattle.brc_model.specs.Layout.{IsCounted, root_row};
ghost use Rattle.brc_table.specs.Hands.{IsOf};
ghost use Rattle.brc_table.specs.Homes.{resources};
ghost use Rattle.brc_model.specs.Duties.{resources_of};
ghost use Rattle.brc_heap.specs.Calls.{IsBornWith, kind_word, shared_left};
ghost use Rattle.brc_heap.specs.Marks.{look_left};
ghost use Rattle.brc_queue_tests.specs.Sharing.{small_layout, shared_row, HasWork, HoldsRoot, HoldsBoth, HasLeft};

use brc_fixtures::plain_module;
use brc_free::Finaliser;
use brc_heap::{Hand, Heap, LocalRelease, MergeStep, ROOT, SharedRelease};
use brc_host::{FakeHost, FakeResource};
use brc_lang::Kind;
use brc_list::Lists;
use brc_queue::{Looked, Queue};
use std::alloc::Global;
use std::sync::Wait;
use std::test::*;

/// The row of the first object that the first worker gives birth to.
pub const ROW: u32 = 2;

/// The cells of the root.
pub const CELLS: u32 = 8;

/// Returns a heap for two workers with two rows each, and the hands of main and both workers.
#[tactic(auto, using(brc_fixtures::proofs::PlainModules::has_no_lines))]
pub fn opened(
    alloc: Global,
) -> Result<
    (
        Heap<FakeResource>,
        Hand<FakeResource>,
        Hand<FakeResource>,
        Hand<FakeResource>,
    ),
    Fail,
>
    ensures layout { IfOk result (λ made. made.0.layout ≡ small_layout) }
    ensures main { IfOk result (λ made. HoldsRoot made.0 made.1) }
    ensures thread { IfOk result (λ made. made.1.view.thread ≡ 0) }
    ensures one { IfOk result (λ made. HoldsRoot made.0 made.2) }
    ensures two { IfOk result (λ made. HoldsRoot made.0 made.3) }
{
    let plain = plain_module(alloc);
    let (heap, mut main) = Heap::new(alloc, 2, 2, &plain)?;
    let one = heap.hand_out(&mut main, 1)?;
    let two = heap.hand_out(&mut main, 2)?;
    Ok((heap, main, one, two))
}

/// Gives birth to an object. Returns whether it has this row.
pub fn bears(
    heap: &Heap<FakeResource>,
    hand: &mut Hand<FakeResource>,
    row: u32,
    kind: Kind,
    resource: Option<FakeResource>,
) -> bool
    requires holds { HoldsRoot heap.now hand.old }
    requires kind { IsBornWith small_layout.cells kind 0 }
    requires resource { resources resource ≡ resources_of (kind_word kind 0) }
    ensures holds { result ≡ true → HasWork heap.now hand.new (row ∷ root_row ∷ []) [] }
{
    heap.room(hand) && heap.birth(hand, kind, 0, resource) == row
}

/// Tries once to put the object of the row into a cell of the root, with the hand's reference. Returns whether the cell
/// was empty, or `None` if another hand has locked the root.
#[tactic(auto, using(crate::proofs::Rows::may_put, crate::proofs::Rows::without_row))]
pub fn tries_put(
    heap: &Heap<FakeResource>,
    hand: &mut Hand<FakeResource>,
    cell: u32,
    row: u32,
) -> Option<bool>
    requires counted { IsCounted small_layout row }
    requires apart { row ≢ root_row }
    requires cell { cell < 8 }
    requires holds { HasWork heap.now hand.old (row ∷ root_row ∷ []) [] }
    ensures busy { result ≡ None → HasWork heap.now hand.new (row ∷ root_row ∷ []) [] }
    ensures put { result ≡ Some true → HoldsRoot heap.now hand.new }
{
    let lists = Lists::new(heap);
    if !lists.try_lock(hand, ROOT) {
        return None;
    }
    if lists.size(hand, ROOT) != CELLS {
        return Some(false);
    }
    let before = lists.swap_item(hand, ROOT, cell, Some(row));
    lists.unlock(hand, ROOT);
    Some(before.is_none())
}

/// Tries once to take the object of the row out of a cell of the root, with the cell's reference. Returns whether the
/// cell had that object, or `None` if it was empty, or if another hand has locked the root.
#[tactic(auto, using(crate::proofs::Rows::with_row))]
pub fn tries_take(
    heap: &Heap<FakeResource>,
    hand: &mut Hand<FakeResource>,
    cell: u32,
    row: u32,
) -> Option<bool>
    requires counted { IsCounted small_layout row }
    requires cell { cell < 8 }
    requires holds { HoldsRoot heap.now hand.old }
    ensures none { result ≡ None → HoldsRoot heap.now hand.new }
    ensures taken { result ≡ Some true → HasWork heap.now hand.new (row ∷ root_row ∷ []) [] }
{
    let lists = Lists::new(heap);
    if !lists.try_lock(hand, ROOT) {
        return None;
    }
    if lists.size(hand, ROOT) != CELLS {
        return Some(false);
    }
    let item = lists.swap_item(hand, ROOT, cell, None);
    lists.unlock(hand, ROOT);
    match item {
        None => None,
        Some(found) => Some(found == row),
    }
}

/// Retains the object of the row, and puts it into two cells of the root, with both references. Returns whether it is
/// there.
fn puts_twice(heap: &Heap<FakeResource>, hand: &mut Hand<FakeResource>) -> bool
    requires holds { HoldsBoth heap.now hand.old }
    ensures holds { result ≡ true → HoldsRoot heap.now hand.new }
{
    heap.retain(hand, ROW);
    let lists = Lists::new(heap);
    if !lists.try_lock(hand, ROOT) || lists.size(hand, ROOT) != CELLS {
        return false;
    }
    let first = lists.swap_item(hand, ROOT, 0, Some(ROW));
    let last = lists.swap_item(hand, ROOT, CELLS - 1, Some(ROW));
    lists.unlock(hand, ROOT);
    first.is_none() && last.is_none()
}

/// Puts the object of the row into the root's first cell, with the hand's reference, or into two cells, with one more.
/// Returns whether it is there.
pub fn puts(heap: &Heap<FakeResource>, hand: &mut Hand<FakeResource>, twice: bool) -> bool
    requires holds { HoldsBoth heap.now hand.old }
    ensures holds { result ≡ true → HoldsRoot heap.now hand.new }
{
    if twice {
        puts_twice(heap, hand)
    } else {
        matches!(tries_put(heap, hand, 0, ROW), Some(true))
    }
}

/// Takes the object of the row out of the root's first cell, with the cell's reference. Returns whether it was there.
pub fn takes(heap: &Heap<FakeResource>, hand: &mut Hand<FakeResource>) -> bool
    requires holds { HoldsRoot heap.now hand.old }
    ensures holds { result ≡ true → HoldsBoth heap.now hand.new }
{
    matches!(tries_take(heap, hand, 0, ROW), Some(true))
}

/// Gives up the reference to the object of the row. Returns whether it is to go into the owner's queue.
pub fn hands_over(heap: &Heap<FakeResource>, hand: &mut Hand<FakeResource>) -> bool
    requires holds { HoldsBoth heap.now hand.old }
    ensures left { result ≡ true → HasLeft heap.now hand.new (SetMark shared_row ∷ []) }
{
    match heap.release_local(hand, ROW) {
        LocalRelease::Share => match heap.try_release_shared(hand, ROW) {
            SharedRelease::Queued => true,
            _ => false,
        },
        _ => false,
    }
}

/// Sets the mark of the object of the row.
pub fn marks(heap: &Heap<FakeResource>, hand: &mut Hand<FakeResource>)
    requires left { HasLeft heap.now hand.old (SetMark shared_row ∷ []) }
    ensures left { HasLeft heap.now hand.new (Look shared_row ∷ []) }
{
    Queue::new(heap).mark(hand, ROW);
}

/// Looks after the object of the row.
pub fn looks(heap: &Heap<FakeResource>, hand: &mut Hand<FakeResource>) -> Looked
    requires left { HasLeft heap.now hand.old (Look shared_row ∷ []) }
    ensures left { HasLeft heap.now hand.new (look_left shared_row result) }
{
    Queue::new(heap).look(hand, ROW)
}

/// Merges the object of the row, whose mark the hand has taken.
pub fn merges(heap: &Heap<FakeResource>, hand: &mut Hand<FakeResource>) -> MergeStep
    requires left { HasLeft heap.now hand.old (MergeSwap shared_row Handed ∷ []) }
    ensures left { result ≡ MergeStep.Kept → HasLeft heap.now hand.new (SharedLoad shared_row Handed ∷ []) }
{
    heap.merge_step(hand, ROW)
}

/// Gives up the reference that was handed over with the object of the row.
pub fn gives_up(heap: &Heap<FakeResource>, hand: &mut Hand<FakeResource>) -> SharedRelease
    requires left { HasLeft heap.now hand.old (SharedLoad shared_row Handed ∷ []) }
    ensures left { HasLeft heap.now hand.new (shared_left shared_row Handed result) }
{
    heap.try_release_shared(hand, ROW)
}

/// Finalises what has died. Returns how many closes have failed.
pub fn settles<R: Wait>(
    rt: &R,
    heap: &Heap<FakeResource>,
    hand: &mut Hand<FakeResource>,
    host: &mut FakeHost<'_>,
) -> u64
    requires holds { HoldsRoot heap.now hand.old }
    ensures holds { HoldsRoot heap.now hand.new }
{
    let queue = Queue::new(heap);
    Finaliser::new(heap, &queue).settle(rt, hand, host)
}

/// Merges the object of the row, whose mark the hand has taken, gives the handed reference up, and finalises what dies.
/// Returns how the merge and the release ended.
pub fn merges_and_settles<R: Wait>(
    rt: &R,
    heap: &Heap<FakeResource>,
    hand: &mut Hand<FakeResource>,
    host: &mut FakeHost<'_>,
) -> Option<(MergeStep, SharedRelease)>
    requires left { HasLeft heap.now hand.old (MergeSwap shared_row Handed ∷ []) }
    ensures holds { IfSome result (λ ended. HoldsRoot heap.now hand.new) }
{
    let merge = merges(heap, hand);
    match merge {
        MergeStep::Kept => {}
        _ => return None,
    }
    let release = gives_up(heap, hand);
    match release {
        SharedRelease::Kept | SharedRelease::Dying => {}
        _ => return None,
    }
    if settles(rt, heap, hand, host) == 0 {
        Some((merge, release))
    } else {
        None
    }
}

/// Looks through the hand's own queue, if its dying chain is empty. Returns whether it is, and no close has failed.
pub fn looks_through<R: Wait>(
    rt: &R,
    heap: &Heap<FakeResource>,
    hand: &mut Hand<FakeResource>,
    host: &mut FakeHost<'_>,
) -> bool
    requires holds { HoldsRoot heap.now hand.old }
    ensures holds { HoldsRoot heap.now hand.new }
{
    hand.head() == 0 && Queue::new(heap).merge_pending(rt, hand, host) == 0
}

/// Leaves, if the hand's dying chain is empty. Returns whether the hand has left, and no close has failed.
pub fn leaves<R: Wait>(
    rt: &R,
    heap: &Heap<FakeResource>,
    hand: &mut Hand<FakeResource>,
    host: &mut FakeHost<'_>,
) -> bool
    requires holds { HoldsRoot heap.now hand.old }
    ensures table { IsOf heap.now hand.new }
    ensures thread { hand.new.view.thread ≡ hand.old.view.thread }
{
    hand.head() == 0 && Queue::new(heap).leave(rt, hand, host) == 0
}

/// Ends the heap. Returns whether every object that was born is closed, and the object of the row was.
pub fn all_closed(heap: Heap<FakeResource>, main: Hand<FakeResource>) -> Option<bool>
    requires table { IsOf heap main }
    requires main { main.view.thread ≡ 0 }
    requires layout { heap.layout ≡ small_layout }
{
    match heap.finish(main) {
        Ok(end) => {
            let mut all = end.born(ROW);
            for row in ROOT..end.rows() {
                all = all && (!end.born(row) || end.closed(row));
            }
            Some(all)
        }
        Err(_) => None,
    }
}
