//! Calls of a hand that has no other work: births, lists, and releases.

ghost use Rattle.std.specs.Prelude.{◌≡◌, ◌<◌, ◌≤◌, true, None, Some, [], ◌∷◌, length, if◌then◌else◌, IfSome, OnSome};
ghost use Rattle.brc_model.specs.Layout.{root_row, IsCounted};
ghost use Rattle.brc_model.specs.Duties.{resources_of};
ghost use Rattle.brc_model.specs.Limits.{text_cells};
ghost use Rattle.brc_table.specs.Views.{holds, without_one};
ghost use Rattle.brc_table.specs.Hands.{IsOf, KeepsLock, most_references};
ghost use Rattle.brc_heap.specs.Calls.{IsBornWith, kind_word};
ghost use Rattle.brc_fixtures.specs.Resting.{IsAtRest};

use brc_free::Finaliser;
use brc_heap::{Final, Hand, Heap};
use brc_host::{FakeHost, FakeResource};
use brc_lang::Kind;
use brc_list::Lists;
use brc_queue::Queue;
use std::sync::Wait;

/// Lets the hand's thread leave. Returns how many closes have failed, or `None` if the hand's dying chain isn't empty.
pub fn leaves<R: Wait>(
    rt: &R,
    heap: &Heap<FakeResource>,
    hand: &mut Hand<FakeResource>,
    host: &mut FakeHost<'_>,
) -> Option<u64>
    requires resting { IsAtRest heap.now hand.old None }
    requires references { hand.old.view.references ≡ root_row ∷ [] }
    ensures table { IsOf heap.now hand.new }
    ensures thread { hand.new.view.thread ≡ hand.old.view.thread }
{
    if hand.head() != 0 {
        return None;
    }
    Some(Queue::new(heap).leave(rt, hand, host))
}

/// Lets main leave, the last one to run, and ends the heap. Returns what is left of it, or `None` if a close has
/// failed, or another thread isn't gone.
pub fn ended<R: Wait>(
    rt: &R,
    heap: Heap<FakeResource>,
    main: Hand<FakeResource>,
    host: &mut FakeHost<'_>,
) -> Option<Final<FakeResource>>
    requires resting { IsAtRest heap main None }
    requires references { main.view.references ≡ root_row ∷ [] }
    requires main { main.view.thread ≡ 0 }
{
    let mut main = main;
    if leaves(rt, &heap, &mut main, host) != Some(0) {
        return None;
    }
    heap.finish(main).ok()
}

/// Gives birth to a number of this value, or to a list with as many cells, if there is room. Returns its row.
#[tactic(auto, using(crate::proofs::Resting::rests_after_birth, crate::proofs::Resting::some_counted, crate::proofs::PlainModules::born_in_more))]
pub fn born(
    heap: &Heap<FakeResource>,
    hand: &mut Hand<FakeResource>,
    kind: Kind,
    arg: u32,
) -> Option<u32>
    requires kind { IsBornWith text_cells kind arg }
    requires resource { 0 ≡ resources_of (kind_word kind arg) }
    requires resting { IsAtRest heap.now hand.old None }
    ensures resting { OnSome result (IsAtRest heap.now hand.new None) }
    ensures counted { IfSome result (λ row. IsCounted heap.now.layout row) }
    ensures references { IfSome result (λ row. hand.new.view.references ≡ row ∷ hand.old.view.references) }
{
    heap.words().layout_is_plain();
    if !heap.room(hand) {
        return None;
    }
    let row = heap.birth(hand, kind, arg, None);
    if row == 0 {
        return None;
    }
    Some(row)
}

/// Retains an object.
#[tactic(auto, using(crate::proofs::Resting::rests_after_call, crate::proofs::Resting::lists_one_more))]
pub fn retains(heap: &Heap<FakeResource>, hand: &mut Hand<FakeResource>, row: u32)
    requires resting { IsAtRest heap.now hand.old None }
    requires counted { IsCounted heap.now.layout row }
    requires held { 1 ≤ holds hand.old.view row }
    requires few { length hand.old.view.references < most_references }
    ensures resting { IsAtRest heap.now hand.new None }
    ensures references { hand.new.view.references ≡ row ∷ hand.old.view.references }
{
    heap.retain(hand, row);
}

/// Tries to lock an object. Returns whether the hand has locked it.
pub fn locks(heap: &Heap<FakeResource>, hand: &mut Hand<FakeResource>, row: u32) -> bool
    requires resting { IsAtRest heap.now hand.old None }
    requires counted { IsCounted heap.now.layout row }
    requires held { 1 ≤ holds hand.old.view row }
    ensures resting { IsAtRest heap.now hand.new (if result then Some row else None) }
    ensures references { hand.new.view.references ≡ hand.old.view.references }
{
    Lists::new(heap).try_lock(hand, row)
}

/// Puts an object into the first cell of the list that the hand has locked. Returns whether the list has a cell, which
/// was empty.
#[tactic(auto, using(crate::proofs::Resting::lists_one_less))]
pub fn puts(heap: &Heap<FakeResource>, hand: &mut Hand<FakeResource>, row: u32, item: u32) -> bool
    requires resting { IsAtRest heap.now hand.old (Some row) }
    requires held { 1 ≤ holds hand.old.view row }
    requires counted { IsCounted heap.now.layout item }
    requires item { 1 ≤ holds hand.old.view item }
    requires keeps { KeepsLock hand.old.view item }
    requires few { length hand.old.view.references < most_references }
    ensures resting { result ≡ true → IsAtRest heap.now hand.new (Some row) }
    ensures references { result ≡ true
        → hand.new.view.references ≡ without_one item hand.old.view.references }
{
    let lists = Lists::new(heap);
    if lists.size(hand, row) == 0 {
        return false;
    }
    lists.swap_item(hand, row, 0, Some(item)).is_none()
}

/// Unlocks the object.
pub fn unlocks(heap: &Heap<FakeResource>, hand: &mut Hand<FakeResource>, row: u32)
    requires resting { IsAtRest heap.now hand.old (Some row) }
    requires held { 1 ≤ holds hand.old.view row }
    ensures resting { IsAtRest heap.now hand.new None }
    ensures references { hand.new.view.references ≡ hand.old.view.references }
{
    Lists::new(heap).unlock(hand, row);
}

/// Gives up a reference to an object. What dies stays in the hand's dying chain.
#[tactic(auto, using(crate::proofs::Resting::rests_after_release, crate::proofs::Resting::lists_one_less))]
pub fn releases<R: Wait>(rt: &R, heap: &Heap<FakeResource>, hand: &mut Hand<FakeResource>, row: u32)
    requires resting { IsAtRest heap.now hand.old None }
    requires counted { IsCounted heap.now.layout row }
    requires held { 1 ≤ holds hand.old.view row }
    ensures resting { IsAtRest heap.now hand.new None }
    ensures references { hand.new.view.references ≡ without_one row hand.old.view.references }
{
    let queue = Queue::new(heap);
    Finaliser::new(heap, &queue).release(rt, hand, row);
}

/// Finalises what is in the hand's dying chain. Returns how many closes have failed.
pub fn settles<R: Wait>(
    rt: &R,
    heap: &Heap<FakeResource>,
    hand: &mut Hand<FakeResource>,
    host: &mut FakeHost<'_>,
) -> u64
    requires resting { IsAtRest heap.now hand.old None }
    ensures resting { IsAtRest heap.now hand.new None }
    ensures references { hand.new.view.references ≡ hand.old.view.references }
{
    let queue = Queue::new(heap);
    Finaliser::new(heap, &queue).settle(rt, hand, host)
}

/// Looks through the hand's own queue. Returns how many closes have failed, or `None` if the hand's dying chain isn't
/// empty.
#[tactic(auto, using(crate::proofs::Resting::rests_while_free, crate::proofs::Resting::free_at_rest))]
pub fn looks_through<R: Wait>(
    rt: &R,
    heap: &Heap<FakeResource>,
    hand: &mut Hand<FakeResource>,
    host: &mut FakeHost<'_>,
) -> Option<u64>
    requires resting { IsAtRest heap.now hand.old None }
    ensures resting { OnSome result (IsAtRest heap.now hand.new None) }
    ensures references { OnSome result (hand.new.view.references ≡ hand.old.view.references) }
{
    if hand.head() != 0 {
        return None;
    }
    Some(Queue::new(heap).merge_pending(rt, hand, host))
}

/// Gives up a reference to an object, and finalises what dies. Returns how many closes have failed.
pub fn gives_up<R: Wait>(
    rt: &R,
    heap: &Heap<FakeResource>,
    hand: &mut Hand<FakeResource>,
    host: &mut FakeHost<'_>,
    row: u32,
) -> u64
    requires resting { IsAtRest heap.now hand.old None }
    requires counted { IsCounted heap.now.layout row }
    requires held { 1 ≤ holds hand.old.view row }
    ensures resting { IsAtRest heap.now hand.new None }
    ensures references { hand.new.view.references ≡ without_one row hand.old.view.references }
{
    releases(rt, heap, hand, row);
    settles(rt, heap, hand, host)
}
