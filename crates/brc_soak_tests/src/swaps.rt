//! Swaps of the cells of lists, each in a lock of its own.

ghost use Rattle.std.specs.Prelude.{◌≡◌, ◌≢◌, ◌<◌, ◌≤◌, ◌+◌, ◌^◌, List, ℕ, true, None, Some, if◌then◌else◌, OnSome};
ghost use Rattle.brc_model.specs.Layout.{IsCounted};
ghost use Rattle.brc_table.specs.Views.{holds};
ghost use Rattle.brc_table.specs.KnownWords.{KnowsCell};
ghost use Rattle.brc_fixtures.specs.Resting.{IsAtRest};
ghost use Rattle.brc_soak_tests.specs.Ledgers.{Tells, IsWhole, counted, with_found};

use crate::ledger::Ledger;
use brc_fixtures::{locks, unlocks};
use brc_heap::{Hand, Heap};
use brc_host::FakeResource;
use brc_list::Lists;

/// How a try to swap a cell ended.
#[derive(Clone, Copy)]
pub enum Swapped {
    /// The hand doesn't hold the list or the new item, or would give its last reference to the list away.
    NotHeld,
    /// Another hand had locked the list.
    Busy,
    /// The object, which the hand had locked, isn't a list with the cell.
    NoCell,
    /// What the cell had before the swap, as the hand has read it, and what the swap has found there.
    Done(Option<u32>, Option<u32>),
}

/// Counts the reference to what was in a cell. Row 0 has no object.
#[tactic(auto, using(crate::proofs::Counting::tells_more))]
fn counts_found(ledger: &mut Ledger, found: Option<u32>)
    requires few { ledger.old.total + 1 < 2 ^ 32 }
    requires whole { IsWhole ledger.old }
    ensures { (rows : List ℕ) → Tells ledger.old rows → Tells ledger.new (with_found found rows) }
{
    match found {
        None | Some(0) => {}
        Some(row) => ledger.more(row),
    }
}

/// Reads a cell of the list that the hand has locked. Returns what is there, or `None` if there is no such cell.
fn reads(
    heap: &Heap<FakeResource>,
    hand: &mut Hand<FakeResource>,
    list: u32,
    cell: u32,
) -> Option<Option<u32>>
    requires resting { IsAtRest heap.now hand.old (Some list) }
    requires held { 1 ≤ holds hand.old.view list }
    ensures resting { IsAtRest heap.now hand.new (Some list) }
    ensures references { hand.new.view.references ≡ hand.old.view.references }
    ensures knows { OnSome result (KnowsCell hand.new.view list cell) }
{
    let lists = Lists::new(heap);
    if cell >= lists.size(hand, list) {
        return None;
    }
    Some(lists.item(hand, list, cell))
}

/// Empties a cell of the list that the hand has locked. Returns what was there.
#[tactic(auto, using(crate::proofs::Counting::tells_whole, crate::proofs::Counting::found_is, crate::proofs::Counting::held_with))]
fn takes_out(
    heap: &Heap<FakeResource>,
    hand: &mut Hand<FakeResource>,
    ledger: &mut Ledger,
    list: u32,
    cell: u32,
) -> Option<u32>
    requires resting { IsAtRest heap.now hand.old (Some list) }
    requires held { 1 ≤ holds hand.old.view list }
    requires tells { Tells ledger.old hand.old.view.references }
    requires few { ledger.old.total + 1 < 2 ^ 32 }
    requires knows { KnowsCell hand.old.view list cell }
    ensures resting { IsAtRest heap.now hand.new (Some list) }
    ensures held { 1 ≤ holds hand.new.view list }
    ensures tells { Tells ledger.new hand.new.view.references }
{
    let found = Lists::new(heap).swap_item(hand, list, cell, None);
    counts_found(ledger, found);
    found
}

/// Puts an object that the hand holds into a cell of the list that the hand has locked. Returns what was there.
#[tactic(auto, using(crate::proofs::Counting::tells_whole, crate::proofs::Counting::tells_less, crate::proofs::Counting::found_is, crate::proofs::Counting::held_with, crate::proofs::Counting::held_after, crate::proofs::Counting::tells_held))]
fn puts_in(
    heap: &Heap<FakeResource>,
    hand: &mut Hand<FakeResource>,
    ledger: &mut Ledger,
    list: u32,
    cell: u32,
    item: u32,
) -> Option<u32>
    requires resting { IsAtRest heap.now hand.old (Some list) }
    requires held { 1 ≤ holds hand.old.view list }
    requires tells { Tells ledger.old hand.old.view.references }
    requires few { ledger.old.total + 1 < 2 ^ 32 }
    requires knows { KnowsCell hand.old.view list cell }
    requires item { item ≢ 0 }
    requires some { 1 ≤ counted ledger.old item }
    requires several { item ≡ list → 2 ≤ counted ledger.old item }
    ensures resting { IsAtRest heap.now hand.new (Some list) }
    ensures held { 1 ≤ holds hand.new.view list }
    ensures tells { Tells ledger.new hand.new.view.references }
{
    ledger.less(item);
    let found = Lists::new(heap).swap_item(hand, list, cell, Some(item));
    counts_found(ledger, found);
    found
}

/// Swaps a cell of the list that the hand has locked.
fn swaps_locked(
    heap: &Heap<FakeResource>,
    hand: &mut Hand<FakeResource>,
    ledger: &mut Ledger,
    list: u32,
    cell: u32,
    item: Option<u32>,
) -> Swapped
    requires resting { IsAtRest heap.now hand.old (Some list) }
    requires held { 1 ≤ holds hand.old.view list }
    requires tells { Tells ledger.old hand.old.view.references }
    requires few { ledger.old.total + 1 < 2 ^ 32 }
    ensures resting { IsAtRest heap.now hand.new (Some list) }
    ensures held { 1 ≤ holds hand.new.view list }
    ensures tells { Tells ledger.new hand.new.view.references }
{
    let Some(read) = reads(heap, hand, list, cell) else {
        return Swapped::NoCell;
    };
    let Some(item) = item else {
        return Swapped::Done(read, takes_out(heap, hand, ledger, list, cell));
    };
    // The last reference to the locked list can't go into a cell: the hand has to hold the list until it unlocks it.
    let least = if item == list { 2 } else { 1 };
    if item == 0 || ledger.count(item) < least {
        return Swapped::NotHeld;
    }
    Swapped::Done(read, puts_in(heap, hand, ledger, list, cell, item))
}

/// Tries to swap a cell of a list: puts in an object that the hand holds, with its reference, or empties the cell. The
/// reference to what was there is the hand's afterwards.
pub fn swaps(
    heap: &Heap<FakeResource>,
    hand: &mut Hand<FakeResource>,
    ledger: &mut Ledger,
    list: u32,
    cell: u32,
    item: Option<u32>,
) -> Swapped
    requires resting { IsAtRest heap.now hand.old None }
    requires tells { Tells ledger.old hand.old.view.references }
    requires few { ledger.old.total + 1 < 2 ^ 32 }
    ensures resting { IsAtRest heap.now hand.new None }
    ensures tells { Tells ledger.new hand.new.view.references }
{
    if list == 0 || ledger.count(list) == 0 {
        return Swapped::NotHeld;
    }
    if !locks(heap, hand, list) {
        return Swapped::Busy;
    }
    let swapped = swaps_locked(heap, hand, ledger, list, cell, item);
    unlocks(heap, hand, list);
    swapped
}
