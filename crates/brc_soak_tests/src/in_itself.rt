//! A list in its own cell stays: no thread gives up the reference that the cell has.

ghost use Rattle.std.specs.Prelude.{◌≡◌, None, [], ◌∷◌, OnSome};
ghost use Rattle.brc_model.specs.Layout.{root_row};
ghost use Rattle.brc_fixtures.specs.Resting.{IsAtRest};

use brc_fixtures::{born, gives_up, locks, puts, retains, unlocks};
use brc_heap::{Hand, Heap};
use brc_host::{FakeHost, FakeResource};
use brc_lang::Kind;
use std::sync::Wait;

/// Gives birth to a list, puts it into its own cell, and gives up the other reference to it. Returns how many closes
/// have failed, or `None` if the heap has no room for the list.
#[tactic(auto, using(brc_fixtures::proofs::Resting::holds_first, brc_fixtures::proofs::Resting::holds_both, brc_fixtures::proofs::Resting::without_first))]
pub fn puts_into_itself<R: Wait>(
    rt: &R,
    heap: &Heap<FakeResource>,
    hand: &mut Hand<FakeResource>,
    host: &mut FakeHost<'_>,
) -> Option<u64>
    requires resting { IsAtRest heap.now hand.old None }
    requires references { hand.old.view.references ≡ root_row ∷ [] }
    ensures resting { OnSome result (IsAtRest heap.now hand.new None) }
    ensures references { OnSome result (hand.new.view.references ≡ root_row ∷ []) }
{
    let row = born(heap, hand, Kind::List, 1)?;
    retains(heap, hand, row);
    if !locks(heap, hand, row) {
        return None;
    }
    if !puts(heap, hand, row, row) {
        return None;
    }
    unlocks(heap, hand, row);
    Some(gives_up(rt, heap, hand, host, row))
}
