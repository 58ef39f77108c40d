//! A thousand lists, each in the one after it, die by one release.

ghost use Rattle.std.specs.Prelude.{◌≡◌, None, [], ◌∷◌, IfSome, OnSome};
ghost use Rattle.brc_model.specs.Layout.{root_row, IsCounted};
ghost use Rattle.brc_fixtures.specs.Resting.{IsAtRest};

use brc_fixtures::{born, gives_up, locks, puts, unlocks};
use brc_heap::{Hand, Heap};
use brc_host::{FakeHost, FakeResource};
use brc_lang::Kind;
use std::sync::Wait;

/// How many lists there are.
const LISTS: u32 = 1000;

/// Gives birth to a list, and puts the one that the hand holds into it. Returns the new list's row, or `None` if the
/// heap has no room for it.
#[tactic(auto, using(brc_fixtures::proofs::Resting::holds_first, brc_fixtures::proofs::Resting::holds_second, brc_fixtures::proofs::Resting::keeps_other, brc_fixtures::proofs::Resting::without_second))]
pub fn around(heap: &Heap<FakeResource>, hand: &mut Hand<FakeResource>, inner: u32) -> Option<u32>
    requires resting { IsAtRest heap.now hand.old None }
    requires counted { IsCounted heap.now.layout inner }
    requires references { hand.old.view.references ≡ inner ∷ root_row ∷ [] }
    ensures resting { OnSome result (IsAtRest heap.now hand.new None) }
    ensures counted { IfSome result (λ row. IsCounted heap.now.layout row) }
    ensures references { IfSome result (λ row. hand.new.view.references ≡ row ∷ root_row ∷ []) }
{
    let row = born(heap, hand, Kind::List, 1)?;
    if row == inner {
        return None;
    }
    if !locks(heap, hand, row) {
        return None;
    }
    if !puts(heap, hand, row, inner) {
        return None;
    }
    unlocks(heap, hand, row);
    Some(row)
}

/// Makes the lists, and gives up the last one. Returns how many closes have failed, or `None` if the heap has no room
/// for all of them.
#[tactic(auto, using(brc_fixtures::proofs::Resting::holds_first, brc_fixtures::proofs::Resting::without_first))]
pub fn chain_of_lists<R: Wait>(
    rt: &R,
    heap: &Heap<FakeResource>,
    hand: &mut Hand<FakeResource>,
    host: &mut FakeHost<'_>,
) -> Option<u64>
    requires resting { IsAtRest heap.now hand.old None }
    requires references { hand.old.view.references ≡ root_row ∷ [] }
    ensures resting { OnSome result (IsAtRest heap.now hand.new None) }
    ensures references { OnSome result (hand.new.view.references ≡ root_row ∷ []) }
{
    let mut outer = born(heap, hand, Kind::List, 1)?;
    for _ in 1..LISTS {
        outer = around(heap, hand, outer)?;
    }
    Some(gives_up(rt, heap, hand, host, outer))
}
