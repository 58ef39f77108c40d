//! A list that dies by a hand: until the hand settles its chain, it asks for the list's kind, and takes the item out.

ghost use Rattle.std.specs.Prelude.{◌≡◌, ◌<◌, None, [], ◌∷◌, length, IfSome, OnSome};
ghost use Rattle.brc_model.specs.Layout.{root_row, IsCounted};
ghost use Rattle.brc_table.specs.Hands.{most_references};
ghost use Rattle.brc_fixtures.specs.Resting.{IsAtRest};

use crate::chain::around;
use brc_fixtures::{born, gives_up, releases, settles};
use brc_heap::{Hand, Heap};
use brc_host::{FakeHost, FakeResource};
use brc_lang::Kind;
use brc_list::Lists;
use std::sync::Wait;

/// The value of the number.
const VALUE: u32 = 7;

/// Returns the kind and the argument of an object, or `None` if it isn't the first one of the hand's dying chain.
#[tactic(auto, using(brc_fixtures::proofs::Resting::rests_after_call))]
fn asked(heap: &Heap<FakeResource>, hand: &mut Hand<FakeResource>, row: u32) -> Option<(Kind, u32)>
    requires resting { IsAtRest heap.now hand.old None }
    ensures resting { IsAtRest heap.now hand.new None }
    ensures references { hand.new.view.references ≡ hand.old.view.references }
{
    if hand.head() == 0 || hand.head() - 1 != row {
        return None;
    }
    let kind = heap.kind_of(hand, row);
    Some((kind, heap.arg_of(hand, row)))
}

/// Returns what the first cell of a list has, or `None` if the list isn't the first object of the hand's dying chain,
/// or has no cell.
fn first_item(
    heap: &Heap<FakeResource>,
    hand: &mut Hand<FakeResource>,
    row: u32,
) -> Option<Option<u32>>
    requires resting { IsAtRest heap.now hand.old None }
    ensures resting { IsAtRest heap.now hand.new None }
    ensures references { hand.new.view.references ≡ hand.old.view.references }
{
    if hand.head() == 0 || hand.head() - 1 != row {
        return None;
    }
    let lists = Lists::new(heap);
    if lists.size(hand, row) == 0 {
        return None;
    }
    Some(lists.item(hand, row, 0))
}

/// Takes an object out of the first cell of a list. Returns its row, or `None` if the list isn't the first object of
/// the hand's dying chain, or has nothing there.
#[tactic(auto, using(brc_fixtures::proofs::Resting::some_counted, brc_fixtures::proofs::Resting::lists_one_more))]
fn taken_out(heap: &Heap<FakeResource>, hand: &mut Hand<FakeResource>, row: u32) -> Option<u32>
    requires resting { IsAtRest heap.now hand.old None }
    requires few { length hand.old.view.references < most_references }
    ensures resting { OnSome result (IsAtRest heap.now hand.new None) }
    ensures counted { IfSome result (λ item. IsCounted heap.now.layout item) }
    ensures references { IfSome result (λ item. hand.new.view.references ≡ item ∷ hand.old.view.references) }
{
    heap.words().layout_is_plain();
    if hand.head() == 0 || hand.head() - 1 != row {
        return None;
    }
    let lists = Lists::new(heap);
    if lists.size(hand, row) == 0 {
        return None;
    }
    let item = lists.swap_item(hand, row, 0, None)?;
    if item == 0 {
        return None;
    }
    Some(item)
}

/// What a hand sees of a dying list: its kind and how many cells it has, what is in its first cell before the item is
/// taken out and afterwards, and the item.
pub type Seen = (Option<(Kind, u32)>, [Option<Option<u32>>; 2], u32);

/// Lets a list with a number die, takes the number out of it, settles, and gives the number up. Returns what the hand
/// has seen, or `None` if the heap has no room, or a close has failed.
#[tactic(auto, using(brc_fixtures::proofs::Resting::holds_first, brc_fixtures::proofs::Resting::without_first))]
pub fn taken_from_dying<R: Wait>(
    rt: &R,
    heap: &Heap<FakeResource>,
    hand: &mut Hand<FakeResource>,
    host: &mut FakeHost<'_>,
) -> Option<Seen>
    requires resting { IsAtRest heap.now hand.old None }
    requires references { hand.old.view.references ≡ root_row ∷ [] }
    ensures resting { OnSome result (IsAtRest heap.now hand.new None) }
    ensures references { OnSome result (hand.new.view.references ≡ root_row ∷ []) }
{
    let inner = born(heap, hand, Kind::Num, VALUE)?;
    let row = around(heap, hand, inner)?;
    releases(rt, heap, hand, row);
    let list = asked(heap, hand, row);
    let before = first_item(heap, hand, row);
    let taken = taken_out(heap, hand, row)?;
    let after = first_item(heap, hand, row);
    if settles(rt, heap, hand, host) != 0 {
        return None;
    }
    if gives_up(rt, heap, hand, host, taken) != 0 {
        return None;
    }
    Some((list, [before, after], taken))
}
