//! Locks, and the items of a locked list.

ghost use Rattle.std.specs.Prelude.{◌≡◌, ◌<◌, ◌≤◌, None, Some, if◌then◌else◌, length};
ghost use Rattle.brc_model.specs.Layout.{root_row};
ghost use Rattle.brc_table.specs.Views.{next_row, worker_view};
ghost use Rattle.brc_fixtures.specs.Modules.{plain_layout};
ghost use Rattle.brc_fixtures.specs.Resting.{IsAlone};
ghost use Rattle.brc_heap_tests.specs.Ready.{IsResting};

use crate::calls::ROOT;
use brc_heap::{Hand, Heap};
use brc_lang::Kind;
use brc_list::Lists;
use std::process::Abort;
use std::test::*;

/// The cells of the root.
const CELLS: u32 = 8;

/// The value of the number.
const VALUE: u32 = 7;

/// Tries to lock the root. Returns whether the hand has locked it.
pub fn locks(heap: &Heap<u32>, hand: &mut Hand<u32>) -> bool
    requires resting { IsResting heap.now hand.old None }
    ensures resting { IsResting heap.now hand.new (if result then Some root_row else None) }
    ensures references { hand.new.view.references ≡ hand.old.view.references }
    ensures next { next_row hand.new.view ≡ next_row hand.old.view }
{
    Lists::new(heap).try_lock(hand, ROOT)
}

/// Unlocks the root.
pub fn unlocks(heap: &Heap<u32>, hand: &mut Hand<u32>)
    requires resting { IsResting heap.now hand.old (Some root_row) }
    ensures resting { IsResting heap.now hand.new None }
    ensures references { hand.new.view.references ≡ hand.old.view.references }
    ensures next { next_row hand.new.view ≡ next_row hand.old.view }
{
    Lists::new(heap).unlock(hand, ROOT);
}

/// Returns what two cells of the root have, which the hand has locked.
fn items(heap: &Heap<u32>, hand: &mut Hand<u32>) -> Option<[Option<u32>; 2]>
    requires resting { IsResting heap.now hand.old (Some root_row) }
    ensures resting { IsResting heap.now hand.new (Some root_row) }
    ensures references { hand.new.view.references ≡ hand.old.view.references }
    ensures next { next_row hand.new.view ≡ next_row hand.old.view }
{
    let lists = Lists::new(heap);
    if lists.size(hand, ROOT) < CELLS {
        return None;
    }
    let first = lists.item(hand, ROOT, 0);
    Some([first, lists.item(hand, ROOT, CELLS - 1)])
}

/// Puts a new number into the root's last cell, and takes it out again. Returns what each of the two swaps found, and
/// what the cell had after each.
fn put_and_taken(heap: &Heap<u32>, hand: &mut Hand<u32>) -> Option<[Option<u32>; 4]>
    requires resting { IsResting heap.now hand.old (Some root_row) }
    requires few { length hand.old.view.references ≤ 1 }
    requires next { next_row hand.old.view ≡ 2 }
{
    let lists = Lists::new(heap);
    if !heap.room(hand) || lists.size(hand, ROOT) < CELLS {
        return None;
    }
    let number = heap.birth(hand, Kind::Num, VALUE, None);
    let before = lists.swap_item(hand, ROOT, CELLS - 1, Some(number));
    let put = lists.item(hand, ROOT, CELLS - 1);
    let taken = lists.swap_item(hand, ROOT, CELLS - 1, None);
    Some([before, put, taken, lists.item(hand, ROOT, CELLS - 1)])
}

/// Puts a new number into the root's last cell, which has the only reference to it from then on, and borrows it from
/// there. Returns its kind and its argument.
#[tactic(auto, using(crate::proofs::Readiness::rests_still, crate::proofs::Readiness::borrows_again))]
fn borrowed(heap: &Heap<u32>, hand: &mut Hand<u32>) -> Option<(Kind, u32)>
    requires resting { IsResting heap.now hand.old (Some root_row) }
    requires few { length hand.old.view.references ≤ 1 }
    requires next { next_row hand.old.view ≡ 2 }
{
    let lists = Lists::new(heap);
    if !heap.room(hand) || lists.size(hand, ROOT) < CELLS {
        return None;
    }
    let number = heap.birth(hand, Kind::Num, VALUE, None);
    lists.swap_item(hand, ROOT, CELLS - 1, Some(number));
    match lists.item(hand, ROOT, CELLS - 1) {
        Some(row) if row != ROOT => {
            let kind = heap.kind_of(hand, row);
            Some((kind, heap.arg_of(hand, row)))
        }
        _ => None,
    }
}

/// Asserts that one hand at a time locks a list, and what its cells have.
#[tactic(auto, using(crate::proofs::Readiness::resting_alone))]
pub fn locked_lists_have_their_items<R: Abort>(
    rt: &R,
    heap: &Heap<u32>,
    one: &mut Hand<u32>,
    other: &mut Hand<u32>,
)
    requires layout { heap.now.layout ≡ plain_layout 2 1 }
    requires view { one.old.view ≡ worker_view heap.now.layout 1 }
    requires one { IsAlone heap.now one.old }
    requires other { IsAlone heap.now other.old }
{
    let first = locks(heap, one);
    assert!(rt; first);
    let meanwhile = locks(heap, other);
    assert!(rt; !meanwhile);
    unlocks(heap, one);
    let second = locks(heap, other);
    assert!(rt; second);
    unlocks(heap, other);
    let again = locks(heap, one);
    assert!(rt; again);
    assert_eq!(rt; items(heap, one), Some([None, None]));
    assert_eq!(rt;
        put_and_taken(heap, one),
        Some([None, Some(2), Some(2), None])
    );
}

/// Asserts that a number which is borrowed from a cell has its value.
#[tactic(auto, using(crate::proofs::Readiness::resting_alone))]
pub fn borrowed_numbers_have_their_values<R: Abort>(rt: &R, heap: &Heap<u32>, hand: &mut Hand<u32>)
    requires layout { heap.now.layout ≡ plain_layout 1 1 }
    requires view { hand.old.view ≡ worker_view heap.now.layout 1 }
    requires alone { IsAlone heap.now hand.old }
{
    let locked = locks(heap, hand);
    assert!(rt; locked);
    assert_eq!(rt; borrowed(heap, hand), Some((Kind::Num, VALUE)));
}
