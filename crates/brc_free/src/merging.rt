//! Merging an object's two counts while other work waits.

ghost use Rattle.std.specs.Prelude.{◌≡◌, ◌≢◌, []};
ghost use Rattle.brc_model.specs.declared.actor.Status.TheVariants.{Gone};
ghost use Rattle.brc_table.specs.Hands.{IsOf, KeepsButView};
ghost use Rattle.brc_heap.specs.Tries.{MergesNext};
ghost use Rattle.brc_free.specs.Works.{HasWorked, merge_left};

use crate::again::merge_again;
use crate::waiting::Waits;
use brc_heap::{Hand, Heap, MergeStep, Work};
use brc_table::Contention;
use std::sync::Wait;

/// Does the next duties, behind which others may come: swaps the row's local word for nobody's, and adds its count to
/// the shared one; tries again until no other thread has changed the shared word in between. An object without a
/// reference goes to the head of the hand's dying chain. A merge for a handed reference leaves the duty to give that
/// up.
#[inline(always)]
pub fn merge<T: Drop, Q: Waits, R: Wait>(
    queue: &Q,
    rt: &R,
    heap: &Heap<T>,
    hand: &mut Hand<T>,
    row: u32,
)
    requires table { IsOf heap.now hand.old }
    requires alive { hand.old.view.actor.status ≢ Gone }
    requires duty { MergesNext row hand.old.view.actor.agenda }
    ensures kept { KeepsButView hand.old hand.new }
    ensures work { HasWorked hand.old.view [] (merge_left hand.old.view.actor.agenda) hand.new.view }
{
    let carried = match heap.take_local(hand, row, Work::Next) {
        Some(carried) => carried,
        None => return,
    };
    match heap.merge(hand, row, carried, Work::Next) {
        MergeStep::Kept | MergeStep::Dying => hand.count(Contention::MERGED),
        MergeStep::Again => merge_again(queue, rt, heap, hand, row, carried),
    }
}
