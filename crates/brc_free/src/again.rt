//! What a hand does after an exchange that another thread came before.

ghost use Rattle.std.specs.Prelude.{◌≡◌, ◌≢◌, []};
ghost use Rattle.brc_model.specs.declared.actor.Status.TheVariants.{Gone};
ghost use Rattle.brc_table.specs.Hands.{IsOf, KeepsButView};
ghost use Rattle.brc_heap.specs.Tries.{CarriesNext, GivesUpNext};
ghost use Rattle.brc_free.specs.Works.{HasWorked, behind, carried_left};

use crate::finaliser::Finaliser;
use crate::merging::merge;
use crate::waiting::Waits;
use brc_heap::{Hand, Heap, Looked, Marker, MergeStep, SharedRelease, Work};
use brc_table::Contention;
use std::sync::Wait;

/// Does the next duties, behind which others may come: adds the carried local count to the row's shared one, and tries
/// again until no other thread has changed the shared word in between.
#[cold]
#[inline(never)]
pub(crate) fn merge_again<T: Drop, Q: Waits, R: Wait>(
    queue: &Q,
    rt: &R,
    heap: &Heap<T>,
    hand: &mut Hand<T>,
    row: u32,
    carried: u32,
)
    requires table { IsOf heap.now hand.old }
    requires alive { hand.old.view.actor.status ≢ Gone }
    requires duty { CarriesNext row carried hand.old.view.actor.agenda }
    ensures kept { KeepsButView hand.old hand.new }
    ensures work { HasWorked hand.old.view [] (carried_left hand.old.view.actor.agenda) hand.new.view }
{
    for _ in rt.forever() {
        hand.count(Contention::LOST);
        queue.wait();
        match heap.merge(hand, row, carried, Work::Next) {
            MergeStep::Kept | MergeStep::Dying => {
                hand.count(Contention::MERGED);
                return;
            }
            MergeStep::Again => {}
        }
    }
    unreachable!()
}

impl<'h, T: Drop, Q: Marker<T> + Waits> Finaliser<'h, T, Q> {
    /// Does the next duties, behind which others may come: gives up a reference in the row's shared word, and tries
    /// again until no other thread has changed the word in between, as `give_up`.
    #[cold]
    #[inline(never)]
    pub(crate) fn give_up_again<R: Wait>(
        heap: &'h Heap<T>,
        queue: &'h Q,
        rt: &R,
        hand: &mut Hand<T>,
        row: u32,
    )
        requires same { Q.heap queue.now ≡ heap.now }
        requires table { IsOf heap.now hand.old }
        requires alive { hand.old.view.actor.status ≢ Gone }
        requires duty { GivesUpNext row hand.old.view.actor.agenda }
        ensures kept { KeepsButView hand.old hand.new }
        ensures work { HasWorked hand.old.view [] (behind hand.old.view.actor.agenda) hand.new.view }
    {
        for _ in rt.forever() {
            match heap.release_shared(hand, row, Work::Next) {
                SharedRelease::Kept | SharedRelease::Dying => return,
                SharedRelease::Queued => {
                    hand.count(Contention::QUEUED);
                    match queue.post(hand, row) {
                        Looked::Left => return,
                        Looked::Claimed => {
                            hand.count(Contention::CLAIMED);
                            merge(queue, rt, heap, hand, row);
                        }
                    }
                }
                SharedRelease::Again => {
                    hand.count(Contention::LOST);
                    queue.wait();
                }
            }
        }
        unreachable!()
    }
}
