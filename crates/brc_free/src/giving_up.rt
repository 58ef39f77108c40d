//! Giving references up while other work waits.

ghost use Rattle.std.specs.Prelude.{◌≡◌, ◌≢◌, List, [], ◌++◌};
ghost use Rattle.brc_model.specs.declared.duty.Duty.{Duty};
ghost use Rattle.brc_model.specs.declared.actor.Status.TheVariants.{Gone};
ghost use Rattle.brc_table.specs.Hands.{IsOf, KeepsButView};
ghost use Rattle.brc_heap.specs.Tries.{DecidesNext, GivesUpNext, MarksNext, MergesNext};
ghost use Rattle.brc_free.specs.Works.{HasWorked, ReleasesNext, EndsRelease, IsLeftToCall, behind, merge_left, remaining_left};

use crate::finaliser::Finaliser;
use crate::merging::merge;
use crate::waiting::Waits;
use brc_heap::{Hand, Heap, LocalRelease, Looked, Marker, SharedRelease, Work, ZeroStep};
use brc_model::{Duty, Holding};
use brc_table::Contention;
use std::sync::Wait;

/// Does what `merge` does, as a call: an owner's last local reference is mostly the last of all.
#[inline(never)]
fn merge_at_zero<T: Drop, Q: Waits, R: Wait>(
    queue: &Q,
    rt: &R,
    heap: &Heap<T>,
    hand: &mut Hand<T>,
    row: u32,
)
    requires table { IsOf heap.now hand.old }
    requires alive { hand.old.view.actor.status ≢ Gone }
    requires duty { MergesNext row hand.old.view.actor.agenda }
    ensures kept { KeepsButView hand.old hand.new }
    ensures work { HasWorked hand.old.view [] (merge_left hand.old.view.actor.agenda) hand.new.view }
{
    merge(queue, rt, heap, hand, row);
}

/// What a release leaves to a call, once the hand has made the steps of an owner.
#[derive(Clone, Copy)]
pub(crate) enum Remaining {
    /// The release is over.
    Nothing,
    /// The object's two counts are to be merged.
    Merge,
    /// The reference is to be given up in the shared word.
    GiveUp,
}

impl<'h, T: Drop, Q: Marker<T> + Waits> Finaliser<'h, T, Q> {
    /// Does the next duties, behind which others may come: gives up a reference that came out of a cell.
    pub(crate) fn release_item<R: Wait>(&self, rt: &R, hand: &mut Hand<T>, row: u32)
        requires table { IsOf self.now hand.old }
        requires alive { hand.old.view.actor.status ≢ Gone }
        requires duty { ReleasesNext row hand.old.view.actor.agenda }
        ensures kept { KeepsButView hand.old hand.new }
        ensures work { HasWorked hand.old.view [] (behind hand.old.view.actor.agenda) hand.new.view }
    {
        let holding = Holding::InFlight;
        // `ReleasesImmortal`, `OwnerReleases`, `OtherReleases` (PEP 703, Biased Reference Counting: `Py_DECREF`): who
        // owns the object decides.
        let word = self
            .heap
            .words()
            .step(hand, Duty::ReleaseLoad { row, holding });
        let release = self.heap.lower(hand, row, word);
        let remaining = self.end_release(hand, row, release);
        Self::merge_or_give_up(self.heap, self.queue, rt, hand, row, remaining);
    }

    /// Does the next duty, behind which others may come, after a release's step on the local word: if the last local
    /// reference is gone, decides what becomes of the object. Returns what the release leaves to a call.
    ///
    /// An owner's release mostly ends here. It has no call and no loop, because each saved register and each load of an
    /// address costs after an atomic step.
    #[inline(always)]
    pub(crate) fn end_release(
        &self,
        hand: &mut Hand<T>,
        row: u32,
        release: LocalRelease,
    ) -> Remaining
        requires table { IsOf self.now hand.old }
        requires alive { hand.old.view.actor.status ≢ Gone }
        requires duty { (rest : List Duty) × EndsRelease row release rest hand.old.view }
        ensures kept { KeepsButView hand.old hand.new }
        ensures work { (rest : List Duty) → EndsRelease row release rest hand.old.view
            → HasWorked hand.old.view [] (remaining_left row result ++ rest) hand.new.view }
    {
        match release {
            LocalRelease::Skip | LocalRelease::Kept => Remaining::Nothing,
            LocalRelease::Zero => self.decide_at_zero(hand, row),
            LocalRelease::Share => Remaining::GiveUp,
        }
    }

    /// Does the next duty, behind which others may come: decides what becomes of an object whose last local reference
    /// is gone. Returns what the release leaves to a call.
    #[inline(always)]
    fn decide_at_zero(&self, hand: &mut Hand<T>, row: u32) -> Remaining
        requires table { IsOf self.now hand.old }
        requires alive { hand.old.view.actor.status ≢ Gone }
        requires duty { DecidesNext row hand.old.view.actor.agenda }
        ensures kept { KeepsButView hand.old hand.new }
        ensures work { HasWorked hand.old.view [] (remaining_left row result ++ behind hand.old.view.actor.agenda)
            hand.new.view }
    {
        match self.heap.decide(hand, row, Work::Next) {
            ZeroStep::Dying => Remaining::Nothing,
            ZeroStep::Merge => Remaining::Merge,
        }
    }

    /// Does the next duties, behind which others may come: what a release leaves to a call.
    #[inline(always)]
    pub(crate) fn merge_or_give_up<R: Wait>(
        heap: &'h Heap<T>,
        queue: &'h Q,
        rt: &R,
        hand: &mut Hand<T>,
        row: u32,
        remaining: Remaining,
    )
        requires same { Q.heap queue.now ≡ heap.now }
        requires table { IsOf heap.now hand.old }
        requires alive { hand.old.view.actor.status ≢ Gone }
        requires duty { (rest : List Duty) × IsLeftToCall row remaining rest hand.old.view }
        ensures kept { KeepsButView hand.old hand.new }
        ensures work { (rest : List Duty) → IsLeftToCall row remaining rest hand.old.view
            → HasWorked hand.old.view [] rest hand.new.view }
    {
        match remaining {
            Remaining::Nothing => {}
            Remaining::Merge => merge_at_zero(queue, rt, heap, hand, row),
            Remaining::GiveUp => Self::give_up_as_other(heap, queue, rt, hand, row),
        }
    }

    /// Does what `give_up` does, as a call, for a hand that doesn't count the object locally.
    #[inline(never)]
    fn give_up_as_other<R: Wait>(
        heap: &'h Heap<T>,
        queue: &'h Q,
        rt: &R,
        hand: &mut Hand<T>,
        row: u32,
    )
        requires same { Q.heap queue.now ≡ heap.now }
        requires table { IsOf heap.now hand.old }
        requires alive { hand.old.view.actor.status ≢ Gone }
        requires duty { GivesUpNext row hand.old.view.actor.agenda }
        ensures kept { KeepsButView hand.old hand.new }
        ensures work { HasWorked hand.old.view [] (behind hand.old.view.actor.agenda) hand.new.view }
    {
        Finaliser::new(heap, queue).give_up(rt, hand, row);
    }

    /// Does the next duties, behind which others may come: gives up a reference in the row's shared word, and tries
    /// again until no other thread has changed the word in between. If the reference goes into the queue of an owner
    /// that no longer looks there, the hand merges the object, and then gives the reference up.
    #[inline(always)]
    pub fn give_up<R: Wait>(&self, rt: &R, hand: &mut Hand<T>, row: u32)
        requires table { IsOf self.now hand.old }
        requires alive { hand.old.view.actor.status ≢ Gone }
        requires duty { GivesUpNext row hand.old.view.actor.agenda }
        ensures kept { KeepsButView hand.old hand.new }
        ensures work { HasWorked hand.old.view [] (behind hand.old.view.actor.agenda) hand.new.view }
    {
        match self.heap.release_shared(hand, row, Work::Next) {
            SharedRelease::Kept | SharedRelease::Dying => {}
            SharedRelease::Queued => Self::hand_over(self.heap, self.queue, rt, hand, row),
            SharedRelease::Again => {
                hand.count(Contention::LOST);
                Self::give_up_again(self.heap, self.queue, rt, hand, row);
            }
        }
    }

    /// Does the next duties, behind which others may come: puts the object into its owner's queue. If the owner no
    /// longer looks there, the hand merges the object, and then gives the reference up.
    #[inline(never)]
    fn hand_over<R: Wait>(heap: &'h Heap<T>, queue: &'h Q, rt: &R, hand: &mut Hand<T>, row: u32)
        requires same { Q.heap queue.now ≡ heap.now }
        requires table { IsOf heap.now hand.old }
        requires alive { hand.old.view.actor.status ≢ Gone }
        requires duty { MarksNext row hand.old.view.actor.agenda }
        ensures kept { KeepsButView hand.old hand.new }
        ensures work { HasWorked hand.old.view [] (behind hand.old.view.actor.agenda) hand.new.view }
    {
        hand.count(Contention::QUEUED);
        match queue.post(hand, row) {
            Looked::Left => {}
            Looked::Claimed => {
                hand.count(Contention::CLAIMED);
                merge(queue, rt, heap, hand, row);
                Self::give_up_again(heap, queue, rt, hand, row);
            }
        }
    }
}
