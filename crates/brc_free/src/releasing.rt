//! Releasing a reference, whatever becomes of the object.

ghost use Rattle.std.specs.Prelude.{◌≡◌, ℕ, []};
ghost use Rattle.brc_table.specs.Hands.{IsOf, IsRunning, HoldsOne, KeepsLock, HasNoWork};
ghost use Rattle.brc_heap.specs.Calls.{released_locally};
ghost use Rattle.brc_free.specs.Works.{HasWorked, HasReleased};

use crate::finaliser::Finaliser;
use crate::giving_up::Remaining;
use crate::waiting::Waits;
use brc_heap::{Hand, Marker};
use std::sync::Wait;

impl<'h, T: Drop, Q: Marker<T> + Waits> Finaliser<'h, T, Q> {
    /// Gives up a reference to an object (`Py_DECREF`). An object without a reference goes to the head of the hand's
    /// dying chain: `settle` finalises it.
    ///
    /// The hand keeps a reference to the object that it has locked.
    #[inline(always)]
    pub fn release<R: Wait>(&self, rt: &R, hand: &mut Hand<T>, row: u32)
        requires table { IsOf self.now hand.old }
        requires running { IsRunning hand.old.view }
        requires held { HoldsOne hand.old.view row }
        requires keeps { KeepsLock hand.old.view row }
        requires idle { HasNoWork hand.old.view row }
        ensures table { IsOf self.now hand.new }
        ensures carried { hand.new.carried ≡ hand.old.carried }
        ensures fields { hand.new.fields ≡ hand.old.fields }
        ensures work { (word : ℕ) × HasWorked (released_locally hand.old.view row word) [] [] hand.new.view }
        ensures released { HasReleased row hand.old.view hand.new.view }
    {
        let release = self.heap.release_local(hand, row);
        let remaining = self.end_release(hand, row, release);
        match remaining {
            Remaining::Nothing => {}
            Remaining::Merge | Remaining::GiveUp => {
                Self::merge_or_give_up(self.heap, self.queue, rt, hand, row, remaining);
            }
        }
    }
}
