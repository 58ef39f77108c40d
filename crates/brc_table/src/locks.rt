//! The steps by which a hand enters and leaves the critical section of an object (Python/C API manual, Python Critical
//! Section API). The gate of an object says whether it is free, or which thread has locked it.

ghost use Rattle.std.specs.Prelude.{◌≡◌, ◌<◌, ◌==◌, ℕ, true, None, Some, ◌∷◌, if◌then◌else◌};
ghost use Rattle.brc_word.specs.Words.{free_word, locked_word};
ghost use Rattle.brc_model.specs.Duties.{resources_of};
ghost use Rattle.brc_model.specs.Layout.{row_count};
ghost use Rattle.brc_table.specs.Views.{view_after, locking, unlocking};
ghost use Rattle.brc_table.specs.KnownWords.{knows_kind};
ghost use Rattle.brc_table.specs.Plays.{overwritten};
ghost use Rattle.brc_table.specs.Uses.{FirstField, behind_field};
ghost use Rattle.brc_table.specs.Hands.{IsOf, IsRunning, HoldsOne, HasNoWork, HasNoRetain};

use crate::hand::Hand;
use crate::model_laws::model_laws;
use crate::place::{GATE, in_line};
use crate::rule::{Locked, OfRow};
use crate::words::Words;
use brc_model::{Duty, immortals_are_free, locks_begin, unlocks_begin, work_is_put_aside};
use brc_word::locked;
use brc_word::values::FREE;
use std::marker::Brand;

impl<T: Drop> Words<T> {
    /// Tries once to lock an object that the hand holds: exchanges its gate, if it is free, for one that names the
    /// hand's thread, and takes the object's field with it. Returns the gate found, 1 if it was free. If the hand has
    /// seen the object's kind, it knows whether the field has a resource.
    pub fn gate_lock(&self, hand: &mut Hand<T>, row: u32) -> u64
        requires table { IsOf self.now hand.old }
        requires running { IsRunning hand.old.view }
        requires held { HoldsOne hand.old.view row }
        requires idle { HasNoWork hand.old.view row }
        requires unlocked { hand.old.view.actor.locked ≡ None }
        ensures table { hand.new.table ≡ hand.old.table }
        ensures carried { hand.new.carried ≡ hand.old.carried }
        ensures view { hand.new.view ≡ view_after (locking hand.old.view row hand.new.view.in_field) result }
        ensures fields { hand.new.fields
            ≡ (if result == free_word then (row, hand.new.view.in_field) ∷ hand.old.fields else hand.old.fields) }
        ensures kind { (word : ℕ) → result ≡ free_word → 0 < word
            → knows_kind row word hand.old.view ≡ true → hand.new.view.in_field ≡ resources_of word }
    {
        self.layout_is_plain();
        hand.rows_are_there();
        let gate = locked(hand.thread);
        self.lock_gate::<Brand>(hand, row, gate)
    }

    /// Unlocks the object that the hand has locked: stores that its gate is free, and gives the object's field back,
    /// which has to hold what it held when the hand took it.
    #[inline(always)]
    pub fn gate_unlock(&self, hand: &mut Hand<T>, row: u32)
        requires table { IsOf self.now hand.old }
        requires running { IsRunning hand.old.view }
        requires held { HoldsOne hand.old.view row }
        requires idle { HasNoWork hand.old.view row }
        requires locked { hand.old.view.actor.locked ≡ Some row }
        requires retains { HasNoRetain hand.old.view }
        requires field { FirstField hand.old.fields row hand.old.view.in_field }
        ensures table { hand.new.table ≡ hand.old.table }
        ensures carried { hand.new.carried ≡ hand.old.carried }
        ensures view { hand.new.view ≡ view_after (unlocking hand.old.view row)
            (overwritten (unlocking hand.old.view row)) }
        ensures fields { hand.new.fields ≡ behind_field hand.old.fields }
    {
        work_is_put_aside();
        unlocks_begin();
        immortals_are_free();
        self.layout_is_plain();
        hand.rows_are_there();
        self.step_from::<Brand>(hand, &Duty::UnlockGate { row });
    }

    /// Tries to lock the row that the type names: exchanges its gate, if it is free, for one that names the hand's
    /// thread, and then takes the row's field. Returns the gate found. If the hand has seen the object's kind, it knows
    /// whether the field has a resource.
    fn lock_gate<R: OfRow>(&self, hand: &mut Hand<T>, row: u32, gate: u64) -> u64
        requires row { row ≡ R.target }
        requires table { IsOf self.now hand.old }
        requires running { IsRunning hand.old.view }
        requires held { HoldsOne hand.old.view row }
        requires idle { HasNoWork hand.old.view row }
        requires unlocked { hand.old.view.actor.locked ≡ None }
        requires there { row < row_count self.now.layout }
        requires gate { gate ≡ locked_word hand.old.view.thread }
        ensures table { hand.new.table ≡ hand.old.table }
        ensures carried { hand.new.carried ≡ hand.old.carried }
        ensures view { hand.new.view ≡ view_after (locking hand.old.view row hand.new.view.in_field) result }
        ensures fields { hand.new.fields
            ≡ (if result == free_word then (row, hand.new.view.in_field) ∷ hand.old.fields else hand.old.fields) }
        ensures kind { (word : ℕ) → result ≡ free_word → 0 < word
            → knows_kind row word hand.old.view ≡ true → hand.new.view.in_field ≡ resources_of word }
    {
        work_is_put_aside();
        locks_begin();
        immortals_are_free();
        model_laws();
        let index = in_line(GATE, row);
        self.table
            .shared
            .compare_exchange::<Locked<R>>(&mut hand.seat, index, FREE, gate)
    }
}
