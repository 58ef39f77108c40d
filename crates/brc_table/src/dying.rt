//! The steps by which a hand begins to finalise an object of its dying chain, and ends it (PEP 703, Biased Reference
//! Counting: an object without a reference is deallocated by the thread that gave up the last one). The hand takes the
//! object off the chain, and says in its gate at the end that it is closed. What comes between are steps of `step`.

ghost use Rattle.std.specs.Prelude.{◌≡◌, ◌≢◌, ◌<◌};
ghost use Rattle.brc_model.specs.declared.actor.Status.TheVariants.{Gone};
ghost use Rattle.brc_table.specs.Views.{view_after, settling, field_emptied};
ghost use Rattle.brc_table.specs.Hands.{IsOf, KeepsButView};
ghost use Rattle.brc_table.specs.Uses.{FirstField, behind_field};
ghost use Rattle.brc_table.specs.Calls.{MaySettle, ClosesRow};

use crate::hand::Hand;
use crate::words::Words;
use brc_model::{Duty, duties_are_kept, needed_fields_are_unlocked, settles_begin};
use std::marker::Brand;

impl<T: Drop> Words<T> {
    /// Takes the first object off the hand's dying chain: loads its gate, which names the next one.
    #[inline(always)]
    pub fn gate_load(&self, hand: &mut Hand<T>) -> u64
        requires table { IsOf self.now hand.old }
        requires chain { 0 < hand.old.view.actor.head }
        requires settles { MaySettle hand.old.view }
        ensures kept { KeepsButView hand.old hand.new }
        ensures view { hand.new.view ≡ view_after (settling hand.old.view) result }
    {
        settles_begin();
        hand.rows_are_there();
        self.step_from::<Brand>(hand, &Duty::Settle)
    }

    /// Does the next duty: closes the dying object, and gives its field back, which has to be empty. Returns the gate
    /// found, which says who deallocates the object.
    ///
    /// The step is a swap, since no duty knows what the gate said of the rest of the chain.
    #[inline(always)]
    pub fn gate_close(&self, hand: &mut Hand<T>, row: u32) -> u64
        requires table { IsOf self.now hand.old }
        requires alive { hand.old.view.actor.status ≢ Gone }
        requires duty { ClosesRow row hand.old.view.actor.agenda }
        requires field { FirstField hand.old.fields row 0 }
        ensures table { hand.new.table ≡ hand.old.table }
        ensures carried { hand.new.carried ≡ hand.old.carried }
        ensures view { hand.new.view ≡ view_after (field_emptied hand.old.view) result }
        ensures fields { hand.new.fields ≡ behind_field hand.old.fields }
    {
        duties_are_kept();
        needed_fields_are_unlocked();
        hand.fields_are_taken();
        hand.rows_are_there();
        self.step_from::<Brand>(hand, &Duty::SettleEnd { row })
    }
}
