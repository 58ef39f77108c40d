//! The steps by which a hand gives birth to an object (PEP 703, Biased Reference Counting: a new object has one local
//! reference and the default state).

ghost use Rattle.std.specs.Prelude.{◌≡◌, ◌≢◌, ◌<◌, ◌≤◌, true, ◌∷◌};
ghost use Rattle.brc_model.specs.declared.actor.Status.TheVariants.{Gone};
ghost use Rattle.brc_model.specs.Duties.{cells_of};
ghost use Rattle.brc_model.specs.Kinds.{kind_of_word, is_counted_kind};
ghost use Rattle.brc_model.specs.Machine.{has_room};
ghost use Rattle.brc_table.specs.Views.{view_after, bearing, next_row, field_filled};
ghost use Rattle.brc_table.specs.Plays.{overwritten};
ghost use Rattle.brc_table.specs.Hands.{IsOf, IsRunning};
ghost use Rattle.brc_table.specs.Uses.{HoldsItsOwn, behind_field};
ghost use Rattle.brc_table.specs.Calls.{OwnsFirst};

use crate::hand::Hand;
use crate::words::Words;
use brc_effect::rows::row_at;
use brc_model::{
    Duty, Holding, births_begin, duties_are_kept, needed_fields_are_unlocked, work_is_put_aside,
};
use std::marker::Brand;

impl<T: Drop> Words<T> {
    /// Begins the birth of an object: stores its kind word, and takes its field, which is empty. Returns the object's
    /// row, the next of the hand's block.
    #[inline(always)]
    pub fn kind_store(&self, hand: &mut Hand<T>, word: u64) -> u32
        requires table { IsOf self.now hand.old }
        requires running { IsRunning hand.old.view }
        requires worker { 0 < hand.old.view.thread }
        requires room { has_room hand.old.view.layout hand.old.view.thread hand.old.view.actor.used ≡ true }
        requires kind { is_counted_kind (kind_of_word word) ≡ true }
        requires cells { cells_of word ≤ hand.old.view.layout.cells }
        ensures row { result ≡ next_row hand.old.view }
        ensures table { hand.new.table ≡ hand.old.table }
        ensures carried { hand.new.carried ≡ hand.old.carried }
        ensures view { hand.new.view ≡ view_after (bearing hand.old.view word) 0 }
        ensures fields { hand.new.fields ≡ (result, 0) ∷ hand.old.fields }
    {
        work_is_put_aside();
        births_begin();
        self.layout_is_plain();
        hand.rows_are_there();
        let row = row_at(self.blocks.layout(), hand.thread, hand.used);
        self.step_from::<Brand>(
            hand,
            &Duty::BirthKind {
                row,
                holding: Holding::AsCaller,
                word,
            },
        );
        row
    }

    /// Does the next duty: stores the new object's owner and its first reference, and gives its field back, which has
    /// to hold a resource if the object's kind has one. The object is born.
    #[inline(always)]
    pub fn first_local_store(&self, hand: &mut Hand<T>, row: u32)
        requires table { IsOf self.now hand.old }
        requires alive { hand.old.view.actor.status ≢ Gone }
        requires duty { OwnsFirst row hand.old.view.actor.agenda }
        requires field { HoldsItsOwn hand.old row }
        ensures table { hand.new.table ≡ hand.old.table }
        ensures carried { hand.new.carried ≡ hand.old.carried }
        ensures view { hand.new.view ≡ view_after (field_filled hand.old.view)
            (overwritten (field_filled hand.old.view)) }
        ensures fields { hand.new.fields ≡ behind_field hand.old.fields }
    {
        duties_are_kept();
        needed_fields_are_unlocked();
        hand.fields_are_taken();
        self.layout_is_plain();
        hand.rows_are_there();
        self.step_from::<Brand>(
            hand,
            &Duty::BirthLocal {
                row,
                holding: Holding::AsCaller,
            },
        );
    }
}
