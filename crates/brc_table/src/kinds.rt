//! The step by which a hand asks for the kind of an object that it may use, or is to finalise (Python/C API manual,
//! Common Object Structures: `Py_IS_TYPE`).

ghost use Rattle.std.specs.Prelude.{◌≡◌, ◌<◌, ℕ, true, Some};
ghost use Rattle.brc_model.specs.Duties.{resources_of};
ghost use Rattle.brc_model.specs.FirstRows.{first_kind_word};
ghost use Rattle.brc_table.specs.Views.{view_after, asking};
ghost use Rattle.brc_table.specs.KnownWords.{knows_kind};
ghost use Rattle.brc_table.specs.Hands.{IsOf, IsRunning, MayRead, HasNoWork, KeepsButView};

use crate::hand::Hand;
use crate::words::Words;
use brc_model::{Duty, immortals_are_free, kinds_are_asked, work_is_put_aside};
use std::marker::Brand;

impl<T: Drop> Words<T> {
    /// Asks for the kind of an object that the hand holds, borrows from the list that it has locked, or is to finalise
    /// as the first of its dying chain: loads its kind word, which its birth stored. The word is the one that the hand
    /// has seen there before, if it has. If the hand has locked the object, the kind says whether the object's field
    /// has a resource. If the object was there from the start, the word is its first one.
    #[inline(always)]
    pub fn kind_load(&self, hand: &mut Hand<T>, row: u32) -> u64
        requires table { IsOf self.now hand.old }
        requires running { IsRunning hand.old.view }
        requires usable { MayRead hand.old.view row }
        requires idle { HasNoWork hand.old.view row }
        ensures kept { KeepsButView hand.old hand.new }
        ensures view { hand.new.view ≡ view_after (asking hand.old.view row) result }
        ensures stays { (word : ℕ) → 0 < word → knows_kind row word hand.old.view ≡ true → result ≡ word }
        ensures field { hand.old.view.actor.locked ≡ Some row → hand.old.view.in_field ≡ resources_of result }
        ensures first { 0 < first_kind_word self.now.lines self.now.layout row
            → result ≡ first_kind_word self.now.lines self.now.layout row }
    {
        work_is_put_aside();
        kinds_are_asked();
        immortals_are_free();
        self.layout_is_plain();
        hand.rows_are_there();
        self.step_from::<Brand>(hand, &Duty::KindLoad { row })
    }
}
