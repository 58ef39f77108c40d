//! The steps by which a hand begins to retain and to release an object (PEP 703, Biased Reference Counting: `Py_INCREF`
//! and `Py_DECREF`). Each loads the object's local word, and what comes next depends on the word found.

ghost use Rattle.std.specs.Prelude.{◌≡◌, ◌+◌, ◌<◌, ◌≤◌, length};
ghost use Rattle.brc_model.specs.Within.{OwnerFits};
ghost use Rattle.brc_word.specs.Words.{owner_part, local_part};
ghost use Rattle.brc_table.specs.Views.{view_after, retaining, releasing};
ghost use Rattle.brc_table.specs.Hands.{IsOf, IsRunning, HoldsOne, MayUse, KeepsLock, HasNoWork, most_references, KeepsButView};

use crate::hand::Hand;
use crate::words::Words;
use brc_model::{
    Duty, Holding, immortals_are_free, releases_begin, retains_begin, work_is_put_aside,
};
use std::marker::Brand;

impl<T: Drop> Words<T> {
    /// Begins to retain an object that the hand holds, or borrows from the list that it has locked: loads its local
    /// word.
    #[inline(always)]
    pub fn retain_load(&self, hand: &mut Hand<T>, row: u32) -> u64
        requires table { IsOf self.now hand.old }
        requires running { IsRunning hand.old.view }
        requires usable { MayUse hand.old.view row }
        requires idle { HasNoWork hand.old.view row }
        requires few { length hand.old.view.references < most_references }
        ensures kept { KeepsButView hand.old hand.new }
        ensures view { hand.new.view ≡ view_after (retaining hand.old.view row) result }
        ensures owner { OwnerFits hand.old.view.layout row result }
    {
        work_is_put_aside();
        retains_begin();
        immortals_are_free();
        self.layout_is_plain();
        hand.rows_are_there();
        self.step_from::<Brand>(
            hand,
            &Duty::RetainLoad {
                row,
                holding: Holding::AsCaller,
            },
        )
    }

    /// Begins to release an object: loads its local word. The hand keeps a reference to the object that it has locked.
    #[inline(always)]
    pub fn release_load(&self, hand: &mut Hand<T>, row: u32) -> u64
        requires table { IsOf self.now hand.old }
        requires running { IsRunning hand.old.view }
        requires held { HoldsOne hand.old.view row }
        requires keeps { KeepsLock hand.old.view row }
        requires idle { HasNoWork hand.old.view row }
        ensures kept { KeepsButView hand.old hand.new }
        ensures view { hand.new.view ≡ view_after (releasing hand.old.view row) result }
        ensures owner { OwnerFits hand.old.view.layout row result }
        ensures counted { owner_part result ≡ hand.old.view.thread + 1 → 1 ≤ local_part result }
    {
        work_is_put_aside();
        releases_begin();
        immortals_are_free();
        self.layout_is_plain();
        hand.rows_are_there();
        self.step_from::<Brand>(
            hand,
            &Duty::ReleaseLoad {
                row,
                holding: Holding::AsCaller,
            },
        )
    }
}
