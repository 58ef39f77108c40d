//! The steps with which a thread's exit begins, and with which a running thread looks through its own queue (PEP 703,
//! Biased Reference Counting: a thread merges the objects that others have queued for it, and an exiting thread those
//! that are left). A leaving thread says so first, so that whoever queues an object from then on looks after it, and
//! then loads its mark words and takes the marks that it finds there, duty after duty (`Words::step`).

ghost use Rattle.std.specs.Prelude.{◌≡◌, ◌<◌};
ghost use Rattle.brc_model.specs.Layout.{block_of, row_at, row_count, mark_words_of};
ghost use Rattle.brc_table.specs.Views.{view_after, claiming, loading_marks, leaving};
ghost use Rattle.brc_table.specs.Hands.{IsOf, KeepsButView};
ghost use Rattle.brc_table.specs.Calls.{IsFree, MayLeave};

use crate::hand::Hand;
use crate::words::Words;
use brc_effect::rows::row_at;
use brc_model::{
    Duty, claims_begin, duties_are_kept, exits_begin, mark_loads_begin, releases_begin,
};
use std::marker::Brand;

impl<T: Drop> Words<T> {
    /// Returns the row with the index in the block of the hand's thread.
    pub fn own_row(&self, hand: &Hand<T>, index: u32) -> u32
        requires table { IsOf self.now hand.now }
        requires used { index < hand.now.view.actor.used }
        ensures row { result ≡ row_at self.now.layout hand.now.view.thread index }
        ensures there { result < row_count self.now.layout }
        ensures own { block_of self.now.layout result ≡ hand.now.view.thread }
    {
        self.layout_is_plain();
        hand.rows_are_there();
        row_at(self.blocks.layout(), hand.thread, index)
    }

    /// Begins to look through the hand's queue: loads a mark word of its own block, which has the marks of 64 rows.
    /// Returns the word. It takes no mark: `mark_claim` does.
    #[inline(always)]
    pub fn marks_load(&self, hand: &mut Hand<T>, word: u32) -> u64
        requires table { IsOf self.now hand.old }
        requires free { IsFree hand.old.view }
        requires there { word < mark_words_of hand.old.view.layout hand.old.view.thread }
        ensures kept { KeepsButView hand.old hand.new }
        ensures view { hand.new.view ≡ view_after (loading_marks hand.old.view word) result }
    {
        mark_loads_begin();
        hand.rows_are_there();
        self.step_from::<Brand>(hand, &Duty::MarksLoad { word })
    }

    /// Begins to take an object from the hand's queue: takes the mark of a row of its own block. Returns the mark word
    /// found: `mark` says whether the mark was set.
    #[inline(always)]
    pub fn mark_claim(&self, hand: &mut Hand<T>, row: u32) -> u64
        requires table { IsOf self.now hand.old }
        requires free { IsFree hand.old.view }
        requires own { block_of hand.old.view.layout row ≡ hand.old.view.thread }
        requires there { row < row_count hand.old.view.layout }
        ensures kept { KeepsButView hand.old hand.new }
        ensures view { hand.new.view ≡ view_after (claiming hand.old.view row) result }
    {
        claims_begin();
        self.layout_is_plain();
        self.step_from::<Brand>(hand, &Duty::ClaimMark { row })
    }

    /// Begins to leave: says so in the thread's word. The hand's thread no longer runs.
    #[inline(always)]
    pub fn thread_leave(&self, hand: &mut Hand<T>)
        requires table { IsOf self.now hand.old }
        requires may_leave { MayLeave hand.old.view }
        ensures kept { KeepsButView hand.old hand.new }
        ensures view { hand.new.view ≡ view_after (leaving hand.old.view) 1 }
    {
        releases_begin();
        exits_begin();
        duties_are_kept();
        self.layout_is_plain();
        hand.rows_are_there();
        let rows = hand.used;
        self.step_from::<Brand>(hand, &Duty::Leave { word: 0, rows });
    }
}
