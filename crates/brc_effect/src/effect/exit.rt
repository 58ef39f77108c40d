//! The exit of a thread, and its queue: the set marks of the rows that it owns.

ghost use Rattle.std.specs.Prelude.{ℕ, ◌+◌, ◌*◌, ◌<◌, ◌^◌};
ghost use Rattle.brc_word.specs.Words.{lowest_mark, marks_of_word};
ghost use Rattle.brc_model.specs.declared.duty.Duty.TheVariants as duties;
ghost use Rattle.brc_effect.specs.Effects.{IsEffect};

use super::release::handed_merge;
use super::{Change, Doer, Effect, Next};
use crate::outcomes::{Looked, taken};
use brc_model::{Duty, Status};
use brc_word::{MARKS_OF_WORD, first_marks, lowest_mark, mark_at, without_mark};

impl Doer {
    /// Stores that the thread is leaving. The thread announces its exit before it scans its marks (`exit_scans_first`):
    /// a thread that sets a mark behind the scan then finds that the owner no longer runs, and takes the mark back.
    /// Rule `SaysLeaving`.
    #[inline(always)]
    pub(super) fn leave(self, word: u32, rows: u32) -> Effect
        ensures { (found : ℕ) → IsEffect self (duties.Leave word rows) found result }
    {
        Effect {
            change: Change::Becomes(Status::Leaving),
            ..self.then(Next::Two(Duty::Scan { word, rows }, Duty::Finish))
        }
    }

    /// Loads a mark word. The thread takes those marks of used rows that it has found, one by one, before it loads the
    /// next word. The scan passes over no row (`scan_skips_a_row`). Rule `MarksRead`.
    #[inline(always)]
    pub(super) fn scan(self, word: u32, rows: u32, found: u64) -> Effect
        requires { word < 2 ^ 31 }
        ensures { IsEffect self (duties.Scan word rows) found result }
    {
        let marks = first_marks(found, rows);
        let then = Duty::Scan {
            word: word + 1,
            rows: rows.saturating_sub(MARKS_OF_WORD),
        };
        self.then(Next::Two(Duty::TakeFound { word, marks }, then))
    }

    /// Takes the lowest of the marks found, whatever has become of it since the load: the thread that set it may have
    /// taken it back. Only if it is still set, the thread merges the object (`loaded_mark_merged`) and releases the
    /// reference that the queue held. It deallocates what dies by that before it goes on to the next mark. Rules
    /// `FoundMarkTaken` and `FoundMarkGone`.
    #[inline(always)]
    pub(super) fn take_found(self, word: u32, marks: u64, found: u64) -> Effect
        requires some { 0 < marks }
        requires low { marks_of_word * word + lowest_mark marks < 2 ^ 31 }
        ensures { IsEffect self (duties.TakeFound word marks) found result }
    {
        let row = self.blocks.found_row(self.number, word, marks);
        let then = Duty::TakeFound {
            word,
            marks: without_mark(marks, lowest_mark(marks)),
        };
        match taken(mark_at(found, self.blocks.mark_bit(row))) {
            Looked::Claimed => self.then(Next::Three(handed_merge(row), Duty::Settle, then)),
            Looked::Left => self.then(Next::Two(Duty::Settle, then)),
        }
    }

    /// Stores that the thread is gone (`finished_thread_isnt_gone`): it takes no further step. Rule `SaysGone`.
    #[inline(always)]
    pub(super) fn finish(self) -> Effect
        ensures { (found : ℕ) → IsEffect self duties.Finish found result }
    {
        Effect {
            change: Change::Becomes(Status::Gone),
            ..self.then(Next::Nothing)
        }
    }

    /// Takes a mark while the thread runs, between two calls, by the same and as at its exit
    /// (`claimed_mark_left_set`). (PEP 703, Biased Reference Counting: the owner merges the objects in its queue.)
    /// Rules `MarkClaimed` and `NothingToClaim`.
    #[inline(always)]
    pub(super) fn claim_mark(self, row: u32, found: u64) -> Effect
        ensures { IsEffect self (duties.ClaimMark row) found result }
    {
        match taken(mark_at(found, self.blocks.mark_bit(row))) {
            Looked::Claimed => self.then(Next::Two(handed_merge(row), Duty::Settle)),
            Looked::Left => self.then(Next::One(Duty::Settle)),
        }
    }
}
