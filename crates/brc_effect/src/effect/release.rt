//! Releases: a thread gives up a reference to an object.

ghost use Rattle.std.specs.Prelude.{◌≡◌, ◌≤◌, ◌+◌, ℕ, true, IsTrue};
ghost use Rattle.brc_word.specs.Words.{owner_part, local_part, biased_part};
ghost use Rattle.brc_model.specs.declared.duty.Duty.TheVariants as duties;
ghost use Rattle.brc_model.specs.declared.duty.Holding.{Holding};
ghost use Rattle.brc_model.specs.declared.duty.Reason.TheVariants as reasons;
ghost use Rattle.brc_model.specs.Machine.{is_running};
ghost use Rattle.brc_model.specs.Within.{IsShared};
ghost use Rattle.brc_effect.specs.Effects.{IsEffect};

use super::{Doer, Effect, Next, is_running};
use crate::outcomes::{
    LocalRelease, Looked, SharedRelease, ZeroStep, local_release, runs, shared_release, taken,
    zero_step,
};
use brc_model::{Duty, Reason};
use brc_word::{local_count, mark_at};

impl Doer {
    /// The local word decides how the reference is given up: rules `ReleasesImmortal`, `OwnerReleases` and
    /// `OtherReleases`.
    #[inline(always)]
    pub(super) fn release_load(self, row: u32, found: u64) -> Effect
        requires { is_running self.status ≡ true → owner_part found ≡ self.number + 1 → 1 ≤ local_part found }
        ensures { (holding : Holding) → IsEffect self (duties.ReleaseLoad row holding) found result }
    {
        match local_release(found, self.number, is_running(self.status)) {
            LocalRelease::Skip => self.then(Next::Nothing),
            LocalRelease::Kept | LocalRelease::Zero => {
                self.then(Next::One(Duty::ReleaseStore { row, word: found }))
            }
            LocalRelease::Share => self.then(Next::One(Duty::SharedLoad {
                row,
                reason: Reason::Own,
            })),
        }
    }

    /// At zero the shared word decides what follows (`last_local_reference_missed`), because other threads may still
    /// count references there. Rules `LocalLowered` and `LocalReachesZero`.
    #[inline(always)]
    pub(super) fn release_store(self, row: u32, word: u64) -> Effect
        ensures { (found : ℕ) → IsEffect self (duties.ReleaseStore row word) found result }
    {
        if local_count(word) == 1 {
            self.then(Next::One(Duty::DecideAtZero { row }))
        } else {
            self.then(Next::Nothing)
        }
    }

    /// Rules `NothingShared` and `WasShared`.
    #[inline(always)]
    pub(super) fn decide_at_zero(self, row: u32, found: u64) -> Effect
        ensures { IsEffect self (duties.DecideAtZero row) found result }
    {
        match zero_step(found) {
            ZeroStep::Dying => self.then(Next::One(Duty::Die { row })),
            ZeroStep::Merge => self.then(Next::One(Duty::MergeSwap {
                row,
                reason: Reason::Own,
            })),
        }
    }

    /// The next step exchanges the word, if it is still the same. Rule `SharedRead`.
    #[inline(always)]
    pub(super) fn shared_load(self, row: u32, reason: Reason, found: u64) -> Effect
        ensures { IsEffect self (duties.SharedLoad row reason) found result }
    {
        self.then(Next::One(Duty::SharedExchange {
            row,
            reason,
            word: found,
        }))
    }

    /// Rules `Queues`, `Decrements`, `DecrementsToZero` and `ExchangeLost`.
    #[inline(always)]
    pub(super) fn shared_exchange(self, row: u32, reason: Reason, word: u64, found: u64) -> Effect
        requires shared { found ≡ word → IsShared word }
        requires counted { found ≡ word → 1 ≤ biased_part word }
        ensures { IsEffect self (duties.SharedExchange row reason word) found result }
    {
        match shared_release(word, found) {
            SharedRelease::Again => self.then(Next::One(Duty::SharedLoad { row, reason })),
            SharedRelease::Queued => self.then(Next::One(Duty::SetMark { row })),
            SharedRelease::Dying => self.then(Next::One(Duty::Die { row })),
            SharedRelease::Kept => self.then(Next::Nothing),
        }
    }

    /// The owner may have scanned its marks for the last time already. So the thread looks next whether the owner still
    /// runs (`post_without_look`). Rule `Marked`.
    #[inline(always)]
    pub(super) fn set_mark(self, row: u32) -> Effect
        ensures { (found : ℕ) → IsEffect self (duties.SetMark row) found result }
    {
        self.then(Next::One(Duty::Look { row }))
    }

    /// Rules `OwnerRuns` and `OwnerExits`.
    #[inline(always)]
    pub(super) fn look(self, row: u32, found: u64) -> Effect
        ensures { IsEffect self (duties.Look row) found result }
    {
        if runs(found) {
            self.then(Next::Nothing)
        } else {
            self.then(Next::One(Duty::TakeMark { row }))
        }
    }

    /// Rules `MarkTakenBack` and `MarkGone`.
    #[inline(always)]
    pub(super) fn take_mark(self, row: u32, found: u64) -> Effect
        ensures { IsEffect self (duties.TakeMark row) found result }
    {
        match taken(mark_at(found, self.blocks.mark_bit(row))) {
            Looked::Claimed => self.then(Next::One(handed_merge(row))),
            Looked::Left => self.then(Next::Nothing),
        }
    }
}

/// Returns the merge of an object whose mark has been claimed. The thread then releases the reference that the queue
/// held.
#[inline(always)]
pub(super) fn handed_merge(row: u32) -> Duty
    ensures { result ≡ duties.MergeSwap row reasons.Handed }
{
    Duty::MergeSwap {
        row,
        reason: Reason::Handed,
    }
}
