//! Merges: the local count moves into the shared word, and from then on nobody owns the object.

ghost use Rattle.std.specs.Prelude.{◌≡◌, ◌+◌, ◌*◌, ◌<◌};
ghost use Rattle.brc_word.specs.Words.{biased_part, bias};
ghost use Rattle.brc_model.specs.declared.duty.Duty.TheVariants as duties;
ghost use Rattle.brc_model.specs.Duties.{once_merged};
ghost use Rattle.brc_model.specs.Within.{IsShared};
ghost use Rattle.brc_effect.specs.Effects.{duties_of, IsEffect};

use super::{Doer, Effect, Next};
use crate::outcomes::{MergeStep, merge_step};
use brc_model::{Duty, Reason};
use brc_word::local_count;
use brc_word::values::NOBODY;

impl Doer {
    /// The thread carries the local count that it found. If the word is nobody's already, the object has been merged,
    /// and the thread does what it wanted the merge for. Rules `NobodysCount` and `LocalTakenOut`.
    #[inline(always)]
    pub(super) fn merge_swap(self, row: u32, reason: Reason, found: u64) -> Effect
        ensures { IsEffect self (duties.MergeSwap row reason) found result }
    {
        if found == NOBODY {
            return self.then(once_merged(row, reason));
        }
        let load = Duty::MergeLoad {
            row,
            carried: local_count(found),
            reason,
        };
        self.then(Next::One(load))
    }

    /// The next step adds the carried count, if the word is still the same. Rule `MergeRead`.
    #[inline(always)]
    pub(super) fn merge_load(self, row: u32, carried: u32, reason: Reason, found: u64) -> Effect
        ensures { IsEffect self (duties.MergeLoad row carried reason) found result }
    {
        self.then(Next::One(Duty::MergeExchange {
            row,
            carried,
            word: found,
            reason,
        }))
    }

    /// Rules `Merges`, `MergesToZero`, `MergesForHanded` and `MergeLost`. After a claim the count still has the
    /// reference that the queue held, and the thread releases it next (`merge_forgets_the_handed_reference`).
    #[inline(always)]
    pub(super) fn merge_exchange(
        self,
        row: u32,
        carried: u32,
        word: u64,
        reason: Reason,
        found: u64,
    ) -> Effect
        requires { found ≡ word → biased_part word + carried < 2 * bias }
        ensures { IsEffect self (duties.MergeExchange row carried word reason) found result }
    {
        match (merge_step(word, carried, found), reason) {
            (MergeStep::Again, _) => self.then(Next::One(Duty::MergeLoad {
                row,
                carried,
                reason,
            })),
            (_, Reason::Handed) => self.then(once_merged(row, reason)),
            (MergeStep::Dying, Reason::Own) => self.then(Next::One(Duty::Die { row })),
            (MergeStep::Kept, Reason::Own) => self.then(Next::Nothing),
        }
    }
}

/// Returns what the thread does once the object is merged: after a claim, it releases the reference that the queue
/// held.
#[inline(always)]
fn once_merged(row: u32, reason: Reason) -> Next
    ensures { duties_of result ≡ once_merged row reason }
{
    match reason {
        Reason::Own => Next::Nothing,
        Reason::Handed => Next::One(Duty::SharedLoad { row, reason }),
    }
}
