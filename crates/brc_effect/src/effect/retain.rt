//! Retains: a thread makes a new reference to an object.

ghost use Rattle.std.specs.Prelude.{ℕ, ◌+◌, ◌*◌, ◌<◌};
ghost use Rattle.brc_word.specs.Words.{most_local, local_part, biased_part, bias};
ghost use Rattle.brc_model.specs.declared.duty.Duty.TheVariants as duties;
ghost use Rattle.brc_model.specs.declared.duty.Holding.{Holding};
ghost use Rattle.brc_model.specs.Within.{IsShared};
ghost use Rattle.brc_effect.specs.Effects.{IsEffect};

use super::{Doer, Effect, Next, is_running};
use brc_model::{Duty, Holding};
use brc_word::{LocalChoice, retain_choice};

impl Doer {
    /// Loads the local word, the first step of a retain. (PEP 703, Biased Reference Counting: `Py_INCREF`.) The word
    /// says whether the object is immortal, and whether the thread is the owner: a running owner alone may count in the
    /// local word. A thread that skips this choice counts its reference nowhere (`retain_load_skipped`). Rules
    /// `RetainsImmortal`, `OwnerRetains`, `FullOwnerRetains` and `OtherRetains`.
    #[inline(always)]
    pub(super) fn retain_load(self, row: u32, holding: Holding, found: u64) -> Effect
        ensures { IsEffect self (duties.RetainLoad row holding) found result }
    {
        match retain_choice(found, self.number, is_running(self.status)) {
            LocalChoice::Skip => self.then(Next::Nothing),
            LocalChoice::Store(_) => self.then(Next::One(Duty::RetainStore {
                row,
                holding,
                word: found,
            })),
            LocalChoice::Share => { self.then(Next::One(Duty::RetainAdd { row, holding })) }
        }
    }
}
