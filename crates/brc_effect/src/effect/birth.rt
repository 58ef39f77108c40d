//! The birth of an object, in a row that no object has used.

ghost use Rattle.std.specs.Prelude.{ℕ, ◌+◌, ◌<◌, ◌≤◌, ◌^◌};
ghost use Rattle.brc_model.specs.declared.duty.Duty.TheVariants as duties;
ghost use Rattle.brc_model.specs.declared.duty.Holding.{Holding};
ghost use Rattle.brc_model.specs.Limits.{worker_limit};
ghost use Rattle.brc_effect.specs.Effects.{IsEffect};

use super::{Change, Doer, Effect, Next};
use crate::kinds::has_resource;
use brc_model::{Duty, Holding};

impl Doer {
    /// Stores the kind word, which says what the object is (`birth_kind_skipped`): the first step of a birth. A file or
    /// a socket gets its resource next. The local word comes last: the object is born with that step, and must have all
    /// its parts by then. Rules `KindOfResource` and `KindOfOther`.
    #[inline(always)]
    pub(super) fn birth_kind(self, row: u32, holding: Holding, word: u64) -> Effect
        ensures { (found : ℕ) → IsEffect self (duties.BirthKind row holding word) found result }
    {
        if has_resource(word) {
            self.then(Next::One(Duty::BirthField { row, holding }))
        } else {
            self.then(Next::One(Duty::BirthLocal { row, holding }))
        }
    }

    /// Puts the resource into its field (`field_left_empty`), before the object is born. Rule `FieldFilled`.
    #[inline(always)]
    pub(super) fn birth_field(self, row: u32, holding: Holding) -> Effect
        ensures { (found : ℕ) → IsEffect self (duties.BirthField row holding) found result }
    {
        self.then(Next::One(Duty::BirthLocal { row, holding }))
    }

    /// Stores the local word, and so ends the birth: the thread owns the object and counts its own reference. (PEP 703,
    /// Biased Reference Counting: the thread that creates an object owns it.) The row is used from now on, so the
    /// thread's next birth takes another (`birth_reuses_a_row`). Rule `Born`.
    #[inline(always)]
    pub(super) fn birth_local(self) -> Effect
        requires room { self.used + 1 < 2 ^ 32 }
        ensures { (row : ℕ) (holding : Holding) (found : ℕ)
            → IsEffect self (duties.BirthLocal row holding) found result }
    {
        Effect {
            change: Change::Uses(self.used + 1),
            ..self.then(Next::Nothing)
        }
    }
}
