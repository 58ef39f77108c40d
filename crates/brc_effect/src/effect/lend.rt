//! The resource of a file or a socket that the thread has locked: a call of the host needs it for itself.

ghost use Rattle.std.specs.Prelude.{ℕ};
ghost use Rattle.brc_model.specs.declared.duty.Duty.TheVariants as duties;
ghost use Rattle.brc_effect.specs.Effects.{IsEffect};

use super::{Change, Doer, Effect, Next};
use brc_word::values::FULL;

impl Doer {
    /// Takes the resource out of its field for a call of the host: the thread has it lent until the call has ended.
    /// While the field is empty, no other thread finds the resource there. The thread has locked the object, and
    /// remembers what it has lent (`lent_resource_forgotten`), because it has to put it back. Rule `ResourceLent`.
    #[inline(always)]
    pub(super) fn lend_field(self, row: u32, found: u64) -> Effect
        ensures { IsEffect self (duties.LendField row) found result }
    {
        let change = if found == FULL {
            Change::Lends(Some(row))
        } else {
            Change::Nothing
        };
        Effect {
            change,
            ..self.then(Next::Nothing)
        }
    }

    /// Puts the resource back into its field, whether the call of the host succeeded or faulted: otherwise nobody could
    /// close it when the object dies (`lent_field_left_empty`). A plain store is enough, because the field stays empty
    /// while the resource is lent. Rule `ResourceReturned`.
    #[inline(always)]
    pub(super) fn return_field(self) -> Effect
        ensures { (row : ℕ) (found : ℕ) → IsEffect self (duties.ReturnField row) found result }
    {
        Effect {
            change: Change::Lends(None),
            ..self.then(Next::Nothing)
        }
    }
}
