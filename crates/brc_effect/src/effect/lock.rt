//! Locks: a thread keeps a list to itself for a few steps, by the list's gate.

ghost use Rattle.std.specs.Prelude.{ℕ, ◌≤◌};
ghost use Rattle.brc_model.specs.declared.duty.Duty.TheVariants as duties;
ghost use Rattle.brc_model.specs.Limits.{worker_limit};
ghost use Rattle.brc_effect.specs.Effects.{IsEffect};

use super::{Change, Doer, Effect, Next};
use brc_word::values::FREE;

impl Doer {
    /// Compare-exchanges the gate: if it is free, the thread's number is stored in it, and the thread has locked the
    /// list. (PEP 703, Container Thread-Safety: each list has a lock of its own.) If another thread has locked the
    /// list, the gate is left as it is: a thread that stored its own number would share the list with the other
    /// (`lock_taken_twice`). Rules `Locks` and `LockHeld`.
    #[inline(always)]
    pub(super) fn lock_gate(self, row: u32, found: u64) -> Effect
        ensures { IsEffect self (duties.LockGate row) found result }
    {
        if found == FREE {
            Effect {
                change: Change::Locks(Some(row)),
                ..self.then(Next::Nothing)
            }
        } else {
            self.then(Next::Nothing)
        }
    }

    /// Stores that the gate is free (`unlock_leaves_locked`). A plain store is enough, because no other thread stores
    /// in the gate of a locked list. The thread holds a reference to the list until then, so that no thread deallocates
    /// a list that is locked. Rule `Unlocks`.
    #[inline(always)]
    pub(super) fn unlock_gate(self) -> Effect
        ensures { (row : ℕ) (found : ℕ) → IsEffect self (duties.UnlockGate row) found result }
    {
        Effect {
            change: Change::Locks(None),
            ..self.then(Next::Nothing)
        }
    }
}
