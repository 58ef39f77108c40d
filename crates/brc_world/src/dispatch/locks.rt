//! The dispatch of `lock` and `unlock`, which begin and end a critical section.

ghost use Rattle.std.specs.Prelude.{ℕ, Some};
ghost use Rattle.brc_lang.specs.declared.module.Instr.TheVariants as instructions;
ghost use Rattle.brc_model.specs.declared.layout.Layout.{Layout};
ghost use Rattle.brc_world.specs.Starts.{action_at, CanDispatch, HasDispatched};

use crate::dispatch::Start;
use crate::thread::Thread;
use brc_lang::Variable;
use brc_model::Duty;

/// Begins `lock`: the compare-exchange of the object's gate, which decides whether the thread goes on. A thread that
/// doesn't get the lock would block; a step of this world never does, so the thread stays where it is, and makes the
/// same step again. A call that begins with a `lock` hasn't begun until then (`lost_lock_begins_the_call`).
#[inline(always)]
pub(super) fn lock(object: Variable, thread: &mut Thread, left: u32, start: &mut Start)
    requires { CanDispatch thread.old }
    ensures { (layout : Layout) (t : ℕ) → HasDispatched thread.old (action_at layout t left
        (Some (instructions.Lock object)) thread.old) start.new thread.new }
{
    let next = thread.at + 1;
    match thread.row_of(object) {
        Some(row) => *start = Start::Locking { row, left, next },
        None => *start = Start::Stuck,
    }
}

/// Begins `unlock`: the store that frees the object's gate.
#[inline(always)]
pub(super) fn unlock(object: Variable, thread: &mut Thread, left: u32, start: &mut Start)
    requires { CanDispatch thread.old }
    ensures { (layout : Layout) (t : ℕ) → HasDispatched thread.old (action_at layout t left
        (Some (instructions.Unlock object)) thread.old) start.new thread.new }
{
    let next = thread.at + 1;
    match thread.row_of(object) {
        Some(row) => {
            thread.go_to(left, next);
            *start = Start::Doing(Duty::UnlockGate { row });
        }
        None => *start = Start::Stuck,
    }
}
