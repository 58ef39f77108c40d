//! The dispatch of `goto` and `again`, which lead to another instruction of the function.

ghost use Rattle.std.specs.Prelude.{ℕ, Some};
ghost use Rattle.brc_lang.specs.declared.module.Instr.TheVariants as instructions;
ghost use Rattle.brc_model.specs.declared.layout.Layout.{Layout};
ghost use Rattle.brc_world.specs.Starts.{action_at, CanDispatch, HasDispatched};

use crate::dispatch::Start;
use crate::thread::Thread;

/// Begins `goto`: the thread goes on at the target.
#[inline(always)]
pub(super) fn go(target: u8, thread: &mut Thread, left: u32, start: &mut Start)
    requires { CanDispatch thread.old }
    ensures { (layout : Layout) (t : ℕ) → HasDispatched thread.old (action_at layout t left
        (Some (instructions.Goto target)) thread.old) start.new thread.new }
{
    thread.go_to(left, usize::from(target));
    *start = Start::Moved;
}

/// Begins `again`: the thread goes back to the target, if the instruction has gone back less than `times` times in this
/// call (`again_once_more`), and otherwise passes on. The count is of the whole call: if an outer loop reaches the
/// instruction again, its turns are used up. So each call ends after a number of instructions that its text bounds.
#[inline(always)]
pub(super) fn again(target: u8, times: u16, thread: &mut Thread, left: u32, start: &mut Start)
    requires { CanDispatch thread.old }
    ensures { (layout : Layout) (t : ℕ) → HasDispatched thread.old (action_at layout t left
        (Some (instructions.Again target times)) thread.old) start.new thread.new }
{
    let next = thread.at + 1;
    let turns = thread.turns_here();
    if turns < times {
        thread.set_turns_here(turns + 1);
        thread.go_to(left, usize::from(target));
    } else {
        thread.go_to(left, next);
    }
    *start = Start::Moved;
}
