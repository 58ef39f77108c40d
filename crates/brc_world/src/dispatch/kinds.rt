//! The dispatch of `as`, which asks for a kind.

ghost use Rattle.std.specs.Prelude.{ℕ, Some};
ghost use Rattle.brc_lang.specs.declared.module.Instr.TheVariants as instructions;
ghost use Rattle.brc_model.specs.declared.layout.Layout.{Layout};
ghost use Rattle.brc_world.specs.Starts.{action_at, CanDispatch, HasDispatched};

use crate::dispatch::Start;
use crate::question::Question;
use crate::thread::Thread;
use brc_lang::{Kind, Variable};
use brc_model::Duty;

/// Begins `as`: the load of the object's kind word, which decides where the thread goes on.
#[inline(always)]
pub(super) fn ask_kind(
    from: Variable,
    kind: Kind,
    otherwise: u8,
    thread: &mut Thread,
    left: u32,
    start: &mut Start,
)
    requires { CanDispatch thread.old }
    ensures { (layout : Layout) (t : ℕ) → HasDispatched thread.old (action_at layout t left
        (Some (instructions.As from kind otherwise)) thread.old) start.new thread.new }
{
    let next = thread.at + 1;
    match thread.row_of(from) {
        Some(row) => {
            thread.go_to(left, next);
            *start = Start::Asking {
                duty: Duty::KindLoad { row },
                question: Question::Kind { kind, otherwise },
            };
        }
        None => *start = Start::Stuck,
    }
}
