//! The host calls that steps make, and where the thread goes on once its call has ended.

ghost use Rattle.std.specs.Prelude.{◌≡◌};
ghost use Rattle.brc_model.specs.StepMachine.{at_place};
ghost use Rattle.brc_world.specs.Actors.{actor_of, context_in};
ghost use Rattle.brc_world.specs.Questions.{place_called};

use crate::thread::{Mode, Thread};
use brc_lang::Variable;
use brc_model::{Exit, Stage};

/// A host call, by what its exit decides.
#[derive(Clone, Copy)]
pub enum HostCall {
    /// It asks for a resource (`open`, `connect`). On success the thread makes an object of it next. On a fault the
    /// variable, which gets no object, is empty, and the thread goes on at `otherwise`.
    Asks { to: Variable, otherwise: u8 },
    /// It uses the resource that the thread has lent (`read`, `write`), which the thread puts back next.
    Uses,
}

/// Takes the thread to the place where it goes on once its call has ended by the exit.
#[inline(always)]
pub fn end_call(thread: &mut Thread, call: HostCall, exit: Exit)
    ensures { actor_of thread.new ≡ at_place (actor_of thread.old)
        (place_called call exit (context_in thread.old.left thread.old) thread.old.at thread.old.variables) }
{
    let left = thread.left;
    match call {
        HostCall::Asks { to, otherwise } => match exit {
            Exit::Success => thread.mode = Mode::Inside(Stage::Granted),
            Exit::Fault => {
                thread.set(to, None);
                thread.go_to(left, usize::from(otherwise));
            }
        },
        HostCall::Uses => thread.mode = Mode::Inside(Stage::Called { exit }),
    }
}
