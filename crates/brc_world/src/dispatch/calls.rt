//! The dispatch of `call`, `ret` and `fail`, which begin and end a call of a function.

ghost use Rattle.std.specs.Prelude.{ℕ, Some};
ghost use Rattle.brc_lang.specs.declared.module.Instr.TheVariants as instructions;
ghost use Rattle.brc_model.specs.declared.layout.Layout.{Layout};
ghost use Rattle.brc_model.specs.Actions.{call_action};
ghost use Rattle.brc_world.specs.Actors.{context_in, OpensFew};
ghost use Rattle.brc_world.specs.Starts.{action_at, CanDispatch, HasDispatched};

use crate::dispatch::Start;
use crate::dispatch::references::release;
use crate::thread::Thread;
use brc_lang::{Arguments, Variable};
use brc_machine::OpenCall;
use brc_machine::variables::{all_named, kept_rows, passed_variables};

/// Begins `call`: the thread is before the first instruction of the function called. What the call steals is the
/// function's from then on, so it is no longer in the caller's variables (C API manual, Reference Count Details: the
/// function that steals a reference owns it). No reference is made or given up by that, so the step is silent.
#[inline(never)]
pub(super) fn call(
    to: Variable,
    callee: u8,
    arguments: &Arguments,
    otherwise: u8,
    number: u8,
    thread: &mut Thread,
    left: u32,
    start: &mut Start,
)
    requires can { CanDispatch thread.old }
    requires few { OpensFew (call_action number (context_in left thread.old) thread.old.at thread.old.variables to
        callee arguments.now otherwise) }
    ensures { HasDispatched thread.old (call_action number (context_in left thread.old) thread.old.at
        thread.old.variables to callee arguments.now otherwise) start.new thread.new }
{
    let arguments = arguments.as_slice();
    if !all_named(&thread.variables, arguments) {
        *start = Start::Stuck;
        return;
    }
    thread.outer.open(OpenCall {
        callee,
        at: thread.at,
        variables: kept_rows(&thread.variables, arguments, to),
        turns: thread.turns,
        to,
        otherwise,
    });
    thread.variables = passed_variables(&thread.variables, arguments);
    thread.turns = [0; 256];
    thread.go_to(left, 0);
    *start = Start::Moved;
}

/// Begins `ret`: the call ends. The call that has made it goes on at its next instruction, with what is returned in the
/// variable that takes the result: it owns the reference now, so none is made or given up (`return_releases`). A call
/// from outside begins the release of what it returns, because its caller keeps nothing.
#[inline(always)]
pub(super) fn return_object(from: Variable, thread: &mut Thread, left: u32, start: &mut Start)
    requires { CanDispatch thread.old }
    ensures { (layout : Layout) (t : ℕ) → HasDispatched thread.old (action_at layout t left
        (Some (instructions.Ret from)) thread.old) start.new thread.new }
{
    match thread.row_of(from) {
        Some(row) => match thread.go_back() {
            Some(call) => {
                thread.set(call.to, Some(row));
                thread.go_to(left, call.at + 1);
                *start = Start::Moved;
            }
            None => {
                thread.rest(left);
                release(row, from, thread, start);
            }
        },
        None => *start = Start::Stuck,
    }
}

/// Begins `fail`: the call ends, and returns nothing. The call that has made it goes on where a fault of it leads
/// (`fault_of_the_callee_ends_the_thread`).
#[inline(always)]
pub(super) fn fail(thread: &mut Thread, left: u32, start: &mut Start)
    requires { CanDispatch thread.old }
    ensures { (layout : Layout) (t : ℕ) → HasDispatched thread.old (action_at layout t left
        (Some instructions.Fail) thread.old) start.new thread.new }
{
    match thread.go_back() {
        Some(call) => thread.go_to(left, usize::from(call.otherwise)),
        None => thread.rest(left),
    }
    *start = Start::Moved;
}
