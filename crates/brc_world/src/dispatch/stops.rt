//! A thread that stops or has stopped: what it still has to unlock and to give up, and what it does next.

ghost use Rattle.std.specs.Prelude.{◌≡◌, ◌≤◌, true, [], is_some, map, vec_capacity};
ghost use Rattle.std.specs.List.{list_any};
ghost use Rattle.brc_model.specs.Actions.{give_up, give_up_first};
ghost use Rattle.brc_world.specs.OpenCalls.{rows_of, all_rows, holds_rows};
ghost use Rattle.brc_world.specs.Starts.{stopped_action, HasDispatched};

use crate::dispatch::Start;
use crate::thread::Thread;
use brc_lang::Variable;
use brc_machine::variables::{first_named, names_some};
use brc_model::Duty;

/// Goes on after a stop: the thread unlocks the row, if there is one, and else gives up its next reference. It unlocks
/// first, because another thread may wait for the lock.
#[inline(never)]
pub(super) fn go_on_stopping(locked: Option<u32>, thread: &mut Thread, start: &mut Start)
    requires empty { thread.old.agenda.items ≡ [] }
    requires room { 8 ≤ vec_capacity thread.old.agenda }
    ensures { HasDispatched thread.old (stopped_action locked (all_rows thread.old.variables thread.old.outer))
        start.new thread.new }
{
    match locked {
        Some(row) => {
            thread.stop(None);
            *start = Start::Doing(Duty::UnlockGate { row });
        }
        None if thread.holds_some() => give_up(thread, start),
        None => *start = Start::Stuck,
    }
}

/// Gives up the next reference that a call of the thread holds: first what the innermost one holds, then what the call
/// that has made it holds, and so on outwards (`stop_outermost_first`).
fn give_up(thread: &mut Thread, start: &mut Start)
    requires empty { thread.old.agenda.items ≡ [] }
    requires room { 8 ≤ vec_capacity thread.old.agenda }
    requires some { holds_rows thread.old.variables thread.old.outer ≡ true }
    ensures { HasDispatched thread.old (give_up (all_rows thread.old.variables thread.old.outer)) start.new
        thread.new }
{
    while !names_some(&thread.variables) {
        thread.go_back();
    }
    give_up_first(thread, start);
}

/// Gives up the reference of the innermost call's first variable that names a row. Behind its last release the thread
/// settles, once for all of them.
#[tactic(auto, using(crate::proofs::Around::rows_length))]
fn give_up_first(thread: &mut Thread, start: &mut Start)
    requires empty { thread.old.agenda.items ≡ [] }
    requires room { 8 ≤ vec_capacity thread.old.agenda }
    requires some { list_any is_some thread.old.variables ≡ true }
    ensures { HasDispatched thread.old (give_up_first thread.old.variables (map rows_of
        thread.old.outer)) start.new thread.new }
{
    let first = first_named(&thread.variables);
    let variable = Variable::new(first as u8);
    match thread.row_of(variable) {
        Some(row) => {
            thread.set(variable, None);
            if !thread.holds_some() {
                thread.agenda.push_reserved(Duty::Settle);
            }
            thread.stop(None);
            *start = Start::Doing(Duty::ReleaseLoad {
                row,
                holding: thread.holding(variable),
            });
        }
        None => *start = Start::Stuck,
    }
}
