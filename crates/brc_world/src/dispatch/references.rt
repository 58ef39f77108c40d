//! The dispatch of the instructions that make, hand on or give up a reference.

ghost use Rattle.std.specs.Prelude.{◌≡◌, ℕ, ◌+◌, ◌≤◌, Some, [], ◌∷◌, length, vec_len, vec_capacity};
ghost use Rattle.brc_lang.specs.declared.module.Instr.TheVariants as instructions;
ghost use Rattle.brc_model.specs.declared.duty.Duty.TheVariants.{ReleaseLoad, Settle};
ghost use Rattle.brc_model.specs.declared.duty.Holding.TheVariants.{ByVariable};
ghost use Rattle.brc_model.specs.declared.layout.Layout.{Layout};
ghost use Rattle.brc_world.specs.Actors.{actor_of, with_agenda};
ghost use Rattle.brc_world.specs.Starts.{action_at, CanDispatch, HasDispatched};

use crate::dispatch::Start;
use crate::thread::Thread;
use brc_effect::rows::{NONE_ROW, immortal_list};
use brc_lang::Variable;
use brc_model::{Duty, Layout};

/// Begins `none`: the variable names the object none.
#[inline(always)]
pub(super) fn name_none(to: Variable, thread: &mut Thread, left: u32, start: &mut Start)
    requires { CanDispatch thread.old }
    ensures { (layout : Layout) (t : ℕ) → HasDispatched thread.old (action_at layout t left
        (Some (instructions.NoneObject to)) thread.old) start.new thread.new }
{
    let next = thread.at + 1;
    thread.set(to, Some(NONE_ROW));
    thread.go_to(left, next);
    *start = Start::Moved;
}

/// Begins `take`: the variable names the immortal list of the static line with this number. Nothing is counted.
#[inline(always)]
pub(super) fn take_list(
    to: Variable,
    list: u8,
    layout: Layout,
    thread: &mut Thread,
    left: u32,
    start: &mut Start,
)
    requires { CanDispatch thread.old }
    ensures { (t : ℕ) → HasDispatched thread.old (action_at layout t left (Some (instructions.Take to list)) thread.old)
        start.new thread.new }
{
    let next = thread.at + 1;
    thread.set(to, Some(immortal_list(layout, list)));
    thread.go_to(left, next);
    *start = Start::Moved;
}

/// Begins `newref`: a retain for the variable `to`, which names the object that `from` names.
#[inline(always)]
pub(super) fn name_again(
    to: Variable,
    from: Variable,
    thread: &mut Thread,
    left: u32,
    start: &mut Start,
)
    requires { CanDispatch thread.old }
    ensures { (layout : Layout) (t : ℕ) → HasDispatched thread.old (action_at layout t left
        (Some (instructions.Newref to from)) thread.old) start.new thread.new }
{
    let next = thread.at + 1;
    match thread.row_of(from) {
        Some(row) => {
            thread.set(to, Some(row));
            thread.go_to(left, next);
            *start = Start::Doing(Duty::RetainLoad {
                row,
                holding: thread.holding(to),
            });
        }
        None => *start = Start::Stuck,
    }
}

/// Begins `move`: the reference of `from` is handed on to `to`.
#[inline(always)]
pub(super) fn hand_on(
    to: Variable,
    from: Variable,
    thread: &mut Thread,
    left: u32,
    start: &mut Start,
)
    requires { CanDispatch thread.old }
    ensures { (layout : Layout) (t : ℕ) → HasDispatched thread.old (action_at layout t left
        (Some (instructions.Move to from)) thread.old) start.new thread.new }
{
    let next = thread.at + 1;
    match thread.row_of(from) {
        Some(row) => {
            thread.set(from, None);
            thread.set(to, Some(row));
            thread.go_to(left, next);
            *start = Start::Moved;
        }
        None => *start = Start::Stuck,
    }
}

/// Begins `drop`: the release of the variable's reference.
#[inline(always)]
pub(super) fn give_up(from: Variable, thread: &mut Thread, left: u32, start: &mut Start)
    requires { CanDispatch thread.old }
    ensures { (layout : Layout) (t : ℕ) → HasDispatched thread.old (action_at layout t left
        (Some (instructions.Drop from)) thread.old) start.new thread.new }
{
    let next = thread.at + 1;
    match thread.row_of(from) {
        Some(row) => {
            thread.set(from, None);
            thread.go_to(left, next);
            release(row, from, thread, start);
        }
        None => *start = Start::Stuck,
    }
}

/// Begins the release of the variable's reference to the row's object. The thread deallocates its dying chain next.
pub(super) fn release(row: u32, from: Variable, thread: &mut Thread, start: &mut Start)
    requires empty { thread.old.agenda.items ≡ [] }
    requires room { 8 ≤ vec_capacity thread.old.agenda }
    ensures starts { start.new ≡ Start.Doing (ReleaseLoad row (ByVariable (length thread.old.outer) from)) }
    ensures actor { actor_of thread.new ≡ with_agenda (actor_of thread.old) (Settle ∷ []) }
    ensures room { vec_len thread.new.agenda + 4 ≤ vec_capacity thread.new.agenda }
{
    thread.agenda.push_reserved(Duty::Settle);
    *start = Start::Doing(Duty::ReleaseLoad {
        row,
        holding: thread.holding(from),
    });
}
