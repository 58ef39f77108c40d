//! The dispatch of `borrow`, `fetch`, `set` and `put`, which use a cell of the list that the thread has locked. Each
//! begins with a load of the list's kind word, which says whether the list has the cell. After that the thread is
//! inside the instruction.

ghost use Rattle.std.specs.Prelude.{◌≡◌, true, ℕ, ◌+◌, ◌≤◌, [], ◌∷◌, Some, vec_len, vec_capacity};
ghost use Rattle.brc_lang.specs.declared.module.Instr.TheVariants as instructions;
ghost use Rattle.brc_model.specs.declared.actor.Stage.TheVariants as stages;
ghost use Rattle.brc_model.specs.declared.duty.Duty.TheVariants.{KindLoad, CellLoad, CellSwap, Settle};
ghost use Rattle.brc_model.specs.declared.layout.Layout.{Layout};
ghost use Rattle.brc_model.specs.Actions.{Does, with_row};
ghost use Rattle.brc_model.specs.Threads.{row_of};
ghost use Rattle.brc_world.specs.declared.question.Question.TheVariants as questions;
ghost use Rattle.brc_world.specs.Actors.{actor_of, context_in, with_agenda};
ghost use Rattle.brc_world.specs.Questions.{place_answered};
ghost use Rattle.brc_world.specs.Starts.{uses_cell, action_at, action_inside, CanDispatch, HasDispatched};

use crate::dispatch::Start;
use crate::dispatch::references::release;
use crate::question::{Outside, Question};
use crate::thread::{Mode, Thread};
use brc_lang::{Instr, Variable};
use brc_model::{Duty, Holding, Stage};

/// Begins an instruction that uses a cell.
#[inline(always)]
pub(super) fn ask_for_cell(instr: Instr, thread: &mut Thread, left: u32, start: &mut Start)
    requires can { CanDispatch thread.old }
    requires item { uses_cell instr ≡ true }
    ensures { (layout : Layout) (t : ℕ) → HasDispatched thread.old (action_at layout t left (Some instr) thread.old)
        start.new
        thread.new }
{
    match instr {
        Instr::Borrow {
            to,
            list,
            index,
            otherwise,
        } => ask_range(
            list,
            index,
            Outside::Empties { to, otherwise },
            thread,
            left,
            start,
        ),
        Instr::Fetch {
            to,
            list,
            index,
            otherwise,
        } => ask_range(
            list,
            index,
            Outside::Empties { to, otherwise },
            thread,
            left,
            start,
        ),
        Instr::Set { list, index, .. } => ask_range(
            list,
            index,
            Outside::Releases,
            thread,
            left,
            start,
        ),
        Instr::Put {
            list,
            index,
            otherwise,
            ..
        } => ask_range(
            list,
            index,
            Outside::GoesOn { otherwise },
            thread,
            left,
            start,
        ),
        _ => *start = Start::Stuck,
    }
}

/// Begins the load of the list's kind word, which decides whether the list has a cell with the index
/// (`index_at_the_end_in_range`).
#[inline(always)]
fn ask_range(
    list: Variable,
    index: u8,
    outside: Outside,
    thread: &mut Thread,
    left: u32,
    start: &mut Start,
)
    requires { CanDispatch thread.old }
    ensures { HasDispatched thread.old (with_row (row_of thread.old.variables list) (λ row. Does (KindLoad row) []
        (λ found. place_answered (questions.Range index outside) found (context_in left thread.old) thread.old.at
        thread.old.variables)))
        start.new thread.new }
{
    match thread.row_of(list) {
        Some(row) => {
            thread.left = left;
            *start = Start::Asking {
                duty: Duty::KindLoad { row },
                question: Question::Range { index, outside },
            };
        }
        None => *start = Start::Stuck,
    }
}

/// Goes on with an instruction whose list has the cell.
#[inline(always)]
pub(super) fn use_cell(instr: Instr, thread: &mut Thread, start: &mut Start)
    requires { CanDispatch thread.old }
    ensures { (layout : Layout) (t : ℕ) → HasDispatched thread.old (action_inside layout t stages.InRange (Some instr)
        thread.old) start.new thread.new }
{
    match instr {
        Instr::Borrow {
            to,
            list,
            index,
            otherwise,
        } => borrow(to, list, index, otherwise, thread, start),
        Instr::Fetch {
            to,
            list,
            index,
            otherwise,
        } => fetch(to, list, index, otherwise, thread, start),
        Instr::Set {
            list,
            index,
            from,
            otherwise,
        } => set(list, index, from, otherwise, thread, start),
        Instr::Put {
            list,
            index,
            from,
            otherwise,
        } => retain_to_put(from, thread, start),
        _ => *start = Start::Stuck,
    }
}

/// Goes on with `borrow`: the load of the cell. (C API manual, `PyList_GetItem`: the list keeps its reference, and the
/// thread makes none.)
fn borrow(
    to: Variable,
    list: Variable,
    index: u8,
    otherwise: u8,
    thread: &mut Thread,
    start: &mut Start,
)
    requires { CanDispatch thread.old }
    ensures { (layout : Layout) (t : ℕ) → HasDispatched thread.old (action_inside layout t stages.InRange
        (Some (instructions.Borrow to list index otherwise)) thread.old) start.new thread.new }
{
    let next = thread.at + 1;
    match thread.row_of(list) {
        Some(row) => {
            thread.at = next;
            load_cell(row, index, Question::Borrow { to, otherwise }, start);
        }
        None => *start = Start::Stuck,
    }
}

/// Goes on with `fetch`: the load of the cell.
fn fetch(
    to: Variable,
    list: Variable,
    index: u8,
    otherwise: u8,
    thread: &mut Thread,
    start: &mut Start,
)
    requires { CanDispatch thread.old }
    ensures { (layout : Layout) (t : ℕ) → HasDispatched thread.old (action_inside layout t stages.InRange
        (Some (instructions.Fetch to list index otherwise)) thread.old) start.new thread.new }
{
    match thread.row_of(list) {
        Some(row) => load_cell(row, index, Question::Fetch { to, otherwise }, start),
        None => *start = Start::Stuck,
    }
}

/// Begins the load of the cell.
fn load_cell(row: u32, index: u8, question: Question, start: &mut Start)
    ensures { start.new ≡ Start.Asking (CellLoad row index) question }
{
    *start = Start::Asking {
        duty: Duty::CellLoad {
            row,
            cell: u32::from(index),
        },
        question,
    };
}

/// Ends `fetch`: the retain of the item that the thread found. (C API manual, `PyList_GetItemRef`: the caller owns the
/// reference.) The list is locked until then, so the item lives (`fetch_without_retain`).
#[inline(always)]
pub(super) fn retain_found(instr: Instr, item: u32, thread: &mut Thread, start: &mut Start)
    requires { CanDispatch thread.old }
    ensures { (layout : Layout) (t : ℕ) → HasDispatched thread.old (action_inside layout t (stages.Found item)
        (Some instr)
        thread.old) start.new thread.new }
{
    let next = thread.at + 1;
    let left = thread.left;
    match instr {
        Instr::Fetch { to, .. } => {
            thread.set(to, Some(item));
            thread.go_to(left, next);
            *start = Start::Doing(Duty::RetainLoad {
                row: item,
                holding: thread.holding(to),
            });
        }
        _ => *start = Start::Stuck,
    }
}

/// Ends `set`: the list takes the variable's reference over, and what the cell held is released. (C API manual,
/// `PyList_SetItem`.)
fn set(
    list: Variable,
    index: u8,
    from: Variable,
    otherwise: u8,
    thread: &mut Thread,
    start: &mut Start,
)
    requires { CanDispatch thread.old }
    ensures { (layout : Layout) (t : ℕ) → HasDispatched thread.old (action_inside layout t stages.InRange
        (Some (instructions.Set list index from otherwise)) thread.old) start.new thread.new }
{
    let next = thread.at + 1;
    let left = thread.left;
    match (thread.row_of(list), thread.row_of(from)) {
        (Some(row), Some(item)) => {
            thread.set(from, None);
            thread.go_to(left, next);
            swap(row, index, item, thread.holding(from), thread, start);
        }
        _ => *start = Start::Stuck,
    }
}

/// Ends `set` if the list has no such cell: the variable's reference is released. (C API manual, `PyList_SetItem`: the
/// reference is stolen on an error too.)
#[inline(always)]
pub(super) fn give_up_item(instr: Instr, thread: &mut Thread, start: &mut Start)
    requires { CanDispatch thread.old }
    ensures { (layout : Layout) (t : ℕ) → HasDispatched thread.old (action_inside layout t stages.OutOfRange
        (Some instr)
        thread.old) start.new thread.new }
{
    let left = thread.left;
    match instr {
        Instr::Set {
            from,
            otherwise,
            ..
        } => match thread.row_of(from) {
            Some(item) => {
                thread.set(from, None);
                thread.go_to(left, usize::from(otherwise));
                release(item, from, thread, start);
            }
            None => *start = Start::Stuck,
        },
        _ => *start = Start::Stuck,
    }
}

/// Goes on with `put`: the retain of what is to be stored. The variable keeps its reference, and the list gets one of
/// its own (`put_without_retain`).
fn retain_to_put(from: Variable, thread: &mut Thread, start: &mut Start)
    requires { CanDispatch thread.old }
    ensures { (layout : Layout) (t list index otherwise : ℕ) → HasDispatched thread.old (action_inside layout t
        stages.InRange (Some (instructions.Put list index from otherwise)) thread.old) start.new thread.new }
{
    match thread.row_of(from) {
        Some(item) => {
            thread.mode = Mode::Inside(Stage::Retained);
            *start = Start::Doing(Duty::RetainLoad {
                row: item,
                holding: Holding::InFlight,
            });
        }
        None => *start = Start::Stuck,
    }
}

/// Ends `put`: the list takes the new reference over, and what the cell held is released.
#[inline(always)]
pub(super) fn put_retained(instr: Instr, thread: &mut Thread, start: &mut Start)
    requires { CanDispatch thread.old }
    ensures { (layout : Layout) (t : ℕ) → HasDispatched thread.old (action_inside layout t stages.Retained (Some instr)
        thread.old) start.new thread.new }
{
    let next = thread.at + 1;
    let left = thread.left;
    match instr {
        Instr::Put {
            list,
            index,
            from,
            ..
        } => match (thread.row_of(list), thread.row_of(from)) {
            (Some(row), Some(item)) => {
                thread.go_to(left, next);
                swap(row, index, item, Holding::InFlight, thread, start);
            }
            _ => *start = Start::Stuck,
        },
        _ => *start = Start::Stuck,
    }
}

/// Begins the swap of a cell. The thread deallocates its dying chain after it, and after the release of what the cell
/// held.
fn swap(row: u32, index: u8, item: u32, holding: Holding, thread: &mut Thread, start: &mut Start)
    requires empty { thread.old.agenda.items ≡ [] }
    requires room { 8 ≤ vec_capacity thread.old.agenda }
    ensures starts { start.new ≡ Start.Doing (CellSwap row index item holding) }
    ensures actor { actor_of thread.new ≡ with_agenda (actor_of thread.old) (Settle ∷ []) }
    ensures room { vec_len thread.new.agenda + 4 ≤ vec_capacity thread.new.agenda }
{
    thread.agenda.push_reserved(Duty::Settle);
    *start = Start::Doing(Duty::CellSwap {
        row,
        cell: u32::from(index),
        item,
        holding,
    });
}
