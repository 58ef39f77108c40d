//! The dispatch of `open`, `connect`, `read` and `write`, which call the host.

ghost use Rattle.std.specs.Prelude.{ℕ, None, Some, [], slice_set};
ghost use Rattle.brc_lang.specs.declared.module.Instr.TheVariants as instructions;
ghost use Rattle.brc_model.specs.declared.actor.Place.TheVariants.{InCall};
ghost use Rattle.brc_model.specs.declared.actor.Stage.TheVariants as stages;
ghost use Rattle.brc_model.specs.declared.layout.Layout.{Layout};
ghost use Rattle.brc_model.specs.Actions.{Silent, grant_action, granted_birth, lend_action};
ghost use Rattle.brc_world.specs.Actors.{context_in};
ghost use Rattle.brc_world.specs.Starts.{action_at, action_inside, CanDispatch, HasDispatched};

use crate::dispatch::Start;
use crate::host_call::HostCall;
use crate::thread::{Mode, Thread};
use brc_effect::rows::row_at;
use brc_lang::{Instr, Variable};
use brc_machine::threads::has_room;
use brc_model::{Duty, Exit, Layout, Stage};
use brc_word::kind_word;
use brc_word::values::{FILE, NUM, SOCK};

/// Begins `open` and `connect`: the host call for the resource. The thread asks the host only if it has a row left for
/// the object (`open_without_room`): otherwise the resource would be open, and nobody could close it.
#[inline(always)]
pub(super) fn ask_host(
    to: Variable,
    otherwise: u8,
    layout: Layout,
    number: u8,
    thread: &mut Thread,
    left: u32,
    start: &mut Start,
)
    requires { CanDispatch thread.old }
    ensures { HasDispatched thread.old (grant_action layout number thread.old.used (context_in left thread.old)
        thread.old.at thread.old.variables to otherwise) start.new thread.new }
{
    if !has_room(layout, number, thread.used) {
        miss(to, otherwise, thread, left, start);
        return;
    }
    thread.left = left;
    *start = Start::Calling(HostCall::Asks { to, otherwise });
}

/// Begins `read`: the thread takes the resource out of its field, if it has a row left for the number that it reads.
#[inline(always)]
pub(super) fn read(
    to: Variable,
    file: Variable,
    otherwise: u8,
    layout: Layout,
    number: u8,
    thread: &mut Thread,
    left: u32,
    start: &mut Start,
)
    requires { CanDispatch thread.old }
    ensures { (most : ℕ) → HasDispatched thread.old (action_at layout number left
        (Some (instructions.Read to file most otherwise)) thread.old) start.new thread.new }
{
    if has_room(layout, number, thread.used) {
        lend(file, thread, left, start);
    } else {
        miss(to, otherwise, thread, left, start);
    }
}

/// Ends an instruction for whose object the thread has no row left: the variable is empty.
#[inline(always)]
fn miss(to: Variable, otherwise: u8, thread: &mut Thread, left: u32, start: &mut Start)
    requires { CanDispatch thread.old }
    ensures { HasDispatched thread.old (Silent [] (InCall (context_in left thread.old) otherwise
        (slice_set thread.old.variables to None))) start.new thread.new }
{
    thread.set(to, None);
    thread.go_to(left, usize::from(otherwise));
    *start = Start::Moved;
}

/// Begins `write`: the load of the number's kind word, which has its value.
#[inline(always)]
pub(super) fn write(number: Variable, thread: &mut Thread, left: u32, start: &mut Start)
    requires { CanDispatch thread.old }
    ensures { (layout : Layout) (t file otherwise : ℕ) → HasDispatched thread.old (action_at layout t left
        (Some (instructions.Write file number otherwise)) thread.old) start.new thread.new }
{
    match thread.row_of(number) {
        Some(row) => {
            thread.left = left;
            thread.mode = Mode::Inside(Stage::Loaded);
            *start = Start::Doing(Duty::KindLoad { row });
        }
        None => *start = Start::Stuck,
    }
}

/// Begins the lending of the file's resource to a host call.
#[inline(always)]
fn lend(file: Variable, thread: &mut Thread, left: u32, start: &mut Start)
    requires { CanDispatch thread.old }
    ensures { HasDispatched thread.old (lend_action (context_in left thread.old) thread.old.at thread.old.variables
        file)
        start.new thread.new }
{
    match thread.row_of(file) {
        Some(row) => {
            thread.left = left;
            thread.mode = Mode::Inside(Stage::Lent);
            *start = Start::Doing(Duty::LendField { row });
        }
        None => *start = Start::Stuck,
    }
}

/// Goes on with `write` once the number is loaded.
#[inline(always)]
pub(super) fn lend_to_write(instr: Instr, thread: &mut Thread, start: &mut Start)
    requires { CanDispatch thread.old }
    ensures { (layout : Layout) (t : ℕ) → HasDispatched thread.old (action_inside layout t stages.Loaded (Some instr)
        thread.old) start.new thread.new }
{
    let left = thread.left;
    match instr {
        Instr::Write { file, .. } => lend(file, thread, left, start),
        _ => *start = Start::Stuck,
    }
}

/// Goes on with `read` or `write` once the resource is lent: the host call, with nobody else at the resource.
#[inline(always)]
pub(super) fn use_lent(instr: Instr, thread: &mut Thread, start: &mut Start)
    requires { CanDispatch thread.old }
    ensures { (layout : Layout) (t : ℕ) → HasDispatched thread.old (action_inside layout t stages.Lent (Some instr)
        thread.old) start.new thread.new }
{
    match instr {
        Instr::Read { .. } | Instr::Write { .. } => *start = Start::Calling(HostCall::Uses),
        _ => *start = Start::Stuck,
    }
}

/// Goes on with `read` or `write` once the host has answered: the thread puts the resource back, on each exit
/// (`write_keeps_the_resource`).
#[inline(always)]
pub(super) fn put_back(instr: Instr, exit: Exit, thread: &mut Thread, start: &mut Start)
    requires { CanDispatch thread.old }
    ensures { (layout : Layout) (t : ℕ) → HasDispatched thread.old (action_inside layout t (stages.Called exit)
        (Some instr)
        thread.old) start.new thread.new }
{
    let next = thread.at + 1;
    let left = thread.left;
    match instr {
        Instr::Read {
            to,
            file,
            otherwise,
            ..
        } => match thread.row_of(file) {
            Some(row) => {
                match exit {
                    Exit::Success => thread.mode = Mode::Inside(Stage::Granted),
                    Exit::Fault => {
                        thread.set(to, None);
                        thread.go_to(left, usize::from(otherwise));
                    }
                }
                *start = Start::Doing(Duty::ReturnField { row });
            }
            None => *start = Start::Stuck,
        },
        Instr::Write {
            file,
            otherwise,
            ..
        } => match thread.row_of(file) {
            Some(row) => {
                match exit {
                    Exit::Success => thread.go_to(left, next),
                    Exit::Fault => thread.go_to(left, usize::from(otherwise)),
                }
                *start = Start::Doing(Duty::ReturnField { row });
            }
            None => *start = Start::Stuck,
        },
        _ => *start = Start::Stuck,
    }
}

/// Goes on once the host has granted what was asked: the birth of the file, the socket or the number that was read
/// (`read_without_birth`).
#[inline(always)]
pub(super) fn make_granted(
    instr: Instr,
    layout: Layout,
    number: u8,
    thread: &mut Thread,
    start: &mut Start,
)
    requires { CanDispatch thread.old }
    ensures { HasDispatched thread.old (action_inside layout number stages.Granted (Some instr) thread.old) start.new
        thread.new }
{
    match instr {
        Instr::Open { to, .. } => give_birth(to, kind_word(FILE, 0), layout, number, thread, start),
        Instr::Connect { to, .. } => give_birth(
            to,
            kind_word(SOCK, 0),
            layout,
            number,
            thread,
            start,
        ),
        Instr::Read { to, .. } => give_birth(to, kind_word(NUM, 0), layout, number, thread, start),
        _ => *start = Start::Stuck,
    }
}

/// Begins the birth of an object of the kind word in the variable. The thread has a row left for it: it has seen that
/// before it called the host.
fn give_birth(
    to: Variable,
    word: u64,
    layout: Layout,
    number: u8,
    thread: &mut Thread,
    start: &mut Start,
)
    requires { CanDispatch thread.old }
    ensures { HasDispatched thread.old (granted_birth layout number thread.old.used
        (context_in thread.old.left thread.old) thread.old.at thread.old.variables to word) start.new thread.new }
{
    let next = thread.at + 1;
    let left = thread.left;
    let row = row_at(layout, number, thread.used);
    thread.set(to, Some(row));
    thread.go_to(left, next);
    *start = Start::Doing(Duty::BirthKind {
        row,
        holding: thread.holding(to),
        word,
    });
}
