//! The start of a thread's step: the first duty of its agenda, or the dispatch of its next instruction or of its exit.

ghost use Rattle.std.specs.Prelude.{◌≡◌, ℕ, ◌+◌, ◌≤◌, slice_get, Some};
ghost use Rattle.std.specs.Prelude.{[], reverse, vec_len, vec_capacity};
ghost use Rattle.brc_model.specs.declared.state.Exit.{Exit};
ghost use Rattle.brc_model.specs.Threads.{function_in};
ghost use Rattle.brc_model.specs.Dispatch.{agenda_action, dispatch};
ghost use Rattle.brc_world.specs.Actors.{actor_of, OpensFew};
ghost use Rattle.brc_world.specs.Starts.{first_start, exit_action, action_at, action_inside, unasking, answered, started, AsksWell, CanDispatch, HasDispatched};

use crate::dispatch::birth::birth;
use crate::dispatch::calls::{call, fail, return_object};
use crate::dispatch::files::{ask_host, read, write};
use crate::dispatch::inside::go_on_inside;
use crate::dispatch::items::ask_for_cell;
use crate::dispatch::kinds::ask_kind;
use crate::dispatch::locks::{lock, unlock};
use crate::dispatch::references::{give_up, hand_on, name_again, name_none, take_list};
use crate::dispatch::stops::go_on_stopping;
use crate::dispatch::ways::{again, go};
use crate::host_call::HostCall;
use crate::question::Question;
use crate::thread::{Mode, Thread};
use brc_effect::rows::ROOT;
use brc_lang::{Function, Instr};
use brc_machine::threads::code_of;
use brc_model::{Duty, Holding, Layout, Stage};
use brc_word::kind_word;
use brc_word::values::{LIST, NUM};

mod birth;
mod calls;
mod files;
mod inside;
mod items;
mod kinds;
mod locks;
mod references;
mod stops;
mod ways;

/// The start of a thread's step.
#[derive(Clone, Copy)]
pub enum Start {
    /// The thread can't go on.
    Stuck,
    /// The step is done already: it accesses no word, and changes the thread alone.
    Moved,
    /// The step is this host call. Its exit decides where the thread goes on.
    Calling(HostCall),
    /// The thread does this duty, which is no longer in its agenda, and is already at the place where it then is.
    Doing(Duty),
    /// The thread does this duty. The word found answers the question, and so decides where the thread goes on.
    Asking { duty: Duty, question: Question },
    /// The thread locks the row's object. If it finds the gate free, it goes on at the instruction `next`, where `left`
    /// calls remain after the one from outside. Otherwise it stays where it was, and has begun neither the instruction
    /// nor, if the instruction is the first one, the call.
    Locking { row: u32, left: u32, next: usize },
}

/// Takes the first duty off the agenda or, if the agenda is empty, dispatches the next instruction or the exit.
#[inline(always)]
pub fn first_duty(functions: &[Function], layout: Layout, number: u8, thread: &mut Thread) -> Start
    requires room { vec_len thread.old.agenda + 8 ≤ vec_capacity thread.old.agenda }
    requires few { OpensFew (agenda_action functions.now layout number (actor_of thread.old)
        (reverse thread.old.agenda.items)) }
    ensures starts { unasking result ≡ first_start functions.now layout number (actor_of thread.old)
        (reverse thread.old.agenda.items) }
    ensures actor { (exit : Exit) (found : ℕ) → answered result exit found thread.new ≡ started (actor_of thread.old)
        (agenda_action functions.now layout number (actor_of thread.old) (reverse thread.old.agenda.items)) exit found }
    ensures question { AsksWell result }
    ensures room { vec_len thread.new.agenda + 4 ≤ vec_capacity thread.new.agenda }
{
    match thread.agenda.pop() {
        Some(duty) => Start::Doing(duty),
        None => {
            let mut start = Start::Stuck;
            dispatch(functions, layout, number, thread, &mut start);
            start
        }
    }
}

/// Dispatches the next instruction or the exit, once the agenda is empty, and writes the step's start. The dispatch of
/// a call's first instruction also begins the call. That is no step of its own, because an idle thread's variables and
/// counts are no part of the world.
// Each function here writes the start where its caller wants it. One that is returned by value is copied once for each
// function on its way, with stores that the next copy waits for (docs/lists/PERFORMANCE.md).
#[inline(always)]
pub fn dispatch(
    functions: &[Function],
    layout: Layout,
    number: u8,
    thread: &mut Thread,
    start: &mut Start,
)
    requires empty { thread.old.agenda.items ≡ [] }
    requires room { 8 ≤ vec_capacity thread.old.agenda }
    requires few { OpensFew (dispatch layout number thread.old.used (function_in functions.now thread.old.function
        (actor_of thread.old).place).code (actor_of thread.old).place) }
    ensures { HasDispatched thread.old (dispatch layout number thread.old.used (function_in functions.now
        thread.old.function (actor_of thread.old).place).code (actor_of thread.old).place) start.new thread.new }
{
    match thread.mode {
        Mode::Exiting => *start = Start::Stuck,
        Mode::Stopping { locked } => go_on_stopping(locked, thread, start),
        Mode::InCall => {
            let left = thread.left;
            let code = code_of(functions, thread.running());
            next_instruction(code, layout, number, thread, left, start);
        }
        Mode::Inside(stage) => {
            let code = code_of(functions, thread.running());
            this_instruction(code, layout, number, thread, stage, start);
        }
        Mode::Idle => {
            if thread.left == 0 {
                exit(thread, start);
                return;
            }
            let left = thread.left - 1;
            let code = code_of(functions, thread.function);
            thread.begin_call();
            next_instruction(code, layout, number, thread, left, start);
        }
    }
}

/// Begins the exit: the thread releases its reference to the root, deallocates its dying chain, and then leaves.
fn exit(thread: &mut Thread, start: &mut Start)
    requires empty { thread.old.agenda.items ≡ [] }
    requires room { 8 ≤ vec_capacity thread.old.agenda }
    ensures { HasDispatched thread.old (exit_action thread.old.used) start.new thread.new }
{
    thread.mode = Mode::Exiting;
    thread.agenda.push_reserved(Duty::Leave {
        word: 0,
        rows: thread.used,
    });
    thread.agenda.push_reserved(Duty::Settle);
    *start = Start::Doing(Duty::ReleaseLoad {
        row: ROOT,
        holding: Holding::AsCaller,
    });
}

/// Dispatches the instruction `thread.at` of this code, where `left` calls remain after the one from outside. Past the
/// last instruction the thread is stuck.
#[inline(always)]
fn next_instruction(
    code: &[Instr],
    layout: Layout,
    number: u8,
    thread: &mut Thread,
    left: u32,
    start: &mut Start,
)
    requires empty { thread.old.agenda.items ≡ [] }
    requires room { 8 ≤ vec_capacity thread.old.agenda }
    requires few { OpensFew (action_at layout number left (slice_get code.now thread.old.at) thread.old) }
    ensures { HasDispatched thread.old (action_at layout number left (slice_get code.now thread.old.at) thread.old)
        start.new thread.new }
{
    match code.get(thread.at) {
        Some(instr) => begin(*instr, layout, number, thread, left, start),
        None => *start = Start::Stuck,
    }
}

/// Goes on inside the instruction `thread.at` of this code, by how far the thread is in it.
#[inline(always)]
fn this_instruction(
    code: &[Instr],
    layout: Layout,
    number: u8,
    thread: &mut Thread,
    stage: Stage,
    start: &mut Start,
)
    requires empty { thread.old.agenda.items ≡ [] }
    requires room { 8 ≤ vec_capacity thread.old.agenda }
    ensures { HasDispatched thread.old (action_inside layout number stage (slice_get code.now thread.old.at)
        thread.old) start.new thread.new }
{
    match code.get(thread.at) {
        Some(instr) => go_on_inside(*instr, stage, layout, number, thread, start),
        None => *start = Start::Stuck,
    }
}

/// Begins the instruction, where `left` calls remain after the one from outside.
#[inline(always)]
fn begin(
    instr: Instr,
    layout: Layout,
    number: u8,
    thread: &mut Thread,
    left: u32,
    start: &mut Start,
)
    requires can { CanDispatch thread.old }
    requires few { OpensFew (action_at layout number left (Some instr) thread.old) }
    ensures { HasDispatched thread.old (action_at layout number left (Some instr) thread.old) start.new thread.new }
{
    match instr {
        Instr::Num {
            to,
            value,
            otherwise,
        } => {
            let word = kind_word(NUM, value);
            birth(to, word, otherwise, layout, number, thread, left, start);
        }
        Instr::List {
            to,
            cells,
            otherwise,
        } => {
            let word = kind_word(LIST, u32::from(cells));
            birth(to, word, otherwise, layout, number, thread, left, start);
        }
        Instr::NoneObject { to } => name_none(to, thread, left, start),
        Instr::Take { to, list } => take_list(to, list, layout, thread, left, start),
        Instr::Newref { to, from } => name_again(to, from, thread, left, start),
        Instr::Move { to, from } => hand_on(to, from, thread, left, start),
        Instr::Drop { from } => give_up(from, thread, left, start),
        Instr::Lock { object } => lock(object, thread, left, start),
        Instr::Unlock { object } => unlock(object, thread, left, start),
        Instr::Borrow { .. } | Instr::Fetch { .. } | Instr::Set { .. } | Instr::Put { .. } => {
            ask_for_cell(instr, thread, left, start);
        }
        Instr::Open { to, otherwise, .. } => ask_host(
            to, otherwise, layout, number, thread, left, start,
        ),
        Instr::Connect { to, otherwise, .. } => {
            ask_host(to, otherwise, layout, number, thread, left, start);
        }
        Instr::Read {
            to,
            file,
            otherwise,
            ..
        } => read(to, file, otherwise, layout, number, thread, left, start),
        Instr::Write { number: value, .. } => write(value, thread, left, start),
        Instr::As {
            from,
            kind,
            otherwise,
        } => ask_kind(from, kind, otherwise, thread, left, start),
        Instr::Call {
            to,
            callee,
            arguments,
            otherwise,
        } => call(
            to, callee, &arguments, otherwise, number, thread, left, start,
        ),
        Instr::Goto { target } => go(target, thread, left, start),
        Instr::Again { target, times } => again(target, times, thread, left, start),
        Instr::Ret { from } => return_object(from, thread, left, start),
        Instr::Fail => fail(thread, left, start),
    }
}
