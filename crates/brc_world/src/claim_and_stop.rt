//! The two steps that a thread takes only where a schedule names them: a claim and a stop.

ghost use Rattle.std.specs.Prelude.{◌≡◌, ◌≤◌, true, length, map, OnOk, OnErr, IfOk, IfErr};
ghost use Rattle.brc_model.specs.declared.actor.Status.TheVariants.{Gone};
ghost use Rattle.brc_model.specs.Actions.{given_up, waiting_state};
ghost use Rattle.brc_model.specs.Dispatch.{may_claim};
ghost use Rattle.brc_model.specs.Limits.{worker_limit, total_limit};
ghost use Rattle.brc_machine.specs.Storage.{word_in, AreOf};
ghost use Rattle.brc_world.specs.Actors.{actor_of, finds_mark, memory_claimed, actor_claimed, did_claim, CanClaim, action_stopped, is_silent, silently, did_stop, CanStop};
ghost use Rattle.brc_world.specs.OpenCalls.{rows_of, AreKnown};
ghost use Rattle.brc_machine.specs.OpenCalls.{open_of};
ghost use Rattle.brc_check.specs.Tables.{states_of};

use crate::did::Did;
use crate::doing::do_duty;
use crate::open_calls::OpenCalls;
use crate::thread::{Mode, ROOM, Thread};
use brc_check::{Checked, apply};
use brc_effect::Blocks;
use brc_machine::threads::{code_of, is_running};
use brc_machine::variables::owned_rows;
use brc_machine::{Memory, NoMemory, OpenCall};
use brc_model::{Duty, Exit, State, Status};
use brc_word::mark_at;
use brc_word::values::UNSET;

/// Takes the row's mark if the thread may claim the row and the mark is set, and returns what the step did. Returns
/// `NoMemory`, with nothing changed, if memory is refused.
#[inline(never)]
pub fn claim(
    memory: &mut Memory,
    blocks: Blocks,
    number: u8,
    thread: &mut Thread,
    row: u32,
) -> Result<Did, NoMemory>
    requires columns { AreOf blocks memory.old }
    requires small { length memory.old.local ≤ total_limit }
    requires known { number ≤ worker_limit }
    requires can { CanClaim blocks number (length memory.old.local) (word_in memory.old)
        (actor_of thread.old) row }
    ensures did { IfOk result (λ did. did ≡ did_claim blocks number (word_in memory.old) (actor_of thread.old) row
        thread.old.status) }
    ensures words { OnOk result (word_in memory.new
        ≡ memory_claimed blocks number (word_in memory.old) (actor_of thread.old) row) }
    ensures actor { OnOk result (actor_of thread.new
        ≡ actor_claimed blocks number (word_in memory.old) (actor_of thread.old) row) }
    ensures refused { IfErr result (λ _. finds_mark blocks number (word_in memory.old) (actor_of thread.old) row
        ≡ true) }
    ensures same_words { OnErr result (memory.new ≡ memory.old) }
    ensures same_actor { OnErr result (actor_of thread.new ≡ actor_of thread.old) }
    ensures as_many_rows { length memory.new.local ≡ length memory.old.local }
    ensures as_many_threads { length memory.new.thread ≡ length memory.old.thread }
    ensures as_many_cells { memory.new.width ≡ memory.old.width }
{
    if let Status::Gone = thread.status {
        return Ok(Did::Gone);
    }
    if !finds_mark(memory, blocks, number, thread, row) {
        return Ok(Did::Same);
    }
    thread.agenda.reserve(ROOM)?;
    do_duty(memory, blocks, number, thread, &Duty::ClaimMark { row });
    Ok(Did::Moved)
}

fn finds_mark(memory: &Memory, blocks: Blocks, number: u8, thread: &Thread, row: u32) -> bool
    requires columns { AreOf blocks memory.now }
    requires can { CanClaim blocks number (length memory.now.local) (word_in memory.now)
        (actor_of thread.now) row }
    ensures { result ≡ finds_mark blocks number (word_in memory.now) (actor_of thread.now) row }
{
    if !may_claim(blocks, number, thread, row) {
        return false;
    }
    let word = memory.load(blocks.mark_place(row));
    mark_at(word, blocks.mark_bit(row)) != UNSET
}

/// Returns whether the thread may claim the row: it runs, is in no call, has nothing to do, and has used the row of its
/// block. It may claim no other thread's row, because only the owner may merge an object while it runs
/// (`claim_of_any_row`).
pub fn may_claim(blocks: Blocks, number: u8, thread: &Thread, row: u32) -> bool
    ensures { result ≡ may_claim blocks number (actor_of thread.now) row }
{
    match thread.mode {
        Mode::Idle => {
            let (block, index) = blocks.locate(row);
            is_running(thread.status)
                && thread.agenda.is_empty()
                && block == u32::from(number)
                && index < thread.used
        }
        Mode::InCall | Mode::Inside(_) | Mode::Stopping { .. } | Mode::Exiting => false,
    }
}

/// Returns whether a stop changes the thread: it runs, has nothing to do, and is before a call or before an
/// instruction. At a point that no path of its function reaches it can't stop, because nobody knows what it holds
/// there.
pub fn stops(checked: &Checked, thread: &Thread) -> bool
    ensures { result ≡ is_silent (action_stopped checked.now.module.functions
        (states_of checked.now.module checked.now.table) (actor_of thread.now)) }
{
    if !is_running(thread.status) || !thread.agenda.is_empty() {
        return false;
    }
    match thread.mode {
        Mode::Idle => thread.left != 0,
        Mode::InCall => checked.entry(thread.running(), thread.at).is_some(),
        Mode::Inside(_) | Mode::Stopping { .. } | Mode::Exiting => false,
    }
}

/// Stops the thread, if it is between two instructions, and returns what the step did. What the module's table says is
/// locked at its point it has then to unlock, and what the table says its variables own it has to give up; what they
/// borrow isn't its own (`stop_releases_borrowed`). The calls that are open around the innermost one give up what they
/// own, too (`stop_of_the_innermost_alone`). It takes no memory.
#[inline(never)]
pub fn stop(checked: &Checked, thread: &mut Thread) -> Did
    requires { CanStop checked.now.module.functions (states_of checked.now.module checked.now.table)
        (actor_of thread.old) }
    ensures did { result ≡ did_stop checked.now.module.functions (states_of checked.now.module checked.now.table)
        (actor_of thread.old) thread.old.status }
    ensures actor { actor_of thread.new ≡ silently (actor_of thread.old) (action_stopped checked.now.module.functions
        (states_of checked.now.module checked.now.table) (actor_of thread.old)) }
{
    if let Status::Gone = thread.status {
        return Did::Gone;
    }
    if !stops(checked, thread) {
        return Did::Same;
    }
    match thread.mode {
        Mode::InCall => {
            let entry = checked.entry(thread.running(), thread.at);
            if let Some(state) = entry {
                let locked = match state.locked {
                    Some(variable) => thread.row_of(variable),
                    None => None,
                };
                thread.variables = owned_rows(&state.slots, &thread.variables);
                keep_owned(checked, thread.function, &mut thread.outer);
                thread.stop(locked);
            }
        }
        _ => thread.rest(0),
    }
    Did::Moved
}

/// Leaves of the rows that the open calls name those that the calls own, where the thread calls `first` from outside.
fn keep_owned(checked: &Checked, first: usize, outer: &mut OpenCalls)
    requires { AreKnown checked.now.module.functions (states_of checked.now.module checked.now.table) first outer.old }
    ensures { map rows_of outer.new ≡ given_up checked.now.module.functions
        (states_of checked.now.module checked.now.table) first outer.old }
{
    let count = outer.calls.len();
    let mut number = first;
    for index in 0..count {
        let call = outer.calls[index];
        if let Some(state) = waiting_state(checked, number, &call) {
            outer.calls[index].variables = owned_rows(&state.slots, &call.variables);
        }
        number = usize::from(call.callee);
    }
}

/// Returns the state in which a call of the function waits for the one that it has made, by the module's table: what
/// the fault exit of its instruction leaves. That is what it owns, because the result isn't there yet. It is `None` at
/// a point that no path reaches.
fn waiting_state(checked: &Checked, function: usize, call: &OpenCall) -> Option<State>
    ensures { result ≡ waiting_state checked.now.module.functions (states_of checked.now.module checked.now.table)
        function (open_of call.now) }
{
    let functions = checked.module().functions.as_slice();
    let instr = code_of(functions, function).get(call.at)?;
    let mut state = checked.entry(function, call.at)?;
    apply(*instr, Exit::Fault, &mut state);
    Some(state)
}
