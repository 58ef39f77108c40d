//! A look at a thread's next step: what the step does is found out without taking it.

ghost use Rattle.std.specs.Prelude.{◌≡◌, ◌<◌, ◌≤◌, length, IfOk, None};
ghost use Rattle.brc_model.specs.Dispatch.{action_of, status_action};
ghost use Rattle.brc_model.specs.Threads.{number_in};
ghost use Rattle.brc_model.specs.Limits.{worker_limit, total_limit};
ghost use Rattle.brc_world.specs.Actors.{actor_of, CanDo, CanAct};
ghost use Rattle.brc_machine.specs.Sights.{next_part, begins_at, duty_event, kind_born, sight_of, sight_by};
ghost use Rattle.brc_machine.specs.Storage.{word_in, AreOf};
ghost use Rattle.brc_check.specs.Tables.{states_of};

use crate::claim_and_stop::{may_claim, stops};
use crate::dispatch::{Start, first_duty};
use crate::scratch::copy_thread;
use crate::thread::{Mode, Thread};
use brc_check::Checked;
use brc_effect::{Blocks, access_of, address_of};
use brc_lang::{Function, Kind};
use brc_machine::exits::exit_part;
use brc_machine::objects::kind_born;
use brc_machine::threads::{exit_of, is_running};
use brc_machine::{Event, ExitPart, Memory, NoMemory, Part, Sight};
use brc_model::{Choice, Duty, Layout, Status};

/// Returns the sight of the thread's step by the choice, or `None` if it takes no step: it is gone, may not claim the
/// row, or can't stop where it is. `copy` becomes a copy of the thread whose step has started. Returns `NoMemory` if
/// memory is refused.
pub fn peek(
    checked: &Checked,
    memory: &Memory,
    blocks: Blocks,
    number: u8,
    thread: &Thread,
    choice: Choice,
    copy: &mut Thread,
) -> Result<Option<Sight>, NoMemory>
    requires columns { AreOf blocks memory.now }
    requires small { length memory.now.local ≤ total_limit }
    requires known { number ≤ worker_limit }
    requires can { CanAct blocks number (length memory.now.local) (word_in memory.now)
        (actor_of thread.now) (action_of checked.now.module.functions
        (states_of checked.now.module checked.now.table) blocks number (actor_of thread.now) choice) }
    ensures { IfOk result (λ sight. sight ≡ sight_by blocks number (word_in memory.now) (actor_of thread.now) choice
        (action_of checked.now.module.functions (states_of checked.now.module checked.now.table) blocks number
        (actor_of thread.now) choice)) }
{
    match choice {
        Choice::Ok | Choice::Fault => {
            let functions = checked.module().functions.as_slice();
            peek_ahead(functions, memory, blocks, number, thread, choice, copy)
        }
        Choice::Claim(row) => {
            if !may_claim(blocks, number, thread, row) {
                return Ok(None);
            }
            let duty = Duty::ClaimMark { row };
            Ok(Some(see_duty(memory, blocks, number, thread, choice, &duty)))
        }
        Choice::Stop => {
            if !stops(checked, thread) {
                return Ok(None);
            }
            Ok(Some(sight_of(blocks.layout(), thread, choice, Event::Silent, None)))
        }
    }
}

/// Returns the sight of the thread's step by a choice that is no claim and no stop, or `None` if the thread is gone.
/// The copy's step is started, by which the thread's action is known; the thread itself stays as it is.
fn peek_ahead(
    functions: &[Function],
    memory: &Memory,
    blocks: Blocks,
    number: u8,
    thread: &Thread,
    choice: Choice,
    copy: &mut Thread,
) -> Result<Option<Sight>, NoMemory>
    requires columns { AreOf blocks memory.now }
    requires small { length memory.now.local ≤ total_limit }
    requires known { number ≤ worker_limit }
    requires can { CanAct blocks number (length memory.now.local) (word_in memory.now)
        (actor_of thread.now) (status_action functions.now blocks number (actor_of thread.now) thread.now.status) }
    ensures { IfOk result (λ sight. sight ≡ sight_by blocks number (word_in memory.now) (actor_of thread.now) choice
        (status_action functions.now blocks number (actor_of thread.now) thread.now.status)) }
{
    if let Status::Gone = thread.status {
        return Ok(None);
    }
    copy_thread(thread, copy)?;
    let layout = blocks.layout();
    match first_duty(functions, layout, number, copy) {
        Start::Stuck => Ok(None),
        Start::Moved => Ok(Some(sight_of(layout, thread, choice, Event::Silent, None))),
        Start::Calling(_) => {
            let event = Event::Calls(exit_of(choice));
            Ok(Some(sight_of(layout, thread, choice, event, None)))
        }
        Start::Doing(duty) => Ok(Some(see_duty(memory, blocks, number, thread, choice, &duty))),
        Start::Asking { duty, .. } => {
            Ok(Some(see_duty(memory, blocks, number, thread, choice, &duty)))
        }
        Start::Locking { row, .. } => {
            let duty = Duty::LockGate { row };
            Ok(Some(see_duty(memory, blocks, number, thread, choice, &duty)))
        }
    }
}

/// Returns the sight of the thread's step by the choice, which does the duty.
fn see_duty(
    memory: &Memory,
    blocks: Blocks,
    number: u8,
    thread: &Thread,
    choice: Choice,
    duty: &Duty,
) -> Sight
    requires columns { AreOf blocks memory.now }
    requires small { length memory.now.local ≤ total_limit }
    requires known { number ≤ worker_limit }
    requires can { CanDo blocks number (length memory.now.local) (word_in memory.now)
        (actor_of thread.now) duty.now }
    ensures { result ≡ sight_of blocks (actor_of thread.now) choice (duty_event blocks number (word_in memory.now)
        (actor_of thread.now) duty.now) (kind_born (word_in memory.now) duty.now) }
{
    let event = duty_event(memory, blocks, number, thread, duty);
    sight_of(
        blocks.layout(),
        thread,
        choice,
        event,
        kind_born(memory, duty),
    )
}

/// Returns the event of the thread's duty: what it finds in its word, and what it would leave there
/// (`word_after_for_before`). A compare-exchange that fails is an event too: the thread found a word by which it
/// retries (`lost_exchange_unseen`).
fn duty_event(memory: &Memory, blocks: Blocks, number: u8, thread: &Thread, duty: &Duty) -> Event
    requires columns { AreOf blocks memory.now }
    requires small { length memory.now.local ≤ total_limit }
    requires known { number ≤ worker_limit }
    requires can { CanDo blocks number (length memory.now.local) (word_in memory.now)
        (actor_of thread.now) duty.now }
    ensures { result ≡ duty_event blocks number (word_in memory.now) (actor_of thread.now) duty.now }
{
    let address = address_of(blocks, number, thread.head, *duty);
    let access = access_of(blocks, *duty, number, thread.head);
    let found = memory.load(address);
    Event::Does {
        duty: *duty,
        address,
        found,
        left: access.leaves(found),
    }
}

/// Returns the sight of the thread's step by the choice, which is the event.
fn sight_of(
    layout: Layout,
    thread: &Thread,
    choice: Choice,
    event: Event,
    born: Option<Kind>,
) -> Sight
    ensures { result ≡ sight_of layout (actor_of thread.now) choice event born }
{
    Sight {
        layout,
        begins: begins_at(thread, choice),
        event,
        function: number_in(thread),
        running: is_running(thread.status),
        head: thread.head,
        exit: exit_of(choice),
        born,
    }
}

/// Returns the number of the function that the innermost call of the thread runs or, outside its calls, of the one that
/// it calls.
fn number_in(thread: &Thread) -> usize
    ensures { result ≡ number_in thread.now.function (actor_of thread.now).place }
{
    match thread.mode {
        Mode::InCall | Mode::Inside(_) => thread.running(),
        Mode::Idle | Mode::Stopping { .. } | Mode::Exiting => thread.function,
    }
}

/// Returns the part of the thread's work to which its step by the choice belongs, if the thread's state says it.
fn begins_at(thread: &Thread, choice: Choice) -> Option<Part>
    ensures { result ≡ begins_at (actor_of thread.now) choice }
{
    match choice {
        Choice::Ok | Choice::Fault => next_part(thread),
        Choice::Claim(row) => Some(Part::Claim { row }),
        Choice::Stop => Some(Part::Stop),
    }
}

/// Returns the part of the thread's work to which its next step belongs, if the thread's state says it. Each step of an
/// exit says its part. Other steps say it only if they begin an instruction or go on inside one: a duty doesn't know
/// for which instruction it is done (`part_of_the_first_instruction`).
fn next_part(thread: &Thread) -> Option<Part>
    ensures { result ≡ next_part (actor_of thread.now).place (actor_of thread.now).actor.agenda }
{
    let rests = thread.agenda.is_empty();
    match thread.mode {
        Mode::Exiting => Some(Part::Exit(exit_part(thread.agenda.as_slice()))),
        Mode::Stopping { .. } if rests => Some(Part::Stop),
        Mode::Idle if rests && thread.left == 0 => Some(Part::Exit(ExitPart::Root)),
        Mode::Idle if rests => Some(Part::Instruction { at: 0 }),
        Mode::InCall | Mode::Inside(_) if rests => Some(Part::Instruction { at: thread.at }),
        _ => None,
    }
}
