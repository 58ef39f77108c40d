//! The next step of one thread, which does a duty or dispatches: it changes a word, the thread, or both.

ghost use Rattle.std.specs.Prelude.{◌≡◌, ◌≢◌, ◌≤◌, ◌==◌, false, if◌then◌else◌, length, IfOk, IfErr};
ghost use Rattle.std.specs.Prelude.{[], reverse, vec_capacity};
ghost use Rattle.brc_word.specs.Words.{free_word};
ghost use Rattle.brc_model.specs.declared.actor.Status.TheVariants.{Gone};
ghost use Rattle.brc_model.specs.Dispatch.{status_action};
ghost use Rattle.brc_model.specs.Limits.{worker_limit, total_limit};
ghost use Rattle.brc_model.specs.StepMachine.{at_place};
ghost use Rattle.brc_machine.specs.Storage.{word_in, AreOf};
ghost use Rattle.brc_world.specs.Actors.{actor_of, context_in, memory_by, actor_by, faults_by, waits, answer_by, CanAct};
ghost use Rattle.brc_world.specs.Doing.{DutyDone, HasDuty, Turned};
ghost use Rattle.brc_world.specs.Starts.{let_in};

use crate::did::Did;
use crate::dispatch::{Start, dispatch};
use crate::host_call::end_call;
use crate::question::answer;
use crate::thread::{ROOM, Thread};
use brc_effect::{Blocks, Doer, access_of, address_of};
use brc_lang::Function;
use brc_machine::agenda::{pass_over, push};
use brc_machine::{Faults, Memory, NoMemory};
use brc_model::{Duty, Exit, Status};
use brc_word::values::FREE;

/// Does the thread's duty, which is no longer in its agenda, on the duty's word. Returns the value that it found there.
// Inside the step its values would have no registers, and the step would take longer. Each arm makes the same call,
// which is inlined, so that the compiler makes one path for each duty, and tests the duty once
// (docs/lists/PERFORMANCE.md).
#[inline(never)]
pub fn do_duty(
    memory: &mut Memory,
    blocks: Blocks,
    number: u8,
    thread: &mut Thread,
    duty: &Duty,
) -> u64
    requires { HasDuty blocks number memory.old thread.old duty.now }
    ensures { DutyDone blocks number memory.old memory.new thread.old thread.new duty.now result }
{
    match duty {
        Duty::RetainLoad { .. } => do_known_duty(memory, blocks, number, thread, duty),
        Duty::RetainStore { .. } => do_known_duty(memory, blocks, number, thread, duty),
        Duty::RetainAdd { .. } => do_known_duty(memory, blocks, number, thread, duty),
        Duty::ReleaseLoad { .. } => do_known_duty(memory, blocks, number, thread, duty),
        Duty::ReleaseStore { .. } => do_known_duty(memory, blocks, number, thread, duty),
        Duty::DecideAtZero { .. } => do_known_duty(memory, blocks, number, thread, duty),
        Duty::SharedLoad { .. } => do_known_duty(memory, blocks, number, thread, duty),
        Duty::SharedExchange { .. } => do_known_duty(memory, blocks, number, thread, duty),
        Duty::SetMark { .. } => do_known_duty(memory, blocks, number, thread, duty),
        Duty::Look { .. } => do_known_duty(memory, blocks, number, thread, duty),
        Duty::TakeMark { .. } => do_known_duty(memory, blocks, number, thread, duty),
        Duty::MergeSwap { .. } => do_known_duty(memory, blocks, number, thread, duty),
        Duty::MergeLoad { .. } => do_known_duty(memory, blocks, number, thread, duty),
        Duty::MergeExchange { .. } => do_known_duty(memory, blocks, number, thread, duty),
        Duty::Die { .. } => do_known_duty(memory, blocks, number, thread, duty),
        Duty::Settle => do_known_duty(memory, blocks, number, thread, duty),
        Duty::SettleKind { .. } => do_known_duty(memory, blocks, number, thread, duty),
        Duty::SettleCell { .. } => do_known_duty(memory, blocks, number, thread, duty),
        Duty::TakeField { .. } => do_known_duty(memory, blocks, number, thread, duty),
        Duty::CloseResource { .. } => do_known_duty(memory, blocks, number, thread, duty),
        Duty::SettleEnd { .. } => do_known_duty(memory, blocks, number, thread, duty),
        Duty::Leave { .. } => do_known_duty(memory, blocks, number, thread, duty),
        Duty::Scan { .. } => do_known_duty(memory, blocks, number, thread, duty),
        Duty::TakeFound { .. } => do_known_duty(memory, blocks, number, thread, duty),
        Duty::Finish => do_known_duty(memory, blocks, number, thread, duty),
        Duty::ClaimMark { .. } => do_known_duty(memory, blocks, number, thread, duty),
        Duty::MarksLoad { .. } => do_known_duty(memory, blocks, number, thread, duty),
        Duty::BirthKind { .. } => do_known_duty(memory, blocks, number, thread, duty),
        Duty::BirthField { .. } => do_known_duty(memory, blocks, number, thread, duty),
        Duty::BirthLocal { .. } => do_known_duty(memory, blocks, number, thread, duty),
        Duty::KindLoad { .. } => do_known_duty(memory, blocks, number, thread, duty),
        Duty::LockGate { .. } => do_known_duty(memory, blocks, number, thread, duty),
        Duty::UnlockGate { .. } => do_known_duty(memory, blocks, number, thread, duty),
        Duty::CellLoad { .. } => do_known_duty(memory, blocks, number, thread, duty),
        Duty::CellSwap { .. } => do_known_duty(memory, blocks, number, thread, duty),
        Duty::LendField { .. } => do_known_duty(memory, blocks, number, thread, duty),
        Duty::ReturnField { .. } => do_known_duty(memory, blocks, number, thread, duty),
    }
}

/// Does the duty, as `do_duty` says, in an arm that knows which duty it is.
#[inline(always)]
fn do_known_duty(
    memory: &mut Memory,
    blocks: Blocks,
    number: u8,
    thread: &mut Thread,
    duty: &Duty,
) -> u64
    requires { HasDuty blocks number memory.old thread.old duty.now }
    ensures { DutyDone blocks number memory.old memory.new thread.old thread.new duty.now result }
{
    // A copy: behind a reference the compiler would read and test the duty again after each store.
    let own = *duty;
    let duty = &own;
    let all = memory.rows() as u32;
    let address = address_of(blocks, number, thread.head, *duty);
    let found = memory.load(address);
    let access = access_of(blocks, *duty, number, thread.head);
    memory.store(address, access.leaves(found));
    let by = doer(blocks, thread, number, all);
    let effect = by.effect(*duty, found);
    thread.change(effect.change);
    push(&mut thread.agenda, effect.next);
    thread.head = effect.head;
    pass_over(&mut thread.agenda, effect.head);
    found
}

/// Sends a thread on to the instruction `next` of its call if the gate that it found was free: it has the lock.
/// Otherwise the thread stays where it is, and its step has changed nothing. Returns what the step did.
fn enter(thread: &mut Thread, left: u32, next: usize, found: u64) -> Did
    ensures actor { actor_of thread.new ≡ at_place (actor_of thread.old)
        (let_in (context_in left thread.old) next thread.old.variables found (actor_of thread.old).place) }
    ensures did { result ≡ (if found == free_word then Did.Moved else Did.Same) }
{
    if found != FREE {
        return Did::Same;
    }
    thread.go_to(left, next);
    Did::Moved
}

/// Returns the parts of the thread that a duty's effect depends on. `rows` is the number of rows of all threads
/// together.
pub fn doer(blocks: Blocks, thread: &Thread, number: u8, rows: u32) -> Doer
    ensures { result ≡ record {
      blocks = blocks;
      number = number;
      status = thread.now.status;
      head = thread.now.head;
      used = thread.now.used;
      rows = rows;
    } }
{
    Doer {
        blocks,
        number,
        status: thread.status,
        head: thread.head,
        used: thread.used,
        rows,
    }
}

/// Takes the thread's next step, and returns what it did. If the step is a host call or a close, it ends by the exit.
/// Returns `NoMemory`, with nothing changed, if memory is refused.
#[inline(always)]
pub fn act(
    functions: &[Function],
    memory: &mut Memory,
    blocks: Blocks,
    number: u8,
    thread: &mut Thread,
    faults: &mut Faults,
    exit: Exit,
) -> Result<Did, NoMemory>
    requires columns { AreOf blocks memory.old }
    requires small { length memory.old.local ≤ total_limit }
    requires known { number ≤ worker_limit }
    requires can { CanAct blocks number (length memory.old.local) (word_in memory.old)
        (actor_of thread.old) (status_action functions.now blocks number (actor_of thread.old) thread.old.status) }
    ensures did { IfOk result (λ did. did ≡ answer_by (word_in memory.old) (reverse thread.old.agenda.items)
        (status_action functions.now blocks number (actor_of thread.old) thread.old.status)) }
    ensures turned { Turned memory.old memory.new (actor_of thread.old) (actor_of thread.new) faults.old faults.new result
        (memory_by blocks number (word_in memory.old) (actor_of thread.old)
        (status_action functions.now blocks number (actor_of thread.old) thread.old.status))
        (actor_by blocks number (word_in memory.old) (actor_of thread.old) exit
        (status_action functions.now blocks number (actor_of thread.old) thread.old.status))
        (faults_by exit (status_action functions.now blocks number (actor_of thread.old) thread.old.status) faults.old) }
    ensures refused { IfErr result (λ _. (thread.old.status ≢ Gone)
        × (waits (word_in memory.old) (reverse thread.old.agenda.items)
        (status_action functions.now blocks number (actor_of thread.old) thread.old.status) ≡ false)) }
{
    if let Status::Gone = thread.status {
        return Ok(Did::Gone);
    }
    thread.agenda.reserve(ROOM)?;
    // Most steps do a duty of the agenda. They make no `Start`, which would cost them a copy.
    match thread.agenda.pop() {
        Some(duty) => {
            do_duty(memory, blocks, number, thread, &duty);
            faults.count_duty(&duty, exit);
            Ok(Did::Moved)
        }
        None => Ok(act_by_dispatch(functions, memory, blocks, number, thread, faults, exit)),
    }
}

/// Takes the next step of a thread that has no duty left: it dispatches its next instruction or its exit, and does the
/// duty with which that begins. Returns what the step did.
#[inline(always)]
fn act_by_dispatch(
    functions: &[Function],
    memory: &mut Memory,
    blocks: Blocks,
    number: u8,
    thread: &mut Thread,
    faults: &mut Faults,
    exit: Exit,
) -> Did
    requires columns { AreOf blocks memory.old }
    requires small { length memory.old.local ≤ total_limit }
    requires known { number ≤ worker_limit }
    requires alive { thread.old.status ≢ Gone }
    requires empty { thread.old.agenda.items ≡ [] }
    requires room { 8 ≤ vec_capacity thread.old.agenda }
    requires can { CanAct blocks number (length memory.old.local) (word_in memory.old)
        (actor_of thread.old) (status_action functions.now blocks number (actor_of thread.old) thread.old.status) }
    ensures did { result ≡ answer_by (word_in memory.old) (reverse thread.old.agenda.items)
        (status_action functions.now blocks number (actor_of thread.old) thread.old.status) }
    ensures turned { Turned memory.old memory.new (actor_of thread.old) (actor_of thread.new) faults.old faults.new (Ok result)
        (memory_by blocks number (word_in memory.old) (actor_of thread.old)
        (status_action functions.now blocks number (actor_of thread.old) thread.old.status))
        (actor_by blocks number (word_in memory.old) (actor_of thread.old) exit
        (status_action functions.now blocks number (actor_of thread.old) thread.old.status))
        (faults_by exit (status_action functions.now blocks number (actor_of thread.old) thread.old.status) faults.old) }
{
    let mut start = Start::Stuck;
    dispatch(functions, blocks.layout(), number, thread, &mut start);
    match &start {
        Start::Stuck => Did::Same,
        Start::Moved => Did::Moved,
        Start::Calling(call) => {
            faults.count_call(exit);
            end_call(thread, *call, exit);
            Did::Moved
        }
        Start::Doing(duty) => {
            do_duty(memory, blocks, number, thread, duty);
            faults.count_duty(duty, exit);
            Did::Moved
        }
        Start::Asking { duty, question } => {
            let found = do_duty(memory, blocks, number, thread, duty);
            faults.count_duty(duty, exit);
            answer(thread, question, found);
            Did::Moved
        }
        Start::Locking { row, left, next } => {
            let found = do_duty(
                memory,
                blocks,
                number,
                thread,
                &Duty::LockGate { row: *row },
            );
            enter(thread, *left, *next, found)
        }
    }
}
