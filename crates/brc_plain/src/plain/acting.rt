//! What a thread of the plain machine does at an event.

ghost use Rattle.std.specs.Prelude.{◌≡◌, IfOk};
ghost use Rattle.brc_model.specs.declared.thread.Choice.TheVariants.{Claim};
ghost use Rattle.brc_model.specs.Dispatch.{action_of, is_idle, may_claim, status_action};
ghost use Rattle.brc_model.specs.Threads.{function_in};
ghost use Rattle.brc_plain.specs.Acts.{act_in};
ghost use Rattle.brc_plain.specs.Places.{place_in};
ghost use Rattle.brc_plain.specs.Plains.{machine_in};
ghost use Rattle.brc_plain.specs.Threads.{actor_of};
ghost use Rattle.brc_plain.specs.Begun.{no_states};

use crate::act::{Act, AfterDuty, Rest};
use crate::dispatch::{dispatch, number_in};
use crate::place::Place;
use crate::plain::Plain;
use crate::refused::Refused;
use crate::thread::Thread;
use brc_effect::Blocks;
use brc_effect::rows::index_of;
use brc_lang::Instr;
use brc_machine::threads::{code_of, has_gone, is_running};
use brc_model::{Choice, Duty};
use std::alloc::Global;

/// Returns whether the thread is outside all calls.
fn is_idle(place: &Place) -> bool
    ensures { result ≡ is_idle (place_in place.now) }
{
    matches!(place, Place::Idle { .. })
}

/// Returns whether the thread may claim the row.
fn may_claim(blocks: Blocks, number: u8, thread: &Thread, row: u32) -> bool
    ensures { result ≡ may_claim blocks number (actor_of thread.now) row }
{
    is_idle(&thread.place)
        && is_running(thread.status)
        && thread.agenda.is_empty()
        && blocks.block_of(row) == u32::from(number)
        && index_of(blocks.layout(), number, row) < thread.used
}

impl Plain<'_> {
    /// Returns what the thread does at an event with the choice. A stop is refused.
    pub(crate) fn act(
        &self,
        alloc: Global,
        number: u8,
        thread: &Thread,
        choice: Choice,
    ) -> Result<Act, Refused>
        ensures { IfOk result (λ act. act_in act ≡ action_of (machine_in self.now).functions no_states
            (machine_in self.now).layout number (actor_of thread.now) choice) }
    {
        match choice {
            Choice::Stop => Err(Refused::OutOfBounds),
            Choice::Claim(row) => self.claim(alloc, number, thread, row),
            Choice::Ok | Choice::Fault => self.go_on(alloc, number, thread),
        }
    }

    /// Returns what the thread does at an event that claims the row.
    fn claim(&self, alloc: Global, number: u8, thread: &Thread, row: u32) -> Result<Act, Refused>
        ensures { IfOk result (λ act. act_in act ≡ action_of (machine_in self.now).functions no_states
            (machine_in self.now).layout number (actor_of thread.now) (Claim row)) }
    {
        if !may_claim(self.blocks, number, thread, row) {
            return Ok(Act::Skip);
        }
        Ok(Act::Does {
            duty: Duty::ClaimMark { row },
            rest: Rest::Nothing,
            after: AfterDuty::Always(thread.place.copy(alloc)?),
        })
    }

    /// Returns what the thread does at an event that neither claims a row nor stops the thread.
    fn go_on(&self, alloc: Global, number: u8, thread: &Thread) -> Result<Act, Refused>
        ensures { IfOk result (λ act. act_in act ≡ status_action (machine_in self.now).functions
            (machine_in self.now).layout number (actor_of thread.now) thread.now.status) }
    {
        if has_gone(thread.status) {
            return Ok(Act::Skip);
        }
        if let Some((duty, rest)) = thread.agenda.as_slice().split_last() {
            return Ok(Act::Does {
                duty: *duty,
                rest: Rest::Agenda(Vec::from_slice(alloc, rest)?),
                after: AfterDuty::Always(thread.place.copy(alloc)?),
            });
        }
        dispatch(
            alloc,
            self.blocks.layout(),
            number,
            thread.used,
            self.code_of(thread),
            &thread.place,
        )
    }

    /// Returns the instructions of the function that the thread's innermost call runs.
    pub(crate) fn code_of(&self, thread: &Thread) -> &[Instr]
        ensures { result.now ≡ (function_in (machine_in self.now).functions thread.now.function
            (place_in thread.now.place)).code }
    {
        let number = number_in(thread.function, &thread.place);
        code_of(self.module.functions.as_slice(), number)
    }
}
