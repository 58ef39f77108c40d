//! Whether an event of the plain machine is bad.

ghost use Rattle.std.specs.Prelude.{◌≡◌, ◌||◌, reverse, IfOk};
ghost use Rattle.brc_model.specs.BadDuties.{is_bad_duty, touches_freed};
ghost use Rattle.brc_model.specs.Events.{begins_unfit, chooses_unfit, is_bad_action, is_bad_event};
ghost use Rattle.brc_model.specs.StepMachine.{counting};
ghost use Rattle.brc_plain.specs.Acts.{act_in};
ghost use Rattle.brc_plain.specs.Plains.{machine_in};
ghost use Rattle.brc_plain.specs.Threads.{actor_of};

use crate::act::Act;
use crate::fits::ask_indexed;
use crate::lives::{is_freed_for, life_at, touched_row};
use crate::moves::reference_effects;
use crate::needs::starts_unfit;
use crate::plain::{Plain, numbered};
use crate::refused::Refused;
use crate::thread::Thread;
use brc_effect::address_of;
use brc_model::{Choice, Duty};
use std::alloc::Global;

impl Plain<'_> {
    /// Returns whether the thread's access to a part of the row's object touches a freed object.
    fn touches_freed(&self, number: u8, row: Option<u32>) -> bool
        ensures { result ≡ touches_freed (counting (machine_in self.now)) number row }
    {
        match row {
            None => false,
            Some(row) => is_freed_for(number, life_at(self.lives.as_slice(), row)),
        }
    }

    /// Returns whether the thread's duty is bad.
    fn is_bad_duty(
        &self,
        alloc: Global,
        number: u8,
        thread: &Thread,
        duty: &Duty,
    ) -> Result<bool, Refused>
        ensures { IfOk result (λ bad. bad
            ≡ is_bad_duty (counting (machine_in self.now)) number (actor_of thread.now).actor duty.now) }
    {
        ask_indexed(*duty)?;
        let address = address_of(self.blocks, number, thread.head, *duty);
        if self.touches_freed(number, touched_row(address)) {
            return Ok(true);
        }
        let found = self.memory.read(address);
        let moves = reference_effects(alloc, &self.memory, number, *duty, found)?;
        let allowed = self
            .bag
            .are_allowed(alloc, self.blocks.layout(), moves.as_slice())?;
        Ok(!allowed)
    }

    /// Returns whether the thread's act is bad.
    fn is_bad_act(
        &self,
        alloc: Global,
        number: u8,
        thread: &Thread,
        act: &Act,
    ) -> Result<bool, Refused>
        ensures { IfOk result (λ bad. bad
            ≡ is_bad_action (machine_in self.now) number (actor_of thread.now) (act_in act.now)) }
    {
        match act {
            Act::Skip => Ok(false),
            Act::Stuck => Ok(true),
            Act::Silent { moves, .. } => {
                let allowed = self
                    .bag
                    .are_allowed(alloc, self.blocks.layout(), moves.as_slice())?;
                Ok(!allowed)
            }
            Act::Calls { row, .. } => Ok(self.touches_freed(number, *row)),
            Act::Does { duty, .. } => self.is_bad_duty(alloc, number, thread, duty),
        }
    }

    /// Returns whether the thread begins, by the choice, an instruction that lacks what it needs.
    pub(crate) fn chooses_unfit(&self, thread: &Thread, choice: Choice) -> bool
        ensures { result ≡ chooses_unfit (machine_in self.now) (actor_of thread.now) choice }
    {
        match choice {
            Choice::Claim(_) | Choice::Stop => false,
            Choice::Ok | Choice::Fault => self.begins_unfit(thread),
        }
    }

    /// Returns whether the thread, if it has no duties left, is before an instruction that lacks what it needs.
    fn begins_unfit(&self, thread: &Thread) -> bool
        ensures { result ≡ begins_unfit (machine_in self.now) (actor_of thread.now)
            (reverse thread.now.agenda.items) }
    {
        if !thread.agenda.is_empty() {
            return false;
        }
        starts_unfit(
            &self.memory,
            thread.locked,
            self.code_of(thread),
            &thread.place,
        )
    }

    /// Returns whether the thread's step by the choice, which does what the act says, is bad.
    // What returns early here has no act to drop: each drop of one costs the prover seconds.
    fn is_bad_by(
        &self,
        alloc: Global,
        number: u8,
        thread: &Thread,
        choice: Choice,
        act: &Act,
    ) -> Result<bool, Refused>
        ensures { IfOk result (λ bad. bad
            ≡ (is_bad_action (machine_in self.now) number (actor_of thread.now) (act_in act.now)
            || chooses_unfit (machine_in self.now) (actor_of thread.now) choice)) }
    {
        if self.is_bad_act(alloc, number, thread, act)? {
            return Ok(true);
        }
        Ok(self.chooses_unfit(thread, choice))
    }

    /// Returns whether the event is bad: whether the thread's step by the choice touches a freed object, makes a move
    /// that isn't allowed, can't go on, or begins an instruction that lacks what it needs.
    pub fn is_bad(&self, alloc: Global, number: usize, choice: Choice) -> Result<bool, Refused>
        ensures { IfOk result (λ bad. bad ≡ is_bad_event (machine_in self.now) (number, choice)) }
    {
        let Some(thread) = self.threads.get(number) else {
            return Ok(false);
        };
        let own = numbered(number)?;
        let act = self.act(alloc, own, thread, choice)?;
        self.is_bad_by(alloc, own, thread, choice, &act)
    }
}
