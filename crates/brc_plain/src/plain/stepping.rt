//! The steps of the plain machine.

ghost use Rattle.std.specs.Prelude.{◌≡◌, ◌<◌, length, slice_get, Some, OnOk};
ghost use Rattle.brc_model.specs.Action.{StepActor};
ghost use Rattle.brc_model.specs.StepMachine.{does_by, machine_by, next_machine};
ghost use Rattle.brc_plain.specs.Acts.{act_in, place_at, rest_in};
ghost use Rattle.brc_plain.specs.Plains.{machine_in};

use crate::act::{Act, AfterDuty, Rest};
use crate::lives::live_on;
use crate::moves::reference_effects;
use crate::plain::touching::touch_of;
use crate::plain::{Plain, numbered};
use crate::refused::Refused;
use brc_effect::Doer;
use brc_machine::threads::exit_of;
use brc_model::{Choice, Duty, Exit};
use std::alloc::Global;

impl Plain<'_> {
    /// Takes the thread's step by the choice. After an `Err` the machine is neither the old nor the new one.
    pub fn step(&mut self, alloc: Global, number: usize, choice: Choice) -> Result<(), Refused>
        ensures { OnOk result (machine_in self.new ≡ next_machine (machine_in self.old) (number, choice)) }
    {
        let Some(thread) = self.threads.get(number) else {
            return Ok(());
        };
        let act = self.act(alloc, numbered(number)?, thread, choice)?;
        self.follow(alloc, number, act, exit_of(choice))?;
        Ok(())
    }

    /// Does what the act says, which ends by the exit if it is a host call or a close.
    fn follow(&mut self, alloc: Global, number: usize, act: Act, exit: Exit) -> Result<(), Refused>
        requires { number < length self.old.threads.items }
        ensures { OnOk result ((a : StepActor) → slice_get (machine_in self.old).actors number ≡ Some a
            → machine_in self.new ≡ machine_by (machine_in self.old) number a exit (act_in act)) }
    {
        match act {
            Act::Skip | Act::Stuck => {}
            Act::Silent { moves, place } => {
                self.bag.make_all(moves.as_slice())?;
                self.threads[number].place = place;
            }
            Act::Calls { after, .. } => {
                self.threads[number].place = after.at(exit);
                self.faults.count_call(exit);
            }
            Act::Does { duty, rest, after } => {
                self.does(alloc, number, &duty, rest, after, exit)?;
            }
        }
        Ok(())
    }

    /// Does the thread's duty, with these duties behind it.
    fn does(
        &mut self,
        alloc: Global,
        number: usize,
        duty: &Duty,
        rest: Rest,
        after: AfterDuty,
        exit: Exit,
    ) -> Result<(), Refused>
        requires { number < length self.old.threads.items }
        ensures { OnOk result ((a : StepActor) → slice_get (machine_in self.old).actors number ≡ Some a
            → machine_in self.new ≡ does_by (machine_in self.old) number a exit duty.now (rest_in rest)
            (place_at after)) }
    {
        let own = numbered(number)?;
        let thread = &mut self.threads[number];
        let touch = touch_of(self.blocks, &self.memory, own, thread, duty)?;
        let doer = Doer {
            blocks: self.blocks,
            number: own,
            status: thread.status,
            head: thread.head,
            used: thread.used,
            rows: touch.rows,
        };
        let effect = doer.effect(*duty, touch.found);
        thread.go_on(effect, rest.agenda(alloc)?, after.at(touch.found)?)?;
        let moves = reference_effects(alloc, &self.memory, own, *duty, touch.found)?;
        if !self.memory.put(touch.address, touch.left) {
            return Err(Refused::OutOfBounds);
        }
        self.bag.make_all(moves.as_slice())?;
        live_on(self.lives.as_mut_slice(), own, duty, effect.next)?;
        self.faults.count_duty(duty, exit);
        Ok(())
    }
}
