//! A look at a thread's next step: what the step does is found out without taking it.

ghost use Rattle.std.specs.Prelude.{◌≡◌, ◌≤◌, reverse, IfOk};
ghost use Rattle.brc_model.specs.Threads.{number_in};
ghost use Rattle.brc_machine.specs.Sights.{begins_at, duty_event, next_part, sight_by, sight_of};
ghost use Rattle.brc_plain.specs.Acts.{act_in};
ghost use Rattle.brc_plain.specs.Places.{place_in};
ghost use Rattle.brc_plain.specs.Plains.{machine_in};
ghost use Rattle.brc_plain.specs.Sights.{sight_in};
ghost use Rattle.brc_plain.specs.Threads.{actor_of};

use crate::act::Act;
use crate::dispatch::number_in;
use crate::place::Place;
use crate::plain::touching::touch_of;
use crate::plain::{Plain, numbered};
use crate::refused::Refused;
use crate::thread::Thread;
use brc_lang::Kind;
use brc_machine::exits::exit_part;
use brc_machine::objects::kind_born;
use brc_machine::threads::{exit_of, is_running};
use brc_machine::{Event, ExitPart, Part, Sight};
use brc_model::{Choice, Duty};
use std::alloc::Global;

impl Plain<'_> {
    /// Returns what the thread's step by the choice does, without taking it, or `None` if the thread takes no step: it
    /// is gone, can't go on, or may not claim the row. A stop is refused.
    pub fn sight(
        &self,
        alloc: Global,
        number: usize,
        choice: Choice,
    ) -> Result<Option<Sight>, Refused>
        ensures { IfOk result (λ sight. sight ≡ sight_in (machine_in self.now) number choice) }
    {
        let Some(thread) = self.threads.get(number) else {
            return Ok(None);
        };
        let own = numbered(number)?;
        let act = self.act(alloc, own, thread, choice)?;
        self.sight_of_act(own, thread, choice, &act)
    }

    /// Returns the sight of the thread's step by the choice, which does what the act says.
    fn sight_of_act(
        &self,
        number: u8,
        thread: &Thread,
        choice: Choice,
        act: &Act,
    ) -> Result<Option<Sight>, Refused>
        requires { number ≤ 32 }
        ensures { IfOk result (λ sight. sight ≡ sight_by (machine_in self.now).layout number
            (machine_in self.now).memory (actor_of thread.now) choice (act_in act.now)) }
    {
        match act {
            Act::Skip | Act::Stuck => Ok(None),
            Act::Silent { .. } => Ok(Some(self.sight_of(thread, choice, Event::Silent, None))),
            Act::Calls { .. } => {
                let event = Event::Calls(exit_of(choice));
                Ok(Some(self.sight_of(thread, choice, event, None)))
            }
            Act::Does { duty, .. } => {
                let event = self.duty_event(number, thread, duty)?;
                Ok(Some(self.sight_of(thread, choice, event, kind_born(&self.memory, duty))))
            }
        }
    }

    /// Returns the event of the thread's duty: what it finds in its word, and what it leaves there.
    fn duty_event(&self, number: u8, thread: &Thread, duty: &Duty) -> Result<Event, Refused>
        requires { number ≤ 32 }
        ensures { IfOk result (λ event. event ≡ duty_event (machine_in self.now).layout number
            (machine_in self.now).memory (actor_of thread.now) duty.now) }
    {
        let touch = touch_of(self.blocks, &self.memory, number, thread, duty)?;
        Ok(Event::Does {
            duty: *duty,
            address: touch.address,
            found: touch.found,
            left: touch.left,
        })
    }

    /// Returns the sight of the thread's step by the choice, which is the event.
    fn sight_of(&self, thread: &Thread, choice: Choice, event: Event, born: Option<Kind>) -> Sight
        ensures { result ≡ sight_of (machine_in self.now).layout (actor_of thread.now) choice event born }
    {
        Sight {
            layout: self.blocks.layout(),
            begins: begins_at(thread, choice),
            event,
            function: number_in(thread.function, &thread.place),
            running: is_running(thread.status),
            head: thread.head,
            exit: exit_of(choice),
            born,
        }
    }
}

/// Returns the part of the thread's work to which its step by the choice belongs, if the thread's state says it.
fn begins_at(thread: &Thread, choice: Choice) -> Option<Part>
    ensures { result ≡ begins_at (actor_of thread.now) choice }
{
    match choice {
        Choice::Ok | Choice::Fault => next_part(&thread.place, thread.agenda.as_slice()),
        Choice::Claim(row) => Some(Part::Claim { row }),
        Choice::Stop => Some(Part::Stop),
    }
}

/// Returns the part of its work to which the next step of a thread with this place and this agenda belongs, if they say
/// it. The last duty of the agenda is done next.
fn next_part(place: &Place, agenda: &[Duty]) -> Option<Part>
    ensures { result ≡ next_part (place_in place.now) (reverse agenda.now) }
{
    let rests = agenda.is_empty();
    match place {
        Place::Exiting => Some(Part::Exit(exit_part(agenda))),
        Place::Idle { left } if rests && *left == 0 => Some(Part::Exit(ExitPart::Root)),
        Place::Idle { .. } if rests => Some(Part::Instruction { at: 0 }),
        Place::InCall { at, .. } | Place::Inside { at, .. } if rests => {
            Some(Part::Instruction { at: *at })
        }
        _ => None,
    }
}
