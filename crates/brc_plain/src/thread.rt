//! A thread of the plain machine.

ghost use Rattle.std.specs.Prelude.{◌≡◌, ◌++◌, [], reverse, IfOk, OnOk};
ghost use Rattle.brc_model.specs.Duties.{ready};
ghost use Rattle.brc_effect.specs.Effects.{duties_of, status_after, used_after, locked_after, lent_after};
ghost use Rattle.brc_plain.specs.Places.{place_in};
ghost use Rattle.brc_plain.specs.Threads.{actor_of};

use crate::place::Place;
use crate::refused::Refused;
use brc_effect::{Change, Effect};
use brc_machine::agenda::{pass_over, push};
use brc_model::{Duty, Status};
use std::alloc::Global;

/// The room for the duties that follow one.
const ROOM: usize = 4;

/// A thread: where it is in its calls, and the duties that it still has to do.
#[derive(Drop)]
pub struct Thread {
    /// The number of the function that it calls from outside.
    pub function: usize,
    pub place: Place,
    pub status: Status,
    /// The last duty is done next.
    pub agenda: Vec<Duty>,
    /// The head of its dying chain: 0 if it is empty, else a row plus 1.
    pub head: u32,
    /// The number of rows of its block that it has used.
    pub used: u32,
    /// The row of the object that it has locked.
    pub locked: Option<u32>,
    /// The row of the object whose resource it has lent.
    pub lent: Option<u32>,
}

impl Thread {
    /// Returns a copy.
    pub fn copy(&self, alloc: Global) -> Result<Thread, Refused>
        ensures { IfOk result (λ copy. actor_of copy ≡ actor_of self.now) }
    {
        Ok(Thread {
            function: self.function,
            place: self.place.copy(alloc)?,
            status: self.status,
            agenda: Vec::from_slice(alloc, self.agenda.as_slice())?,
            head: self.head,
            used: self.used,
            locked: self.locked,
            lent: self.lent,
        })
    }

    /// Makes the change that a duty's effect names.
    fn change(&mut self, change: Change)
        ensures { self.new ≡ record self.old {
          status = status_after self.old.status change;
          used = used_after self.old.used change;
          locked = locked_after self.old.locked change;
          lent = lent_after self.old.lent change;
        } }
    {
        match change {
            Change::Nothing => (),
            Change::Becomes(status) => self.status = status,
            Change::Uses(used) => self.used = used,
            Change::Locks(locked) => self.locked = locked,
            Change::Lends(lent) => self.lent = lent,
        }
    }

    /// Goes on after a duty with this effect, behind which these duties were, to the place. The last of the duties is
    /// done next.
    pub fn go_on(&mut self, effect: Effect, rest: Vec<Duty>, place: Place) -> Result<(), Refused>
        ensures { OnOk result (actor_of self.new ≡ record {
          function = self.old.function;
          place = place_in place;
          actor = record {
            status = status_after self.old.status effect.change;
            agenda = ready effect.head (duties_of effect.next ++ reverse rest.items);
            aside = [];
            head = effect.head;
            used = used_after self.old.used effect.change;
            locked = locked_after self.old.locked effect.change;
            lent = lent_after self.old.lent effect.change;
          };
        }) }
    {
        let mut agenda = rest;
        agenda.reserve(ROOM)?;
        push(&mut agenda, effect.next);
        pass_over(&mut agenda, effect.head);
        self.change(effect.change);
        self.agenda = agenda;
        self.head = effect.head;
        self.place = place;
        Ok(())
    }
}
