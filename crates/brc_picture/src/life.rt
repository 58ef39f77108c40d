//! The states of objects, as a picture shows them.

use brc_lang::Sequence;
use brc_model::{Address, Duty, Exit};
use brc_trace::{Entry, Fate, Outcome, life_outcome, phase_outcome};
use brc_world::Event;
use std::alloc::{AllocError, Global};

/// The state of an object.
#[derive(Clone, Copy, PartialEq, Eq)]
pub enum Life {
    /// Its kind is stored, but nobody owns it yet.
    Unborn,
    /// It has an owner, who counts in the local word.
    Alive,
    /// It is in its owner's queue, or about to be.
    Queued,
    /// Nobody owns it: its counts are one.
    Merged,
    /// A thread deallocates it.
    Dying,
    Closed,
}

/// Returns the state of an object to which this happens, if it changes.
fn life_after(fate: Fate) -> Option<Life> {
    match fate {
        Fate::Born => Some(Life::Alive),
        Fate::Queued => Some(Life::Queued),
        Fate::Merged => Some(Life::Merged),
        Fate::Dies => Some(Life::Dying),
        Fate::Closed => Some(Life::Closed),
        Fate::Gained | Fate::GivenUp | Fate::Locked | Fate::Unlocked | Fate::CloseFaults => None,
    }
}

/// Returns the state that the event gives to an object, if it gives one. A merge that leaves no reference has two: then
/// it is the second one.
pub fn turn_of(exit: Exit, event: &Event) -> Option<(u32, Life)> {
    match event {
        Event::Silent | Event::Calls(_) => None,
        Event::Does {
            duty,
            address,
            found,
            left,
        } => match changed_life(life_outcome(exit, duty, *found, *left)) {
            Some(turn) => Some(turn),
            None => changed_life(phase_outcome(*address, *found, *left)),
        },
    }
}

fn changed_life(outcome: Option<Outcome>) -> Option<(u32, Life)> {
    let outcome = outcome?;
    let life = life_after(outcome.fate)?;
    Some((outcome.row, life))
}

/// The states of objects, by their rows. Those that it doesn't know are alive.
#[derive(Drop)]
pub struct Lives {
    by_row: Sequence<Life>,
}

impl Lives {
    pub fn new(alloc: Global) -> Lives {
        Lives {
            by_row: Sequence::new(alloc),
        }
    }

    /// Returns the state of the row's object.
    pub fn of(&self, row: u32) -> Life {
        match self.by_row.as_slice().get(row as usize) {
            Some(life) => *life,
            None => Life::Alive,
        }
    }

    /// Remembers what the entry's step brings about.
    pub fn note(&mut self, entry: &Entry) -> Result<(), AllocError> {
        match turn_of(entry.sight.exit, &entry.sight.event) {
            Some((row, life)) => self.set(row as usize, life),
            None => Ok(()),
        }
    }

    fn set(&mut self, row: usize, life: Life) -> Result<(), AllocError> {
        for _ in self.by_row.len()..row.saturating_add(1) {
            self.by_row.push(Life::Alive)?;
        }
        if row < self.by_row.len() {
            self.by_row.set(row, life);
        }
        Ok(())
    }
}

/// Returns the object whose word the event accesses, if there is one. None is no such object.
pub fn touched_row(event: &Event) -> Option<u32> {
    let Event::Does { duty, address, .. } = event else {
        return None;
    };
    let row = match *address {
        Address::Local { row }
        | Address::Shared { row }
        | Address::Gate { row }
        | Address::KindOf { row }
        | Address::Cell { row, .. }
        | Address::Field { row }
        | Address::Resource { row } => row,
        Address::Marks { .. } => marked_row(duty)?,
        Address::ThreadWord { .. } => return None,
    };
    if row == 0 { None } else { Some(row) }
}

/// Returns the row whose mark the duty sets or takes, if the duty names it.
fn marked_row(duty: &Duty) -> Option<u32> {
    match *duty {
        Duty::SetMark { row } | Duty::TakeMark { row } | Duty::ClaimMark { row } => Some(row),
        _ => None,
    }
}
