//! The arrows of a picture: references that move from one thread to another, by a queue or by a cell of a list.

use brc_model::Duty;
use brc_trace::{Entry, row_of_mark};
use brc_word::values::EMPTY;
use brc_world::Event;
use std::alloc::{AllocError, Global};

/// A reference that moves from one thread to another.
#[derive(Clone, Copy)]
pub struct Arrow {
    /// The row of the object.
    pub row: u64,
    pub from: Stop,
    pub to: Stop,
    /// Which of the tracks beside its first lane it runs down in, from 0, or `None` before it has one.
    pub track: Option<u32>,
}

impl Arrow {
    /// Whether it ends in a lane to the right of the one in which it begins.
    pub fn is_to_the_right(&self) -> bool {
        self.from.thread < self.to.thread
    }
}

/// An end of an arrow: a step.
#[derive(Clone, Copy)]
pub struct Stop {
    pub thread: u8,
    pub line: u32,
}

/// Where a reference waits for a thread.
#[derive(Clone, Copy, PartialEq, Eq)]
enum Place {
    /// In the queue of the object's owner.
    Queue { row: u64 },
    /// In a cell of the list.
    Cell { list: u32, cell: u32 },
}

/// A reference that a thread has put somewhere.
#[derive(Clone, Copy)]
struct Waiting {
    place: Place,
    row: u64,
    from: Stop,
    /// Whether no thread has taken it.
    waits: bool,
}

/// The arrows, as they grow by the steps.
#[derive(Drop)]
pub struct Arrows {
    arrows: Vec<Arrow>,
    waiting: Vec<Waiting>,
}

impl Arrows {
    pub fn new(alloc: Global) -> Arrows {
        Arrows {
            arrows: Vec::new(alloc),
            waiting: Vec::new(alloc),
        }
    }

    /// Follows the references that the entry's step, in this line, takes from somewhere or puts there.
    pub fn add(&mut self, line: u32, entry: &Entry) -> Result<(), AllocError> {
        let here = Stop {
            thread: entry.thread,
            line,
        };
        if let Some(place) = taken_from(entry) {
            self.take(place, here)?;
        }
        if let Some((place, row)) = put_into(&entry.sight.event) {
            self.waiting.push(Waiting {
                place,
                row,
                from: here,
                waits: true,
            })?;
        }
        Ok(())
    }

    /// A thread takes what waits at the place. If another one has put it there, that is an arrow.
    fn take(&mut self, place: Place, to: Stop) -> Result<(), AllocError> {
        match self.taken(place) {
            Some((row, from)) if from.thread != to.thread => {
                self.arrows.push(Arrow {
                    row,
                    from,
                    to,
                    track: None,
                })?;
                Ok(())
            }
            _ => Ok(()),
        }
    }

    /// Returns what waits at the place, and from where it is. It no longer waits.
    fn taken(&mut self, place: Place) -> Option<(u64, Stop)> {
        let mut found = None;
        for one in self.waiting.as_mut_slice().iter_mut() {
            if one.waits && one.place == place {
                one.waits = false;
                found = Some((one.row, one.from));
            }
        }
        found
    }

    /// Returns the arrows.
    pub fn into_arrows(self) -> Vec<Arrow> {
        let Arrows { arrows, waiting: _ } = self;
        arrows
    }
}

/// Returns from where the entry's step takes a reference.
fn taken_from(entry: &Entry) -> Option<Place> {
    let Event::Does {
        duty,
        found,
        left,
        ..
    } = &entry.sight.event
    else {
        return None;
    };
    if *found == *left {
        return None;
    }
    match *duty {
        Duty::TakeMark { row } | Duty::ClaimMark { row } => Some(Place::Queue {
            row: u64::from(row),
        }),
        Duty::TakeFound { word, marks } => {
            let thread = u32::from(entry.thread);
            let row = row_of_mark(entry.sight.layout, thread, word, marks.trailing_zeros());
            Some(Place::Queue { row })
        }
        Duty::CellSwap { row, cell, .. } | Duty::SettleCell { row, cell, .. } if *found != EMPTY =>
            { Some(Place::Cell { list: row, cell }) }
        _ => None,
    }
}

/// Returns where the event's step puts a reference, and the row of its object.
fn put_into(event: &Event) -> Option<(Place, u64)> {
    let Event::Does {
        duty,
        found,
        left,
        ..
    } = event
    else {
        return None;
    };
    if *found == *left {
        return None;
    }
    match *duty {
        Duty::SetMark { row } => {
            let row = u64::from(row);
            Some((Place::Queue { row }, row))
        }
        Duty::CellSwap {
            row,
            cell,
            item,
            ..
        } if item != 0 => Some((Place::Cell { list: row, cell }, u64::from(item))),
        _ => None,
    }
}
