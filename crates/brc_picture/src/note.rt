//! What a step leaves in a word of an object.

use crate::life::touched_row;
use brc_model::{Address, Duty};
use brc_word::values::FREE;
use brc_world::Event;

/// What a step left in a word of an object.
#[derive(Clone, Copy)]
pub struct Note {
    /// The step's line.
    pub line: u32,
    pub left: Left,
}

/// The word that a step left.
#[derive(Clone, Copy)]
pub enum Left {
    Local { word: u64 },
    Shared { word: u64 },
    Kind { word: u64 },
    Marked,
    Unmarked,
    Locked { thread: u8 },
    Unlocked,
}

/// Returns the row of the object whose count the event accesses, and the word that it finds there.
pub fn found_by(event: &Event) -> Option<(u32, Left)> {
    let Event::Does { address, found, .. } = event else {
        return None;
    };
    match *address {
        Address::Local { row } => Some((row, Left::Local { word: *found })),
        Address::Shared { row } => Some((row, Left::Shared { word: *found })),
        _ => None,
    }
}

/// Returns the row of the object whose word the thread's step has changed, and what it left there, if that is worth a
/// note.
pub fn left_by(thread: u8, event: &Event) -> Option<(u32, Left)> {
    let Event::Does {
        duty,
        address,
        found,
        left,
    } = event
    else {
        return None;
    };
    if *found == *left {
        return None;
    }
    let row = touched_row(event)?;
    let said = match *address {
        Address::Local { .. } => Left::Local { word: *left },
        Address::Shared { .. } => Left::Shared { word: *left },
        Address::KindOf { .. } => Left::Kind { word: *left },
        Address::Gate { .. } => match *duty {
            Duty::LockGate { .. } if *found == FREE => Left::Locked { thread },
            Duty::UnlockGate { .. } => Left::Unlocked,
            _ => return None,
        },
        Address::Marks { .. } => match *duty {
            Duty::SetMark { .. } => Left::Marked,
            _ => Left::Unmarked,
        },
        Address::Cell { .. }
        | Address::Field { .. }
        | Address::Resource { .. }
        | Address::ThreadWord { .. } => return None,
    };
    Some((row, said))
}
