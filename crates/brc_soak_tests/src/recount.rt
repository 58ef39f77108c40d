//! The end of the heap, counted again from the workers' notes alone.

use crate::ledger::ROWS;
use crate::log::{ALL_CELLS, CELLS, Log};

/// Which objects are closed at the end, by the workers' notes.
#[derive(Drop)]
pub struct Recount {
    /// Whether the row's object is closed.
    pub closed: [bool; ROWS],
}

/// Returns whether a cell of a list that isn't closed has the row's object.
fn is_kept(log: &Log, closed: &[bool; ROWS], row: u32) -> bool {
    let word = i64::from(row) + 1;
    for list in 0..ROWS {
        for cell in 0..CELLS {
            if !closed[list] && log.words[list * CELLS + cell] == word {
                return true;
            }
        }
    }
    false
}

/// Closes each object that no cell of a list has which isn't closed itself. Returns whether there was one.
fn close_free(log: &Log, closed: &mut [bool; ROWS]) -> bool {
    let mut more = false;
    for place in 1..ROWS {
        if log.born[place] > 0 && !closed[place] && !is_kept(log, closed, place as u32) {
            closed[place] = true;
            more = true;
        }
    }
    more
}

impl Recount {
    /// Counts again. No hand holds anything at the end, so that an object is closed unless a list keeps it which isn't
    /// closed itself: then cells keep one another.
    pub fn new(log: &Log) -> Recount {
        let mut closed = [false; ROWS];
        for _ in 0..ROWS {
            if !close_free(log, &mut closed) {
                break;
            }
        }
        Recount { closed }
    }
}
