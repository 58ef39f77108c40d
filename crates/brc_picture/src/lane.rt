//! The lanes of a picture.

use brc_trace::Entry;
use std::alloc::{AllocError, Global};

/// The least characters of a line in a lane.
const LEAST_WIDTH: usize = 14;

/// The most characters of a line in a lane. Words that need more are cut.
const MOST_WIDTH: usize = 54;

/// A thread's lane.
#[derive(Clone, Copy)]
pub struct Lane {
    pub thread: u8,
    /// How many characters a line of it has.
    pub width: usize,
    /// How many arrows run down right of it, side by side.
    pub tracks: u32,
}

/// Whether the thread takes one of these steps.
fn is_there(entries: &[Entry], thread: u8) -> bool {
    for entry in entries {
        if entry.thread == thread {
            return true;
        }
    }
    false
}

/// Returns the lanes of the threads that take these steps, main's first.
pub fn lanes_of(alloc: Global, entries: &[Entry]) -> Result<Vec<Lane>, AllocError> {
    let mut lanes = Vec::new(alloc);
    for thread in 0..u8::MAX {
        if is_there(entries, thread) {
            lanes.push(Lane {
                thread,
                width: LEAST_WIDTH,
                tracks: 0,
            })?;
        }
    }
    Ok(lanes)
}

/// Makes the thread's lane wide enough for a line with this number of characters.
pub fn widen(lanes: &mut [Lane], thread: u8, characters: usize) {
    for lane in lanes.iter_mut() {
        if lane.thread == thread && lane.width < characters {
            lane.width = characters.min(MOST_WIDTH);
        }
    }
}
