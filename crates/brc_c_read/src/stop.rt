use brc_c_text::Place;
use brc_c_tree::{NotRead, Reason};
use std::alloc::{AllocError, AllocFailed};

/// Why reading a function stops.
#[derive(Clone, Copy)]
pub(crate) enum Stop {
    NotRead(NotRead),
    NoMemory,
}

impl From<AllocError> for Stop {
    fn from(_e: AllocError) -> Stop {
        Stop::NoMemory
    }
}

impl<T: Drop> From<AllocFailed<T>> for Stop {
    fn from(_e: AllocFailed<T>) -> Stop {
        Stop::NoMemory
    }
}

/// Returns that a function isn't read.
pub(crate) fn not_read(place: Place, reason: Reason) -> Stop {
    Stop::NotRead(NotRead { place, reason })
}
