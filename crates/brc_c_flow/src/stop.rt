use crate::reasons::{FlowReason, Unread};
use brc_c_text::Place;
use std::alloc::{AllocError, AllocFailed};

/// Why the making of a graph stops.
#[derive(Clone, Copy)]
pub(crate) enum Stop {
    Unread(Unread),
    NoMemory,
}

impl From<AllocError> for Stop {
    fn from(_e: AllocError) -> Stop {
        Stop::NoMemory
    }
}

impl<T: Drop> From<AllocFailed<T>> for Stop {
    fn from(_e: AllocFailed<T>) -> Stop {
        Stop::NoMemory
    }
}

/// Returns that a function's graph can't be made.
pub(crate) fn unread(place: Place, reason: FlowReason) -> Stop {
    Stop::Unread(Unread { place, reason })
}
