use brc_machine::NoMemory;
use std::alloc::{AllocError, AllocFailed};
use thiserror::Error;

/// Why the plain machine doesn't answer.
#[derive(Clone, Copy, Debug, Error)]
pub enum Refused {
    /// The allocator refused memory.
    #[error("no memory")]
    NoMemory,
    /// A number left its range, or the step's word isn't there. Nothing is known of the numbers of a refused module.
    #[error("out of bounds")]
    OutOfBounds,
}

impl From<AllocError> for Refused {
    fn from(_refused: AllocError) -> Refused {
        Refused::NoMemory
    }
}

impl<T: Drop> From<AllocFailed<T>> for Refused {
    fn from(_refused: AllocFailed<T>) -> Refused {
        Refused::NoMemory
    }
}

impl From<NoMemory> for Refused {
    fn from(_refused: NoMemory) -> Refused {
        Refused::NoMemory
    }
}
