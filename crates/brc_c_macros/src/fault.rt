use std::alloc::{AllocError, AllocFailed};
use thiserror::Error;

/// Why a source can't be preprocessed at all.
#[derive(Clone, Copy, Debug, Error)]
pub enum MacroFault {
    #[error("more than 4194304 tokens when its headers and macros are read")]
    TooLong,
    #[error("memory was refused")]
    NoMemory,
}

impl From<AllocError> for MacroFault {
    fn from(_e: AllocError) -> MacroFault {
        MacroFault::NoMemory
    }
}

impl<T: Drop> From<AllocFailed<T>> for MacroFault {
    fn from(_e: AllocFailed<T>) -> MacroFault {
        MacroFault::NoMemory
    }
}
