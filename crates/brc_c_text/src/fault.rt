ghost use Rattle.std.specs.Prelude.{◌≡◌};
ghost use Rattle.brc_c_text.specs.declared.fault.TextFault.TheVariants.{NoMemory};

use std::alloc::{AllocError, AllocFailed};
use thiserror::Error;

/// Why a source isn't read at all.
#[derive(Clone, Copy, Debug, Error)]
pub enum TextFault {
    #[error("more than 1 MiB")]
    TooLong,
    #[error("memory was refused")]
    NoMemory,
}

impl From<AllocError> for TextFault {
    ghost from_gives = { λ _ e. e ≡ NoMemory };

    fn from(_e: AllocError) -> TextFault {
        TextFault::NoMemory
    }
}

impl<T: Drop> From<AllocFailed<T>> for TextFault {
    ghost from_gives = { λ _ e. e ≡ NoMemory };

    fn from(_e: AllocFailed<T>) -> TextFault {
        TextFault::NoMemory
    }
}
