ghost use Rattle.std.specs.Prelude.{◌≡◌};
ghost use Rattle.brc_trace.specs.declared.fault.TraceFault.TheVariants.{NoMemory as WithoutMemory};

use brc_world::NoMemory;
use std::alloc::AllocError;

/// Why a trace stops.
#[derive(Clone, Copy)]
pub enum TraceFault {
    /// Memory was refused.
    NoMemory,
    /// The writer returned an error.
    Output,
}

impl From<AllocError> for TraceFault {
    ghost from_gives = { λ _ e. e ≡ WithoutMemory };

    fn from(_refused: AllocError) -> TraceFault {
        TraceFault::NoMemory
    }
}

impl From<NoMemory> for TraceFault {
    ghost from_gives = { λ _ e. e ≡ WithoutMemory };

    fn from(_refused: NoMemory) -> TraceFault {
        TraceFault::NoMemory
    }
}
