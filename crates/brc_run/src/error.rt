//! Why a run has no tally.

ghost use Rattle.std.specs.Prelude.{◌≡◌};
ghost use Rattle.brc_run.specs.declared.error.RunFault.TheVariants.{NoMemory as Refused, NoThread as NotStarted};

use brc_heap::NoMemory;
use brc_work::NoThread;
use std::alloc::AllocError;
use thiserror::Error;

/// Why a run has no tally.
#[derive(Clone, Copy, Debug, Drop, Error)]
pub enum RunFault {
    /// Memory was refused.
    #[error("no memory")]
    NoMemory,
    /// K1: a worker's thread couldn't be started, or memory for the workers was refused.
    #[error("no thread")]
    NoThread,
}

impl From<NoMemory> for RunFault {
    ghost from_gives = { λ _ e. e ≡ Refused };

    fn from(_refused: NoMemory) -> RunFault {
        RunFault::NoMemory
    }
}

impl From<AllocError> for RunFault {
    ghost from_gives = { λ _ e. e ≡ Refused };

    fn from(_refused: AllocError) -> RunFault {
        RunFault::NoMemory
    }
}

impl From<NoThread> for RunFault {
    ghost from_gives = { λ _ e. e ≡ NotStarted };

    fn from(_refused: NoThread) -> RunFault {
        RunFault::NoThread
    }
}
