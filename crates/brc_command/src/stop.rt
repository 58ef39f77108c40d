ghost use Rattle.std.specs.Prelude.{◌≡◌, ◌<◌, ◌≤◌};
ghost use Rattle.brc_command.specs.declared.stop.Stop.TheVariants.{Fault};
ghost use Rattle.brc_command.specs.declared.step_fault.StepFault.TheVariants.{NoMemory as MemoryRefused};
ghost use Rattle.brc_command.specs.Lines.{stop_of, stop_of_run, stop_status};

use crate::load::LoadError;
use crate::step_fault::StepFault;
use brc_run::RunFault;
use brc_world::NoMemory;
use thiserror::Error;

/// The reason why a command stops.
#[derive(Debug, Drop, Error)]
pub enum Stop<'a> {
    /// A file can't be read.
    #[error("unreadable file")]
    UnreadableFile,
    /// The module has no function of this name, for which the command line asks; or it has parameters, and the command
    /// line asks for a run of it.
    #[error("no function {0}")]
    NoFunction(&'a str),
    /// A worker's thread couldn't be started.
    #[error("no thread")]
    NoThread,
    /// A text, the check, a schedule's call, memory or the output.
    #[error("{0}")]
    Fault(StepFault),
}

impl Stop<'_> {
    /// Returns the exit status: 1 if the checker refuses the module, 3 if memory is refused or a thread can't be
    /// started, and 2 otherwise.
    pub fn status(&self) -> u8
        ensures faulty { 0 < result }
        ensures known { result ≤ 3 }
        ensures exact { result ≡ stop_status self.now }
    {
        match self {
            Stop::Fault(StepFault::Refused(_)) => 1,
            Stop::Fault(StepFault::NoMemory) | Stop::NoThread => 3,
            _ => 2,
        }
    }
}

impl From<StepFault> for Stop<'_> {
    ghost from_gives = { λ fault e. e ≡ Fault fault };

    fn from(fault: StepFault) -> Self {
        Stop::Fault(fault)
    }
}

impl From<LoadError> for Stop<'_> {
    ghost from_gives = { λ error e. e ≡ stop_of error };

    fn from(error: LoadError) -> Self {
        match error {
            LoadError::Unreadable => Stop::UnreadableFile,
            LoadError::NoMemory => Stop::Fault(StepFault::NoMemory),
        }
    }
}

impl From<RunFault> for Stop<'_> {
    ghost from_gives = { λ fault e. e ≡ stop_of_run fault };

    fn from(fault: RunFault) -> Self {
        match fault {
            RunFault::NoMemory => Stop::Fault(StepFault::NoMemory),
            RunFault::NoThread => Stop::NoThread,
        }
    }
}

impl From<NoMemory> for Stop<'_> {
    ghost from_gives = { λ _ e. e ≡ Fault MemoryRefused };

    fn from(_error: NoMemory) -> Self {
        Stop::Fault(StepFault::NoMemory)
    }
}
