ghost use Rattle.std.specs.Prelude.{◌≡◌};
ghost use Rattle.brc_command.specs.declared.step_fault.StepFault.TheVariants.{NoMemory};
ghost use Rattle.brc_command.specs.Lines.{fault_of_trace};

use brc_check::Refused;
use brc_lang::{Name, ReadFault};
use brc_trace::TraceFault;
use brc_world::NoMemory;
use std::alloc::AllocFailed;
use std::str::from_utf8;
use thiserror::Error;

/// Why a schedule can't be stepped, or its report written.
#[derive(Debug, Drop, Error)]
pub enum StepFault {
    /// The module's text is faulty.
    #[error("unreadable {0}")]
    Text(ReadFault),
    /// The schedule's text is faulty.
    #[error("unreadable schedule {0}")]
    Plan(ReadFault),
    /// The checker refuses the module.
    #[error("{0}")]
    Refused(Refused),
    /// The module has no function of this name, or one with parameters, which a schedule can't call. It is the name of
    /// the first such call.
    #[error("no function {}", shown(.0))]
    NoFunction(Name),
    /// Memory was refused.
    #[error("no memory")]
    NoMemory,
    /// The writer returned an error.
    #[error("cannot write")]
    Output,
}

/// Returns the name as a text: it has ASCII alone.
fn shown(name: &Name) -> &str {
    from_utf8(name.as_bytes()).unwrap_or("")
}

impl<T: Drop> From<AllocFailed<T>> for StepFault {
    ghost from_gives = { λ _ e. e ≡ NoMemory };

    fn from(_e: AllocFailed<T>) -> StepFault {
        StepFault::NoMemory
    }
}

impl From<TraceFault> for StepFault {
    ghost from_gives = { λ fault e. e ≡ fault_of_trace fault };

    fn from(fault: TraceFault) -> StepFault {
        match fault {
            TraceFault::NoMemory => StepFault::NoMemory,
            TraceFault::Output => StepFault::Output,
        }
    }
}

impl From<NoMemory> for StepFault {
    ghost from_gives = { λ _ e. e ≡ NoMemory };

    fn from(_e: NoMemory) -> StepFault {
        StepFault::NoMemory
    }
}
