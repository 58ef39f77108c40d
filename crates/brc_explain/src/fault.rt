ghost use Rattle.std.specs.Prelude.{◌≡◌};
ghost use Rattle.brc_explain.specs.declared.fault.ExplainFault.TheVariants.{NoMemory, Output};

use std::alloc::AllocError;
use std::io;

/// Why an explanation isn't written to its end.
#[derive(Clone, Copy)]
pub enum ExplainFault {
    /// Memory was refused.
    NoMemory,
    /// The output takes no more.
    Output,
}

impl From<AllocError> for ExplainFault {
    ghost from_gives = { λ _ e. e ≡ NoMemory };

    fn from(_e: AllocError) -> ExplainFault {
        ExplainFault::NoMemory
    }
}

impl From<io::Error> for ExplainFault {
    ghost from_gives = { λ _ e. e ≡ Output };

    fn from(_e: io::Error) -> ExplainFault {
        ExplainFault::Output
    }
}
