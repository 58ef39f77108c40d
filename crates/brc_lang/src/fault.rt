ghost use Rattle.std.specs.Prelude.{◌≡◌};
ghost use Rattle.brc_lang.specs.Codes.{fault_code};
ghost use Rattle.brc_lang.specs.declared.fault.FaultCode.TheVariants.{NoMemory};

use std::alloc::AllocError;
use std::fmt;
use thiserror::Error;

/// What is wrong with a line of a text, by the codes L1 to L10.
#[derive(Clone, Copy, Debug, PartialEq, Eq)]
pub enum FaultCode {
    /// L1: the first line is missing, has no line feed, or is another.
    FirstLine,
    /// L2: a word or a line that the grammar doesn't allow there, or a wrong number of words.
    UnknownWord,
    /// L3: a number out of range or in another form, as with a leading zero.
    Number,
    /// L4: a target outside the function, or one that doesn't lead forward; of `again` one that doesn't lead back.
    Target,
    /// L5: the name of an earlier function.
    NameTwice,
    /// L6: too many static lines, functions, instructions or calls open at once, or a function without instructions.
    OverLimit,
    /// L7: the text ends too early, or its last line has no line feed.
    CutOff,
    /// L8: memory was refused.
    NoMemory,
    /// L9: a call of a function that isn't above, or with an argument too many or too few.
    Callee,
    /// L10: a `take` of a static list that the module doesn't have.
    StaticList,
}

impl FaultCode {
    /// Returns the code's name, L1 to L10, as commands write it.
    pub fn name(self) -> &'static str
        ensures { result.now ≡ fault_code self }
    {
        match self {
            FaultCode::FirstLine => "L1",
            FaultCode::UnknownWord => "L2",
            FaultCode::Number => "L3",
            FaultCode::Target => "L4",
            FaultCode::NameTwice => "L5",
            FaultCode::OverLimit => "L6",
            FaultCode::CutOff => "L7",
            FaultCode::NoMemory => "L8",
            FaultCode::Callee => "L9",
            FaultCode::StaticList => "L10",
        }
    }
}

impl fmt::Display for FaultCode {
    fn fmt<W: fmt::Write>(&self, f: &mut fmt::Formatter<W>) -> fmt::Result {
        write!(f, "{}", self.name())
    }
}

impl From<AllocError> for FaultCode {
    ghost from_gives = { λ _ e. e ≡ NoMemory };

    fn from(_e: AllocError) -> FaultCode {
        FaultCode::NoMemory
    }
}

/// Why a text isn't read: its first faulty line, and the fault.
#[derive(Clone, Copy, Debug, Error)]
#[error("line {line} {code}")]
pub struct ReadFault {
    /// The line's number, from 1.
    pub line: u64,
    pub code: FaultCode,
}
