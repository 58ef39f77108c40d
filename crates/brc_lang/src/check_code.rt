ghost use Rattle.std.specs.Prelude.{◌≡◌};
ghost use Rattle.brc_lang.specs.Codes.{check_code};

use std::fmt;

/// Why the checker doesn't accept a function: the error that a path through it reports, or refused memory.
#[derive(Clone, Copy, Debug, PartialEq, Eq)]
pub enum CheckCode {
    /// The instruction uses an empty variable.
    EmptyUsed,
    /// The variable's object is of another kind than the instruction wants.
    WrongKind,
    /// The instruction gives up a reference that the variable only borrows.
    NotOwned,
    /// The destination still owns a reference.
    StillOwns,
    /// A variable still owns a reference at the end of the call.
    LeftOwned,
    /// A list is still locked at the end of the call.
    LeftLocked,
    /// The instruction locks a list while another is locked.
    SecondLock,
    /// The variable isn't the locked one.
    NotLocked,
    /// The instruction changes the locked variable.
    LockedChanged,
    /// Two paths reach a point in different states.
    StatesDiffer,
    /// The function runs off its end.
    RunsOff,
    /// The allocator refused memory.
    NoMemory,
}

impl CheckCode {
    /// Returns the code's name, C1 to C12, as commands write it.
    pub fn name(self) -> &'static str
        ensures { result.now ≡ check_code self }
    {
        match self {
            CheckCode::EmptyUsed => "C1",
            CheckCode::WrongKind => "C2",
            CheckCode::NotOwned => "C3",
            CheckCode::StillOwns => "C4",
            CheckCode::LeftOwned => "C5",
            CheckCode::LeftLocked => "C6",
            CheckCode::SecondLock => "C7",
            CheckCode::NotLocked => "C8",
            CheckCode::LockedChanged => "C9",
            CheckCode::StatesDiffer => "C10",
            CheckCode::RunsOff => "C11",
            CheckCode::NoMemory => "C12",
        }
    }
}

impl fmt::Display for CheckCode {
    fn fmt<W: fmt::Write>(&self, f: &mut fmt::Formatter<W>) -> fmt::Result {
        write!(f, "{}", self.name())
    }
}
