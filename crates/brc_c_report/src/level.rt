/// Why a finding is a warning only.
#[derive(Clone, Copy, PartialEq, Eq)]
pub enum Reservation {
    /// A call that may run other code ended the reference; nobody gave it up.
    IfCalledCodeDoes,
    /// The function leaves the count of an argument higher or lower.
    UnlessMeant,
    /// The object is immortal since Python 3.12.
    BeforeImmortals,
    /// It is at fault by the free-threaded rules only.
    FreeThreaded,
}

impl Reservation {
    /// Returns the words that a line has of it.
    pub fn text(self) -> &'static str {
        match self {
            Reservation::IfCalledCodeDoes => "if the called code does that",
            Reservation::UnlessMeant => "unless that is meant",
            Reservation::BeforeImmortals => "before Python 3.12",
            Reservation::FreeThreaded => "free-threaded",
        }
    }
}

/// How certain a finding is.
#[derive(Clone, Copy, PartialEq, Eq)]
pub enum Level {
    /// A fault by the rules of a global lock.
    Error,
    Warning(Reservation),
    /// A fault in an object of which something is assumed.
    Possible,
}

impl Level {
    /// Returns the word that a line has of it.
    pub fn text(self) -> &'static str {
        match self {
            Level::Error => "error",
            Level::Warning(_) => "warning",
            Level::Possible => "possible",
        }
    }

    /// Returns its place among levels, the worst first.
    pub(crate) fn rank(self) -> u8 {
        match self {
            Level::Error => 0,
            Level::Warning(Reservation::IfCalledCodeDoes) => 1,
            Level::Warning(Reservation::UnlessMeant) => 2,
            Level::Warning(Reservation::BeforeImmortals) => 3,
            Level::Warning(Reservation::FreeThreaded) => 4,
            Level::Possible => 5,
        }
    }
}
