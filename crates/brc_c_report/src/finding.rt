use crate::level::Level;
use brc_c_store::Local;
use brc_c_text::Place;
use brc_lang::CheckCode;

/// What is wrong with a reference.
#[derive(Clone, Copy, PartialEq, Eq)]
pub enum Wrong {
    /// Nobody gives it up (C4, C5).
    Lost,
    /// It is given up too often, or used afterwards (C1, C3).
    GivenUp,
    /// NULL, or nothing, is in its place (C1).
    Missing,
    /// Another thread may end it (C8).
    Unprotected,
    /// A section or a state of the thread isn't ended (C6, C8).
    Open,
    /// The function ends without `return` (C11).
    RunsOff,
}

/// What makes faults one finding: the reference, and what is wrong with it.
#[derive(Clone, Copy, PartialEq, Eq)]
pub struct Key {
    /// Where the reference was made.
    pub made: Place,
    /// The name that got it there.
    pub local: Option<Local>,
    pub wrong: Wrong,
}

/// A line beside a finding.
#[derive(Drop)]
pub struct Note {
    pub place: Place,
    pub text: String,
}

/// A reference of a function, and what is wrong with it.
#[derive(Drop)]
pub struct Finding {
    pub key: Key,
    pub code: CheckCode,
    pub level: Level,
    /// The first place at which it shows.
    pub place: Place,
    /// What the source calls the reference, if it has a name.
    pub name: Option<String>,
    pub text: String,
    /// The other places, in order.
    pub others: Vec<Place>,
    /// The choices of a path that leads to the first place, as far as they can't be computed.
    pub path: Vec<Note>,
    /// What to write instead.
    pub mend: Option<String>,
    /// Whether it is at fault by the rules of a global lock.
    pub by_global_lock: bool,
    /// Whether it is at fault by the free-threaded rules.
    pub by_free_threaded: bool,
    /// The reason for which a comment takes it away.
    pub suppressed: Option<String>,
}
