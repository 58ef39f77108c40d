use std::alloc::{AllocError, AllocFailed};
use std::fmt;
use thiserror::Error;

/// Why a line of a file of cases can't be read.
#[derive(Clone, Copy, Debug, PartialEq, Eq, Drop, Error)]
pub enum Why {
    #[error("no line begins so; it begins with `text`, `case`, `$`, `terminal`, `file`, `status`, `out`, `err`, `all`, `saved`, `or`, `rows`, `-`, `|`, a quote, `=` or `#`")]
    UnknownLine,
    #[error("this line belongs to a case: write `case NAME` above it, after a blank line")]
    NoCase,
    #[error("a text or a case begins here: put a blank line above it")]
    NoBlankLine,
    #[error("it is out of order: a case has its words, a terminal, its files, its status, what it writes, what it saves, and its rows")]
    OutOfOrder,
    #[error("content belongs below `text`, `file`, `out`, `err`, `all` or `saved`, and not below `narrow`")]
    NoPlace,
    #[error("write the text that is meant below `has`, `lacks`, `begins`, `ends` or `err stops`, for each row too")]
    NoContent,
    #[error("a name is missing after the first word")]
    NoName,
    #[error("another text has this name")]
    NameTwice,
    #[error("no text above has this name")]
    NoText,
    #[error("a quoted text begins and ends with a quote, and has only the escapes \\n, \\r, \\t, \\0, \\\\, \\\" and \\xNN")]
    Quoted,
    #[error("a number is missing, or it is too large")]
    Number,
    #[error("the first word of the command line is `brc`")]
    NoCommand,
    #[error("the case has no line `status`")]
    NoStatus,
    #[error("`out`, `err` and `all` stand alone, or with `has`, `lacks`, `begins`, `ends` or `narrow`; `saved NAME` with one of these; `out` and `err` with `stops`; `file NAME` alone, or with `no memory` or `full`")]
    WrongWords,
    #[error("`or` comes after a whole text of `out`, `err` or `all`")]
    NoAlternative,
    #[error("memory was refused")]
    NoMemory,
}

impl From<AllocError> for Why {
    fn from(_: AllocError) -> Why {
        Why::NoMemory
    }
}

impl<T: Drop> From<AllocFailed<T>> for Why {
    fn from(_: AllocFailed<T>) -> Why {
        Why::NoMemory
    }
}

/// The first line of a file of cases that can't be read.
#[derive(Clone, Copy, Drop)]
pub struct CaseFault {
    /// The line's number, from 1.
    pub line: usize,
    pub why: Why,
}

impl fmt::Display for CaseFault {
    fn fmt<W: fmt::Write>(&self, f: &mut fmt::Formatter<W>) -> fmt::Result {
        let line = self.line;
        let why = self.why;
        write!(f, "{line}: {why}")
    }
}
