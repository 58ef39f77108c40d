ghost use Rattle.std.specs.Prelude.{◌≡◌};
ghost use Rattle.brc_c_table.specs.declared.fault.RowFault.TheVariants.{NoMemory};

use std::alloc::{AllocError, AllocFailed};
use thiserror::Error;

/// What is wrong with a line of a table, and what to write.
#[derive(Clone, Copy, Debug, Error)]
pub enum RowFault {
    #[error("a row has the words NAME RESULT ARGUMENTS FAILURE CODE, and a number behind `item`, `part` or `same`")]
    WordCount,
    #[error("NAME is a name of C, with `->` before the name of a field that is called through a pointer")]
    Name,
    #[error("RESULT is `new`, `item K`, `part K`, `lent`, `same K`, `null`, `int`, `other`, `void` or `free`")]
    Result,
    #[error("K, behind `item`, `part` or `same`, is the number of an argument that is an object, from 1")]
    ArgumentNumber,
    #[error("ARGUMENTS is `.`, or has one of the letters bnstekSTNZoOxX-p+f*=&u for each argument")]
    Letter,
    #[error("a call of C has at most 127 arguments")]
    TooManyArguments,
    #[error("`+`, `*`, `=`, `f`, `p` and `u` are about all arguments behind: put them last (`p-*` may be, too)")]
    NotLast,
    #[error("FAILURE is `null`, `maybe`, `neg`, `less`, `zero`, `miss` or `none`")]
    Failure,
    #[error("FAILURE of an object is `null`, `maybe` or `none`, of `int` all but the first two, and else `none`")]
    OtherFailure,
    #[error("CODE is `runs` or `pure`")]
    Code,
    #[error("a row above has this name: take one of the two away")]
    NameTwice,
    #[error("the line has more than 255 bytes: shorten it, or go on with the comment on a line of its own")]
    LongLine,
    #[error("the line has no line feed: put one at the end of the file")]
    CutOff,
    #[error("no memory")]
    NoMemory,
}

impl From<AllocError> for RowFault {
    ghost from_gives = { λ _ e. e ≡ NoMemory };

    fn from(_e: AllocError) -> RowFault {
        RowFault::NoMemory
    }
}

impl<T: Drop> From<AllocFailed<T>> for RowFault {
    ghost from_gives = { λ _ e. e ≡ NoMemory };

    fn from(_e: AllocFailed<T>) -> RowFault {
        RowFault::NoMemory
    }
}

/// Why a table isn't read: its first line at fault, and what is wrong with it.
#[derive(Clone, Copy, Debug, Error)]
#[error("{line}: {fault}")]
pub struct TableFault {
    /// The line's number, from 1.
    pub line: u64,
    pub fault: RowFault,
}
