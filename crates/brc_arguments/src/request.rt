use brc_c_program::Asked as AskedOfC;
use brc_command::{Asked, Format, Run, Unchecked};

/// What a command line asks for.
#[derive(Clone, Copy)]
pub enum Request<'a> {
    /// One report.
    One(Asked<'a>),
    /// A run's report, and how often its threads have met.
    Counted(Run<'a>),
    /// The check of files, and how what is found of them is written.
    Files(&'a [&'a str], Format<'a>),
    /// A run of a module that the checker may refuse.
    Unchecked(Unchecked<'a>),
    /// The judgement of C files.
    C(AskedOfC<'a>),
}
