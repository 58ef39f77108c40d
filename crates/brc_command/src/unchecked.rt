//! Requests about runs of any module, whether the checker accepts it or not.

ghost use Rattle.std.specs.Prelude.{◌<◌, ◌≤◌};
ghost use Rattle.brc_model.specs.Limits.{worker_limit, row_limit};

/// The greatest bound of the states of a search.
pub const MOST_STATES: u32 = 10_000_000;

/// The greatest bound of the seconds of a search.
pub const MOST_SECONDS: u32 = 1_000_000;

/// A request about runs of a module.
#[derive(Clone, Copy)]
pub enum Unchecked<'a> {
    /// Look for a run of the file's module that goes wrong.
    Explain {
        file: &'a str,
        bounds: Bounds,
    },
    /// Step the schedule of the second file over the module of the first, up to the first step that is wrong. A trace
    /// has a line for each step. If there is a file for a picture of the run, it is saved there.
    Step {
        file: &'a str,
        schedule: &'a str,
        trace: bool,
        picture: Option<&'a str>,
    },
}

/// How far a search for a run goes.
#[derive(Clone, Copy)]
pub struct Bounds {
    /// The most workers, 1 to 32.
    pub workers: u8,
    /// The number of rows of each worker, 1 to 1024.
    pub rows: u16,
    /// The most states.
    pub states: u32,
    /// The most seconds.
    pub seconds: Option<u32>,
    ghost some_workers: { 0 < workers },
    ghost most_workers: { workers ≤ worker_limit },
    ghost some_rows: { 0 < rows },
    ghost most_rows: { rows ≤ row_limit },
}
