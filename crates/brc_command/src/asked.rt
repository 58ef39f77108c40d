ghost use Rattle.std.specs.Prelude.{◌<◌, ◌≤◌, length};
ghost use Rattle.brc_command.specs.declared.asked.TheConstants.{MOST_NAMES};
ghost use Rattle.brc_model.specs.Limits.{worker_limit, row_limit, times_limit};

use brc_pages::Topic;

/// The greatest bound of a worker's instructions.
pub const MOST_STEPS: u32 = 1_000_000_000;

/// The steps of a run whose workers have no bound.
pub const NO_BOUND: u64 = u64::MAX;

/// The most paths of a run, and the most peers.
pub const MOST_NAMES: usize = 16;

/// The request of a command line.
#[derive(Clone, Copy)]
pub enum Asked<'a> {
    /// Run a function of a module.
    Run(Run<'a>),
    /// Check the module of the file.
    Check {
        file: &'a str,
    },
    /// Step the schedule of the second file over the module of the first. A trace has a line for each step.
    Step {
        file: &'a str,
        schedule: &'a str,
        trace: bool,
    },
    /// Step the schedule of the second file over the module of the first, with a trace, and save a picture of the run.
    Draw {
        file: &'a str,
        schedule: &'a str,
        picture: &'a str,
    },
    /// Explain what the checker says of the module of the file, or of its function of this name.
    Explain {
        file: &'a str,
        function: Option<&'a str>,
    },
    /// Explain the schedule of the file.
    ExplainSchedule {
        file: &'a str,
    },
    /// Explain a code.
    Page {
        topic: Topic,
    },
    /// Print the program's name and version.
    Version,
}

/// The run that a command line asks for.
#[derive(Clone, Copy)]
pub struct Run<'a> {
    /// The module's file.
    pub file: &'a str,
    /// The name of the function to call.
    pub function: &'a str,
    /// The number of workers, 1 to 32.
    pub threads: u32,
    /// The number of rows of each worker, 1 to 1024.
    pub rows: u16,
    /// The number of calls of each worker, 1 to 1,000,000.
    pub times: u32,
    /// The number of instructions that each worker begins at most: up to 1,000,000,000, or `NO_BOUND`.
    pub steps: u64,
    /// The paths that `open` opens, by their numbers from 0: 16 at most.
    pub paths: &'a [&'a str],
    /// The peers to which `connect` connects, by their numbers from 0: 16 at most.
    pub peers: &'a [&'a str],
    ghost some_threads: { 0 < threads },
    ghost most_threads: { threads ≤ worker_limit },
    ghost some_rows: { 0 < rows },
    ghost most_rows: { rows ≤ row_limit },
    ghost some_times: { 0 < times },
    ghost most_times: { times ≤ times_limit },
    ghost few_paths: { length paths.now ≤ MOST_NAMES },
    ghost few_peers: { length peers.now ≤ MOST_NAMES },
}
