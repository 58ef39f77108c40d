//! What a run is to do.

ghost use Rattle.std.specs.Prelude.{◌<◌, ◌≤◌};
ghost use Rattle.brc_model.specs.Limits.{worker_limit, row_limit};

use brc_model::Call;

/// What a run is to do.
#[derive(Clone, Copy)]
pub struct Plan {
    /// The function that each worker calls, and how often.
    pub call: Call,
    /// How many instructions each worker begins at most, in all its calls together. With `u64::MAX` no worker stops,
    /// unless functions call functions.
    pub steps: u64,
    /// How many workers there are, 1 to 32.
    pub threads: u8,
    /// How many rows each of them has, 1 to 1024.
    pub rows: u16,
    ghost some_threads: { 0 < threads },
    ghost most_threads: { threads ≤ worker_limit },
    ghost some_rows: { 0 < rows },
    ghost most_rows: { rows ≤ row_limit },
}
