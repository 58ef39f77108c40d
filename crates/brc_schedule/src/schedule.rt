use brc_lang::{Name, Sequence};
use brc_model::Choice;

/// The workers of a world, their calls, and the steps that the world takes in order.
#[derive(Drop)]
pub struct Schedule {
    /// The number of workers, 1 to 32.
    pub workers: u8,
    /// The number of rows of each worker, 1 to 1024.
    pub rows: u16,
    /// One call for each worker, in the order of the workers.
    pub calls: Sequence<PlannedCall>,
    /// The steps, claims and stops, in order.
    pub steps: Sequence<Steps>,
}

/// The calls of a worker: the function's name, and how often the worker calls it.
#[derive(Clone, Copy)]
pub struct PlannedCall {
    pub name: Name,
    /// How often, 1 to 1,000,000.
    pub times: u32,
}

/// Several steps of one thread with the same choice.
#[derive(Clone, Copy)]
pub struct Steps {
    /// Main is 0, the workers are 1, 2, ..
    pub thread: u8,
    /// The choice of each step; the row of a claim is 0 to 33809, the last row of the largest world.
    pub choice: Choice,
    /// How many steps, 1 to 1,000,000; a claim or a stop is one step.
    pub times: u32,
}
