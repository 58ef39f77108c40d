/// The work of a worker: one function, called a number of times.
#[derive(Clone, Copy)]
pub struct Call {
    /// The function's number, from 0.
    pub function: usize,
    /// The number of calls, 1 to 1,000,000.
    pub times: u32,
}

/// What a schedule chooses for a step.
#[derive(Clone, Copy, PartialEq, Eq)]
pub enum Choice {
    /// The thread takes its next step. If that is a host call, the call succeeds.
    Ok,
    /// The thread takes its next step. If that is a host call, the call faults.
    Fault,
    /// The thread takes the row's mark, if the object is in its queue.
    Claim(u32),
    /// The thread stops, if it is between two instructions: it gives up what its calls hold, and makes no further call.
    Stop,
}
