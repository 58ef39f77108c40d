//! A call that waits for the one that it has made.

ghost use Rattle.std.specs.Prelude.{◌+◌, ◌<◌, ◌^◌};

use crate::variables::Variables;
use brc_lang::Variable;

/// How often each instruction `again` of a function, by its point, has gone back in a call of it.
pub type Turns = [u16; 256];

/// A call that waits for the one that it has made.
#[derive(Clone, Copy)]
pub struct OpenCall {
    /// The number of the function that it has called.
    pub callee: u8,
    /// The number of the instruction that made the call.
    pub at: usize,
    /// The rows that its variables name. Those that the call stole are empty, and so is the variable that takes the
    /// result. Once the thread has stopped, they are what the call has still to give up.
    pub variables: Variables,
    /// How often each instruction `again` of its function has gone back in it. The call that it has made counts its own
    /// (`turns_of_the_caller_lost`).
    pub turns: Turns,
    /// The variable that takes the result.
    pub to: Variable,
    /// The number of the instruction where it goes on if the call that it has made fails.
    pub otherwise: u8,
    ghost next: { at + 1 < 2 ^ 64 },
}
