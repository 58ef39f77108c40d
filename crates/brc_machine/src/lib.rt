//! What step machines are made of: the words that threads share, in columns; agendas, variables, open calls and
//! the counts of faults; and what a step looks like from outside.
//!
//! The step world is made of these, and so is the plain machine, which steps refused modules too.
#![tactic(auto)]

pub mod agenda;
pub mod exits;
mod faults;
mod memory;
mod no_memory;
pub mod objects;
mod open_call;
mod sight;
pub mod threads;
pub mod variables;

pub use faults::Faults;
pub use memory::{Memory, first_memory};
pub use no_memory::NoMemory;
pub use open_call::{OpenCall, Turns};
pub use sight::{Event, ExitPart, Part, Sight};
