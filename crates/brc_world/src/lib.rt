//! The step world: threads run an accepted module over biased reference counts, one step at a time. Each step accesses
//! one word at most.
#![tactic(auto)]

mod claim_and_stop;
mod did;
mod dispatch;
mod doing;
mod first;
mod host_call;
mod laws;
mod open_calls;
mod peek;
mod question;
mod run;
mod scratch;
mod tally;
mod thread;
mod world;

pub use brc_machine::{Event, ExitPart, NoMemory, Part, Sight};
pub use brc_model::{Call, Choice};
pub use brc_report::{Left, Tally};
pub use brc_schedule::{PlannedCall, Schedule, Steps, read_schedule};
pub use did::Did;
pub use laws::{runs_follow_machines, sights_are_traces, tallies_follow_machines};
pub use scratch::Scratch;
pub use world::World;
