//! Schedules: a text lists the workers of a world, their calls, and the world's single steps in order.
#![tactic(auto)]

mod beginning;
mod laws;
mod line;
mod reading;
mod schedule;

pub use laws::{each_text_reads, fault_stays, one_schedule};
pub use reading::read_schedule;
pub use schedule::{PlannedCall, Schedule, Steps};
