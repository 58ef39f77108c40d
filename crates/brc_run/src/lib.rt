//! Runs of an accepted module's function on real threads, and their reports.
#![tactic(auto)]

mod counted;
mod ending;
mod error;
mod on_system;
mod plan;
mod running;
mod tally;

pub use counted::Counted;
pub use error::RunFault;
pub use on_system::{System, run_on_system};
pub use plan::Plan;
pub use running::run;
pub use tally::tally_of;
