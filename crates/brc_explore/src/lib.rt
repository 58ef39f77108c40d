//! The search for a run that goes wrong.
#![tactic(auto)]

mod plans;
mod possible;
mod search;

pub use plans::{Bounds, Run, find_run};
pub use search::{Found, ItemRead, Order, Watch, find};
