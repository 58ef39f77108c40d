//! Runs of a module that needs no checker's yes, made again event by event, to see whether they go wrong.
#![tactic(auto)]

mod event;
mod wrong;

pub use event::Event;
pub use wrong::{goes_wrong, wrong_runs_show};
