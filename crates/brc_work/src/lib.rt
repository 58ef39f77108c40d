//! Workers: threads that make the calls of an accepted module's function over a heap and a host.
//!
//! A worker works on its own variables, which have no tags: that each call finds what it needs, and that nothing is
//! given up twice or left, stands on the checker's acceptance alone. It takes no memory.
#![tactic(auto)]

mod births;
mod calls;
mod end;
mod error;
mod gate;
mod host_calls;
mod items;
mod joining;
mod kinds;
mod laws;
mod line;
mod locks;
mod ran;
mod references;
mod running;
mod stops;
mod task;
mod tasks;
mod threads;
mod totals;
mod turns;
mod variables;
mod worker;

pub use error::NoThread;
pub use gate::Gate;
pub use joining::join_hands;
pub use laws::hands_and_threads_agree;
pub use ran::Ran;
pub use threads::fan_out;
pub use totals::Totals;
pub use worker::Worker;
