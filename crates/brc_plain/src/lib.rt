//! A plain machine: the model's step machine as a value that code can copy and step, for any module that reads, whether
//! the checker accepts it or not.
#![tactic(auto)]

mod act;
mod bag;
mod complaint;
mod dispatch;
mod first;
mod fits;
mod here;
mod key;
mod lives;
mod moves;
mod needs;
mod place;
mod plain;
mod refused;
mod thread;

pub use complaint::{Complaint, Use};
pub use plain::Plain;
pub use refused::Refused;
