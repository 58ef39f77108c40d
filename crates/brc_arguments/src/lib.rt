//! The words of a command line, the request that they make, and its exit status.
#![tactic(auto)]

mod acting;
mod c_files;
mod color;
mod command;
mod not_asked;
mod request;
mod unchecked;

pub use acting::{act, act_on, color_of};
pub use color::ColorChoice;
