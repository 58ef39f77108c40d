//! The terminal of the system, before which a command is carried out.
#![tactic(auto)]

mod screen;

pub use screen::Screen;
