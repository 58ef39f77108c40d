//! The tally of a run, and the report: the tally's one text. The colours of a text for people.
#![tactic(auto)]

mod paint;
mod report;
mod tally;

pub use paint::{Paint, Role};
pub use report::{write_entry, write_tally};
pub use tally::{Left, Tally};
