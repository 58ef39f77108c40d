//! What is found of a C function, in words: from the faults of its graph, which the checker has confirmed, to findings,
//! and from findings to the lines that people and editors read.
#![tactic(auto)]

mod blame;
mod cell_blame;
mod cell_wording;
mod choices;
mod choosing;
mod collecting;
mod finding;
mod level;
mod line_kind;
mod lines;
mod mending;
mod naming;
mod origin;
mod trail;
mod wording;

pub use collecting::{Judged, add_findings};
pub use finding::{Finding, Key, Note, Wrong};
pub use level::{Level, Reservation};
pub use line_kind::LineKind;
pub use lines::{add_finding_lines, add_head};
