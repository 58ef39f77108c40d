//! The trace of a schedule's run: a line for each step, which says what the step belongs to, which rule of the step
//! relation it goes by, what its word was and what it left there, and what became of references and objects.
#![tactic(auto)]

mod depth;
mod entry;
mod fault;
mod laws;
mod line;
mod marks;
mod no_op;
mod outcome;
mod part;
mod past;
mod rule;
mod teller;
mod tracing;
mod word;

pub use depth::Crossing;
pub use entry::Entry;
pub use fault::TraceFault;
pub use laws::{changes_show_marks, rules_are_named, traces_show_words};
pub use marks::row_of_mark;
pub use outcome::{Fate, Outcome, life_outcome, lock_outcome, phase_outcome, reference_outcome};
pub use part::part_text;
pub use past::{Doing, Past, first_past};
pub use rule::{Rule, rule_at};
pub use teller::Teller;
pub use tracing::trace;
