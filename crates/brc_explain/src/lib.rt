//! Explanations for people: of a code, of a text that can't be read, of a module that is refused, of one that is
//! accepted, and of a schedule.
#![tactic(auto)]

mod above;
mod accepted;
mod advice;
mod at_fault;
mod called;
mod details;
mod differing;
mod empty;
mod fault;
mod forms;
mod joining;
mod led;
mod line_fault;
mod listing;
mod marks;
mod missing;
mod operand_roles;
mod path_text;
mod refusals;
mod refused;
mod rows;
mod schedule;
mod state_text;
mod unreadable;
mod visible;
mod walking;
mod why;
mod words;

pub use accepted::explain_accepted;
pub use details::{Details, details_of_fault, details_of_refusal};
pub use fault::ExplainFault;
pub use marks::Place;
pub use refusals::{is_of_one_function, refusal_asked, refusal_of};
pub use refused::{explain_refused, steps_to};
pub use rows::{StepRow, StepRows, Way};
pub use schedule::explain_schedule;
pub use unreadable::explain_unreadable;
