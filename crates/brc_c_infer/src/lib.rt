//! What the functions of a program do with references, found from their own bodies: a row for each, as a table would
//! have it. Nothing is proved of a row but safety.
//!
//! The callees come first. A recursion begins with the general rule, by which arguments are borrowed and results new.
#![tactic(auto)]

mod calls;
mod concluding;
mod entering;
mod exits;
mod file;
mod helpers;
mod inferring;
mod names;
mod numbering;
mod order;
mod outs;
mod own;
mod pointed;
mod records;
mod results;
mod rows;
mod rule;
mod sites;
mod tracing;
mod uses;

pub use file::File;
pub use inferring::infer;
pub use own::Own;
pub use uses::{Uses, uses_of};
