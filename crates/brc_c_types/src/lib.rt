//! The types of C expressions, as far as declarations say, and which of them are pointers to Python's objects.
#![tactic(auto)]

mod casts;
mod locals;
mod objects;
mod types;
mod typing;

pub use types::Types;
pub use typing::types_of;
