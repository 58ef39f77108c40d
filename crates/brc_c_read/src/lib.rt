//! The reader of C functions: from the lexemes of a source to the trees of its functions.
//!
//! What isn't understood makes its function *not read*, with a place and a reason, and takes nothing from the others.
#![tactic(auto)]

mod braces;
mod cursor;
mod declarations;
mod declaring;
mod ending;
mod fields;
mod heads;
mod infix;
mod items;
mod keyword_statements;
mod listing;
mod operands;
mod parsing;
mod pending;
mod specifying;
mod statements;
mod stop;
mod type_names;

pub use items::read_source;
pub use type_names::TypeNames;
