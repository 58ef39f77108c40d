//! What one step does, as values: the address of its word, the operation on the word (`Access`), and, by the value
//! found there, the duties that follow and the thread afterwards (`Effect`). It depends on the thread, the duty and the
//! value found alone.
//!
//! The crate changes nothing itself. The step world makes the operation on its columns of words, and real threads on
//! the words that they share. It also has what both share of the rows (`rows`), of a module's layout
//! (`layout_of`), of kind words (`kinds`) and of how a release or a merge ends (`outcomes`).
#![tactic(auto)]

mod access;
mod address;
mod blocks;
mod effect;
pub mod kinds;
pub mod outcomes;
pub mod rows;
mod statics;

pub use access::{Access, access_of};
pub use address::address_of;
pub use blocks::Blocks;
pub use effect::{Change, Doer, Effect, Next};
pub use statics::layout_of;
