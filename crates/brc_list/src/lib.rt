//! Lists under real threads: a hand locks a list, and then loads its cells (Python/C API manual, Python Critical
//! Section API and List Objects).
//!
//! Each call tries once. It never waits, and takes no memory.
#![tactic(auto)]

mod lists;

pub use lists::Lists;
