//! The command over C files: what it writes, and its exit status.
#![tactic(auto)]

mod judging;
mod loaded;

pub use judging::judge_c;
