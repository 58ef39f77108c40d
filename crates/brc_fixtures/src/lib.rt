//! What the crates of tests share: a module and its heaps, modules of texts, hosts that never fail, and the calls of a
//! hand that has no other work.
#![tactic(auto)]

mod at_rest;
mod heaps;
mod hosts;
mod modules;
mod texts;

pub use at_rest::{
    born, ended, gives_up, leaves, locks, looks_through, puts, releases, retains, settles, unlocks,
};
pub use heaps::{hand_of, opened};
pub use hosts::hosts_of;
pub use modules::plain_module;
pub use texts::{accepted, is_callable, last_function};
