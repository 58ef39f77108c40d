//! The queues of objects that other threads have handed to their owners (PEP 703, Biased Reference Counting). The queue
//! of a thread is one mark for each row of its block, 64 in a word.
//!
//! `mark`, `look` and `post` try once, and never wait. `merge_pending` and `leave` wait where another thread's exchange
//! has won, and then try again. None takes memory.
#![tactic(auto)]

mod exit;
mod marker;
mod pending;
mod queue;
mod words;

pub use brc_heap::Looked;
pub use queue::Queue;
