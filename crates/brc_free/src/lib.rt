//! The deallocation of objects whose last reference is gone (PEP 703, Biased Reference Counting; `tp_dealloc` of the
//! Python/C API manual). A hand keeps such objects in a chain, and finalises them one by one, without recursion: a list
//! of lists, however deep, takes no more stack than a number.
//!
//! Each call waits where another thread's exchange has won, and then tries again. None takes memory.
#![tactic(auto)]

mod again;
mod finaliser;
mod giving_up;
mod merging;
mod releasing;
mod scanned;
mod waiting;

pub use finaliser::Finaliser;
pub use merging::merge;
pub use waiting::{Waits, wait_by};
