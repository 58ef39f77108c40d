//! The graph of a C function: at each node what the function does with references there, and where a path goes on.
//!
//! A graph knows nothing of C but places and words for reports. What an event means is said in `brc_c_store`.
#![tactic(auto)]

mod graph;
mod local_name;
mod node;

pub use graph::Graph;
pub use local_name::LocalName;
pub use node::{Node, NodeId, Ways, Words};
