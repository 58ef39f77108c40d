//! What follows for paths from an outline that is a graph's: the outline follows each path of the graph.
#![tactic(auto)]

mod laws;

pub use laws::{every_graph_path_is_followed, every_shown_fault_is_reported};
