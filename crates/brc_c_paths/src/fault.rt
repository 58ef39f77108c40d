//! Rules that paths break.

use brc_c_graph::NodeId;
use brc_c_store::Choice;
use brc_lang::CheckCode;

/// A step of a path: a node, and the way after its event.
#[derive(Clone, Copy, PartialEq, Eq)]
pub struct Step {
    pub node: NodeId,
    pub choice: Choice,
}

/// A rule that a path breaks.
#[derive(Drop)]
pub struct Fault {
    pub code: CheckCode,
    /// The node whose event breaks it.
    pub node: NodeId,
    /// The steps from the entry to the node.
    pub path: Vec<Step>,
}
