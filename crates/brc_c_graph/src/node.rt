ghost use Rattle.std.specs.Prelude.{◌≡◌};
ghost use Rattle.brc_c_graph.specs.Nodes.{way_of};

use brc_c_store::{Choice, Event};
use brc_c_text::Place;

/// A node of a graph, by its place there. A path begins at the first one.
#[derive(Clone, Copy, PartialEq, Eq)]
pub struct NodeId(pub usize);

impl NodeId {
    /// The node where each path begins.
    pub const ENTRY: NodeId = NodeId(0);
}

/// A text that a report shows, by its place among those of the graph.
#[derive(Clone, Copy)]
pub struct Words(pub usize);

/// Where a path goes on after each choice. Where no way is named, no path goes.
#[derive(Clone, Copy, PartialEq, Eq)]
pub struct Ways {
    pub yes: Option<NodeId>,
    pub no: Option<NodeId>,
    pub missing: Option<NodeId>,
}

impl Ways {
    /// No path goes on.
    pub const NONE: Ways = Ways {
        yes: None,
        no: None,
        missing: None,
    };

    /// Returns where a path goes on after a choice.
    pub fn way(self, choice: Choice) -> Option<NodeId>
        ensures { result ≡ way_of self choice }
    {
        match choice {
            Choice::Yes => self.yes,
            Choice::No => self.no,
            Choice::Missing => self.missing,
        }
    }
}

/// What a function does at one point of its text.
#[derive(Clone, Copy)]
pub struct Node {
    pub event: Event,
    pub ways: Ways,
    /// Where it is in the source.
    pub place: Place,
    /// The name of the function that is called, or the words of the condition that is asked.
    pub words: Option<Words>,
}
