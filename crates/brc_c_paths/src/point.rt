//! The points of a search: nodes in normal stores.

ghost use Rattle.std.specs.Prelude.{◌≡◌};
ghost use Rattle.brc_c_paths.specs.Closed.{number_of_way};

use brc_c_graph::NodeId;
use brc_c_store::{Choice, Store};

/// A node in a store in which a path comes there, and where paths go on, by the places of the points in a list.
#[derive(Drop)]
pub struct Point {
    pub node: NodeId,
    pub store: Store,
    /// The same node after the registers of forgotten items are emptied, if the store has some. The event comes there.
    pub emptied: Option<usize>,
    pub ways: PointWays,
}

/// The point to which a path goes after each choice, if it goes there.
#[derive(Clone, Copy)]
pub struct PointWays {
    pub yes: Option<usize>,
    pub no: Option<usize>,
    pub missing: Option<usize>,
}

impl PointWays {
    /// No path goes on.
    pub const NONE: PointWays = PointWays {
        yes: None,
        no: None,
        missing: None,
    };

    /// Returns the number of the point after a choice.
    pub fn way(self, choice: Choice) -> Option<usize>
        ensures { result ≡ number_of_way self choice }
    {
        match choice {
            Choice::Yes => self.yes,
            Choice::No => self.no,
            Choice::Missing => self.missing,
        }
    }
}
