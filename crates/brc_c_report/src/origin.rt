use brc_c_graph::NodeId;
use brc_c_store::Local;

/// What a path has done with an object.
#[derive(Clone, Copy)]
pub(crate) struct Origin {
    /// Where the object came into the function.
    pub(crate) made: NodeId,
    /// Where a reference to it was made last.
    pub(crate) taken: Option<NodeId>,
    /// Where a reference to it was given up last.
    pub(crate) given: Option<NodeId>,
    /// Where it became one that may be freed.
    pub(crate) ended: Option<NodeId>,
    /// The first name in the source that has had it.
    pub(crate) name: Option<Local>,
}

impl Origin {
    pub(crate) fn new(made: NodeId) -> Origin {
        Origin {
            made,
            taken: None,
            given: None,
            ended: None,
            name: None,
        }
    }
}
