use crate::node::Words;

/// What a name of the graph is in the source.
#[derive(Clone, Copy)]
pub struct LocalName {
    /// How the source names it, as `item` or `items[0]`. The value of an expression has no name.
    pub name: Option<Words>,
    pub is_parameter: bool,
}
