//! What is known where the paths of a function end.

use crate::blocks::{Blocks, Source, explore};
use brc_c_graph::{Graph, NodeId};
use brc_c_paths::Liveness;
use brc_c_store::{Rules, Store};
use std::alloc::{AllocError, Global};

/// A node at which a path returns, and the store in which it does.
#[derive(Drop)]
pub struct Arrival {
    pub node: NodeId,
    pub store: Store,
}

/// Returns each return of a graph in each store in which a path reaches it, or `None` if there are too
/// many blocks or references. A store knows the names that the graph asks for there. If `goes_on`, a path doesn't end
/// where it gives something up a second time.
pub fn arrivals_of(
    alloc: Global,
    rules: Rules,
    graph: &Graph,
    goes_on: bool,
) -> Result<Option<Vec<Arrival>>, AllocError> {
    let live = Liveness::of(alloc, graph)?;
    let mut blocks = Blocks::new(alloc);
    let source = Source {
        alloc,
        rules,
        graph,
        live: &live,
        goes_on,
    };
    if explore(&source, &mut blocks)?.is_some() {
        return Ok(None);
    }
    Ok(Some(blocks.into_arrivals(alloc, graph)?))
}
