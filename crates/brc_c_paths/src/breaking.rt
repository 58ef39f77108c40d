//! The rule that the event of a point breaks.

ghost use Rattle.std.specs.Prelude.{◌≡◌, IfOk, Some};
ghost use Rattle.brc_c_store.specs.Stores.{contents_of};
ghost use Rattle.brc_c_paths.specs.Paths.{code_at, code_in, emptied};
ghost use Rattle.brc_c_paths.specs.Closed.{graph_point};

use crate::point::Point;
use crate::stepping::emptied;
use brc_c_graph::{Graph, Node, NodeId};
use brc_c_store::{Rules, Store, faults};
use brc_lang::CheckCode;
use std::alloc::AllocError;

/// Returns the rule that a point's event breaks, if any.
pub fn code_of(rules: Rules, graph: &Graph, point: &Point) -> Result<Option<CheckCode>, AllocError>
    ensures { IfOk result (λ code. code ≡ code_at rules graph.now (graph_point point.now)) }
{
    code_at(rules, graph, point.node, &point.store)
}

/// Returns the rule that the event of a node breaks in a store with which a path comes there, if any.
pub(crate) fn code_at(
    rules: Rules,
    graph: &Graph,
    id: NodeId,
    store: &Store,
) -> Result<Option<CheckCode>, AllocError>
    ensures { IfOk result (λ code. code
        ≡ code_at rules graph.now (record { node = id; store = contents_of store.now })) }
{
    match graph.node(id) {
        Some(node) => code_from(rules, &node, store),
        None => Ok(None),
    }
}

fn code_from(rules: Rules, node: &Node, store: &Store) -> Result<Option<CheckCode>, AllocError>
    ensures { IfOk result (λ code. code ≡ code_in rules (Some node.now) (emptied (contents_of store.now))) }
{
    if store.stale.is_empty() {
        return Ok(faults(rules, node.event, store));
    }
    Ok(faults(rules, node.event, &emptied(store)?))
}
