//! Whether a function reads what is where its arguments point to, before it stores something there.

use brc_c_flow::OutNames;
use brc_c_graph::{Graph, Node, NodeId};
use brc_c_paths::{name_assigned, names_read};
use brc_c_store::{Event, Local, Source};
use std::alloc::{AllocError, Global};

/// Returns whether a path reads what is there at the entry.
pub(crate) fn is_read(alloc: Global, graph: &Graph, names: OutNames) -> Result<bool, AllocError> {
    let mut seen = Vec::new(alloc);
    for _ in graph.nodes() {
        seen.push(false)?;
    }
    let mut open = Vec::new(alloc);
    if let Some(first) = first_node(graph, names) {
        open.push(first)?;
    }
    for _turn in 0..graph.nodes().len() {
        let Some(id) = open.pop() else {
            break;
        };
        let Some(node) = graph.node(id) else {
            continue;
        };
        if reads(&node, names) {
            return Ok(true);
        }
        if name_assigned(node.event) != Some(names.local) {
            for way in [node.ways.yes, node.ways.no, node.ways.missing] {
                enter(way, &mut seen, &mut open)?;
            }
        }
    }
    Ok(false)
}

fn enter(
    way: Option<NodeId>,
    seen: &mut Vec<bool>,
    open: &mut Vec<NodeId>,
) -> Result<(), AllocError> {
    let Some(id) = way else {
        return Ok(());
    };
    if let Some(is_seen) = seen.get_mut(id.0) {
        if !*is_seen {
            *is_seen = true;
            open.push(id)?;
        }
    }
    Ok(())
}

/// Returns the node behind the one that keeps what is there at the entry.
fn first_node(graph: &Graph, names: OutNames) -> Option<NodeId> {
    for node in graph.nodes() {
        if copied_to(node, names.local) == Some(names.first) {
            return node.ways.yes;
        }
    }
    None
}

fn reads(node: &Node, names: OutNames) -> bool {
    let is_end = copied_to(node, names.local) == Some(names.last);
    !is_end && names_read(node.event).contains(&Some(names.local))
}

/// Returns the name that gets what a name has.
fn copied_to(node: &Node, local: Local) -> Option<Local> {
    match node.event {
        Event::Copy {
            to,
            from: Source::Local(from),
        } if from == local => Some(to),
        _ => None,
    }
}
