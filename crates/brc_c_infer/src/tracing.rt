//! Where the values of names come from, and where they go, whichever path is taken.

use brc_c_flow::RowFlow;
use brc_c_graph::{Graph, Node};
use brc_c_store::{Event, Gives, Local, Source};
use std::alloc::{AllocError, Global};

/// Returns the name that an event copies, and the one that it copies to.
fn copied(node: &Node) -> Option<(Local, Local)> {
    match node.event {
        Event::Copy {
            to,
            from: Source::Local(from),
        } => Some((from, to)),
        Event::Call {
            gives: Gives::Same(from),
            into: Some(to),
            ..
        } => Some((from, to)),
        _ => None,
    }
}

/// Returns the names that may have a value of this one: for each name whether it does.
fn spread(
    alloc: Global,
    graph: &Graph,
    start: Local,
    is_backward: bool,
) -> Result<Vec<bool>, AllocError> {
    let mut reached = Vec::new(alloc);
    for number in 0..graph.locals().len() {
        reached.push(number == start.0)?;
    }
    for _ in graph.locals() {
        if !spread_once(graph, is_backward, &mut reached) {
            break;
        }
    }
    Ok(reached)
}

/// Returns whether a name is new.
fn spread_once(graph: &Graph, is_backward: bool, reached: &mut Vec<bool>) -> bool {
    let mut is_changed = false;
    for node in graph.nodes() {
        if let Some((from, to)) = copied(node) {
            let (known, other) = if is_backward { (to, from) } else { (from, to) };
            if has(reached.as_slice(), known) && !has(reached.as_slice(), other) {
                if let Some(found) = reached.get_mut(other.0) {
                    *found = true;
                    is_changed = true;
                }
            }
        }
    }
    is_changed
}

fn has(reached: &[bool], local: Local) -> bool {
    reached.get(local.0).copied().unwrap_or(false)
}

/// Returns the numbers of the arguments of which something is assumed in a function. That nobody knows whose user data
/// is, is known without it.
pub(crate) fn assumed_arguments(alloc: Global, flow: &RowFlow) -> Result<Vec<usize>, AllocError> {
    let mut assumed = Vec::new(alloc);
    if !flow
        .graph
        .nodes()
        .iter()
        .any(|node| assumed_by(node).is_some())
    {
        return Ok(assumed);
    }
    for (number, argument) in flow.arguments.iter().enumerate() {
        if let Some(local) = argument.local {
            let reached = spread(alloc, &flow.graph, local, false)?;
            let is_assumed = flow.graph.nodes().iter().any(|node| match assumed_by(node) {
                Some(local) => has(reached.as_slice(), local),
                None => false,
            });
            if is_assumed {
                assumed.push(number)?;
            }
        }
    }
    Ok(assumed)
}

/// Returns the name of whose object an event assumes something.
fn assumed_by(node: &Node) -> Option<Local> {
    match node.event {
        Event::Assume(local) if node.words.is_some() => Some(local),
        Event::Stow(local) => Some(local),
        Event::Put {
            cell,
            from: Some(local),
        } if cell.owes.is_assumed => Some(local),
        _ => None,
    }
}

/// Returns the number of the argument from which the items of a name are borrowed, if they are of no other container.
pub(crate) fn container_of(
    alloc: Global,
    flow: &RowFlow,
    item: Local,
) -> Result<Option<usize>, AllocError> {
    let items = spread(alloc, &flow.graph, item, true)?;
    let mut found = None;
    for node in flow.graph.nodes() {
        if let Some(container) = container_at(node, items.as_slice()) {
            let number = argument_of(alloc, flow, container)?;
            if number.is_none() || (found.is_some() && found != number) {
                return Ok(None);
            }
            found = number;
        }
    }
    Ok(found)
}

/// Returns the container from which an event borrows an item for one of these names.
fn container_at(node: &Node, items: &[bool]) -> Option<Local> {
    match node.event {
        Event::Call {
            gives: Gives::Item(container),
            into: Some(into),
            ..
        } if has(items, into) => Some(container),
        _ => None,
    }
}

/// Returns the number of the argument that a name has.
fn argument_of(alloc: Global, flow: &RowFlow, local: Local) -> Result<Option<usize>, AllocError> {
    let sources = spread(alloc, &flow.graph, local, true)?;
    for (number, argument) in flow.arguments.iter().enumerate() {
        if let Some(parameter) = argument.local {
            if has(sources.as_slice(), parameter) {
                return Ok(Some(number));
            }
        }
    }
    Ok(None)
}
