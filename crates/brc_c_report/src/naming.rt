//! How a report calls objects and calls.

use crate::trail::Trail;
use brc_c_graph::{Graph, Node, NodeId};
use brc_c_store::{Event, Local, ObjectId};
use std::alloc::{AllocError, Global};

/// Returns the name that the source has for a local.
pub(crate) fn local_text(graph: &Graph, local: Local) -> Option<&str> {
    let name = graph.local(local)?.name?;
    Some(graph.words(name))
}

/// Returns a name that has the object at the end of a path: this one if it has a text, or any.
pub(crate) fn present_name(
    graph: &Graph,
    trail: &Trail,
    id: ObjectId,
    local: Option<Local>,
) -> Option<Local> {
    if let Some(local) = local {
        if local_text(graph, local).is_some() && trail.store.object_of(local) == Some(id) {
            return Some(local);
        }
    }
    for named in trail.store.values.iter() {
        if named.value.object() == Some(id) && local_text(graph, named.local).is_some() {
            return Some(named.local);
        }
    }
    None
}

/// Returns the name of the object in a report, if it has one: that of a name which has it, or has had it.
pub(crate) fn name_of<'a>(
    graph: &'a Graph,
    trail: &Trail,
    id: ObjectId,
    local: Option<Local>,
) -> Option<&'a str> {
    if let Some(name) = present_name(graph, trail, id, local) {
        return local_text(graph, name);
    }
    local_text(graph, trail.origin(id)?.name?)
}

/// Returns how the source may write the object: by a name, or by the field from which it was read.
pub(crate) fn written_name<'a>(
    graph: &'a Graph,
    trail: &Trail,
    id: ObjectId,
    local: Option<Local>,
) -> &'a str {
    name_of(graph, trail, id, local).unwrap_or(read_from(graph, trail, id).unwrap_or(".."))
}

/// Returns the field or variable from which an object was read, in words.
fn read_from<'a>(graph: &'a Graph, trail: &Trail, id: ObjectId) -> Option<&'a str> {
    let node = graph.node(trail.origin(id)?.made)?;
    match node.event {
        Event::Read { .. } => Some(graph.words(node.words?)),
        _ => None,
    }
}

/// Returns how a report calls the object: by a name, or by what made it.
pub(crate) fn object_text(
    alloc: Global,
    graph: &Graph,
    trail: &Trail,
    id: ObjectId,
    local: Option<Local>,
) -> Result<String, AllocError> {
    match name_of(graph, trail, id, local) {
        Some(name) => String::from_str(alloc, name),
        None => match trail.origin(id) {
            Some(origin) => maker_text(alloc, graph, origin.made),
            None => String::from_str(alloc, "an object"),
        },
    }
}

/// Returns how a report calls what came into the function at a node.
pub(crate) fn maker_text(alloc: Global, graph: &Graph, made: NodeId) -> Result<String, AllocError> {
    let Some(node) = graph.node(made) else {
        return String::from_str(alloc, "an object");
    };
    if let Some(name) = parameter_of(graph, node) {
        return format!(in alloc; "the argument {name}");
    }
    if let Some(name) = stolen_parameter(graph, node) {
        return format!(in alloc; "the argument {name}");
    }
    let line = node.place.line;
    match node.words {
        Some(words) => {
            let words = graph.words(words);
            match node.event {
                Event::Copy { .. } | Event::Read { .. } => {
                    format!(in alloc; "what was in {words} at line {line}")
                }
                _ => format!(in alloc; "what {words} gave at line {line}"),
            }
        }
        None => format!(in alloc; "what came at line {line}"),
    }
}

/// Returns the parameter whose argument is lent to the function at a node.
pub(crate) fn parameter_of(graph: &Graph, node: Node) -> Option<&str> {
    match node.event {
        Event::Lend { to, .. } | Event::Copy { to, .. } => parameter_name(graph, to),
        _ => None,
    }
}

/// Returns whether what comes into the function at a node is read from a tuple of arguments, as `PyArg_ParseTuple`
/// does, or from an array of them.
pub(crate) fn is_in_argument(graph: &Graph, node: Node) -> bool {
    match node.event {
        Event::Lend { lender, .. } => match lender {
            Some(lender) => parameter_name(graph, lender).is_some(),
            None => true,
        },
        _ => false,
    }
}

/// Returns the parameter of which the function steals the reference that comes into it at a node.
fn stolen_parameter(graph: &Graph, node: Node) -> Option<&str> {
    match (node.event, node.words) {
        (Event::Call { into: Some(to), .. }, None) => parameter_name(graph, to),
        _ => None,
    }
}

fn parameter_name(graph: &Graph, local: Local) -> Option<&str> {
    let known = graph.local(local)?;
    if known.is_parameter {
        Some(graph.words(known.name?))
    } else {
        None
    }
}

/// Returns the words of a node, or an empty text.
pub(crate) fn words_at(graph: &Graph, id: NodeId) -> &str {
    match graph.node(id) {
        Some(node) => words_of(graph, node),
        None => "",
    }
}

/// Returns the words of a node, or none.
pub(crate) fn words_of(graph: &Graph, node: Node) -> &str {
    match node.words {
        Some(words) => graph.words(words),
        None => "",
    }
}

/// Returns the line of a node, or 0.
pub(crate) fn line_of(graph: &Graph, id: NodeId) -> u32 {
    match graph.node(id) {
        Some(node) => node.place.line,
        None => 0,
    }
}
