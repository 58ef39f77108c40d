//! The sentences of faults of fields, and what mends them.

use crate::blame::Blame;
use crate::cell_blame::Place;
use crate::finding::Wrong;
use crate::naming::{line_of, object_text, written_name};
use crate::trail::Trail;
use brc_c_graph::{Graph, NodeId};
use brc_c_store::{Event, ObjectId};
use brc_lang::CheckCode;
use std::alloc::{AllocError, Global};

/// Returns what a function does wrong with a field or a variable.
pub(crate) fn cell_sentence(
    alloc: Global,
    graph: &Graph,
    trail: &Trail,
    function: &str,
    blame: &Blame,
    place: &Place,
) -> Result<String, AllocError> {
    let text = cell_text(alloc, graph, trail, place)?;
    let cell = text.as_str();
    match blame.wrong {
        Wrong::Lost => format!(in alloc;
            "{function} overwrites {cell} without giving up the reference that it has"
        ),
        Wrong::Unprotected => {
            let verb = match blame.node.event {
                Event::Put { .. } => "sets",
                _ => "reads",
            };
            format!(in alloc;
                "{function} {verb} {cell} outside a critical section of its object; another thread may replace it"
            )
        }
        _ => left_sentence(alloc, trail, graph, function, blame, cell),
    }
}

fn left_sentence(
    alloc: Global,
    trail: &Trail,
    graph: &Graph,
    function: &str,
    blame: &Blame,
    cell: &str,
) -> Result<String, AllocError> {
    let Some(id) = blame.object else {
        return format!(in alloc; "{function} leaves {cell} with what may be freed");
    };
    if blame.code == CheckCode::NotOwned {
        let text = object_text(alloc, graph, trail, id, None)?;
        let what = text.as_str();
        return format!(in alloc;
            "{function} leaves {cell} with a reference that it doesn't own, to {what}"
        );
    }
    match end_of(trail, id) {
        Some((true, node)) => {
            let line = line_of(graph, node);
            format!(in alloc;
                "{function} leaves {cell} with the reference that it gave up at line {line}"
            )
        }
        Some((false, node)) => {
            let line = line_of(graph, node);
            format!(in alloc;
                "{function} leaves {cell} with an object that may be freed since line {line}"
            )
        }
        None => format!(in alloc; "{function} leaves {cell} with an object that may be freed"),
    }
}

/// Returns where an object became one that may be freed, and whether its reference was given up there.
fn end_of(trail: &Trail, id: ObjectId) -> Option<(bool, NodeId)> {
    let origin = trail.origin(id)?;
    match (origin.ended, origin.given) {
        (None, Some(given)) => Some((true, given)),
        (Some(ended), given) => Some((given == Some(ended), ended)),
        (None, None) => None,
    }
}

/// Returns how a report calls a field or a variable.
fn cell_text(
    alloc: Global,
    graph: &Graph,
    trail: &Trail,
    place: &Place,
) -> Result<String, AllocError> {
    let name = match graph.fields().get(place.field.0) {
        Some(words) => graph.words(*words),
        None => "a field",
    };
    match place.holder {
        Some(holder) => {
            let text = object_text(alloc, graph, trail, holder, None)?;
            let object = text.as_str();
            format!(in alloc; "{object}->{name}")
        }
        None => String::from_str(alloc, name),
    }
}

/// Returns what mends a fault of a field or a variable.
pub(crate) fn cell_mend(
    alloc: Global,
    graph: &Graph,
    trail: &Trail,
    blame: &Blame,
    place: &Place,
) -> Result<String, AllocError> {
    let text = cell_text(alloc, graph, trail, place)?;
    let cell = text.as_str();
    match blame.wrong {
        Wrong::Lost => format!(in alloc; "replace it: Py_XSETREF({cell}, ..)"),
        Wrong::Unprotected => {
            let holder = holder_text(alloc, graph, trail, place)?;
            let object = holder.as_str();
            format!(in alloc; "begin a section first: Py_BEGIN_CRITICAL_SECTION({object})")
        }
        _ if blame.code == CheckCode::NotOwned => {
            let name = match blame.object {
                Some(id) => written_name(graph, trail, id, None),
                None => "..",
            };
            format!(in alloc; "give it a reference of its own: Py_NewRef({name})")
        }
        _ => format!(in alloc; "leave NULL there: Py_CLEAR({cell})"),
    }
}

fn holder_text(
    alloc: Global,
    graph: &Graph,
    trail: &Trail,
    place: &Place,
) -> Result<String, AllocError> {
    match place.holder {
        Some(holder) => object_text(alloc, graph, trail, holder, None),
        None => String::from_str(alloc, ".."),
    }
}
