//! The sentence of a finding.

use crate::blame::Blame;
use crate::cell_wording::cell_sentence;
use crate::finding::Wrong;
use crate::naming::{line_of, local_text, maker_text, name_of, object_text, words_of};
use crate::trail::Trail;
use brc_c_graph::Graph;
use brc_c_store::{Base, Event, Local, ObjectId, Value};
use brc_lang::CheckCode;
use std::alloc::{AllocError, Global};

/// Returns what a function does wrong, in a sentence whose subject is the function.
pub(crate) fn sentence(
    alloc: Global,
    graph: &Graph,
    trail: &Trail,
    function: &str,
    blame: &Blame,
) -> Result<String, AllocError> {
    if let Some(place) = &blame.cell {
        return cell_sentence(alloc, graph, trail, function, blame, place);
    }
    match blame.wrong {
        Wrong::Lost => match blame.object {
            Some(id) => lost(alloc, graph, trail, function, blame, id),
            None => format!(in alloc; "{function} loses a reference"),
        },
        Wrong::GivenUp => match blame.object {
            Some(id) => given_up(alloc, graph, trail, function, blame, id),
            None => format!(in alloc; "{function} uses an object that may be freed"),
        },
        Wrong::Missing => missing(alloc, graph, trail, function, blame),
        Wrong::Unprotected => unprotected(alloc, graph, trail, function, blame),
        Wrong::Open => left_open(alloc, graph, function, blame),
        Wrong::RunsOff => format!(in alloc; "{function} ends without `return`"),
    }
}

fn lost(
    alloc: Global,
    graph: &Graph,
    trail: &Trail,
    function: &str,
    blame: &Blame,
    id: ObjectId,
) -> Result<String, AllocError> {
    let owned = owned_text(alloc, graph, trail, id)?;
    if let (CheckCode::LeftOwned, Event::Lose(_)) = (blame.code, blame.node.event) {
        let call = words_of(graph, blame.node);
        return format!(in alloc; "{function} loses {owned}: {call} doesn't steal it");
    }
    if blame.code == CheckCode::LeftOwned {
        return format!(in alloc; "{function} returns while it still owns {owned}");
    }
    match name_of(graph, trail, id, blame.local) {
        Some(name) => format!(in alloc; "{function} overwrites {name} while it still owns {owned}"),
        None => format!(in alloc; "{function} loses {owned}, which it still owns"),
    }
}

/// Returns how a report calls a reference that the function owns.
fn owned_text(
    alloc: Global,
    graph: &Graph,
    trail: &Trail,
    id: ObjectId,
) -> Result<String, AllocError> {
    let Some(origin) = trail.origin(id) else {
        return String::from_str(alloc, "a reference");
    };
    match origin.taken {
        Some(taken) if trail.store.object(id).base != Base::Gone => {
            let what = object_text(alloc, graph, trail, id, None)?;
            let line = line_of(graph, taken);
            format!(in alloc; "the reference to {what} that it took at line {line}")
        }
        _ => maker_text(alloc, graph, origin.made),
    }
}

fn given_up(
    alloc: Global,
    graph: &Graph,
    trail: &Trail,
    function: &str,
    blame: &Blame,
    id: ObjectId,
) -> Result<String, AllocError> {
    let what = object_text(alloc, graph, trail, id, blame.local)?;
    let verb = verb_of(blame.node.event);
    if blame.code == CheckCode::NotOwned {
        return format!(in alloc; "{function} {verb} {what}, which it only borrows");
    }
    let Some(origin) = trail.origin(id) else {
        return format!(in alloc; "{function} {verb} {what}, which may be freed");
    };
    if origin.ended == origin.given || origin.ended.is_none() {
        if let Some(given) = origin.given {
            let line = line_of(graph, given);
            return format!(in alloc;
                "{function} {verb} {what}, whose last reference it gave up at line {line}"
            );
        }
    }
    match origin.ended {
        Some(ended) => {
            let line = line_of(graph, ended);
            format!(in alloc; "{function} {verb} {what}, which may be freed since line {line}")
        }
        None => format!(in alloc; "{function} {verb} {what}, which may be freed"),
    }
}

/// Returns what an event does with an object.
fn verb_of(event: Event) -> &'static str {
    match event {
        Event::Release(_) => "releases",
        Event::Give(_) | Event::GiveTo { .. } => "gives away",
        Event::Return(_) => "returns",
        _ => "uses",
    }
}

fn missing(
    alloc: Global,
    graph: &Graph,
    trail: &Trail,
    function: &str,
    blame: &Blame,
) -> Result<String, AllocError> {
    let verb = verb_of(blame.node.event);
    let value = match blame.local {
        Some(local) => trail.store.value(local),
        None => Value::Unset,
    };
    let name = named_or(graph, blame.local, "a value");
    if value == Value::Unset {
        return format!(in alloc; "{function} {verb} {name} before it is assigned");
    }
    match blame.made {
        Some(made) => {
            let what = maker_text(alloc, graph, made)?;
            format!(in alloc; "{function} {verb} {name}, which is NULL: {what}")
        }
        None => format!(in alloc; "{function} {verb} {name}, which is NULL"),
    }
}

/// Returns the name that the source has for a local, or these words.
fn named_or<'a>(graph: &'a Graph, local: Option<Local>, words: &'a str) -> &'a str {
    match local {
        Some(local) => local_text(graph, local).unwrap_or(words),
        None => words,
    }
}

fn unprotected(
    alloc: Global,
    graph: &Graph,
    trail: &Trail,
    function: &str,
    blame: &Blame,
) -> Result<String, AllocError> {
    let container = container_text(alloc, graph, trail, blame)?;
    if trail.store.is_detached {
        return format!(in alloc;
            "{function} borrows from {container} while other threads are allowed to run"
        );
    }
    format!(in alloc;
        "{function} borrows from {container} outside a critical section of it; another thread may replace the item"
    )
}

/// Returns how a report calls the container from which an item is borrowed.
pub(crate) fn container_text(
    alloc: Global,
    graph: &Graph,
    trail: &Trail,
    blame: &Blame,
) -> Result<String, AllocError> {
    let Some(local) = blame.local else {
        return String::from_str(alloc, "a container");
    };
    match trail.store.object_of(local) {
        Some(id) => object_text(alloc, graph, trail, id, Some(local)),
        None => String::from_str(alloc, named_or(graph, Some(local), "a container")),
    }
}

/// A section or a state of the thread is left open, or ended where none is open.
fn left_open(
    alloc: Global,
    graph: &Graph,
    function: &str,
    blame: &Blame,
) -> Result<String, AllocError> {
    if matches!(blame.node.event, Event::Unlock) {
        return format!(in alloc; "{function} ends a critical section where none is open");
    }
    let line = match blame.made {
        Some(made) => line_of(graph, made),
        None => blame.node.place.line,
    };
    if blame.code == CheckCode::LeftLocked {
        return format!(in alloc; "{function} returns in the critical section of line {line}");
    }
    format!(in alloc;
        "{function} returns while other threads are allowed to run, since line {line}"
    )
}
