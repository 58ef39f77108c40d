//! The choices of a path, in words.

use crate::finding::Note;
use crate::naming::{local_text, words_at};
use crate::trail::{Chosen, Trail};
use brc_c_graph::{Graph, Node};
use brc_c_store::{Choice, Event, Gives, Local};
use std::alloc::{AllocError, Global};

/// Returns a note for each choice that can't be computed.
pub(crate) fn path_notes(
    alloc: Global,
    graph: &Graph,
    trail: &Trail,
) -> Result<Vec<Note>, AllocError> {
    let mut notes = Vec::new(alloc);
    for chosen in trail.choices.iter() {
        if let Some(node) = graph.node(chosen.node) {
            let text = choice_text(alloc, graph, trail, node, chosen)?;
            if !text.is_empty() {
                notes.push(Note {
                    place: node.place,
                    text,
                })?;
            }
        }
    }
    Ok(notes)
}

fn choice_text(
    alloc: Global,
    graph: &Graph,
    trail: &Trail,
    node: Node,
    chosen: &Chosen,
) -> Result<String, AllocError> {
    let words = words_at(graph, chosen.node);
    match node.event {
        Event::Null(local) => null_text(alloc, graph, local, words, chosen.choice),
        Event::Call { gives, .. } => call_text(alloc, graph, trail, gives, words, chosen),
        _ => asked_text(alloc, words, chosen.choice),
    }
}

fn null_text(
    alloc: Global,
    graph: &Graph,
    local: Local,
    words: &str,
    choice: Choice,
) -> Result<String, AllocError> {
    let name = local_text(graph, local).unwrap_or(asked_name(words));
    if name.is_empty() {
        return Ok(String::new(alloc));
    }
    match choice {
        Choice::Yes => format!(in alloc; "{name} is NULL"),
        _ => format!(in alloc; "{name} isn't NULL"),
    }
}

/// Returns what the words of a condition ask for.
fn asked_name(words: &str) -> &str {
    for suffix in [" != NULL", " == NULL"] {
        if let Some(name) = words.strip_suffix(suffix) {
            return name;
        }
    }
    words
}

fn call_text(
    alloc: Global,
    graph: &Graph,
    trail: &Trail,
    gives: Gives,
    words: &str,
    chosen: &Chosen,
) -> Result<String, AllocError> {
    if words.is_empty() {
        return Ok(String::new(alloc));
    }
    match chosen.choice {
        Choice::No => format!(in alloc; "{words} fails"),
        Choice::Missing => format!(in alloc; "{words} finds nothing"),
        Choice::Yes => match made_name(graph, trail, chosen) {
            Some(name) => match gives {
                Gives::New { .. } => format!(in alloc; "{words} succeeds: {name} owns a reference"),
                _ => format!(in alloc; "{words} succeeds: {name} is borrowed"),
            },
            None => format!(in alloc; "{words} succeeds"),
        },
    }
}

/// Returns the first name that has had what a call gave.
fn made_name<'a>(graph: &'a Graph, trail: &Trail, chosen: &Chosen) -> Option<&'a str> {
    let origin = trail.origin(chosen.made?)?;
    local_text(graph, origin.name?)
}

fn asked_text(alloc: Global, words: &str, choice: Choice) -> Result<String, AllocError> {
    if words.is_empty() {
        return Ok(String::new(alloc));
    }
    match choice {
        Choice::Yes => format!(in alloc; "{words} is true"),
        _ => format!(in alloc; "{words} is false"),
    }
}
