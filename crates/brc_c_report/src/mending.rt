//! What to write in place of what is at fault.

use crate::blame::Blame;
use crate::cell_wording::cell_mend;
use crate::finding::Wrong;
use crate::naming::{local_text, present_name, words_of, written_name};
use crate::trail::Trail;
use crate::wording::container_text;
use brc_c_graph::Graph;
use brc_c_store::{Event, ObjectId, Value};
use brc_lang::CheckCode;
use std::alloc::{AllocError, Global};

/// Calls that borrow an item, and those that give a reference in their place.
const OWNED: [(&str, &str); 9] = [
    ("PyList_GetItem", "PyList_GetItemRef"),
    ("PyList_GET_ITEM", "PyList_GetItemRef"),
    ("PyDict_GetItem", "PyDict_GetItemRef"),
    ("PyDict_GetItemWithError", "PyDict_GetItemRef"),
    ("PyDict_GetItemString", "PyDict_GetItemStringRef"),
    ("PyDict_SetDefault", "PyDict_SetDefaultRef"),
    ("PyWeakref_GetObject", "PyWeakref_GetRef"),
    ("PyWeakref_GET_OBJECT", "PyWeakref_GetRef"),
    ("PyImport_AddModule", "PyImport_AddModuleRef"),
];

/// Returns what mends a fault, if a report can say it.
pub(crate) fn mend_of(
    alloc: Global,
    graph: &Graph,
    trail: &Trail,
    blame: &Blame,
) -> Result<Option<String>, AllocError> {
    if let Some(place) = &blame.cell {
        return Ok(Some(cell_mend(alloc, graph, trail, blame, place)?));
    }
    let text = match blame.wrong {
        Wrong::Lost => match blame.object {
            Some(id) => releasing(alloc, graph, trail, blame, id)?,
            None => return Ok(None),
        },
        Wrong::GivenUp => match blame.object {
            Some(id) => keeping(alloc, graph, trail, blame, id)?,
            None => return Ok(None),
        },
        Wrong::Missing => asking(alloc, graph, trail, blame)?,
        Wrong::Unprotected => protecting(alloc, graph, trail, blame)?,
        Wrong::Open => closing(alloc, blame)?,
        Wrong::RunsOff => String::from_str(alloc, "return a value at its end")?,
    };
    Ok(Some(text))
}

fn releasing(
    alloc: Global,
    graph: &Graph,
    trail: &Trail,
    blame: &Blame,
    id: ObjectId,
) -> Result<String, AllocError> {
    let Some(local) = present_name(graph, trail, id, blame.local) else {
        return String::from_str(alloc, "keep it in a variable, and release it");
    };
    let call = match trail.store.value(local) {
        Value::Maybe(_) => "Py_XDECREF",
        _ => "Py_DECREF",
    };
    let name = local_text(graph, local).unwrap_or("");
    if let Event::Lose(_) = blame.node.event {
        let stealing = words_of(graph, blame.node);
        return format!(in alloc; "release it if {stealing} fails: {call}({name})");
    }
    format!(in alloc; "release it first: {call}({name})")
}

fn keeping(
    alloc: Global,
    graph: &Graph,
    trail: &Trail,
    blame: &Blame,
    id: ObjectId,
) -> Result<String, AllocError> {
    let name = written_name(graph, trail, id, blame.local);
    let is_release = matches!(blame.node.event, Event::Release(_));
    if blame.code == CheckCode::NotOwned {
        return match blame.node.event {
            Event::Release(_) => String::from_str(alloc, "leave what is borrowed to its owner"),
            Event::Return(_) => {
                format!(in alloc; "return a reference of its own: Py_NewRef({name})")
            }
            _ => format!(in alloc; "give a reference of its own away: Py_NewRef({name})"),
        };
    }
    let Some(origin) = trail.origin(id) else {
        return String::from_str(alloc, "use it while it is alive");
    };
    if origin.ended == origin.given || origin.ended.is_none() {
        return if is_release {
            String::from_str(alloc, "give each reference up once")
        } else {
            String::from_str(alloc, "use it before its last reference is given up")
        };
    }
    format!(in alloc;
        "take a reference while it is alive, and release it afterwards: Py_INCREF({name})"
    )
}

fn asking(
    alloc: Global,
    graph: &Graph,
    trail: &Trail,
    blame: &Blame,
) -> Result<String, AllocError> {
    let Some(local) = blame.local else {
        return String::from_str(alloc, "ask for NULL first");
    };
    let name = local_text(graph, local).unwrap_or("..");
    if trail.store.value(local) == Value::Unset {
        return format!(in alloc; "assign it where it is declared: {name} = NULL");
    }
    match blame.node.event {
        Event::Release(_) => format!(in alloc; "allow for NULL: Py_XDECREF({name})"),
        _ => format!(in alloc; "ask first: if ({name} == NULL)"),
    }
}

fn protecting(
    alloc: Global,
    graph: &Graph,
    trail: &Trail,
    blame: &Blame,
) -> Result<String, AllocError> {
    if trail.store.is_detached {
        return String::from_str(alloc, "end that first: Py_END_ALLOW_THREADS");
    }
    let call = match blame.node.words {
        Some(words) => graph.words(words),
        None => "",
    };
    for (borrowing, owned) in OWNED {
        if borrowing == call {
            return format!(in alloc; "{owned} gives a reference that the function owns");
        }
    }
    let container = container_text(alloc, graph, trail, blame)?;
    format!(in alloc; "borrow it in a section: Py_BEGIN_CRITICAL_SECTION({container})")
}

fn closing(alloc: Global, blame: &Blame) -> Result<String, AllocError> {
    if matches!(blame.node.event, Event::Unlock) {
        return String::from_str(alloc, "end each section once");
    }
    if blame.code == CheckCode::LeftLocked {
        return String::from_str(alloc, "end it first: Py_END_CRITICAL_SECTION()");
    }
    String::from_str(alloc, "end that first: Py_END_ALLOW_THREADS")
}
