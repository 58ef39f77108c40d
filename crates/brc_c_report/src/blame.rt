//! Which reference a fault is about, and how certain it is.

use crate::cell_blame::{Place as CellPlace, left_cells, of_cell};
use crate::finding::{Key, Wrong};
use crate::level::{Level, Reservation};
use crate::naming::{is_in_argument, parameter_of};
use crate::trail::Trail;
use brc_c_graph::{Graph, Node, NodeId};
use brc_c_store::{Event, Gives, Local, ObjectId, Rules, Value, left_by};
use brc_c_text::Place;
use brc_lang::CheckCode;
use std::alloc::{AllocError, Global};

/// A fault of one reference.
#[derive(Clone, Copy)]
pub(crate) struct Blame {
    pub(crate) code: CheckCode,
    pub(crate) node: Node,
    pub(crate) wrong: Wrong,
    /// The name that the event is about.
    pub(crate) local: Option<Local>,
    /// The object at fault.
    pub(crate) object: Option<ObjectId>,
    /// Where the reference was made, or where the section began.
    pub(crate) made: Option<NodeId>,
    /// The field or variable that the event is about.
    pub(crate) cell: Option<CellPlace>,
}

/// Returns what a fault is about: each reference that a function leaves is one.
pub(crate) fn blames_of(
    alloc: Global,
    trail: &Trail,
    node: Node,
    code: CheckCode,
) -> Result<Vec<Blame>, AllocError> {
    let mut blames = Vec::new(alloc);
    if let (CheckCode::LeftOwned, Event::Lose(local)) = (code, node.event) {
        let object = trail.store.object_of(local);
        blames.push(left(trail, node, object))?;
        return Ok(blames);
    }
    if code == CheckCode::LeftOwned {
        let returned = returned_by(trail, node.event);
        for at in 0..trail.store.objects.len() {
            let id = ObjectId(at);
            if left_by(&trail.store, returned, id) {
                blames.push(left(trail, node, Some(id)))?;
            }
        }
        return Ok(blames);
    }
    if let Some(blame) = of_cell(trail, node, code) {
        blames.push(blame)?;
        return Ok(blames);
    }
    let left = left_cells(alloc, trail, node, code)?;
    if !left.is_empty() {
        return Ok(left);
    }
    blames.push(blame_of(trail, node, code))?;
    Ok(blames)
}

/// A reference that a function leaves.
fn left(trail: &Trail, node: Node, object: Option<ObjectId>) -> Blame {
    Blame {
        code: CheckCode::LeftOwned,
        node,
        wrong: Wrong::Lost,
        local: None,
        object,
        made: made_of(trail, object),
        cell: None,
    }
}

/// Returns the name whose object a function returns.
fn returned_by(trail: &Trail, event: Event) -> Option<Local> {
    match event {
        Event::Return(local) => match trail.store.object_of(local) {
            Some(_) => Some(local),
            None => None,
        },
        _ => None,
    }
}

fn made_of(trail: &Trail, id: Option<ObjectId>) -> Option<NodeId> {
    Some(trail.origin(id?)?.made)
}

fn blame_of(trail: &Trail, node: Node, code: CheckCode) -> Blame {
    match code {
        CheckCode::LeftLocked => Blame {
            code,
            node,
            wrong: Wrong::Open,
            local: None,
            object: None,
            made: trail.sections.last().copied(),
            cell: None,
        },
        CheckCode::NotLocked => unprotected(trail, node),
        CheckCode::RunsOff => Blame {
            code,
            node,
            wrong: Wrong::RunsOff,
            local: None,
            object: None,
            made: None,
            cell: None,
        },
        _ => of_reference(trail, node, code),
    }
}

/// An item is borrowed without protection, or a section or a state of the thread doesn't fit.
fn unprotected(trail: &Trail, node: Node) -> Blame {
    let (wrong, local, made) = match node.event {
        Event::Call {
            gives: Gives::Item(container),
            ..
        } => (Wrong::Unprotected, Some(container), None),
        Event::Unlock => (Wrong::Open, None, None),
        _ => (Wrong::Open, None, trail.detached),
    };
    Blame {
        code: CheckCode::NotLocked,
        node,
        wrong,
        local,
        object: None,
        made,
        cell: None,
    }
}

fn of_reference(trail: &Trail, node: Node, code: CheckCode) -> Blame {
    let local = local_of(node.event);
    let object = match local {
        Some(local) => trail.store.object_of(local),
        None => None,
    };
    let wrong = if code == CheckCode::StillOwns {
        Wrong::Lost
    } else if object.is_some() {
        Wrong::GivenUp
    } else {
        Wrong::Missing
    };
    let made = match (object, local) {
        (None, Some(local)) => trail.failed_call(local),
        _ => made_of(trail, object),
    };
    Blame {
        code,
        node,
        wrong,
        local,
        object,
        made,
        cell: None,
    }
}

/// Returns the name that an event is about.
fn local_of(event: Event) -> Option<Local> {
    match event {
        Event::Copy { to, .. } | Event::Lend { to, .. } => Some(to),
        Event::Call { into, .. } => into,
        Event::Put { from, .. } => from,
        Event::Null(local)
        | Event::Use(local)
        | Event::UseOrNull(local)
        | Event::Take(local)
        | Event::Release(local)
        | Event::Give(local)
        | Event::GiveTo { local, .. }
        | Event::Return(local) => Some(local),
        _ => None,
    }
}

/// Returns what makes faults one finding with this one.
pub(crate) fn key_of(graph: &Graph, blame: &Blame) -> Key {
    let made = match blame.made {
        Some(made) => graph.node(made),
        None => None,
    };
    match made {
        Some(node) => Key {
            made: node.place,
            local: local_of(node.event),
            wrong: blame.wrong,
        },
        None => Key {
            made: own_place(graph, blame),
            local: blame.local,
            wrong: blame.wrong,
        },
    }
}

/// Returns the place of a fault whose reference nothing has made: the head of the function for a name that has nothing.
fn own_place(graph: &Graph, blame: &Blame) -> Place {
    if blame.wrong == Wrong::Missing {
        if let Some(entry) = graph.node(NodeId::ENTRY) {
            return entry.place;
        }
    }
    blame.node.place
}

/// Returns how certain a fault is. `has_lost` says that lines of the function are left out for want of a name.
pub(crate) fn level_of(
    graph: &Graph,
    trail: &Trail,
    rules: Rules,
    has_lost: bool,
    blame: &Blame,
) -> Level {
    if is_possible(graph, trail, has_lost, blame) {
        return Level::Possible;
    }
    if rules == Rules::FreeThreaded {
        return Level::Warning(Reservation::FreeThreaded);
    }
    let Some(id) = blame.object else {
        return Level::Error;
    };
    if trail.store.object(id).singleton.is_some() {
        return Level::Warning(Reservation::BeforeImmortals);
    }
    if blame.cell.is_none() && is_argument(graph, blame) && changes_count(blame) {
        return Level::Warning(Reservation::UnlessMeant);
    }
    if is_ended_by_code(graph, trail, blame, id) {
        return Level::Warning(Reservation::IfCalledCodeDoes);
    }
    Level::Error
}

fn is_possible(graph: &Graph, trail: &Trail, has_lost: bool, blame: &Blame) -> bool {
    match blame.object {
        Some(id) => trail.store.object(id).is_assumed,
        None => {
            blame.wrong == Wrong::Missing
                && (has_lost && is_unset(trail, blame) || is_assumed_call(graph, blame))
        }
    }
}

fn is_unset(trail: &Trail, blame: &Blame) -> bool {
    match blame.local {
        Some(local) => trail.store.value(local) == Value::Unset,
        None => false,
    }
}

/// Returns whether NULL comes from a call of which it is only assumed that it gives an object.
fn is_assumed_call(graph: &Graph, blame: &Blame) -> bool {
    let Some(made) = blame.made else {
        return false;
    };
    let Some(node) = graph.node(made) else {
        return false;
    };
    match node.event {
        Event::Call {
            gives: Gives::New { is_assumed, .. },
            ..
        } => is_assumed,
        _ => false,
    }
}

/// Returns whether the caller has passed the object, by itself or in a tuple of arguments.
fn is_argument(graph: &Graph, blame: &Blame) -> bool {
    let Some(made) = blame.made else {
        return false;
    };
    match graph.node(made) {
        Some(node) => parameter_of(graph, node).is_some() || is_in_argument(graph, node),
        None => false,
    }
}

/// Returns whether the fault is that the count of the object is higher or lower afterwards.
fn changes_count(blame: &Blame) -> bool {
    match blame.code {
        CheckCode::LeftOwned => true,
        CheckCode::NotOwned => matches!(blame.node.event, Event::Release(_)),
        _ => false,
    }
}

/// Returns whether a call that may run other code has ended the object. `PyList_SetItem` itself releases what was
/// there.
fn is_ended_by_code(graph: &Graph, trail: &Trail, blame: &Blame, id: ObjectId) -> bool {
    if blame.code != CheckCode::EmptyUsed {
        return false;
    }
    let Some(origin) = trail.origin(id) else {
        return false;
    };
    let Some(ended) = origin.ended else {
        return false;
    };
    let Some(node) = graph.node(ended) else {
        return false;
    };
    let is_setter = match node.words {
        Some(words) => {
            let name = graph.words(words);
            name == "PyList_SetItem" || name == "PyList_SET_ITEM"
        }
        None => false,
    };
    let is_end = matches!(
        node.event,
        Event::EndItems | Event::HandBack { runs_code: true }
    );
    is_end && !is_setter
}
