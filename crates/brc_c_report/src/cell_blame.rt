//! Faults of fields, and of variables that are there after the call, too.

use crate::blame::Blame;
use crate::finding::Wrong;
use crate::trail::Trail;
use brc_c_graph::{Node, NodeId};
use brc_c_store::{Cell, Event, Field, Local, ObjectId, Store, left_in};
use brc_lang::CheckCode;
use std::alloc::{AllocError, Global};

/// A cell at the end of a path.
#[derive(Clone, Copy)]
pub(crate) struct Place {
    pub(crate) holder: Option<ObjectId>,
    pub(crate) field: Field,
}

/// Returns the faults of cells that an event hands back, each once, or none if the event is at fault in another way.
pub(crate) fn left_cells(
    alloc: Global,
    trail: &Trail,
    node: Node,
    code: CheckCode,
) -> Result<Vec<Blame>, AllocError> {
    let mut blames = Vec::new(alloc);
    let Some(holder) = handed_by(&trail.store, node.event) else {
        return Ok(blames);
    };
    for (at, touched) in trail.store.cells.iter().enumerate() {
        let is_meant = holder.is_none() || touched.holder == holder;
        if is_meant && left_in(&trail.store, at) == Some(code) {
            let object = touched.value.object();
            blames.push(Blame {
                code,
                node,
                wrong: Wrong::GivenUp,
                local: None,
                object,
                made: made_of(trail, object),
                cell: Some(Place {
                    holder: touched.holder,
                    field: touched.field,
                }),
            })?;
        }
    }
    Ok(blames)
}

/// Returns whose cells an event hands back: those of all, or of an object that dies.
fn handed_by(store: &Store, event: Event) -> Option<Option<ObjectId>> {
    match event {
        Event::HandBack { .. } | Event::ForgetCell(_) => Some(None),
        Event::Release(local) | Event::Give(local) | Event::GiveTo { local, .. } => {
            let id = store.object_of(local)?;
            if store.object(id).registers.is_empty() {
                None
            } else {
                Some(Some(id))
            }
        }
        _ => None,
    }
}

fn made_of(trail: &Trail, object: Option<ObjectId>) -> Option<NodeId> {
    Some(trail.origin(object?)?.made)
}

/// Returns what is wrong where a cell is read or set, if that is at fault.
pub(crate) fn of_cell(trail: &Trail, node: Node, code: CheckCode) -> Option<Blame> {
    let cell = match node.event {
        Event::Read { cell, .. } => cell,
        Event::Put { cell, .. } if code != CheckCode::EmptyUsed => cell,
        _ => return None,
    };
    let lost = if code == CheckCode::StillOwns {
        value_in(&trail.store, cell)
    } else {
        None
    };
    Some(Blame {
        code,
        node,
        wrong: if code == CheckCode::StillOwns {
            Wrong::Lost
        } else {
            Wrong::Unprotected
        },
        local: cell.holder,
        object: lost,
        made: made_of(trail, lost),
        cell: Some(Place {
            holder: holder_of(trail, cell.holder),
            field: cell.field,
        }),
    })
}

fn holder_of(trail: &Trail, holder: Option<Local>) -> Option<ObjectId> {
    trail.store.object_of(holder?)
}

fn value_in(store: &Store, cell: Cell) -> Option<ObjectId> {
    store.touched(cell)?.value.object()
}
