//! What a path leaves where the arguments of a function point to.

use crate::entering::is_read;
use crate::records::{Fate, Kind, argument_with, fate_of};
use brc_c_flow::{OutNames, Returned, ReturnedValue, RowFlow};
use brc_c_store::{ObjectId, Store, Value};
use std::alloc::{AllocError, Global};

/// What a path leaves where an argument points to.
#[derive(Clone, Copy, PartialEq, Eq)]
pub(crate) enum OutRecord {
    /// No object, or one that is freed.
    Nothing,
    /// What was there.
    Same,
    New,
    Borrowed,
    /// One of which nothing is known, or that everybody knows by name.
    Unknown,
    /// What was there is elsewhere afterwards: where another argument points to, or it is the result.
    Moved,
}

/// What a path has done where an argument points to.
#[derive(Clone, Copy)]
pub(crate) struct OutState {
    /// What became of the reference that was there.
    pub(crate) before: Fate,
    pub(crate) after: OutRecord,
    /// The argument that is there then, by its number.
    pub(crate) argument: Option<usize>,
    /// Whether NULL is there, or may be, where it wasn't before.
    pub(crate) may_be_null: bool,
}

/// Returns of each of them whether the function reads what is there.
pub(crate) fn outs_read(alloc: Global, flow: &RowFlow) -> Result<Vec<bool>, AllocError> {
    let mut read = Vec::new(alloc);
    for names in flow.outs.iter() {
        read.push(is_read(alloc, &flow.graph, *names)?)?;
    }
    Ok(read)
}

/// Returns what a return leaves. `read` says of each argument whether the function reads what is there.
pub(crate) fn outs_in(
    alloc: Global,
    flow: &RowFlow,
    read: &[bool],
    returned: Returned,
    store: &Store,
) -> Result<Vec<OutState>, AllocError> {
    let mut outs = Vec::new(alloc);
    for (number, names) in flow.outs.iter().enumerate() {
        let last = store.value(names.last);
        let mut after = match last.object() {
            Some(id) if store.object_of(names.first) == Some(id) => OutRecord::Same,
            Some(id) => left_in(
                store,
                id,
                claims_on(flow, read, returned, store, number, id),
            ),
            None => OutRecord::Nothing,
        };
        if is_moved(flow, returned, store, *names) {
            after = OutRecord::Moved;
        }
        let before = fate_of(store.value(names.first));
        let argument = match last.object() {
            Some(id) => argument_with(flow, store, id),
            None => None,
        };
        // An argument that is left there is NULL if the caller passes NULL.
        let is_any = argument.is_some() || after == OutRecord::Same;
        outs.push(OutState {
            before,
            after,
            argument,
            may_be_null: !is_any && is_null(last, before),
        })?;
    }
    Ok(outs)
}

/// Returns whether NULL is there, or may be, where it wasn't before.
fn is_null(last: Value, before: Fate) -> bool {
    match last {
        Value::Null => before != Fate::Null,
        Value::Maybe(_) => true,
        Value::Unset | Value::Object(_) | Value::Number(_) => false,
    }
}

/// Returns whether what was there is elsewhere afterwards.
fn is_moved(flow: &RowFlow, returned: Returned, store: &Store, names: OutNames) -> bool {
    let Some(id) = store.object_of(names.first) else {
        return false;
    };
    if store.object_of(names.last) == Some(id) {
        return false;
    }
    for other in flow.outs.iter() {
        if store.object_of(other.last) == Some(id) {
            return true;
        }
    }
    returned_object(returned, store) == Some(id)
}

fn returned_object(returned: Returned, store: &Store) -> Option<ObjectId> {
    match returned.value {
        ReturnedValue::Object(local) => store.object_of(local),
        _ => None,
    }
}

/// Returns how many references to an object the caller gets otherwise: where arguments before this one point to, and as
/// the result. What the function reads there is rather kept there, and the result borrowed.
fn claims_on(
    flow: &RowFlow,
    read: &[bool],
    returned: Returned,
    store: &Store,
    number: usize,
    id: ObjectId,
) -> usize {
    let mut claims: usize = 0;
    if returned_object(returned, store) == Some(id) && read.get(number) != Some(&true) {
        claims = 1;
    }
    for (at, names) in flow.outs.iter().enumerate() {
        if at < number && store.object_of(names.last) == Some(id) {
            claims = claims.saturating_add(1);
        }
    }
    claims
}

/// Returns whose the object is that a return gives, if it is left where an argument points to, or was there.
pub(crate) fn kind_by_outs(
    flow: &RowFlow,
    read: &[bool],
    returned: Returned,
    store: &Store,
) -> Option<Kind> {
    let id = returned_object(returned, store)?;
    let is_moved = flow.outs.iter().any(|names| {
        store.object_of(names.first) == Some(id) && store.object_of(names.last) != Some(id)
    });
    if is_moved {
        Some(Kind::Unknown)
    } else if is_left(flow, read, store, id) {
        Some(Kind::Lent)
    } else {
        None
    }
}

/// Returns whether an object has no reference but those that are left where arguments point to.
fn is_left(flow: &RowFlow, read: &[bool], store: &Store, id: ObjectId) -> bool {
    let mut left: usize = 0;
    for (names, is_read) in flow.outs.iter().zip(read.iter()) {
        let is_new = store.object_of(names.first) != Some(id);
        if *is_read && is_new && store.object_of(names.last) == Some(id) {
            left = left.saturating_add(1);
        }
    }
    left > 0 && store.object(id).registers.count() <= left
}

/// Returns what an object is that is left where an argument points to.
fn left_in(store: &Store, id: ObjectId, claims: usize) -> OutRecord {
    let object = store.object(id);
    if !object.is_alive() {
        OutRecord::Nothing
    } else if object.singleton.is_some() {
        OutRecord::Unknown
    } else if object.registers.count() > claims {
        OutRecord::New
    } else if object.is_assumed {
        OutRecord::Unknown
    } else {
        OutRecord::Borrowed
    }
}
