//! References that the caller lends, and that a function gives up all the same.

use brc_c_graph::Graph;
use brc_c_store::{Base, Event, Object, ObjectId, RegisterSet, Store};
use brc_lang::CheckCode;
use std::alloc::AllocError;

/// Returns the store in which the function owns the caller's reference, if an event gives it up and the graph asks for
/// a name of its object where paths end. These names forget the object, and so show that the reference is given up.
pub(crate) fn take_lent(
    graph: &Graph,
    event: Event,
    code: CheckCode,
    store: &Store,
) -> Result<Option<Store>, AllocError> {
    let local = match event {
        Event::Release(local) | Event::Give(local) | Event::GiveTo { local, .. } => local,
        _ => return Ok(None),
    };
    if code != CheckCode::NotOwned || graph.kept().is_empty() {
        return Ok(None);
    }
    match store.object_of(local) {
        Some(id) => take(graph, store, id),
        None => Ok(None),
    }
}

/// Returns whether an event gives up once more what the function has given up.
pub(crate) fn gives_again(event: Event, code: CheckCode, store: &Store) -> bool {
    let local = match event {
        Event::Release(local) | Event::Give(local) | Event::GiveTo { local, .. } => local,
        _ => return false,
    };
    code == CheckCode::EmptyUsed && store.object_of(local).is_some()
}

fn take(graph: &Graph, store: &Store, id: ObjectId) -> Result<Option<Store>, AllocError> {
    let object = store.object(id);
    if object.base != Base::Call || !is_asked_for(graph, store, id) {
        return Ok(None);
    }
    let Some(register) = store.free() else {
        return Ok(None);
    };
    let mut taken = store.clone()?;
    taken.set_object(
        id,
        Object {
            registers: RegisterSet::EMPTY.with(register),
            base: Base::Gone,
            ..object
        },
    );
    for (_, local) in graph.kept() {
        let kept = *local;
        taken.values.retain(|named| named.local != kept || named.value.object() != Some(id));
    }
    Ok(Some(taken))
}

fn is_asked_for(graph: &Graph, store: &Store, id: ObjectId) -> bool {
    graph
        .kept()
        .iter()
        .any(|(_, local)| store.object_of(*local) == Some(id))
}
