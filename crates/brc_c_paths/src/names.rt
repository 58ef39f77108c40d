//! The names of a normal store: those that are read again, and the last one of each reference that the function owns.

ghost use Rattle.std.specs.Prelude.{◌≡◌, Some, IfOk, OnOk, find, filter};
ghost use Rattle.brc_c_store.specs.Stores.{contents_of, has_value};
ghost use Rattle.brc_c_paths.specs.CellsKept.{is_read_by_name};
ghost use Rattle.brc_c_paths.specs.NamesKept.{has_name, first_of_source, first_name, keeper, keeps_reference};
ghost use Rattle.brc_c_paths.specs.NamesKept.{is_last_name, is_name_kept, with_names_kept};

use crate::liveness::Liveness;
use brc_c_graph::{Graph, NodeId};
use brc_c_store::{Local, Named, ObjectId, Store, Value};
use std::alloc::{AllocError, Global};

pub(crate) fn drop_names(
    alloc: Global,
    graph: &Graph,
    live: &Liveness,
    node: NodeId,
    store: &mut Store,
) -> Result<(), AllocError>
    ensures { OnOk result (contents_of store.new ≡ with_names_kept graph.now live.now node (contents_of store.old)) }
{
    let kept = names_kept(alloc, graph, live, node, store)?;
    store.values = kept;
    Ok(())
}

/// Returns the names that are kept.
#[tactic(auto, using(std::proofs::lemmas::List::Elements::filter_more))]
fn names_kept(
    alloc: Global,
    graph: &Graph,
    live: &Liveness,
    node: NodeId,
    store: &Store,
) -> Result<Vec<Named>, AllocError>
    ensures { IfOk result (λ kept. kept.items
        ≡ filter (is_name_kept graph.now live.now node (contents_of store.now)) store.now.values.items) }
{
    let mut kept = Vec::with_capacity(alloc, store.values.len())?;
    for named in store.values.iter() {
        if is_kept(graph, live, node, store, *named) {
            kept.push(*named)?;
        }
    }
    Ok(kept)
}

fn is_kept(graph: &Graph, live: &Liveness, node: NodeId, store: &Store, named: Named) -> bool
    ensures { result ≡ is_name_kept graph.now live.now node (contents_of store.now) named }
{
    named.value != Value::Unset
        && (live.is_read(node, named.local) || is_last(graph, live, node, store, named))
}

/// Returns whether the function loses a reference if it forgets this name, which isn't read again.
fn is_last(graph: &Graph, live: &Liveness, node: NodeId, store: &Store, named: Named) -> bool
    ensures { result ≡ is_last_name graph.now live.now node (contents_of store.now) named }
{
    match named.value.object() {
        Some(id) => keeps_reference(graph, live, node, store, named.local, id),
        None => false,
    }
}

/// Returns whether the function owns a reference to the object, and this is the name that is kept of it.
fn keeps_reference(
    graph: &Graph,
    live: &Liveness,
    node: NodeId,
    store: &Store,
    local: Local,
    id: ObjectId,
) -> bool
    ensures { result ≡ keeps_reference graph.now live.now node (contents_of store.now) local (Some id) }
{
    !store.object(id).registers.is_empty() && keeper(graph, live, node, store, id) == Some(local)
}

/// Returns the name that is kept of an object if none of its names is read again: one that the source has, if it can
/// be.
fn keeper(
    graph: &Graph,
    live: &Liveness,
    node: NodeId,
    store: &Store,
    id: ObjectId,
) -> Option<Local>
    ensures { result ≡ keeper graph.now live.now node (contents_of store.now) id }
{
    if is_object_read(live, node, store, id) {
        return None;
    }
    match first_name(graph, store, id) {
        Some(named) => Some(named.local),
        None => None,
    }
}

/// Returns whether a name of the object is read again.
fn is_object_read(live: &Liveness, node: NodeId, store: &Store, id: ObjectId) -> bool
    ensures { result ≡ is_read_by_name live.now node (contents_of store.now) id }
{
    store.values.iter().any(|named| named.value.object() == Some(id)
        && live.is_read(node, named.local))
}

/// Returns the object's first name: one that the source has, if it can be.
fn first_name(graph: &Graph, store: &Store, id: ObjectId) -> Option<Named>
    ensures { result ≡ first_name graph.now (contents_of store.now) id }
{
    match first_of_source(graph, store, id) {
        Some(named) => Some(named),
        None => first_of_all(store, id),
    }
}

/// Returns the object's first name.
fn first_of_all(store: &Store, id: ObjectId) -> Option<Named>
    ensures { result ≡ find (has_value id) store.now.values.items }
{
    for named in store.values.iter() {
        if named.value.object() == Some(id) {
            return Some(*named);
        }
    }
    None
}

/// Returns the object's first name that the source has.
fn first_of_source(graph: &Graph, store: &Store, id: ObjectId) -> Option<Named>
    ensures { result ≡ first_of_source graph.now (contents_of store.now) id }
{
    for named in store.values.iter() {
        if named.value.object() == Some(id) && has_name(graph, named.local) {
            return Some(*named);
        }
    }
    None
}

fn has_name(graph: &Graph, local: Local) -> bool
    ensures { result ≡ has_name graph.now local }
{
    match graph.local(local) {
        Some(known) => known.name.is_some(),
        None => false,
    }
}
