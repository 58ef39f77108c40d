//! The cells of a normal store: those that owe something, and those of which something is known that is asked again.

ghost use Rattle.std.specs.Prelude.{◌≡◌, nat_lt, length, IfOk, OnOk};
ghost use Rattle.brc_c_store.specs.Stores.{contents_of};
ghost use Rattle.brc_c_paths.specs.CellsKept.{is_read_by_name, cells_with, is_known_elsewhere, is_fresh_object};
ghost use Rattle.brc_c_paths.specs.CellsKept.{is_maybe, is_cell_asked, is_idle_with, is_idle, is_kept, busy_cells};
ghost use Rattle.brc_c_paths.specs.CellsKept.{with_idle_dropped, with_cells_kept};

use crate::liveness::Liveness;
use crate::near::{is_near, near_objects};
use brc_c_graph::NodeId;
use brc_c_store::{ObjectId, Store, Touched, Value};
use std::alloc::{AllocError, Global};

/// Drops the cells that owe nothing and of which nothing is known that a path from the node asks for. One that goes is
/// no reason any more to keep the next one.
pub(crate) fn drop_cells(
    alloc: Global,
    live: &Liveness,
    node: NodeId,
    store: &mut Store,
) -> Result<(), AllocError>
    ensures { OnOk result (contents_of store.new ≡ with_cells_kept live.now node (contents_of store.old)) }
{
    for _round in 0..store.cells.len() {
        if !drop_idle(alloc, live, node, store)? {
            return Ok(());
        }
    }
    Ok(())
}

/// Drops the cells that are idle beside all others. Returns whether there was one.
fn drop_idle(
    alloc: Global,
    live: &Liveness,
    node: NodeId,
    store: &mut Store,
) -> Result<bool, AllocError>
    ensures dropped { OnOk result (contents_of store.new ≡ with_idle_dropped live.now node (contents_of store.old)) }
    ensures changed { IfOk result (λ is_changed. is_changed
        ≡ nat_lt (length store.new.cells.items) (length store.old.cells.items)) }
{
    let kept = busy_cells(alloc, live, node, store)?;
    let is_changed = kept.len() < store.cells.len();
    store.cells = kept;
    Ok(is_changed)
}

/// Returns the cells that aren't idle beside all others.
fn busy_cells(
    alloc: Global,
    live: &Liveness,
    node: NodeId,
    store: &Store,
) -> Result<Vec<Touched>, AllocError>
    ensures { IfOk result (λ kept. kept.items ≡ busy_cells live.now node (contents_of store.now)) }
{
    let near = near_objects(alloc, live, node, store)?;
    let mut kept = Vec::with_capacity(alloc, store.cells.len())?;
    for touched in store.cells.iter() {
        if is_kept(live, node, store, near.as_slice(), *touched) {
            kept.push(*touched)?;
        }
    }
    Ok(kept)
}

fn is_kept(live: &Liveness, node: NodeId, store: &Store, near: &[bool], touched: Touched) -> bool
    ensures { result ≡ is_kept live.now node (contents_of store.now) near.now touched }
{
    !is_idle(
        live,
        node,
        store,
        touched,
        is_cell_asked(live, node, near, touched),
    )
}

/// Returns whether a path from the node meets the cell's field, and reaches its object.
fn is_cell_asked(live: &Liveness, node: NodeId, near: &[bool], touched: Touched) -> bool
    ensures { result ≡ is_cell_asked live.now node near.now touched }
{
    live.is_met(node, touched.field) && is_near(near, touched)
}

fn is_idle(live: &Liveness, node: NodeId, store: &Store, touched: Touched, is_asked: bool) -> bool
    ensures { result ≡ is_idle live.now node (contents_of store.now) touched is_asked }
{
    !is_fresh_object(store, touched.holder)
        && is_idle_with(live, node, store, touched, is_asked, touched.value.object())
}

/// Returns whether the cell, which has this object, owes nothing as far as its own reference goes.
fn is_idle_with(
    live: &Liveness,
    node: NodeId,
    store: &Store,
    touched: Touched,
    is_asked: bool,
    object: Option<ObjectId>,
) -> bool
    ensures { result ≡ is_idle_with live.now node (contents_of store.now) touched is_asked object }
{
    let Some(id) = object else {
        return !is_asked;
    };
    if touched.is_owner {
        (is_maybe(touched.value) || !is_asked) && !is_known_elsewhere(live, node, store, id)
    } else {
        !is_asked && !touched.owes.alive && !store.object(id).is_alive()
    }
}

/// Returns whether the function has made the object and given it to nobody.
fn is_fresh_object(store: &Store, id: Option<ObjectId>) -> bool
    ensures { result ≡ is_fresh_object (contents_of store.now) id }
{
    match id {
        Some(id) => store.object(id).is_fresh,
        None => false,
    }
}

fn is_maybe(value: Value) -> bool
    ensures { result ≡ is_maybe value }
{
    matches!(value, Value::Maybe(_))
}

/// Returns whether a name that is read again has the object, or another cell, or a register of the function.
fn is_known_elsewhere(live: &Liveness, node: NodeId, store: &Store, id: ObjectId) -> bool
    ensures { result ≡ is_known_elsewhere live.now node (contents_of store.now) id }
{
    is_read_by_name(live, node, store, id)
        || cells_with(store, id) > 1
        || !store.object(id).registers.is_empty()
}

/// Returns whether a name that is read again has the object.
fn is_read_by_name(live: &Liveness, node: NodeId, store: &Store, id: ObjectId) -> bool
    ensures { result ≡ is_read_by_name live.now node (contents_of store.now) id }
{
    store.values.iter().any(|named| named.value.object() == Some(id)
        && live.is_read(node, named.local))
}

/// Returns how many cells have the object.
fn cells_with(store: &Store, id: ObjectId) -> usize
    ensures { result ≡ cells_with (contents_of store.now) id }
{
    store
        .cells
        .iter()
        .filter(|touched| touched.value.object() == Some(id))
        .count()
}
