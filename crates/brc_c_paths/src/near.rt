//! Which objects the code after a node can reach.

ghost use Rattle.std.specs.Prelude.{◌≡◌, false, replicate, IfOk, OnOk};
ghost use Rattle.brc_c_store.specs.Stores.{contents_of};
ghost use Rattle.brc_c_paths.specs.CellsKept.{marked, with_named_marked, named_objects, is_near};
ghost use Rattle.brc_c_paths.specs.CellsKept.{with_cell_marked, with_fields_marked, near_objects};

use crate::liveness::Liveness;
use brc_c_graph::NodeId;
use brc_c_store::{Named, ObjectId, Store, Touched};
use std::alloc::{AllocError, Global};

/// Returns for each object whether the code after the node can reach it from a live name through few enough fields: a
/// path is taken to read three at most, one after another. What is known of the others is forgotten, since a linked
/// list has no end.
pub(crate) fn near_objects(
    alloc: Global,
    live: &Liveness,
    node: NodeId,
    store: &Store,
) -> Result<Vec<bool>, AllocError>
    ensures { IfOk result (λ near. near.items ≡ near_objects live.now node (contents_of store.now)) }
{
    let mut near = named_objects(alloc, live, node, store)?;
    mark_fields(store, &mut near)?;
    mark_fields(store, &mut near)?;
    mark_fields(store, &mut near)?;
    Ok(near)
}

/// Returns the objects that live names have.
fn named_objects(
    alloc: Global,
    live: &Liveness,
    node: NodeId,
    store: &Store,
) -> Result<Vec<bool>, AllocError>
    ensures { IfOk result (λ near. near.items ≡ named_objects live.now node (contents_of store.now)) }
{
    let mut near = no_objects(alloc, store.objects.len())?;
    for named in store.values.iter() {
        mark_named(live, node, &mut near, *named);
    }
    Ok(near)
}

fn no_objects(alloc: Global, count: usize) -> Result<Vec<bool>, AllocError>
    ensures { IfOk result (λ near. near.items ≡ replicate count false) }
{
    let mut near = Vec::with_capacity(alloc, count)?;
    for _at in 0..count {
        near.push(false)?;
    }
    Ok(near)
}

fn mark_named(live: &Liveness, node: NodeId, near: &mut Vec<bool>, named: Named)
    ensures { near.new.items ≡ with_named_marked live.now node near.old.items named }
{
    if live.is_read(node, named.local) {
        mark(near, named.value.object());
    }
}

/// Marks what the cells of near objects and the variables have.
fn mark_fields(store: &Store, near: &mut Vec<bool>) -> Result<(), AllocError>
    ensures { OnOk result (near.new.items ≡ with_fields_marked (contents_of store.now) near.old.items) }
{
    let before = near.clone()?;
    for touched in store.cells.iter() {
        mark_cell(before.as_slice(), near, *touched);
    }
    Ok(())
}

fn mark_cell(before: &[bool], near: &mut Vec<bool>, touched: Touched)
    ensures { near.new.items ≡ with_cell_marked before.now near.old.items touched }
{
    if is_near(before, touched) {
        mark(near, touched.value.object());
    }
}

fn mark(near: &mut Vec<bool>, id: Option<ObjectId>)
    ensures { near.new.items ≡ marked near.old.items id }
{
    if let Some(id) = id {
        if let Some(found) = near.get_mut(id.0) {
            *found = true;
        }
    }
}

/// Returns whether a cell is a variable, or that of an object to which a path comes.
pub(crate) fn is_near(near: &[bool], touched: Touched) -> bool
    ensures { result ≡ is_near near.now touched }
{
    match touched.holder {
        Some(id) => near.get(id.0).copied().unwrap_or(false),
        None => true,
    }
}
