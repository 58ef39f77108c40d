//! The order of the objects in a normal store.

ghost use Rattle.std.specs.Prelude.{◌≡◌, IfOk, OnOk, Some, length, fold};
ghost use Rattle.std.specs.List.{list_any, range_with_len};
ghost use Rattle.brc_c_store.specs.Values.{same_object};
ghost use Rattle.brc_c_store.specs.Stores.{contents_of};
ghost use Rattle.brc_c_paths.specs.Order.{with_once, with_this_once, with_object_of, with_owned};
ghost use Rattle.brc_c_paths.specs.Order.{with_objects_of_cell, with_sources_of, with_sources_at, order_of};

use crate::lenders::lender_of;
use brc_c_store::{Named, ObjectId, Store, Touched};
use std::alloc::{AllocError, Global};

/// Returns the objects that are kept, in their new order.
pub(crate) fn order_of(alloc: Global, store: &Store) -> Result<Vec<ObjectId>, AllocError>
    ensures { IfOk result (λ order. order.items ≡ order_of (contents_of store.now)) }
{
    let mut order = Vec::with_capacity(alloc, store.objects.len())?;
    add_of_names(&mut order, store.values.as_slice())?;
    add_owned(&mut order, store)?;
    add_of_cells(&mut order, store.cells.as_slice())?;
    add_sources(&mut order, store)?;
    Ok(order)
}

fn add_of_names(order: &mut Vec<ObjectId>, names: &[Named]) -> Result<(), AllocError>
    ensures { OnOk result (order.new.items ≡ fold with_object_of order.old.items names.now) }
{
    for named in names {
        add_this_once(order, named.value.object())?;
    }
    Ok(())
}

/// Adds the objects that the function owns a reference to.
fn add_owned(order: &mut Vec<ObjectId>, store: &Store) -> Result<(), AllocError>
    ensures { OnOk result (order.new.items ≡ fold (with_owned (contents_of store.now)) order.old.items
        (range_with_len 0 (length store.now.objects.items))) }
{
    for at in 0..store.objects.len() {
        add_if_owned(order, store, at)?;
    }
    Ok(())
}

/// Adds the object of this number if the function owns a reference to it.
fn add_if_owned(order: &mut Vec<ObjectId>, store: &Store, at: usize) -> Result<(), AllocError>
    ensures { OnOk result (order.new.items ≡ with_owned (contents_of store.now) order.old.items at) }
{
    let id = ObjectId(at);
    if !store.object(id).registers.is_empty() {
        add_once(order, id)?;
    }
    Ok(())
}

fn add_of_cells(order: &mut Vec<ObjectId>, cells: &[Touched]) -> Result<(), AllocError>
    ensures { OnOk result (order.new.items ≡ fold with_objects_of_cell order.old.items cells.now) }
{
    for touched in cells {
        add_of_cell(order, *touched)?;
    }
    Ok(())
}

/// Adds the object that a cell belongs to, and the one that it has.
fn add_of_cell(order: &mut Vec<ObjectId>, touched: Touched) -> Result<(), AllocError>
    ensures { OnOk result (order.new.items ≡ with_objects_of_cell order.old.items touched) }
{
    add_this_once(order, touched.holder)?;
    add_this_once(order, touched.value.object())
}

/// Adds what lends and keeps the objects of the order, which grows meanwhile.
fn add_sources(order: &mut Vec<ObjectId>, store: &Store) -> Result<(), AllocError>
    ensures { OnOk result (order.new.items ≡ fold (with_sources_at (contents_of store.now)) order.old.items
        (range_with_len 0 (length store.now.objects.items))) }
{
    for turn in 0..store.objects.len() {
        add_sources_at(order, store, turn)?;
    }
    Ok(())
}

/// Adds the objects that lend and keep the one at this place of the order.
fn add_sources_at(order: &mut Vec<ObjectId>, store: &Store, turn: usize) -> Result<(), AllocError>
    ensures { OnOk result (order.new.items ≡ with_sources_at (contents_of store.now) order.old.items turn) }
{
    match order.get(turn).copied() {
        Some(id) => add_sources_of(order, store, id),
        None => Ok(()),
    }
}

fn add_sources_of(order: &mut Vec<ObjectId>, store: &Store, id: ObjectId) -> Result<(), AllocError>
    ensures { OnOk result (order.new.items ≡ with_sources_of (contents_of store.now) order.old.items (Some id)) }
{
    let object = store.object(id);
    add_this_once(order, lender_of(object.base))?;
    add_this_once(order, object.kept_by)
}

fn add_this_once(order: &mut Vec<ObjectId>, id: Option<ObjectId>) -> Result<(), AllocError>
    ensures { OnOk result (order.new.items ≡ with_this_once order.old.items id) }
{
    match id {
        Some(id) => add_once(order, id),
        None => Ok(()),
    }
}

fn add_once(order: &mut Vec<ObjectId>, id: ObjectId) -> Result<(), AllocError>
    ensures { OnOk result (order.new.items ≡ with_once order.old.items id) }
{
    if !has(order.as_slice(), id) {
        order.push(id)?;
    }
    Ok(())
}

/// Returns whether the object is in the order.
fn has(order: &[ObjectId], id: ObjectId) -> bool
    ensures { result ≡ list_any (λ known. same_object known id) order.now }
{
    order.iter().any(|known| *known == id)
}
