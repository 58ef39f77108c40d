//! A store whose objects get new numbers.

ghost use Rattle.std.specs.Prelude.{◌≡◌, IfOk, OnOk, map, position};
ghost use Rattle.brc_c_store.specs.Values.{same_object};
ghost use Rattle.brc_c_store.specs.Stores.{contents_of, object_at};
ghost use Rattle.brc_c_paths.specs.Numbers.{new_number, number_in, numbered_base, numbered_object, numbered_value};
ghost use Rattle.brc_c_paths.specs.Numbers.{numbered_name, numbered_cell, numbered_section, renumbered};

use crate::sorting::sort_cells;
use brc_c_store::{Base, Named, Object, ObjectId, Section, Store, Touched, Value};
use std::alloc::{AllocError, Global};

pub(crate) fn renumber(
    alloc: Global,
    store: &mut Store,
    order: &[ObjectId],
) -> Result<(), AllocError>
    ensures { OnOk result (contents_of store.new ≡ renumbered (contents_of store.old) order.now) }
{
    let objects = objects_in(alloc, store, order)?;
    store.objects = objects;
    number_names(store.values.as_mut_slice(), order);
    number_cells(store.cells.as_mut_slice(), order);
    number_sections(store.sections.as_mut_slice(), order);
    sort_cells(alloc, store)
}

/// Returns the objects in their new order.
#[tactic(auto, using(std::proofs::lemmas::List::map_more))]
fn objects_in(alloc: Global, store: &Store, order: &[ObjectId]) -> Result<Vec<Object>, AllocError>
    ensures { IfOk result (λ objects. objects.items
        ≡ map (λ id. numbered_object order.now (object_at (contents_of store.now) id)) order.now) }
{
    let mut objects = Vec::with_capacity(alloc, order.len())?;
    for id in order {
        objects.push(with_numbers(order, store.object(*id)))?;
    }
    Ok(objects)
}

fn number_names(names: &mut [Named], order: &[ObjectId])
    ensures { names.new ≡ map (numbered_name order.now) names.old }
{
    for named in names.iter_mut() {
        number_name(named, order);
    }
}

fn number_name(named: &mut Named, order: &[ObjectId])
    ensures { named.new ≡ numbered_name order.now named.old }
{
    named.value = value_with_number(order, named.value);
}

fn number_cells(cells: &mut [Touched], order: &[ObjectId])
    ensures { cells.new ≡ map (numbered_cell order.now) cells.old }
{
    for touched in cells.iter_mut() {
        number_cell(touched, order);
    }
}

fn number_cell(touched: &mut Touched, order: &[ObjectId])
    ensures { touched.new ≡ numbered_cell order.now touched.old }
{
    touched.holder = number_in(order, touched.holder);
    touched.value = value_with_number(order, touched.value);
}

fn number_sections(sections: &mut [Section], order: &[ObjectId])
    ensures { sections.new ≡ map (numbered_section order.now) sections.old }
{
    for section in sections.iter_mut() {
        number_section(section, order);
    }
}

fn number_section(section: &mut Section, order: &[ObjectId])
    ensures { section.new ≡ numbered_section order.now section.old }
{
    section.first = number_in(order, section.first);
    section.second = number_in(order, section.second);
}

/// Returns an object's new number.
fn new_number(order: &[ObjectId], id: ObjectId) -> Option<ObjectId>
    ensures { result ≡ new_number order.now id }
{
    match place_in(order, id) {
        Some(at) => Some(ObjectId(at)),
        None => None,
    }
}

fn place_in(order: &[ObjectId], id: ObjectId) -> Option<usize>
    ensures { result ≡ position (λ known. same_object known id) order.now }
{
    order.iter().position(|known| *known == id)
}

fn number_in(order: &[ObjectId], id: Option<ObjectId>) -> Option<ObjectId>
    ensures { result ≡ number_in order.now id }
{
    new_number(order, id?)
}

fn with_numbers(order: &[ObjectId], object: Object) -> Object
    ensures { result ≡ numbered_object order.now object }
{
    Object {
        base: base_with_number(order, object.base),
        kept_by: number_in(order, object.kept_by),
        ..object
    }
}

fn base_with_number(order: &[ObjectId], base: Base) -> Base
    ensures { result ≡ numbered_base order.now base }
{
    match base {
        Base::Part(lender) => match new_number(order, lender) {
            Some(lender) => Base::Part(lender),
            None => Base::Call,
        },
        _ => base,
    }
}

fn value_with_number(order: &[ObjectId], value: Value) -> Value
    ensures { result ≡ numbered_value order.now value }
{
    match value {
        Value::Object(id) => match new_number(order, id) {
            Some(id) => Value::Object(id),
            None => Value::Unset,
        },
        Value::Maybe(id) => match new_number(order, id) {
            Some(id) => Value::Maybe(id),
            None => Value::Unset,
        },
        _ => value,
    }
}
