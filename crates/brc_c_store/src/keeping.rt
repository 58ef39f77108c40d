//! Where a store goes on after a cell is read or set.

ghost use Rattle.std.specs.Prelude.{◌≡◌, if◌then◌else◌, None, Some, IfOk, OnOk, option_map};
ghost use Rattle.brc_c_store.specs.Values.{object_in};
ghost use Rattle.brc_c_store.specs.Stores.{contents_of, free_register};
ghost use Rattle.brc_c_store.specs.Cells.{touched_at, found_in};
ghost use Rattle.brc_c_store.specs.Questions.{outcome_of};
ghost use Rattle.brc_c_store.specs.Giving.{out_of_field, taken_for_object};
ghost use Rattle.brc_c_store.specs.After.{known_in, with_found, with_found_read, with_cell_in, cell_read};
ghost use Rattle.brc_c_store.specs.After.{untouched, cell_forgotten};
ghost use Rattle.brc_c_store.specs.After.{value_from, put_there, owned_from_cell, object_taken_out, taken_out};
ghost use Rattle.brc_c_store.specs.After.{without_old, known_outside, stored, or_too_many, freed};
ghost use Rattle.brc_c_store.specs.After.{put as after_put};

use crate::cell::{Cell, Touched};
use crate::following::Next;
use crate::object::{Base, Object};
use crate::register::Register;
use crate::store::Store;
use crate::value::{Local, ObjectId, Value};
use std::alloc::AllocError;

pub(crate) fn read(next: &mut Store, cell: Cell, to: Local) -> Result<(), AllocError>
    ensures { OnOk result (contents_of next.new ≡ cell_read (contents_of next.old) cell to) }
{
    match known_in(next.touched(cell)) {
        Some(value) => next.set(to, value),
        None => read_found(next, cell, to),
    }
}

/// Returns what is known of a cell's value.
fn known_in(touched: Option<Touched>) -> Option<Value>
    ensures { result ≡ known_in touched }
{
    match touched {
        Some(touched) if touched.value != Value::Unset => Some(touched.value),
        _ => None,
    }
}

/// Reads a cell of which nothing is known.
fn read_found(next: &mut Store, cell: Cell, to: Local) -> Result<(), AllocError>
    ensures { OnOk result (contents_of next.new ≡ with_found_read (contents_of next.old) cell to) }
{
    let found = find(next, cell)?;
    next.set(to, found.value)
}

fn find(next: &mut Store, cell: Cell) -> Result<Touched, AllocError>
    ensures found { IfOk result (λ found. found ≡ found_in (contents_of next.old) cell) }
    ensures store { OnOk result (contents_of next.new ≡ with_found (contents_of next.old) cell) }
{
    let place = next.place_of(cell);
    let found = next.found_in(cell)?;
    set_or_push(next, place, found)?;
    Ok(found)
}

/// Sets the cell at a place, or adds one if there is no place.
fn set_or_push(next: &mut Store, place: Option<usize>, touched: Touched) -> Result<(), AllocError>
    ensures { OnOk result (contents_of next.new ≡ with_cell_in (contents_of next.old) place touched) }
{
    match place {
        Some(at) => next.set_cell(at, touched),
        None => next.cells.push(touched)?,
    }
    Ok(())
}

/// Another function may set a cell.
pub(crate) fn forget_cell(next: &mut Store, cell: Cell) -> Result<(), AllocError>
    ensures { OnOk result (contents_of next.new ≡ cell_forgotten (contents_of next.old) cell) }
{
    match next.place_of(cell) {
        Some(at) => next.forget_at(at),
        None => {
            let untouched = untouched(next, cell);
            next.cells.push(untouched)?;
        }
    }
    Ok(())
}

/// Returns a cell that the function hasn't touched, and another one may set.
fn untouched(next: &Store, cell: Cell) -> Touched
    ensures { result ≡ untouched (contents_of next.now) cell }
{
    Touched {
        holder: next.holder_of(cell),
        field: cell.field,
        owes: cell.owes,
        value: Value::Unset,
        is_owner: true,
    }
}

/// Stores a value in a cell, which gets the function's reference to it, if there is one. The reference that the cell
/// had is the function's from there on.
pub(crate) fn put(next: Store, cell: Cell, from: Option<Local>) -> Result<Next, AllocError>
    ensures { IfOk result (λ after. outcome_of after ≡ or_too_many (after_put (contents_of next) cell from)) }
{
    let mut next = next;
    let fresh = put_there(&next, cell, from);
    let place = next.place_of(cell);
    if take_out_at(&mut next, place) {
        store_in(&mut next, fresh)?;
        Ok(Next::Store(next))
    } else {
        Ok(Next::TooMany)
    }
}

/// Returns the cell once the value is stored there.
fn put_there(next: &Store, cell: Cell, from: Option<Local>) -> Touched
    ensures { result ≡ put_there (contents_of next.now) cell (value_from (contents_of next.now) from) }
{
    Touched {
        holder: next.holder_of(cell),
        field: cell.field,
        owes: cell.owes,
        value: value_from(next, from),
        is_owner: false,
    }
}

fn value_from(next: &Store, from: Option<Local>) -> Value
    ensures { result ≡ value_from (contents_of next.now) from }
{
    match from {
        Some(local) => next.value(local),
        None => Value::Null,
    }
}

/// Adds a cell, which gets the function's reference to its value, if there is one.
fn store_in(next: &mut Store, fresh: Touched) -> Result<(), AllocError>
    ensures { OnOk result (contents_of next.new ≡ stored (contents_of next.old) fresh) }
{
    make_known(next, fresh.value.object());
    let given = next.give_to_cell(fresh);
    next.cells.push(given)?;
    Ok(())
}

/// What is in a cell isn't the function's alone any more.
fn make_known(next: &mut Store, object: Option<ObjectId>)
    ensures { contents_of next.new ≡ known_outside (contents_of next.old) object }
{
    if let Some(id) = object {
        let known = Object {
            is_fresh: false,
            ..next.object(id)
        };
        next.set_object(id, known);
    }
}

/// Forgets the cell at a place: the function owns the reference that it had. Returns whether there is a register for
/// it.
fn take_out_at(next: &mut Store, place: Option<usize>) -> bool
    ensures { (if result then Some (contents_of next.new) else None) ≡ without_old (contents_of next.old) place }
{
    let Some(at) = place else {
        return true;
    };
    let Some(old) = next.cells.get(at).copied() else {
        return true;
    };
    next.cells.remove(at);
    take_out(next, old)
}

/// The function owns the reference that a cell had. Returns whether there is a register for it.
fn take_out(next: &mut Store, old: Touched) -> bool
    ensures { (if result then Some (contents_of next.new) else None) ≡ taken_out (contents_of next.old) old }
{
    if old.is_owner && old.owes.old {
        take_object_out(next, old.value.object())
    } else {
        true
    }
}

fn take_object_out(next: &mut Store, object: Option<ObjectId>) -> bool
    ensures { (if result then Some (contents_of next.new) else None)
        ≡ object_taken_out (contents_of next.old) object }
{
    let Some(id) = object else {
        return true;
    };
    let Some(register) = next.free() else {
        return false;
    };
    // Nobody has asked whether it is NULL: if it is, nothing is given up.
    next.take_for_object(id);
    own_from_cell(next, id, register);
    true
}

/// The function owns a reference that a cell had.
fn own_from_cell(next: &mut Store, id: ObjectId, register: Register)
    ensures { contents_of next.new ≡ owned_from_cell (contents_of next.old) id register }
{
    let object = next.object(id);
    let taken = Object {
        registers: object.registers.with(register),
        ..out_of_field(next, id, object)
    };
    next.set_object(id, taken);
}

/// Returns an object that a field has no longer: it isn't lent any more, unless another cell has it.
fn out_of_field(next: &Store, id: ObjectId, object: Object) -> Object
    ensures { result ≡ out_of_field (contents_of next.now) id object }
{
    let mut taken = object;
    taken.is_in_field = false;
    if object.base == Base::Field && !next.is_in_cell(id) {
        taken.base = Base::Gone;
    }
    taken
}

/// The memory of an object is given back: what its fields own is nobody's.
pub(crate) fn free_cells(next: &mut Store, local: Local)
    ensures { contents_of next.new ≡ freed (contents_of next.old) local }
{
    if let Some(id) = next.object_of(local) {
        next.hand_back_of(id);
    }
}
