//! Cells: what is read of them, stored there, and handed back.

ghost use Rattle.std.specs.Prelude.{◌≡◌, ◌&&◌, not, ◌+◌, Some, IfOk, OnOk, slice_get, take, drop, position};
ghost use Rattle.std.specs.List.{list_any};
ghost use Rattle.brc_c_store.specs.Registers.{last_of};
ghost use Rattle.brc_c_store.specs.Stores.{contents_of, with_added, wants};
ghost use Rattle.brc_c_store.specs.Values.{has_object, is_unset};
ghost use Rattle.brc_c_store.specs.Cells.{holder_of, is_cell, place_of, touched_at, is_held_by_new};
ghost use Rattle.brc_c_store.specs.Cells.{is_held_by_assumed, owns, is_in_cell, is_in_other_cell, is_held_by};
ghost use Rattle.brc_c_store.specs.Cells.{taken_from_cell, field_object, found_in, given_object, given, given_back};
ghost use Rattle.brc_c_store.specs.Cells.{with_given, handed_back, handed_back_at, handed_back_of, without_cells_of};
ghost use Rattle.brc_c_store.specs.Cells.{with_all_handed_back, with_handed_back_of, with_cell, forgotten};
ghost use Rattle.brc_c_store.specs.Cells.{after_code, with_forgotten_at, with_after_code, with_all_forgotten};
ghost use Rattle.brc_c_store.specs.Cells.{is_in_steady, with_field_ended, with_fields_ended, without_cells, takers};
ghost use Rattle.brc_c_store.specs.Cells.{has_reference, left_with, left_in, is_meant, is_left_at, first_left};
ghost use Rattle.brc_c_store.specs.Cells.{handing, has_asked, is_exposed, object_of_this, loses_object, loses_cell};

use crate::cell::{Cell, Field, Touched};
use crate::object::{Base, Object};
use crate::register::Register;
use crate::rules::Rules;
use crate::store::Store;
use crate::value::{Local, ObjectId, Value};
use brc_lang::CheckCode;
use std::alloc::AllocError;

impl Touched {
    /// Returns whether this is the cell of a field and an object.
    fn is_cell(self, field: Field, holder: Option<ObjectId>) -> bool
        ensures { result ≡ is_cell field holder self }
    {
        self.field == field && self.holder == holder
    }

    /// Returns whether the cell has the object.
    fn has(self, id: ObjectId) -> bool
        ensures { result ≡ has_object self.value id }
    {
        self.value.object() == Some(id)
    }

    /// Returns whether the cell has the object without a reference of its own.
    fn wants(self, id: ObjectId) -> bool
        ensures { result ≡ wants id self }
    {
        !self.is_owner && self.has(id)
    }

    /// Returns whether the cell belongs to the object.
    fn is_held_by(self, holder: ObjectId) -> bool
        ensures { result ≡ is_held_by holder self }
    {
        self.holder == Some(holder)
    }

    /// Returns the cell once another function may have set it.
    fn forgotten(self) -> Touched
        ensures { result ≡ forgotten self }
    {
        if self.value == Value::Unset {
            return self;
        }
        Touched {
            value: Value::Unset,
            is_owner: false,
            ..self
        }
    }

    /// Returns whether the cell has a reference of its own to the object.
    fn owns(self, id: ObjectId) -> bool
        ensures { result ≡ owns id self }
    {
        self.is_owner && self.has(id)
    }
}

impl Store {
    /// Returns the place of a cell that was touched.
    pub(crate) fn place_of(&self, cell: Cell) -> Option<usize>
        ensures { result ≡ place_of (contents_of self.now) cell }
    {
        let field = cell.field;
        let holder = self.holder_of(cell);
        self.cells
            .iter()
            .position(|touched| touched.is_cell(field, holder))
    }

    /// Returns what a cell has that was touched.
    pub fn touched(&self, cell: Cell) -> Option<Touched>
        ensures { result ≡ touched_at (contents_of self.now) cell }
    {
        self.cells.get(self.place_of(cell)?).copied()
    }

    pub(crate) fn holder_of(&self, cell: Cell) -> Option<ObjectId>
        ensures { result ≡ holder_of (contents_of self.now) cell }
    {
        self.object_of(cell.holder?)
    }

    /// Returns whether the object that has a cell was made by the function, which has given it to nobody.
    pub(crate) fn is_held_by_new(&self, cell: Cell) -> bool
        ensures { result ≡ is_held_by_new (contents_of self.now) cell }
    {
        match self.holder_of(cell) {
            Some(id) => self.is_private(self.object(id)),
            None => false,
        }
    }

    /// Returns whether something is assumed of the object that has a cell: it may be a new one.
    fn is_held_by_assumed(&self, cell: Cell) -> bool
        ensures { result ≡ is_held_by_assumed (contents_of self.now) cell }
    {
        match self.holder_of(cell) {
            Some(id) => self.object(id).is_assumed,
            None => false,
        }
    }

    /// Returns whether some cell has a reference of its own to the object.
    pub(crate) fn is_in_cell(&self, id: ObjectId) -> bool
        ensures { result ≡ is_in_cell (contents_of self.now) id }
    {
        self.cells.iter().any(|touched| touched.owns(id))
    }

    /// Returns whether a cell other than the one at this place has the object.
    pub(crate) fn is_in_other_cell(&self, id: ObjectId, at: usize) -> bool
        ensures { result ≡ is_in_other_cell (contents_of self.now) id at }
    {
        self.is_in_cell_before(id, at) || self.is_in_cell_after(id, at)
    }

    fn is_in_cell_before(&self, id: ObjectId, at: usize) -> bool
        ensures { result ≡ list_any (λ t. has_object t.value id) (take at self.now.cells.items) }
    {
        self.cells.iter().take(at).any(|touched| touched.has(id))
    }

    fn is_in_cell_after(&self, id: ObjectId, at: usize) -> bool
        ensures { result ≡ list_any (λ t. has_object t.value id) (drop (at + 1) self.now.cells.items) }
    {
        self.cells
            .iter()
            .skip(at)
            .skip(1)
            .any(|touched| touched.has(id))
    }

    /// Takes a reference back from a cell that has one of its own.
    pub(crate) fn take_from_cell(&mut self, id: ObjectId)
        ensures { contents_of self.new ≡ taken_from_cell (contents_of self.old) id }
    {
        if let Some(at) = self.place_of_owner(id) {
            if let Some(touched) = self.cells.get_mut(at) {
                touched.is_owner = false;
            }
        }
    }

    /// Returns the place of the first cell that has a reference of its own to the object.
    fn place_of_owner(&self, id: ObjectId) -> Option<usize>
        ensures { result ≡ position (owns id) self.now.cells.items }
    {
        self.cells.iter().position(|touched| touched.owns(id))
    }

    /// Returns what is found in a cell that wasn't touched before.
    pub(crate) fn found_in(&mut self, cell: Cell) -> Result<Touched, AllocError>
        ensures found { IfOk result (λ found. found ≡ found_in (contents_of self.old) cell) }
        ensures added { OnOk result (contents_of self.new ≡ with_added (contents_of self.old) (field_object cell)) }
    {
        let holder = self.holder_of(cell);
        let id = self.add_object(field_object(cell))?;
        Ok(Touched {
            holder,
            field: cell.field,
            owes: cell.owes,
            value: Value::Maybe(id),
            is_owner: true,
        })
    }

    /// Gives a cell a reference to its value, if the function owns one.
    pub(crate) fn give_to_cell(&mut self, touched: Touched) -> Touched
        ensures cell { result ≡ given (contents_of self.old) touched }
        ensures store { contents_of self.new ≡ with_given (contents_of self.old) touched }
    {
        let Some(id) = touched.value.object() else {
            return touched;
        };
        let object = self.object(id);
        let Some(last) = object.registers.last() else {
            return touched;
        };
        self.set_object(id, given_object(touched, object, last));
        Touched {
            is_owner: true,
            ..touched
        }
    }

    /// Forgets the cell at a place, which gets the reference that it has to have.
    /// Gives a cell the reference that it has to have, and returns what the cell is then.
    fn give_back(&mut self, touched: Touched) -> Touched
        ensures cell { result ≡ given_back (contents_of self.old) touched }
        ensures store { contents_of self.new ≡ handed_back (contents_of self.old) touched }
    {
        if touched.is_owner {
            touched
        } else {
            self.give_to_cell(touched)
        }
    }

    /// Gives the cell at a place the reference that it has to have.
    fn give_back_at(&mut self, at: usize)
        ensures { contents_of self.new
            ≡ handed_back_at (contents_of self.old) (slice_get self.old.cells.items at) }
    {
        if let Some(touched) = self.cells.get(at).copied() {
            self.give_back(touched);
        }
    }

    pub(crate) fn hand_back(&mut self)
        ensures { contents_of self.new ≡ with_all_handed_back (contents_of self.old) }
    {
        for at in 0..self.cells.len() {
            self.give_back_at(at);
        }
        self.cells.clear();
    }

    pub(crate) fn set_cell(&mut self, at: usize, touched: Touched)
        ensures { contents_of self.new ≡ with_cell (contents_of self.old) at touched }
    {
        if let Some(found) = self.cells.get_mut(at) {
            *found = touched;
        }
    }

    /// Another function may set the cell at a place: it gets the reference that it has to have, and then nothing is
    /// known of it.
    pub(crate) fn forget_at(&mut self, at: usize)
        ensures { contents_of self.new ≡ with_forgotten_at (contents_of self.old) at }
    {
        if let Some(touched) = self.cells.get(at).copied() {
            self.give_back(touched);
            self.set_cell(at, touched.forgotten());
        }
    }

    pub(crate) fn forget_cells(&mut self)
        ensures { contents_of self.new ≡ with_all_forgotten (contents_of self.old) }
    {
        for at in 0..self.cells.len() {
            self.run_code_at(at);
        }
    }

    /// The cell at a place gets the reference that it has to have, and then other code runs.
    fn run_code_at(&mut self, at: usize)
        ensures { contents_of self.new ≡ with_after_code (contents_of self.old) at }
    {
        if let Some(touched) = self.cells.get(at).copied() {
            let given = self.give_back(touched);
            self.set_cell(at, after_code(touched, given));
        }
    }

    /// Forgets the cells of an object that is no more.
    pub(crate) fn hand_back_of(&mut self, holder: ObjectId)
        ensures { contents_of self.new ≡ with_handed_back_of (contents_of self.old) holder }
    {
        for at in 0..self.cells.len() {
            self.give_back_of(at, holder);
        }
        self.drop_cells_of(holder);
    }

    /// Gives the cell at a place the reference that it has to have, if it belongs to the object.
    fn give_back_of(&mut self, at: usize, holder: ObjectId)
        ensures { contents_of self.new
            ≡ handed_back_of (contents_of self.old) holder (slice_get self.old.cells.items at) }
    {
        if self.is_cell_of(at, holder) {
            self.give_back_at(at);
        }
    }

    fn drop_cells_of(&mut self, holder: ObjectId)
        ensures { contents_of self.new ≡ without_cells_of (contents_of self.old) holder }
    {
        self.cells.retain(|touched| !touched.is_held_by(holder));
    }

    fn is_cell_of(&self, at: usize, holder: ObjectId) -> bool
        ensures { result ≡ is_meant (Some holder) (slice_get self.now.cells.items at) }
    {
        match self.cells.get(at) {
            Some(touched) => touched.is_held_by(holder),
            None => false,
        }
    }

    /// What is only borrowed from a cell that another function may set isn't alive any more.
    pub(crate) fn end_fields(&mut self)
        ensures { contents_of self.new ≡ with_fields_ended (contents_of self.old) }
    {
        for at in 0..self.objects.len() {
            self.end_field(ObjectId(at));
        }
    }

    fn end_field(&mut self, id: ObjectId)
        ensures { contents_of self.new ≡ with_field_ended (contents_of self.old) id }
    {
        let object = self.object(id);
        if object.base == Base::Field && !self.is_in_steady(id) {
            let gone = Object {
                base: Base::Gone,
                ..object
            };
            self.set_object(id, gone);
        }
    }

    fn is_in_steady(&self, id: ObjectId) -> bool
        ensures { result ≡ is_in_steady (contents_of self.now) id }
    {
        self.cells
            .iter()
            .any(|touched| touched.owes.is_steady && touched.owns(id))
    }

    pub(crate) fn drop_cells(&mut self, field: Field)
        ensures { contents_of self.new ≡ without_cells (contents_of self.old) field }
    {
        self.cells.retain(|touched| touched.field != field);
    }
}

/// Returns what a cell has after other code has run, which was this before, once it had a reference.
fn after_code(touched: Touched, given: Touched) -> Touched
    ensures { result ≡ after_code touched given }
{
    if touched.owes.is_steady && touched.value != Value::Unset {
        given
    } else {
        touched.forgotten()
    }
}

/// Returns the object once a cell has one of the function's references to it: that of the register.
fn given_object(touched: Touched, object: Object, last: Register) -> Object
    requires { last_of object.registers ≡ Some last }
    ensures { result ≡ given_object touched object }
{
    let mut given = object;
    given.registers = object.registers.without(last);
    if object.base == Base::Gone {
        given.base = Base::Field;
    } else {
        given.is_in_field = true;
    }
    // It may be that the cell owns nothing.
    given.is_assumed = object.is_assumed || !touched.owes.owned;
    given
}

/// Returns the object that a cell has that wasn't touched before.
fn field_object(cell: Cell) -> Object
    ensures { result ≡ field_object cell }
{
    Object {
        base: Base::Field,
        is_assumed: cell.owes.is_assumed,
        ..Object::GONE
    }
}

/// Returns the rule that is broken if the cell at this place is handed back after those before it.
pub fn left_in(store: &Store, at: usize) -> Option<CheckCode>
    ensures { result ≡ left_in (contents_of store.now) at }
{
    let touched = store.cells.get(at).copied()?;
    let id = touched.value.object()?;
    let object = store.object(id);
    if has_reference(store, at, touched, id) {
        None
    } else {
        left_with(touched, object)
    }
}

/// Returns whether the cell at a place has a reference to the object, or the function has one for it.
fn has_reference(store: &Store, at: usize, touched: Touched, id: ObjectId) -> bool
    ensures { result ≡ has_reference (contents_of store.now) at touched id }
{
    touched.is_owner || takers(store, at, id) < store.object(id).registers.count()
}

/// Returns the rule that is broken by a cell that is left with the object where the function has no reference for it.
fn left_with(touched: Touched, object: Object) -> Option<CheckCode>
    ensures { result ≡ left_with touched object }
{
    if object.base == Base::Gone && object.registers.is_empty() {
        if touched.owes.alive {
            Some(CheckCode::EmptyUsed)
        } else {
            None
        }
    } else if touched.owes.owned {
        Some(CheckCode::NotOwned)
    } else {
        None
    }
}

/// Returns how many cells before this place take a reference to the object, too.
fn takers(store: &Store, at: usize, id: ObjectId) -> usize
    ensures { result ≡ takers (contents_of store.now) at id }
{
    store
        .cells
        .iter()
        .take(at)
        .filter(|touched| touched.wants(id))
        .count()
}

/// Returns the place of the first cell that is at fault if cells are handed back: all, or those of one object.
#[tactic(auto, using(crate::proofs::Ranges::first_of_numbers))]
fn first_left(store: &Store, holder: Option<ObjectId>) -> Option<usize>
    ensures { result ≡ first_left (contents_of store.now) holder }
{
    for at in 0..store.cells.len() {
        if is_left_at(store, holder, at) {
            return Some(at);
        }
    }
    None
}

/// Returns whether the cell at a place is at fault if cells are handed back: all, or those of one object.
fn is_left_at(store: &Store, holder: Option<ObjectId>, at: usize) -> bool
    ensures { result ≡ is_left_at (contents_of store.now) holder at }
{
    is_meant(store, holder, at) && left_in(store, at).is_some()
}

fn is_meant(store: &Store, holder: Option<ObjectId>, at: usize) -> bool
    ensures { result ≡ is_meant holder (slice_get store.now.cells.items at) }
{
    match holder {
        Some(id) => store.is_cell_of(at, id),
        None => true,
    }
}

/// Returns the rule that is broken if cells are handed back.
pub(crate) fn handing(store: &Store, holder: Option<ObjectId>) -> Option<CheckCode>
    ensures { result ≡ handing (contents_of store.now) holder }
{
    left_in(store, first_left(store, holder)?)
}

/// Returns whether a field is read or set without the protection that it needs. What was read before isn't asked again.
pub(crate) fn is_exposed(rules: Rules, store: &Store, cell: Cell) -> bool
    ensures { result ≡ is_exposed rules (contents_of store.now) cell }
{
    if rules == Rules::GlobalLock || !cell.owes.section || store.is_held_by_new(cell) {
        return false;
    }
    match store.holder_of(cell) {
        Some(id) => !has_asked(store, cell) && !store.is_in_section(id),
        None => false,
    }
}

/// Returns whether the function has read or set a cell itself.
fn has_asked(store: &Store, cell: Cell) -> bool
    ensures { result ≡ has_asked (contents_of store.now) cell }
{
    match store.touched(cell) {
        Some(touched) => touched.value != Value::Unset || !touched.is_owner,
        None => false,
    }
}

/// Returns whether a reference that a cell has is lost where something else is stored there.
pub(crate) fn loses_cell(store: &Store, cell: Cell, from: Option<Local>) -> bool
    ensures { result ≡ loses_cell (contents_of store.now) cell from }
{
    let Some(at) = store.place_of(cell) else {
        return cell.owes.old && !store.is_held_by_new(cell) && !store.is_held_by_assumed(cell);
    };
    let Some(touched) = store.cells.get(at).copied() else {
        return false;
    };
    let Some(old) = touched.value.object() else {
        return false;
    };
    loses_object(store, touched, at, object_of(store, from), old)
}

fn object_of(store: &Store, local: Option<Local>) -> Option<ObjectId>
    ensures { result ≡ object_of_this (contents_of store.now) local }
{
    store.object_of(local?)
}

/// Returns whether a reference to the old object of a cell is lost where a new one is stored there.
fn loses_object(
    store: &Store,
    touched: Touched,
    at: usize,
    new: Option<ObjectId>,
    old: ObjectId,
) -> bool
    ensures { result ≡ loses_object (contents_of store.now) touched at new (Some old) }
{
    let is_owned = touched.is_owner && touched.owes.old || !store.object(old).registers.is_empty();
    is_owned && new != Some(old) && !store.is_named(old) && !store.is_in_other_cell(old, at)
}
