//! How a store changes where a reference is given up, and where what is borrowed ends.

ghost use Rattle.std.specs.Prelude.{◌≡◌, map};
ghost use Rattle.brc_c_store.specs.Stores.{contents_of, object_of, object_at};
ghost use Rattle.brc_c_store.specs.Giving.{is_maybe, named_for, touched_for, touched_for_null};
ghost use Rattle.brc_c_store.specs.Giving.{refined, taken_for_object, taken_for_null};
ghost use Rattle.brc_c_store.specs.Giving.{base_without, keeper_without, without_lender, with_parts_ended};
ghost use Rattle.brc_c_store.specs.Giving.{out_of_field, with_taken_back, less_one, with_ended, with_less, given_up};
ghost use Rattle.brc_c_store.specs.Giving.{base_in, object_in_container, given_to};
ghost use Rattle.brc_c_store.specs.Giving.{keeper_of, kept, without_item, with_items_ended};

use crate::cell::Touched;
use crate::object::{Base, Object};
use crate::register::RegisterSet;
use crate::store::{Named, Store};
use crate::value::{Local, ObjectId, Value};

/// Returns whether the value is this object or NULL, and nobody has asked yet which.
fn is_maybe(id: ObjectId, value: Value) -> bool
    ensures { result ≡ is_maybe id value }
{
    match value {
        Value::Maybe(other) => other == id,
        _ => false,
    }
}

/// Gives a name that may be the object, or NULL, what was found.
fn take_name_for(named: &mut Named, id: ObjectId, found: Value)
    ensures { named.new ≡ named_for found id named.old }
{
    if is_maybe(id, named.value) {
        named.value = found;
    }
}

fn take_names_for(names: &mut [Named], id: ObjectId, found: Value)
    ensures { names.new ≡ map (named_for found id) names.old }
{
    for named in names.iter_mut() {
        take_name_for(named, id, found);
    }
}

/// Gives a cell that may have the object, or NULL, what was found.
fn take_cell_for(touched: &mut Touched, id: ObjectId, found: Value)
    ensures { touched.new ≡ touched_for found id touched.old }
{
    if is_maybe(id, touched.value) {
        touched.value = found;
    }
}

fn take_cells_for(cells: &mut [Touched], id: ObjectId, found: Value)
    ensures { cells.new ≡ map (touched_for found id) cells.old }
{
    for touched in cells.iter_mut() {
        take_cell_for(touched, id, found);
    }
}

/// Takes a cell that may have the object, or NULL, for one that has NULL, and no reference.
fn take_cell_for_null(touched: &mut Touched, id: ObjectId)
    ensures { touched.new ≡ touched_for_null id touched.old }
{
    if is_maybe(id, touched.value) {
        touched.value = Value::Null;
        touched.is_owner = false;
    }
}

fn take_cells_for_null(cells: &mut [Touched], id: ObjectId)
    ensures { cells.new ≡ map (touched_for_null id) cells.old }
{
    for touched in cells.iter_mut() {
        take_cell_for_null(touched, id);
    }
}

/// Ends what a lender lends of an object, or keeps of it.
fn end_part(object: &mut Object, lender: ObjectId)
    ensures { object.new ≡ without_lender lender object.old }
{
    end_base(&mut object.base, lender);
    end_keeper(&mut object.kept_by, lender);
}

fn end_base(base: &mut Base, lender: ObjectId)
    ensures { base.new ≡ base_without lender base.old }
{
    if *base == Base::Part(lender) {
        *base = Base::Gone;
    }
}

fn end_keeper(keeper: &mut Option<ObjectId>, lender: ObjectId)
    ensures { keeper.new ≡ keeper_without lender keeper.old }
{
    if *keeper == Some(lender) {
        *keeper = None;
    }
}

fn end_parts_in(objects: &mut [Object], lender: ObjectId)
    ensures { objects.new ≡ map (without_lender lender) objects.old }
{
    for object in objects.iter_mut() {
        end_part(object, lender);
    }
}

/// What is borrowed as an item isn't alive any more.
fn end_item(object: &mut Object)
    ensures { object.new ≡ without_item object.old }
{
    if object.base.is_item() {
        object.base = Base::Gone;
    }
}

fn end_items_in(objects: &mut [Object])
    ensures { objects.new ≡ map without_item objects.old }
{
    for object in objects.iter_mut() {
        end_item(object);
    }
}

/// Returns an object's keeper once a container has made a reference of its own to it. One doesn't keep itself.
fn keeper_of(container: Option<ObjectId>, id: ObjectId, old: Option<ObjectId>) -> Option<ObjectId>
    ensures { result ≡ keeper_of container id old }
{
    match container {
        Some(keeper) if keeper != id => container,
        _ => old,
    }
}

impl Store {
    /// Takes a name's object for one, where it might be NULL.
    pub(crate) fn refine(&mut self, local: Local)
        ensures { contents_of self.new ≡ refined (contents_of self.old) local }
    {
        if let Value::Maybe(id) = self.value(local) {
            self.take_for_object(id);
        }
    }

    /// Takes what may be NULL for an object.
    pub(crate) fn take_for_object(&mut self, id: ObjectId)
        ensures { contents_of self.new ≡ taken_for_object (contents_of self.old) id }
    {
        take_names_for(&mut self.values, id, Value::Object(id));
        take_cells_for(&mut self.cells, id, Value::Object(id));
    }

    /// Takes a name that may be NULL for NULL. There is no such object then.
    pub(crate) fn take_for_null(&mut self, id: ObjectId)
        ensures { contents_of self.new ≡ taken_for_null (contents_of self.old) id }
    {
        take_names_for(&mut self.values, id, Value::Null);
        take_cells_for_null(&mut self.cells, id);
        self.set_object(id, Object::GONE);
    }

    /// Gives one reference of the object up.
    pub(crate) fn give_up(&mut self, id: ObjectId)
        ensures { contents_of self.new ≡ given_up (contents_of self.old) id }
    {
        let object = self.take_back(id);
        self.set_less(id, object);
    }

    /// Takes one of the object's references from the function, or else from a cell. Returns the object without it.
    fn take_back(&mut self, id: ObjectId) -> Object
        ensures store { contents_of self.new ≡ with_taken_back (contents_of self.old) id }
        ensures object { result ≡ less_one (contents_of self.new) id (object_at (contents_of self.old) id) }
    {
        let mut object = self.object(id);
        match object.registers.last() {
            Some(last) => {
                object.registers = object.registers.without(last);
                object
            }
            None => {
                self.take_from_cell(id);
                self.out_of_field(id, object)
            }
        }
    }

    /// Returns an object that a field has no longer. It isn't lent any more, unless another cell has it.
    fn out_of_field(&self, id: ObjectId, object: Object) -> Object
        ensures { result ≡ out_of_field (contents_of self.now) id object }
    {
        let base = if object.base == Base::Field && !self.is_in_cell(id) {
            Base::Gone
        } else {
            object.base
        };
        Object {
            base,
            is_in_field: false,
            ..object
        }
    }

    /// Sets an object that has a reference less.
    fn set_less(&mut self, id: ObjectId, object: Object)
        ensures { contents_of self.new ≡ with_less (contents_of self.old) id object }
    {
        if object.is_alive() {
            self.set_object(id, object);
        } else {
            self.end(id, object);
        }
    }

    /// Ends an object that the function has no longer: it is its keeper's, or dies.
    fn end(&mut self, id: ObjectId, object: Object)
        ensures { contents_of self.new ≡ with_ended (contents_of self.old) id object object.kept_by }
    {
        match object.kept_by {
            Some(keeper) => self.set_object(
                id,
                Object {
                    base: Base::Part(keeper),
                    ..object
                },
            ),
            None => {
                self.set_object(id, object);
                self.end_parts(id);
                self.hand_back_of(id);
            }
        }
    }

    /// The function's last reference to an object is gone: what it lends, and what it keeps, ends.
    fn end_parts(&mut self, lender: ObjectId)
        ensures { contents_of self.new ≡ with_parts_ended (contents_of self.old) lender }
    {
        end_parts_in(&mut self.objects, lender);
    }

    /// The object was given to a container, which lends it.
    pub(crate) fn give_to(&mut self, id: ObjectId, container: Local)
        ensures { contents_of self.new ≡ given_to (contents_of self.old) id container }
    {
        let object = self.in_container(container, self.object(id));
        self.set_object(id, object);
    }

    /// Returns an object that was given to a container.
    fn in_container(&self, container: Local, object: Object) -> Object
        ensures { let c = contents_of self.now in result ≡ object_in_container c (object_of c container) object }
    {
        if object.is_alive() {
            Object {
                is_fresh: false,
                ..object
            }
        } else {
            Object {
                base: self.base_in(self.object_of(container)),
                is_fresh: false,
                ..object
            }
        }
    }

    /// Returns what lends an object that was given to a container.
    fn base_in(&self, container: Option<ObjectId>) -> Base
        ensures { result ≡ base_in (contents_of self.now) container }
    {
        match container {
            Some(keeper) if !self.object(keeper).registers.is_empty() => Base::Part(keeper),
            _ => Base::Call,
        }
    }

    /// A container makes a reference of its own to the object.
    pub(crate) fn keep(&mut self, id: ObjectId, container: Option<ObjectId>)
        ensures { contents_of self.new ≡ kept (contents_of self.old) id container }
    {
        let object = self.object(id);
        self.set_object(
            id,
            Object {
                is_fresh: false,
                kept_by: keeper_of(container, id, object.kept_by),
                ..object
            },
        );
    }

    /// What is borrowed as an item isn't alive any more.
    pub(crate) fn end_items(&mut self)
        ensures { contents_of self.new ≡ with_items_ended (contents_of self.old) }
    {
        end_items_in(&mut self.objects);
        self.stale = RegisterSet::EMPTY;
    }
}
