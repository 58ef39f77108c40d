ghost use Rattle.std.specs.Prelude.{◌≡◌, ◌&&◌, not, false, ◌≤◌, slice_get, vec_len, IfOk, OnOk};
ghost use Rattle.brc_c_store.specs.Stores.{contents_of, empty_contents, value_of, object_of, with_value, is_named};
ghost use Rattle.brc_c_store.specs.Stores.{is_of, is_before, has_value};
ghost use Rattle.brc_c_store.specs.Stores.{is_named_beside, wants, object_at, with_object, next_object, with_added};
ghost use Rattle.brc_c_store.specs.Stores.{with_new, owned_registers, used_registers, free_register, spare_register};
ghost use Rattle.brc_c_store.specs.Stores.{is_locked, has_items, fact_of};
ghost use Rattle.brc_c_store.specs.Values.{is_item};
ghost use Rattle.std.specs.List.{list_any, prefix_len};
ghost use Rattle.std.specs.Option.{option_map_or};

use crate::cell::Touched;
use crate::object::Object;
use crate::register::{Register, RegisterSet};
use crate::rules::Rules;
use crate::value::{Fact, Local, ObjectId, Value};
use std::alloc::{AllocError, Global};

/// A name and its value.
#[derive(Clone, Copy, PartialEq, Eq)]
pub struct Named {
    pub local: Local,
    pub value: Value,
}

/// A critical section that is open, with the objects that it locks.
#[derive(Clone, Copy, PartialEq, Eq)]
pub struct Section {
    pub first: Option<ObjectId>,
    pub second: Option<ObjectId>,
}

/// A condition and what was found for it.
#[derive(Clone, Copy, PartialEq, Eq)]
pub struct KnownFact {
    pub fact: Fact,
    pub holds: bool,
}

/// What is known at a point of a path.
#[derive(Clone, PartialEq, Eq, Drop)]
pub struct Store {
    /// The names that have a value, by their numbers.
    pub values: Vec<Named>,
    pub objects: Vec<Object>,
    /// The cells that were read or set.
    pub cells: Vec<Touched>,
    /// The open critical sections, the innermost last. By the rules of a global lock there are none.
    pub sections: Vec<Section>,
    /// Registers of borrowed items whose objects are forgotten.
    pub stale: RegisterSet,
    /// Whether other threads are allowed to run.
    pub is_detached: bool,
    pub facts: Vec<KnownFact>,
}

impl Store {
    /// Returns the store in which nothing is known.
    pub fn new(alloc: Global) -> Store
        ensures { contents_of result ≡ empty_contents }
    {
        Store {
            values: Vec::new(alloc),
            objects: Vec::new(alloc),
            cells: Vec::new(alloc),
            sections: Vec::new(alloc),
            stale: RegisterSet::EMPTY,
            is_detached: false,
            facts: Vec::new(alloc),
        }
    }

    pub fn value(&self, local: Local) -> Value
        ensures { result ≡ value_of (contents_of self.now) local }
    {
        for named in self.values.iter() {
            if named.local == local {
                return named.value;
            }
        }
        Value::Unset
    }

    /// Returns an object of the store. Of another store's it knows nothing.
    pub fn object(&self, id: ObjectId) -> Object
        ensures { result ≡ object_at (contents_of self.now) id }
    {
        match self.objects.get(id.0) {
            Some(object) => *object,
            None => Object::GONE,
        }
    }

    /// Returns the object that a name has, or may have.
    pub fn object_of(&self, local: Local) -> Option<ObjectId>
        ensures { result ≡ object_of (contents_of self.now) local }
    {
        self.value(local).object()
    }

    #[tactic(auto, using(crate::proofs::NamesSet::replaced, crate::proofs::NamesSet::inserted))]
    pub fn set(&mut self, local: Local, value: Value) -> Result<(), AllocError>
        ensures { OnOk result (contents_of self.new ≡ with_value (contents_of self.old) local value) }
    {
        let place = self.place_for(local);
        let named = Named { local, value };
        if self.has_at(place, local) {
            self.values[place] = named;
        } else {
            self.values.insert(place, named)?;
        }
        Ok(())
    }

    /// Returns the place of a name among those that have a value: how many have a lower number.
    fn place_for(&self, local: Local) -> usize
        ensures place { result ≡ prefix_len (is_before local) self.now.values.items }
        ensures within { result ≤ vec_len self.now.values }
    {
        for (at, named) in self.values.iter().enumerate() {
            if named.local.0 >= local.0 {
                return at;
            }
        }
        self.values.len()
    }

    /// Returns whether the name at a place is this one.
    fn has_at(&self, place: usize, local: Local) -> bool
        ensures { result ≡ option_map_or (is_of local) (slice_get self.now.values.items place) false }
    {
        match self.values.get(place) {
            Some(named) => named.local == local,
            None => false,
        }
    }

    pub fn set_object(&mut self, id: ObjectId, object: Object)
        ensures { contents_of self.new ≡ with_object (contents_of self.old) id object }
    {
        if let Some(found) = self.objects.get_mut(id.0) {
            *found = object;
        }
    }

    pub fn add_object(&mut self, object: Object) -> Result<ObjectId, AllocError>
        ensures id { IfOk result (λ id. id ≡ next_object (contents_of self.old)) }
        ensures added { OnOk result (contents_of self.new ≡ with_added (contents_of self.old) object) }
    {
        let id = ObjectId(self.objects.len());
        self.objects.push(object)?;
        Ok(id)
    }

    /// Gives a name a new object.
    pub fn set_new(&mut self, local: Local, object: Object) -> Result<(), AllocError>
        ensures { OnOk result (contents_of self.new ≡ with_new (contents_of self.old) local object) }
    {
        let id = self.add_object(object)?;
        self.set(local, Value::Object(id))
    }

    /// Returns whether a name other than this one has the object, or a cell that is to get a reference to it.
    pub fn is_named_beside(&self, id: ObjectId, local: Local) -> bool
        ensures { result ≡ is_named_beside (contents_of self.now) id local }
    {
        self.is_named_by_other(id, local) || self.is_wanted(id)
    }

    /// Returns whether a name other than this one has the object.
    fn is_named_by_other(&self, id: ObjectId, local: Local) -> bool
        ensures { result ≡ list_any (λ n. not (is_of local n) && has_value id n) self.now.values.items }
    {
        self.values.iter().any(|named| named.local != local && named.value.object() == Some(id))
    }

    /// Returns whether a name has the object.
    pub fn is_named(&self, id: ObjectId) -> bool
        ensures { result ≡ is_named (contents_of self.now) id }
    {
        self.values
            .iter()
            .any(|named| named.value.object() == Some(id))
    }

    /// Returns whether a cell has the object without a reference of its own.
    fn is_wanted(&self, id: ObjectId) -> bool
        ensures { result ≡ list_any (wants id) self.now.cells.items }
    {
        self.cells.iter().any(|touched| !touched.is_owner && touched.value.object() == Some(id))
    }

    /// Returns the registers that own a reference.
    pub fn owned(&self) -> RegisterSet
        ensures { result ≡ owned_registers (contents_of self.now) }
    {
        let mut owned = RegisterSet::EMPTY;
        for object in self.objects.iter() {
            owned = owned.union(object.registers);
        }
        owned
    }

    /// Returns the registers that aren't empty.
    pub fn used(&self) -> RegisterSet
        ensures { result ≡ used_registers (contents_of self.now) }
    {
        let mut used = self.owned().union(self.stale);
        for object in self.objects.iter() {
            used = object.base.added_to(used);
        }
        used
    }

    /// Returns the register that is taken next: the lowest empty one, as long as another one is empty too.
    pub fn free(&self) -> Option<Register>
        ensures { result ≡ free_register (contents_of self.now) }
    {
        self.used().others().first_of_two()
    }

    /// Returns a register that is empty, and stays so.
    pub fn empty(&self) -> Option<Register>
        ensures { result ≡ spare_register (contents_of self.now) }
    {
        self.used().others().last()
    }

    /// Returns whether the text's lock is locked: the global lock, or that of any section.
    pub fn is_locked(&self, rules: Rules) -> bool
        ensures { result ≡ is_locked rules (contents_of self.now) }
    {
        !self.is_detached && (rules == Rules::GlobalLock || !self.sections.is_empty())
    }

    /// Returns whether an object is an item, or a register has one that is forgotten.
    pub fn has_items(&self) -> bool
        ensures { result ≡ has_items (contents_of self.now) }
    {
        !self.stale.is_empty() || self.has_known_items()
    }

    /// Returns whether an object is an item.
    fn has_known_items(&self) -> bool
        ensures { result ≡ list_any (λ object. is_item object.base) self.now.objects.items }
    {
        self.objects.iter().any(|object| object.base.is_item())
    }

    /// Returns what was found for a condition.
    pub fn fact(&self, fact: Fact) -> Option<bool>
        ensures { result ≡ fact_of (contents_of self.now) fact }
    {
        for known in self.facts.iter() {
            if known.fact == fact {
                return Some(known.holds);
            }
        }
        None
    }
}
