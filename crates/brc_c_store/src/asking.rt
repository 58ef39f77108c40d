//! What an event asks of a store.

ghost use Rattle.std.specs.Prelude.{◌≡◌};
ghost use Rattle.brc_c_store.specs.Values.{is_private, is_spent};
ghost use Rattle.brc_c_store.specs.Stores.{contents_of};
ghost use Rattle.brc_c_store.specs.Asking.{is_in_section, loses, is_dead, is_unprotected, is_returned, is_left};

use crate::object::{Base, Object};
use crate::rules::Rules;
use crate::store::Store;
use crate::value::{Local, ObjectId, Value};

impl Store {
    /// Returns whether a critical section of the object is open.
    pub(crate) fn is_in_section(&self, id: ObjectId) -> bool
        ensures { result ≡ is_in_section (contents_of self.now) id }
    {
        self.sections.iter().any(|section| section.first == Some(id) || section.second == Some(id))
    }

    /// Returns whether nobody else can change the object: the function has made it, and still owns it.
    pub(crate) fn is_private(&self, object: Object) -> bool
        ensures { result ≡ is_private object }
    {
        object.is_fresh && !object.registers.is_empty()
    }

    /// Returns whether a name loses the last that is known of a reference if another object is assigned to it.
    pub(crate) fn loses(&self, to: Local, new: Option<ObjectId>) -> bool
        ensures { result ≡ loses (contents_of self.now) to new }
    {
        match self.object_of(to) {
            None => false,
            Some(old) => {
                new != Some(old)
                    && !self.object(old).registers.is_empty()
                    && !self.is_named_beside(old, to)
            }
        }
    }

    /// Returns whether the use of a name's object is a use of what may be freed.
    pub(crate) fn is_dead(&self, local: Local) -> bool
        ensures { result ≡ is_dead (contents_of self.now) local }
    {
        match self.value(local) {
            Value::Unset | Value::Null => true,
            Value::Object(id) | Value::Maybe(id) => !self.object(id).is_alive(),
            Value::Number(_) => false,
        }
    }
}

/// Returns whether a container's item would be borrowed outside a critical section of the container, so that another
/// thread may replace it.
pub fn is_unprotected(rules: Rules, store: &Store, container: Local) -> bool
    ensures { result ≡ is_unprotected rules (contents_of store.now) container }
{
    let Some(id) = store.object_of(container) else {
        return false;
    };
    if store.is_private(store.object(id)) {
        return false;
    }
    if !store.is_locked(rules) {
        return true;
    }
    rules == Rules::FreeThreaded && !store.is_in_section(id)
}

/// Returns whether the object's references are left if the function returns what a name has: all but one of what it
/// returns.
pub fn left_by(store: &Store, returned: Option<Local>, id: ObjectId) -> bool
    ensures { result ≡ is_left (contents_of store.now) returned id }
{
    let object = store.object(id);
    match object.registers.last() {
        None => false,
        Some(last) => {
            !is_returned(store, returned, id) || !object.registers.without(last).is_empty()
        }
    }
}

fn is_returned(store: &Store, returned: Option<Local>, id: ObjectId) -> bool
    ensures { result ≡ is_returned (contents_of store.now) returned id }
{
    match returned {
        Some(local) => store.object_of(local) == Some(id),
        None => false,
    }
}

/// Returns whether a reference is given up that isn't there: the object is dead, or what is left is the container's.
pub(crate) fn is_spent(object: Object) -> bool
    ensures { result ≡ is_spent object }
{
    if !object.registers.is_empty() {
        return false;
    }
    match (object.base, object.kept_by) {
        (Base::Gone, _) => true,
        (Base::Part(lender), Some(keeper)) => lender == keeper,
        _ => false,
    }
}
