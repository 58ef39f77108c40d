//! Objects that lend or keep others, and that nothing leads to.

ghost use Rattle.std.specs.Prelude.{◌≡◌};
ghost use Rattle.std.specs.List.{list_any};
ghost use Rattle.brc_c_store.specs.Stores.{contents_of};
ghost use Rattle.brc_c_paths.specs.Lenders.{lender_in, has_lender, is_cell_with, is_out_of_reach, is_lent_by_lost};
ghost use Rattle.brc_c_paths.specs.Lenders.{with_known_as_lent, with_lender_forgotten, with_all_known_as_lent};
ghost use Rattle.brc_c_paths.specs.Lenders.{with_all_lenders_forgotten, with_lenders_forgotten};

use brc_c_store::{Base, Object, ObjectId, Store};

/// An object without a name whose references the function doesn't own can't change any more. Of such a lender or keeper
/// nothing is known but that it is one: what it lends is lent for the whole call.
pub(crate) fn forget_lenders(store: &mut Store)
    ensures { contents_of store.new ≡ with_lenders_forgotten (contents_of store.old) }
{
    if has_lenders(store) {
        know_all_as_lent(store);
        forget_all_lenders(store);
    }
}

/// Returns whether another object lends an object, or keeps it.
fn has_lenders(store: &Store) -> bool
    ensures { result ≡ list_any has_lender store.now.objects.items }
{
    store.objects.iter().any(|object| has_lender(*object))
}

fn has_lender(object: Object) -> bool
    ensures { result ≡ has_lender object }
{
    lender_of(object.base).is_some() || object.kept_by.is_some()
}

/// Returns the object that lends it.
pub(crate) fn lender_of(base: Base) -> Option<ObjectId>
    ensures { result ≡ lender_in base }
{
    match base {
        Base::Part(lender) => Some(lender),
        _ => None,
    }
}

fn know_all_as_lent(store: &mut Store)
    ensures { contents_of store.new ≡ with_all_known_as_lent (contents_of store.old) }
{
    for at in 0..store.objects.len() {
        know_as_lent(store, at);
    }
}

/// Of an object out of reach nothing is known but that it is lent for the whole call.
fn know_as_lent(store: &mut Store, at: usize)
    ensures { contents_of store.new ≡ with_known_as_lent (contents_of store.old) at }
{
    let id = ObjectId(at);
    if is_out_of_reach(store, id) {
        store.set_object(id, Object::LENT);
    }
}

fn forget_all_lenders(store: &mut Store)
    ensures { contents_of store.new ≡ with_all_lenders_forgotten (contents_of store.old) }
{
    for at in 0..store.objects.len() {
        forget_lender(store, at);
    }
}

/// What an object out of reach lends is lent for the whole call.
fn forget_lender(store: &mut Store, at: usize)
    ensures { contents_of store.new ≡ with_lender_forgotten (contents_of store.old) at }
{
    let id = ObjectId(at);
    let object = store.object(id);
    if is_lent_by_lost(store, object) {
        let lent = Object {
            base: Base::Call,
            ..object
        };
        store.set_object(id, lent);
    }
}

/// Returns whether the object is lent by one out of reach, which doesn't keep it.
fn is_lent_by_lost(store: &Store, object: Object) -> bool
    ensures { result ≡ is_lent_by_lost (contents_of store.now) object (lender_in object.base) }
{
    match object.base {
        Base::Part(lender) => is_out_of_reach(store, lender) && object.kept_by != Some(lender),
        _ => false,
    }
}

fn is_out_of_reach(store: &Store, id: ObjectId) -> bool
    ensures { result ≡ is_out_of_reach (contents_of store.now) id }
{
    !store.is_named(id) && store.object(id).registers.is_empty() && !has_cell_with(store, id)
}

/// Returns whether the object is in a cell, or has one.
fn has_cell_with(store: &Store, id: ObjectId) -> bool
    ensures { result ≡ list_any (is_cell_with id) store.now.cells.items }
{
    store.cells.iter().any(|touched| touched.holder == Some(id)
        || touched.value.object() == Some(id))
}
