//! Sets of registers.

ghost use Rattle.std.specs.Prelude.{◌≡◌};
ghost use Rattle.brc_c_store.specs.Stores.{contents_of, with_item};
ghost use Rattle.brc_c_paths.specs.Registers.{difference_of, known_items, items_of};

use brc_c_store::{Base, RegisterSet, Store};

/// How many registers a set can have.
pub const MOST_REGISTERS: usize = 13;

/// Returns the registers of the first set that aren't in the second one.
pub fn difference(set: RegisterSet, others: RegisterSet) -> RegisterSet
    ensures { result ≡ difference_of set others }
{
    if set.is_empty() {
        return RegisterSet::EMPTY;
    }
    set.others().union(others).others()
}

/// Returns the registers that have the borrowed items of known objects.
pub fn known_items(store: &Store) -> RegisterSet
    ensures { result ≡ known_items (contents_of store.now) }
{
    let mut items = RegisterSet::EMPTY;
    for object in store.objects.iter() {
        items = with_item(items, object.base);
    }
    items
}

/// Returns the registers with that of an item.
fn with_item(items: RegisterSet, base: Base) -> RegisterSet
    ensures { result ≡ with_item items base }
{
    match base {
        Base::Item(register) => items.with(register),
        _ => items,
    }
}

/// Returns the registers that have borrowed items.
pub fn items_of(store: &Store) -> RegisterSet
    ensures { result ≡ items_of (contents_of store.now) }
{
    known_items(store).union(store.stale)
}
