use brc_c_paths::{difference, ends_items, items_of, known_items};
use brc_c_store::{Event, Register, RegisterSet, Rules, Store};

/// What an event changes in the text's state.
#[derive(Clone, Copy)]
pub(crate) struct Changes {
    /// The registers whose references are given up.
    pub(crate) dropped: RegisterSet,
    /// A register that gets a reference.
    pub(crate) owned: Option<Register>,
    /// A register that gets a borrowed item.
    pub(crate) item: Option<Register>,
    pub(crate) unlocks: bool,
    pub(crate) locks: bool,
}

impl Changes {
    pub(crate) const NONE: Changes = Changes {
        dropped: RegisterSet::EMPTY,
        owned: None,
        item: None,
        unlocks: false,
        locks: false,
    };

    /// Returns what an event changes, by the stores before and after it.
    pub(crate) fn between(rules: Rules, event: Event, before: &Store, after: &Store) -> Changes {
        let was_locked = before.is_locked(rules);
        let is_locked = after.is_locked(rules);
        // What is borrowed ends where the lock is unlocked.
        let is_suspended = was_locked && is_locked && ends_items(event) && before.has_items();
        Changes {
            dropped: difference(before.owned(), after.owned()),
            owned: difference(after.owned(), before.owned()).first(),
            item: difference(known_items(after), items_of(before)).first(),
            unlocks: (was_locked && !is_locked) || (is_suspended && !after.has_items()),
            locks: (!was_locked && is_locked) || (is_suspended && !after.has_items()),
        }
    }
}
