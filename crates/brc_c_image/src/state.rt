//! The checker's state where paths reach a block.

ghost use Rattle.std.specs.Prelude.{◌≡◌, if◌then◌else◌, Some, None, slice_set};
ghost use Rattle.brc_c_store.specs.Stores.{contents_of};
ghost use Rattle.brc_c_image.specs.States.{filled, filled_from, lent_slots, state_of, state_with};

use crate::block::Held;
use crate::line::{LENT, LOCK, UNLOCKED};
use brc_c_paths::MOST_REGISTERS;
use brc_c_store::{Register, RegisterSet, Rules, Store};
use brc_lang::{Kind, Variable};
use brc_model::{Slot, State};

/// Returns the state in which a function of a text has these references and items, and the lock or not.
pub(crate) fn state_of(held: &Held) -> State
    ensures { result ≡ state_with held.now.owned held.now.items held.now.is_locked }
{
    let items = filled(held.items, Slot::Locked(Kind::Any), lent_slots());
    State {
        slots: filled(held.owned, Slot::Owned(Kind::Any), items),
        locked: locked_if(held.is_locked),
    }
}

/// Returns the state of a store.
pub(crate) fn state_in(rules: Rules, store: &Store) -> State
    ensures { result ≡ state_of rules (contents_of store.now) }
{
    state_of(&Held::of(rules, store))
}

fn locked_if(is_locked: bool) -> Option<Variable>
    ensures { result ≡ (if is_locked then Some 0 else None) }
{
    if is_locked {
        Some(Variable::new(LOCK))
    } else {
        None
    }
}

/// Returns what each call of a text is lent.
fn lent_slots() -> [Slot; 16]
    ensures { result ≡ lent_slots }
{
    let slots = put([Slot::Empty; 16], LOCK, Slot::Caller(Kind::List));
    let slots = put(slots, LENT, Slot::Caller(Kind::Any));
    put(slots, UNLOCKED, Slot::Caller(Kind::List))
}

fn put(slots: [Slot; 16], number: u8, slot: Slot) -> [Slot; 16]
    ensures { result ≡ slice_set slots number slot }
{
    let mut slots = slots;
    let at = usize::from(number);
    if at < 16 {
        slots[at] = slot;
    }
    slots
}

/// Returns the slots in which the registers of a set have this.
fn filled(set: RegisterSet, slot: Slot, slots: [Slot; 16]) -> [Slot; 16]
    ensures { result ≡ filled set slot slots }
{
    filled_from(MOST_REGISTERS, set, slot, slots, set.first())
}

/// Returns the slots in which the registers of a set have this, from one on, if there are no more than a number.
fn filled_from(
    left: usize,
    set: RegisterSet,
    slot: Slot,
    slots: [Slot; 16],
    next: Option<Register>,
) -> [Slot; 16]
    ensures { result ≡ filled_from left set slot slots next }
{
    if left == 0 {
        return slots;
    }
    match next {
        Some(register) => {
            let slots = put(slots, register.number(), slot);
            filled_from(left - 1, set, slot, slots, set.behind(register))
        }
        None => slots,
    }
}
