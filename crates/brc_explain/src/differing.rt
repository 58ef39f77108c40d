//! How two states of the variables differ.

ghost use Rattle.std.specs.Prelude.{◌≡◌, ◌≢◌, IsTrue};
ghost use Rattle.brc_explain.specs.Slots.{locked_number, slot_parts};

use brc_check::{Slot, State};
use brc_lang::{Kind, Variable};

/// Returns how the variable's reference is held, as a number, and the kind of its object.
fn slot_parts(slot: Slot) -> (u8, Kind)
    ensures { result ≡ slot_parts slot }
{
    match slot {
        Slot::Empty => (0, Kind::Any),
        Slot::Owned(kind) => (1, kind),
        Slot::Caller(kind) => (2, kind),
        Slot::Locked(kind) => (3, kind),
    }
}

/// Returns whether two states of a variable differ.
pub fn slots_differ(one: Slot, other: Slot) -> bool
    ensures { IsTrue result → one ≢ other }
{
    let (held, kind) = slot_parts(one);
    let (other_held, other_kind) = slot_parts(other);
    held != other_held || kind != other_kind
}

/// Returns the number of the locked variable, counted from 1, or 0.
fn locked_number(locked: Option<Variable>) -> u8
    ensures { result ≡ locked_number locked }
{
    match locked {
        None => 0,
        Some(variable) => variable.number() + 1,
    }
}

/// Returns whether the two states have locked different variables.
pub fn locks_differ(one: &State, other: &State) -> bool
    ensures { IsTrue result → one.now ≢ other.now }
{
    locked_number(one.locked) != locked_number(other.locked)
}

/// Returns whether the two states differ.
pub fn states_differ(one: &State, other: &State) -> bool
    ensures { IsTrue result → one.now ≢ other.now }
{
    for number in 0..Variable::COUNT {
        if slots_differ(one.slots[number], other.slots[number]) {
            return true;
        }
    }
    locks_differ(one, other)
}

/// Returns the first variable in which the two states differ.
pub fn first_differing(one: &State, other: &State) -> Option<Variable> {
    for number in 0..Variable::COUNT {
        if slots_differ(one.slots[number], other.slots[number]) {
            return Some(Variable::new(number as u8));
        }
    }
    None
}
