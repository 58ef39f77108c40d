//! States: the first one, and their comparison.

ghost use Rattle.std.specs.Prelude.{◌≡◌, ◌↔◌, IsTrue};
ghost use Rattle.brc_model.specs.SlotStates.{entry_of, parameter_var};

use brc_lang::{Kind, Parameter, Passing, Variable};
use brc_model::{Slot, State};

/// Returns what a parameter's variable has at first: a reference that the caller lends, or one that the function owns.
fn parameter_var(parameter: Parameter) -> Slot
    ensures { result ≡ parameter_var parameter }
{
    match parameter.passing {
        Passing::Borrow => Slot::Caller(parameter.kind),
        Passing::Steal => Slot::Owned(parameter.kind),
    }
}

/// Returns the state in which a function of these parameters begins: v0 is the caller's list, the parameters are the
/// variables from v1 on, and the other variables are empty.
pub fn entry_of(parameters: &[Parameter]) -> State
    ensures { result ≡ entry_of parameters.now }
{
    let mut slots = [Slot::Empty; 16];
    slots[0] = Slot::Caller(Kind::List);
    for number in 0..Variable::COUNT - 1 {
        if number < parameters.len() {
            slots[number + 1] = parameter_var(parameters[number]);
        }
    }
    State {
        slots,
        locked: None,
    }
}

fn same_slots(one: &[Slot; 16], other: &[Slot; 16]) -> bool
    ensures { IsTrue result ↔ (one.now ≡ other.now) }
{
    one == other
}

fn same_locked(one: Option<Variable>, other: Option<Variable>) -> bool
    ensures { IsTrue result ↔ (one ≡ other) }
{
    match (one, other) {
        (None, None) => true,
        (Some(one), Some(other)) => one.number() == other.number(),
        (None, Some(_)) | (Some(_), None) => false,
    }
}

/// Returns whether two states are equal.
pub fn same_state(one: &State, other: &State) -> bool
    ensures { IsTrue result ↔ (one.now ≡ other.now) }
{
    same_slots(&one.slots, &other.slots) && same_locked(one.locked, other.locked)
}
