//! Where a walk along a module is.

ghost use Rattle.std.specs.Prelude.{◌≡◌, IsTrue};
ghost use Rattle.std.specs.List.{fold};
ghost use Rattle.brc_model.specs.Paths.{At, Reports, follow};
ghost use Rattle.brc_c_outline.specs.Outlines.{end_of};

use brc_check::{Step, follow};
use brc_lang::{CheckCode, Instr, Variable};
use brc_model::{Exit, Slot, State};

/// Where a walk is: at an instruction in a state, at the end of the call, or at one that has reported a code.
#[derive(Clone, Copy)]
pub enum Place {
    At(usize, State),
    Ended,
    Reports(usize, CheckCode),
}

/// Returns the place after one exit.
pub fn next(code: &[Instr], place: Place, exit: Exit) -> Place
    ensures { end_of result ≡ follow code.now (end_of place) exit }
{
    let Place::At(at, state) = place else {
        return place;
    };
    if at >= code.len() {
        return Place::Reports(at, CheckCode::RunsOff);
    }
    match follow(code, at, &state, exit) {
        Step::To(next, state) => Place::At(next, state),
        Step::Ends => Place::Ended,
        Step::Error(reported) => Place::Reports(at, reported),
    }
}

/// Returns the place after some exits, one after another.
pub fn walk(code: &[Instr], start: usize, state: &State, exits: &[Exit]) -> Place
    ensures { end_of result ≡ fold (follow code.now) (At start state.now) exits.now }
{
    let mut place = Place::At(start, *state);
    for exit in exits {
        place = next(code, place, *exit);
    }
    place
}

fn same_slot(one: Slot, other: Slot) -> bool
    ensures { IsTrue result → one ≡ other }
{
    match (one, other) {
        (Slot::Empty, Slot::Empty) => true,
        (Slot::Owned(one), Slot::Owned(other))
        | (Slot::Caller(one), Slot::Caller(other))
        | (Slot::Locked(one), Slot::Locked(other)) => one == other,
        _ => false,
    }
}

fn same_slots(one: &[Slot; 16], other: &[Slot; 16]) -> bool
    ensures { IsTrue result → one.now ≡ other.now }
{
    for number in 0..16 {
        if !same_slot(one[number], other[number]) {
            return false;
        }
    }
    true
}

fn same_locked(one: Option<Variable>, other: Option<Variable>) -> bool
    ensures { IsTrue result → one ≡ other }
{
    match (one, other) {
        (None, None) => true,
        (Some(one), Some(other)) => one.number() == other.number(),
        (None, Some(_)) | (Some(_), None) => false,
    }
}

/// Returns whether two states are equal.
pub fn same_state(one: &State, other: &State) -> bool
    ensures { IsTrue result → one.now ≡ other.now }
{
    same_slots(&one.slots, &other.slots) && same_locked(one.locked, other.locked)
}

/// Returns whether a walk is at an instruction in a state.
pub fn is_at(place: &Place, at: usize, state: &State) -> bool
    ensures { IsTrue result → end_of place.now ≡ At at state.now }
{
    match place {
        Place::At(found, other) => *found == at && same_state(other, state),
        Place::Ended | Place::Reports(_, _) => false,
    }
}

/// Returns whether a walk has ended with the report of a code at an instruction.
pub fn has_reported(place: &Place, at: usize, code: CheckCode) -> bool
    ensures { IsTrue result → end_of place.now ≡ Reports at code }
{
    match place {
        Place::Reports(found, reported) => *found == at && *reported == code,
        Place::At(_, _) | Place::Ended => false,
    }
}
