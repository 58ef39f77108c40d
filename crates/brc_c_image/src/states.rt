//! The check that paths are at each point of an outline in the state of their store.

ghost use Rattle.std.specs.Prelude.{◌≡◌, ℕ, IsTrue, Some};
ghost use Rattle.brc_c_outline.specs.Outlines.{point_at};
ghost use Rattle.brc_c_image.specs.GraphOutlines.{HasStateAt, HasStateOf, IsInState, place_of};

use crate::state::state_in;
use brc_c_outline::Outline;
use brc_c_paths::Point;
use brc_c_store::Rules;
use brc_lang::Variable;
use brc_model::{Slot, State};

/// Returns whether each point of the search for which the outline has one has that one's state.
pub(crate) fn have_states(
    rules: Rules,
    found: &[Point],
    outline: &Outline,
    places: &[Option<usize>],
) -> bool
    ensures { IsTrue result → (n u : ℕ) → place_of places.now n ≡ Some u
        → HasStateAt rules found.now outline.now n (Some u) }
{
    for (number, place) in places.iter().enumerate() {
        if !has_state_at(rules, found, outline, number, *place) {
            return false;
        }
    }
    true
}

fn has_state_at(
    rules: Rules,
    found: &[Point],
    outline: &Outline,
    number: usize,
    place: Option<usize>,
) -> bool
    ensures { IsTrue result → HasStateAt rules found.now outline.now number place }
{
    let Some(place) = place else {
        return true;
    };
    match found.get(number) {
        Some(point) => has_state_of(rules, outline, place, point),
        None => false,
    }
}

/// Returns whether the outline's point has the state of this one of the search.
fn has_state_of(rules: Rules, outline: &Outline, place: usize, point: &Point) -> bool
    ensures { IsTrue result → HasStateOf rules outline.now place (Some point.now) }
{
    let state = state_in(rules, &point.store);
    is_in_state(outline, place, &state)
}

fn is_in_state(outline: &Outline, place: usize, state: &State) -> bool
    ensures { IsTrue result → IsInState state.now (point_at outline.now place) }
{
    match outline.points.as_slice().get(place) {
        Some(point) => same_state(&point.state, state),
        None => false,
    }
}

fn same_state(one: &State, other: &State) -> bool
    ensures { IsTrue result → one.now ≡ other.now }
{
    same_slots(&one.slots, &other.slots) && same_locked(one.locked, other.locked)
}

fn same_slots(one: &[Slot; 16], other: &[Slot; 16]) -> bool
    ensures { IsTrue result → one.now ≡ other.now }
{
    for number in 0..16 {
        if !same_slot(one[number], other[number]) {
            return false;
        }
    }
    true
}

fn same_slot(one: Slot, other: Slot) -> bool
    ensures { IsTrue result → one ≡ other }
{
    match (one, other) {
        (Slot::Empty, Slot::Empty) => true,
        (Slot::Owned(one), Slot::Owned(other))
        | (Slot::Caller(one), Slot::Caller(other))
        | (Slot::Locked(one), Slot::Locked(other)) => one == other,
        _ => false,
    }
}

fn same_locked(one: Option<Variable>, other: Option<Variable>) -> bool
    ensures { IsTrue result → one ≡ other }
{
    match (one, other) {
        (None, None) => true,
        (Some(one), Some(other)) => one.number() == other.number(),
        (None, Some(_)) | (Some(_), None) => false,
    }
}
