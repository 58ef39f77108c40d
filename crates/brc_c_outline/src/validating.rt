//! The check that a function of a module has exactly the paths of an outline. It asks of each point, and of each
//! instruction, alone: it takes no memory, and no path is followed but from one point to the next.

ghost use Rattle.std.specs.Prelude.{◌≡◌, ◌+◌, ◌<◌, ◌≤◌, ℕ, length, slice_get, Some, IsTrue};
ghost use Rattle.brc_model.specs.declared.state.Exit.{Exit};
ghost use Rattle.brc_model.specs.Paths.{At, follow};
ghost use Rattle.brc_c_outline.specs.declared.outline.Point.{Point};
ghost use Rattle.brc_c_outline.specs.declared.walks.Label.{Label};
ghost use Rattle.brc_c_outline.specs.Outlines.{Begins, Breaks, GoesBy, HasWay, IsClosed, IsImage, IsStartOf, IsThat};
ghost use Rattle.brc_c_outline.specs.Outlines.{IsWithin, ReportsBy, ShowsBroken, ShowsPoint, StaysIn};
ghost use Rattle.brc_c_outline.specs.Outlines.{end_of, label_at, point_at};

use crate::outline::{Broken, Outline, Point};
use crate::places::{Place, has_reported, is_at, next, same_state, walk};
use crate::walks::{Label, Trail, Walks};
use brc_check::entry_of;
use brc_lang::{CheckCode, Function};
use brc_model::{Exit, State};

/// Returns whether a place is the first instruction of a point, in its state.
fn is_start_of(point: &Point, place: &Place) -> bool
    ensures { IsTrue result → end_of place.now ≡ At point.now.start point.now.state }
{
    is_at(place, point.start, &point.state)
}

/// Returns whether the module goes from a point to another one by some exits.
fn goes_by(function: &Function, outline: &Outline, point: &Point, to: usize, exits: &[Exit]) -> bool
    ensures { IsTrue result → GoesBy function.now outline.now point.now to exits.now }
{
    match outline.points.as_slice().get(to) {
        Some(next) => {
            let code = function.code.as_slice();
            let place = walk(code, point.start, &point.state, exits);
            is_start_of(next, &place)
        }
        None => false,
    }
}

/// Returns whether the module goes along a way of a point.
fn has_way(
    function: &Function,
    outline: &Outline,
    point: &Point,
    to: usize,
    exits: Option<&Vec<Exit>>,
) -> bool
    ensures { IsTrue result → HasWay function.now outline.now point.now to }
{
    match exits {
        Some(exits) => goes_by(function, outline, point, to, exits.as_slice()),
        None => false,
    }
}

/// Returns whether the module goes along each way of a point.
fn has_ways(function: &Function, outline: &Outline, point: &Point, walks: &[Vec<Exit>]) -> bool
    ensures { IsTrue result → (choice to : ℕ) → slice_get point.now.ways.items choice ≡ Some to
        → HasWay function.now outline.now point.now to }
{
    for (choice, to) in point.ways.iter().enumerate() {
        if !has_way(function, outline, point, *to, walks.get(choice)) {
            return false;
        }
    }
    true
}

/// Returns whether the module goes from a point to the report of what is broken there by some exits.
fn reports_by(function: &Function, point: &Point, broken: Broken, exits: &[Exit]) -> bool
    ensures { IsTrue result → ReportsBy function.now point.now broken exits.now }
{
    let place = walk(function.code.as_slice(), point.start, &point.state, exits);
    has_reported(&place, broken.at, broken.code)
}

/// Returns whether the module reports what is broken at a point, if anything is.
fn shows_broken(function: &Function, point: &Point, exits: &[Exit]) -> bool
    ensures { IsTrue result → ShowsBroken function.now point.now point.now.broken }
{
    match point.broken {
        None => true,
        Some(broken) => reports_by(function, point, broken, exits),
    }
}

fn shows_point(function: &Function, outline: &Outline, point: &Point, walks: Option<&Walks>) -> bool
    ensures { IsTrue result → ShowsPoint function.now outline.now point.now }
{
    match walks {
        Some(walks) => {
            has_ways(function, outline, point, walks.ways.as_slice())
                && shows_broken(function, point, walks.broken.as_slice())
        }
        None => false,
    }
}

fn shows_points(function: &Function, outline: &Outline, walks: &[Walks]) -> bool
    ensures { IsTrue result → (p : ℕ) (point : Point) → point_at outline.now p ≡ Some point
        → ShowsPoint function.now outline.now point }
{
    for (number, point) in outline.points.iter().enumerate() {
        if !shows_point(function, outline, point, walks.get(number)) {
            return false;
        }
    }
    true
}

/// Returns whether a choice leads from one point to another.
fn leads(outline: &Outline, from: usize, to: usize) -> bool
    ensures { IsTrue result → IsWithin outline.now from to }
{
    let Some(point) = outline.points.as_slice().get(from) else {
        return false;
    };
    for next in point.ways.iter() {
        if *next == to {
            return true;
        }
    }
    false
}

fn is_that(broken: Option<Broken>, at: usize, code: CheckCode) -> bool
    ensures { IsTrue result → IsThat broken at code }
{
    match broken {
        Some(broken) => broken.at == at && broken.code == code,
        None => false,
    }
}

/// Returns whether a point breaks this rule, and names this instruction.
pub(crate) fn breaks(outline: &Outline, point: usize, at: usize, code: CheckCode) -> bool
    ensures { IsTrue result → Breaks outline.now point at code }
{
    match outline.points.as_slice().get(point) {
        Some(point) => is_that(point.broken, at, code),
        None => false,
    }
}

/// Returns whether an instruction has this label.
fn is_labelled(labels: &[Option<Label>], at: usize, point: usize, state: &State) -> bool
    ensures { IsTrue result → label_at labels.now at ≡ Some (record { point = point; state = state.now }) }
{
    match labels.get(at) {
        Some(Some(label)) => label.point == point && same_state(&label.state, state),
        _ => false,
    }
}

/// Returns the point to which an instruction belongs.
fn point_of(labels: &[Option<Label>], at: usize) -> Option<usize> {
    match labels.get(at) {
        Some(Some(label)) => Some(label.point),
        _ => None,
    }
}

/// Returns whether a place is within a point, in one of its ways, at the end of the call, or where it reports what is
/// broken at the point.
fn stays_in(outline: &Outline, labels: &[Option<Label>], point: usize, place: &Place) -> bool
    ensures { IsTrue result → StaysIn outline.now labels.now point (end_of place.now) }
{
    match place {
        Place::Ended => true,
        Place::Reports(at, code) => breaks(outline, point, *at, *code),
        Place::At(at, state) => match point_of(labels, *at) {
            Some(next) => {
                is_labelled(labels, *at, next, state)
                    && (next == point || leads(outline, point, next))
            }
            None => false,
        },
    }
}

fn is_closed_by(
    function: &Function,
    outline: &Outline,
    labels: &[Option<Label>],
    at: usize,
    label: &Label,
    exit: Exit,
) -> bool
    ensures { IsTrue result → StaysIn outline.now labels.now label.now.point
        (follow function.now.code (At at label.now.state) exit) }
{
    let place = next(function.code.as_slice(), Place::At(at, label.state), exit);
    stays_in(outline, labels, label.point, &place)
}

fn is_closed_at(function: &Function, outline: &Outline, labels: &[Option<Label>], at: usize) -> bool
    ensures { IsTrue result → IsClosed function.now outline.now labels.now at (label_at labels.now at) }
{
    match labels.get(at) {
        Some(Some(label)) => {
            is_closed_by(function, outline, labels, at, label, Exit::Success)
                && is_closed_by(function, outline, labels, at, label, Exit::Fault)
        }
        _ => true,
    }
}

fn is_closed(function: &Function, outline: &Outline, labels: &[Option<Label>]) -> bool
    ensures { IsTrue result → (at : ℕ)
        → IsClosed function.now outline.now labels.now at (label_at labels.now at) }
{
    for at in 0..labels.len() {
        if !is_closed_at(function, outline, labels, at) {
            return false;
        }
    }
    true
}

fn begins_at(outline: &Outline, entry: &State) -> bool
    ensures { IsTrue result → IsStartOf (point_at outline.now 0) (At 0 entry.now) }
{
    match outline.points.as_slice().get(0) {
        Some(point) => is_start_of(point, &Place::At(0, *entry)),
        None => false,
    }
}

/// Returns whether the first point begins the function.
fn begins(function: &Function, outline: &Outline, labels: &[Option<Label>]) -> bool
    ensures { IsTrue result → Begins function.now outline.now labels.now }
{
    let entry = entry_of(function.parameters.as_slice());
    begins_at(outline, &entry) && is_labelled(labels, 0, 0, &entry)
}

/// Returns whether a function of a module is found to have exactly the paths of an outline, by this trail. Of a refusal
/// nothing is promised.
pub fn is_image(function: &Function, outline: &Outline, trail: &Trail) -> bool
    ensures { IsTrue result → IsImage function.now outline.now }
{
    let labels = trail.labels.as_slice();
    begins(function, outline, labels)
        && shows_points(function, outline, trail.walks.as_slice())
        && is_closed(function, outline, labels)
}
