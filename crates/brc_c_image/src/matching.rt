//! The check that an outline is that of a graph. It asks of each point alone, by numbers: the search's points and their
//! ways are checked before.

ghost use Rattle.std.specs.Prelude.{◌≡◌, ◌⊎◌, ℕ, IfOk, IsTrue, Some, None, Contains};
ghost use Rattle.brc_c_store.specs.declared.event.Choice.{Choice};
ghost use Rattle.brc_c_outline.specs.declared.outline.Point.{Point as OutlinePoint};
ghost use Rattle.brc_c_outline.specs.Outlines.{point_at};
ghost use Rattle.brc_c_image.specs.GraphOutlines.{IsOutlineOf, HoldsAs, PointHolds, IsBrokenAs, IsGraphWay, GoesOn};
ghost use Rattle.brc_c_image.specs.GraphOutlines.{GoesAlong, GivesUp, GivesUpIn, Begins, IsPlace, Passes, PassesTo};
ghost use Rattle.brc_c_image.specs.GraphOutlines.{code_of_point, label_of, place_of};

use crate::labels::Labels;
use crate::leading::{code_of_point, leads_to, number_at};
use crate::states::have_states;
use brc_c_graph::Graph;
use brc_c_outline::{Broken, Outline, Point as OutlinePoint};
use brc_c_paths::Point;
use brc_c_store::{Choice, Rules};
use brc_lang::CheckCode;
use std::alloc::AllocError;

/// Returns whether an outline is that of a graph, by the points of a search. A whole one has all its paths.
pub(crate) fn is_outline(
    rules: Rules,
    graph: &Graph,
    found: &[Point],
    outline: &Outline,
    labels: &Labels,
    is_whole: bool,
) -> Result<bool, AllocError>
    ensures { IfOk result (λ yes. IsTrue yes → IsOutlineOf rules graph.now found.now outline.now is_whole) }
{
    is_outline_by(
        rules,
        graph,
        found,
        outline,
        labels.points.as_slice(),
        labels.places.as_slice(),
        is_whole,
    )
}

fn is_outline_by(
    rules: Rules,
    graph: &Graph,
    found: &[Point],
    outline: &Outline,
    labels: &[Option<usize>],
    places: &[Option<usize>],
    is_whole: bool,
) -> Result<bool, AllocError>
    ensures { IfOk result (λ yes. IsTrue yes → IsOutlineOf rules graph.now found.now outline.now is_whole) }
{
    if !begins_if(is_whole, outline, places) {
        return Ok(false);
    }
    if !have_states(rules, found, outline, places) {
        return Ok(false);
    }
    if !are_places(rules, graph, found, labels, places)? {
        return Ok(false);
    }
    are_points(rules, graph, found, outline, labels, places, is_whole)
}

fn begins_if(is_whole: bool, outline: &Outline, places: &[Option<usize>]) -> bool
    ensures { IsTrue result → IsTrue is_whole → Begins outline.now places.now }
{
    !is_whole || begins(outline, places)
}

/// Returns whether the outline's first point is the one where paths begin, or leads there.
fn begins(outline: &Outline, places: &[Option<usize>]) -> bool
    ensures { IsTrue result → Begins outline.now places.now }
{
    match outline.points.as_slice().get(0) {
        Some(point) => goes_along(places, point, 0, Some(0)),
        None => false,
    }
}

// ---- the points of the search

fn are_places(
    rules: Rules,
    graph: &Graph,
    found: &[Point],
    labels: &[Option<usize>],
    places: &[Option<usize>],
) -> Result<bool, AllocError>
    ensures { IfOk result (λ yes. IsTrue yes → (n u : ℕ) → place_of places.now n ≡ Some u
        → IsPlace rules graph.now found.now labels.now places.now n (Some u)) }
{
    for (number, place) in places.iter().enumerate() {
        if !is_place(rules, graph, found, labels, places, number, *place)? {
            return Ok(false);
        }
    }
    Ok(true)
}

/// Returns whether a point of the search is a point of the outline, or paths pass to it.
fn is_place(
    rules: Rules,
    graph: &Graph,
    found: &[Point],
    labels: &[Option<usize>],
    places: &[Option<usize>],
    number: usize,
    place: Option<usize>,
) -> Result<bool, AllocError>
    ensures { IfOk result (λ yes. IsTrue yes
        → IsPlace rules graph.now found.now labels.now places.now number place) }
{
    let Some(place) = place else {
        return Ok(true);
    };
    if number_at(labels, place) == Some(number) {
        return Ok(true);
    }
    passes(rules, graph, found, places, number, place)
}

/// Returns whether a point breaks no rule, and all its ways lead to where paths are there.
fn passes(
    rules: Rules,
    graph: &Graph,
    found: &[Point],
    places: &[Option<usize>],
    number: usize,
    place: usize,
) -> Result<bool, AllocError>
    ensures { IfOk result (λ yes. IsTrue yes → Passes rules graph.now found.now places.now number place) }
{
    if code_of_point(rules, graph, found, number)?.is_some() {
        return Ok(false);
    }
    Ok(
        pass_by_way(places, place, leads_to(found, number, Choice::Yes))
            && pass_by_way(places, place, leads_to(found, number, Choice::No))
            && pass_by_way(places, place, leads_to(found, number, Choice::Missing)),
    )
}

fn pass_by_way(places: &[Option<usize>], place: usize, to: Option<usize>) -> bool
    ensures { IsTrue result → PassesTo places.now place to }
{
    match to {
        Some(to) => number_at(places, to) == Some(place),
        None => true,
    }
}

// ---- the points of the outline

fn are_points(
    rules: Rules,
    graph: &Graph,
    found: &[Point],
    outline: &Outline,
    labels: &[Option<usize>],
    places: &[Option<usize>],
    is_whole: bool,
) -> Result<bool, AllocError>
    ensures { IfOk result (λ yes. IsTrue yes → (u : ℕ) (point : OutlinePoint) → point_at outline.now u ≡ Some point
        → HoldsAs rules graph.now found.now outline.now places.now is_whole u point (label_of labels.now u)) }
{
    for (number, point) in outline.points.iter().enumerate() {
        let label = number_at(labels, number);
        if !is_point(
            rules, graph, found, outline, places, label, number, point, is_whole,
        )? {
            return Ok(false);
        }
    }
    Ok(true)
}

/// Returns whether a point of the outline is the point of the search that it is said to be, if it is said to be one.
fn is_point(
    rules: Rules,
    graph: &Graph,
    found: &[Point],
    outline: &Outline,
    places: &[Option<usize>],
    label: Option<usize>,
    number: usize,
    point: &OutlinePoint,
    is_whole: bool,
) -> Result<bool, AllocError>
    ensures { IfOk result (λ yes. IsTrue yes
        → HoldsAs rules graph.now found.now outline.now places.now is_whole number point.now label) }
{
    match label {
        Some(label) => holds(
            rules, graph, found, outline, places, label, number, point, is_whole,
        ),
        None => Ok(point.broken.is_none()),
    }
}

/// Returns whether a point of the outline is this point of the search, and goes on in each of its ways if it has to.
fn holds(
    rules: Rules,
    graph: &Graph,
    found: &[Point],
    outline: &Outline,
    places: &[Option<usize>],
    label: usize,
    number: usize,
    point: &OutlinePoint,
    is_whole: bool,
) -> Result<bool, AllocError>
    ensures { IfOk result (λ yes. IsTrue yes
        → PointHolds rules graph.now found.now outline.now places.now is_whole number label point.now) }
{
    let code = code_of_point(rules, graph, found, label)?;
    Ok(
        is_broken_as(code, point.broken)
            && comes_by_ways(outline, found, places, label, point.ways.as_slice())
            && goes_on_unless(is_whole, code, found, places, label, number, point),
    )
}

/// Returns whether each way of the search's point is one of the outline's, if this is whole and nothing breaks there.
fn goes_on_unless(
    is_whole: bool,
    code: Option<CheckCode>,
    found: &[Point],
    places: &[Option<usize>],
    label: usize,
    number: usize,
    point: &OutlinePoint,
) -> bool
    ensures { IsTrue result → IsTrue is_whole → code ≡ None → GoesOn found.now places.now label number point.now }
{
    !is_whole || code.is_some() || goes_on(found, places, label, number, point)
}

fn is_broken_as(code: Option<CheckCode>, broken: Option<Broken>) -> bool
    ensures { IsTrue result → IsBrokenAs code broken }
{
    match broken {
        Some(broken) => code == Some(broken.code),
        None => true,
    }
}

/// Returns whether each way is one of the search's point, or leads to where paths give up.
fn comes_by_ways(
    outline: &Outline,
    found: &[Point],
    places: &[Option<usize>],
    label: usize,
    ways: &[usize],
) -> bool
    ensures { IsTrue result → (v : ℕ) → Contains ways.now v
        → (IsGraphWay found.now places.now label v ⊎ GivesUp outline.now v) }
{
    for way in ways {
        if !is_way(outline, found, places, label, *way) {
            return false;
        }
    }
    true
}

fn is_way(
    outline: &Outline,
    found: &[Point],
    places: &[Option<usize>],
    label: usize,
    to: usize,
) -> bool
    ensures { IsTrue result → (IsGraphWay found.now places.now label to ⊎ GivesUp outline.now to) }
{
    is_graph_way(found, places, label, to) || gives_up(outline, to)
}

/// Returns whether a point of the outline has no ways, and nothing is broken there.
fn gives_up(outline: &Outline, number: usize) -> bool
    ensures { IsTrue result → GivesUp outline.now number }
{
    match outline.points.as_slice().get(number) {
        Some(point) => gives_up_in(point),
        None => false,
    }
}

fn gives_up_in(point: &OutlinePoint) -> bool
    ensures { IsTrue result → GivesUpIn (Some point.now) }
{
    point.broken.is_none() && point.ways.is_empty()
}

fn is_graph_way(found: &[Point], places: &[Option<usize>], label: usize, to: usize) -> bool
    ensures { IsTrue result → IsGraphWay found.now places.now label to }
{
    comes_by(found, places, label, to, Choice::Yes)
        || comes_by(found, places, label, to, Choice::No)
        || comes_by(found, places, label, to, Choice::Missing)
}

fn comes_by(
    found: &[Point],
    places: &[Option<usize>],
    label: usize,
    to: usize,
    choice: Choice,
) -> bool
    ensures { IsTrue result → IsGraphWay found.now places.now label to }
{
    match leads_to(found, label, choice) {
        Some(next) => number_at(places, next) == Some(to),
        None => false,
    }
}

/// Returns whether each way of the search's point is one of the outline's.
fn goes_on(
    found: &[Point],
    places: &[Option<usize>],
    label: usize,
    number: usize,
    point: &OutlinePoint,
) -> bool
    ensures { IsTrue result → GoesOn found.now places.now label number point.now }
{
    goes_along(places, point, number, leads_to(found, label, Choice::Yes))
        && goes_along(places, point, number, leads_to(found, label, Choice::No))
        && goes_along(
            places,
            point,
            number,
            leads_to(found, label, Choice::Missing),
        )
}

fn goes_along(
    places: &[Option<usize>],
    point: &OutlinePoint,
    number: usize,
    to: Option<usize>,
) -> bool
    ensures { IsTrue result → GoesAlong places.now point.now number to }
{
    let Some(to) = to else {
        return true;
    };
    match number_at(places, to) {
        Some(place) => place == number || has(point.ways.as_slice(), place),
        None => false,
    }
}

fn has(ways: &[usize], place: usize) -> bool
    ensures { IsTrue result → Contains ways.now place }
{
    for way in ways {
        if *way == place {
            return true;
        }
    }
    false
}
