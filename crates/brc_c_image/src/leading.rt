//! Where paths go on from the points of a search, and what they break there, by the points' numbers.

ghost use Rattle.std.specs.Prelude.{◌≡◌, IfOk, Some};
ghost use Rattle.brc_c_image.specs.GraphOutlines.{code_of_point, code_in_point, leads_to, way_in, place_of};

use brc_c_graph::Graph;
use brc_c_paths::{Point, code_of};
use brc_c_store::{Choice, Rules};
use brc_lang::CheckCode;
use std::alloc::AllocError;

/// Returns the number at a place, if there is one.
pub(crate) fn number_at(numbers: &[Option<usize>], at: usize) -> Option<usize>
    ensures { result ≡ place_of numbers.now at }
{
    match numbers.get(at) {
        Some(number) => *number,
        None => None,
    }
}

/// Returns the point to which a choice leads from the one of this number.
pub(crate) fn leads_to(found: &[Point], number: usize, choice: Choice) -> Option<usize>
    ensures { result ≡ leads_to found.now number choice }
{
    match found.get(number) {
        Some(point) => leads_from(point, choice),
        None => None,
    }
}

fn leads_from(point: &Point, choice: Choice) -> Option<usize>
    ensures { result ≡ way_in (Some point.now) choice }
{
    match point.emptied {
        Some(emptied) => Some(emptied),
        None => point.ways.way(choice),
    }
}

/// Returns the rule that is broken at the point of this number, if any.
pub(crate) fn code_of_point(
    rules: Rules,
    graph: &Graph,
    found: &[Point],
    number: usize,
) -> Result<Option<CheckCode>, AllocError>
    ensures { IfOk result (λ code. code ≡ code_of_point rules graph.now found.now number) }
{
    match found.get(number) {
        Some(point) => code_from(rules, graph, point),
        None => Ok(None),
    }
}

fn code_from(rules: Rules, graph: &Graph, point: &Point) -> Result<Option<CheckCode>, AllocError>
    ensures { IfOk result (λ code. code ≡ code_in_point rules graph.now (Some point.now)) }
{
    match point.emptied {
        Some(_) => Ok(None),
        None => code_of(rules, graph, point),
    }
}
