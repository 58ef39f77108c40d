//! Where an outline breaks a rule.

ghost use Rattle.std.specs.Prelude.{◌≡◌, IsTrue, Ok, true};
ghost use Rattle.brc_c_outline.specs.Outlines.{IsBroken, goes, led_to};

use crate::outline::{Outline, Point};
use crate::validating::breaks;
use brc_lang::CheckCode;
use std::alloc::{AllocError, Global};

/// Returns whether choices are found that lead to a point which breaks this rule, and whose report is this
/// instruction's.
pub fn is_broken(
    alloc: Global,
    outline: &Outline,
    at: usize,
    code: CheckCode,
) -> Result<bool, AllocError>
    ensures { result ≡ Ok true → IsBroken outline.now at code }
{
    let Some(broken) = broken_point(outline, at, code) else {
        return Ok(false);
    };
    let choices = choices_to(alloc, outline, broken)?;
    Ok(is_broken_by(outline, choices.as_slice(), at, code))
}

/// Returns a point that breaks a rule.
fn broken_point(outline: &Outline, at: usize, code: CheckCode) -> Option<usize> {
    for number in 0..outline.points.len() {
        if breaks(outline, number, at, code) {
            return Some(number);
        }
    }
    None
}

fn is_broken_by(outline: &Outline, choices: &[usize], at: usize, code: CheckCode) -> bool
    ensures { IsTrue result → IsBroken outline.now at code }
{
    match led_to(outline, choices) {
        Some(point) => breaks(outline, point, at, code),
        None => false,
    }
}

/// Returns the point to which a choice leads from a point.
fn goes(outline: &Outline, from: Option<usize>, choice: usize) -> Option<usize>
    ensures { result ≡ goes outline.now from choice }
{
    let point = outline.points.as_slice().get(from?)?;
    point.ways.as_slice().get(choice).copied()
}

/// Returns the point to which choices lead, one after another, from the first point.
fn led_to(outline: &Outline, choices: &[usize]) -> Option<usize>
    ensures { result ≡ led_to outline.now choices.now }
{
    let mut point = Some(0);
    for choice in choices {
        point = goes(outline, point, *choice);
    }
    point
}

/// The last step to a point on the first way there that is found.
#[derive(Clone, Copy)]
struct Arrival {
    from: usize,
    choice: usize,
}

/// Returns choices that lead to a point, if any do.
fn choices_to(alloc: Global, outline: &Outline, to: usize) -> Result<Vec<usize>, AllocError> {
    let arrivals = arrivals_of(alloc, outline)?;
    let mut choices = Vec::new(alloc);
    let mut at = to;
    for _ in 0..outline.points.len() {
        let Some(arrival) = arrivals.get(at).copied().unwrap_or(None) else {
            break;
        };
        choices.push(arrival.choice)?;
        at = arrival.from;
    }
    choices.reverse();
    Ok(choices)
}

/// Returns how each point is reached first, by its number. The first point isn't reached from another one.
fn arrivals_of(alloc: Global, outline: &Outline) -> Result<Vec<Option<Arrival>>, AllocError> {
    let count = outline.points.len();
    let mut arrivals = Vec::with_capacity(alloc, count)?;
    for _ in 0..count {
        arrivals.push(None)?;
    }
    let mut reached = Vec::with_capacity(alloc, count)?;
    reached.push(0usize)?;
    for turn in 0..count {
        let Some(from) = reached.get(turn).copied() else {
            break;
        };
        if let Some(point) = outline.points.as_slice().get(from) {
            arrive(point, from, &mut arrivals, &mut reached)?;
        }
    }
    Ok(arrivals)
}

/// Notes the points to which a point leads, and to which none led before.
fn arrive(
    point: &Point,
    from: usize,
    arrivals: &mut Vec<Option<Arrival>>,
    reached: &mut Vec<usize>,
) -> Result<(), AllocError> {
    for (choice, to) in point.ways.iter().enumerate() {
        if *to != 0 {
            if let Some(arrival) = arrivals.get_mut(*to) {
                if arrival.is_none() {
                    *arrival = Some(Arrival { from, choice });
                    reached.push(*to)?;
                }
            }
        }
    }
    Ok(())
}
