//! The states of all points, from those of the points that a table keeps.

ghost use Rattle.std.specs.Prelude.{◌≡◌, ◌↔◌, ◌≤◌, Some, IfSome, IsTrue};
ghost use Rattle.brc_check.specs.Tables.{passed, state_at};
ghost use Rattle.brc_check.specs.Lookups.{IsNumberOf, AreNumbers, IsReplacedAt, IsNearest};

use crate::kept_entry::KeptEntry;
use crate::kept_points::POINTS;
use crate::step::{Step, follow};
use brc_lang::Instr;
use brc_model::{Exit, State};

/// Returns the number of the point's entry, or `None` if the point isn't kept.
pub fn number_of(kept: &[KeptEntry], at: usize) -> Option<usize>
    ensures number { IsNumberOf kept.now at result }
    ensures replaced { IfSome result (IsReplacedAt kept.now at) }
{
    for number in 0..kept.len() {
        if kept[number].at == at {
            return Some(number);
        }
    }
    None
}

/// Returns, for each number that a point may have, the number of its entry.
pub fn numbers_of(kept: &[KeptEntry]) -> [Option<usize>; POINTS]
    ensures { AreNumbers kept.now result }
{
    let mut numbers = [None; POINTS];
    for number in (0..kept.len()).rev() {
        let at = kept[number].at;
        if at < POINTS {
            numbers[at] = Some(number);
        }
    }
    numbers
}

fn is_up_to(entry: &Option<KeptEntry>, at: usize) -> bool
    ensures { IsTrue result ↔ IfSome entry.now (λ e. e.at ≤ at) }
{
    match entry {
        None => true,
        Some(entry) => entry.at <= at,
    }
}

/// Returns the entry of the last kept point that isn't after this one.
fn nearest(kept: &[KeptEntry], at: usize) -> Option<KeptEntry>
    ensures { IsNearest kept.now at result }
{
    let mut found = None;
    for number in (0..kept.len()).rev() {
        let point = kept[number].at;
        if point <= at && is_up_to(&found, point) {
            found = Some(kept[number]);
        }
    }
    found
}

/// Returns the state in which the success exit of the point leads to the point after it, if it leads there.
fn passed(code: &[Instr], at: usize, state: &State) -> Option<State>
    ensures { result ≡ passed code.now at (Some state.now) }
{
    if at >= code.len() {
        return None;
    }
    match follow(code, at, state, Exit::Success) {
        Step::To(next, arriving) => { if next == at + 1 { Some(arriving) } else { None } }
        Step::Ends | Step::Error(_) => None,
    }
}

/// Returns the state of the point.
pub fn state_at(code: &[Instr], kept: &[KeptEntry], at: usize) -> Option<State>
    ensures { result ≡ state_at code.now kept.now at }
{
    let nearest = nearest(kept, at)?;
    let mut state = nearest.state?;
    for point in nearest.at..at {
        state = passed(code, point, &state)?;
    }
    Some(state)
}
