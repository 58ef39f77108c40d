//! Finds a path to a refusal by a search through the points and the states in which paths reach them.
//!
//! The search follows the exits in the order in which `infer` does. As long as no two paths reach a point in different
//! states, it visits each point once, so that the work for what `infer` refuses grows with the number of instructions.

ghost use Rattle.std.specs.Prelude.{◌≡◌, ◌↔◌, ◌<◌, ◌+◌, length, IfOk, IsTrue, MatchOption};
ghost use Rattle.brc_lang.specs.Grammar.{IsModule, IsFunction};
ghost use Rattle.brc_check.specs.PathTo.{LeadsTo, IsPathTo};
ghost use Rattle.brc_check.specs.Refusal.{IsReported, IsRefusedFor};
ghost use Rattle.brc_check.specs.Searching.{AreFirsts, IsUnrivalled, IsRival, IsSearchedTo, HasPassed};

use crate::path::Path;
use crate::refused::{CodeAt, Refused};
use crate::state::entry_of;
use crate::step::{Step, follow};
use crate::trail::{exits_by, exits_to};
use crate::visits::{Visit, Visits, add, first_visits, is_visited};
use brc_lang::{CheckCode, Function, Module};
use brc_model::Exit;
use std::alloc::{AllocError, Global};

fn is_wanted(wanted: CodeAt, at: usize, code: CheckCode) -> bool
    ensures { IsTrue result ↔ ((at ≡ wanted.at) × (code ≡ wanted.code)) }
{
    at == wanted.at && code == wanted.code
}

/// Returns the number of the first visit to the point, if a second state there is wanted.
fn rival(visits: &Visits, wanted: CodeAt, at: usize) -> Option<usize>
    requires within { at < length visits.now.firsts }
    requires firsts { AreFirsts visits.now }
    ensures { MatchOption result (IsUnrivalled visits.now.list wanted.at wanted.code at)
        (IsRival visits.now.list wanted.at wanted.code at) }
{
    if !is_wanted(wanted, at, CheckCode::StatesDiffer) {
        return None;
    }
    visits.firsts.as_slice()[at]
}

/// Follows one exit of the visit of this turn. Returns a path to what is wanted if there is one by that exit.
fn pass(
    alloc: Global,
    function: &Function,
    wanted: CodeAt,
    visits: &mut Visits,
    turn: usize,
    exit: Exit,
) -> Result<Option<Path>, AllocError>
    requires searched { IsSearchedTo function.now wanted.at wanted.code visits.old turn }
    requires within { turn < length visits.old.list }
    ensures { IfOk result (λ found. MatchOption found
        (HasPassed function.now wanted.at wanted.code visits.old visits.new turn exit)
        (LeadsTo function.now wanted.at wanted.code)) }
{
    let code = function.code.as_slice();
    let from = visits.list.as_slice()[turn];
    match follow(code, from.at, &from.state, exit) {
        Step::Ends => Ok(None),
        Step::Error(reported) => {
            if !is_wanted(wanted, from.at, reported) {
                return Ok(None);
            }
            let exits = exits_by(alloc, visits.list.as_slice(), turn, exit)?;
            Ok(Some(Path::Reports(exits)))
        }
        Step::To(next, state) => {
            if is_visited(visits, next, &state) {
                return Ok(None);
            }
            if let Some(first) = rival(visits, wanted, next) {
                let exits = exits_to(alloc, visits.list.as_slice(), first)?;
                let others = exits_by(alloc, visits.list.as_slice(), turn, exit)?;
                return Ok(Some(Path::Differ(exits, others)));
            }
            add(
                visits,
                Visit {
                    at: next,
                    state,
                    before: turn,
                    exit,
                },
            )?;
            Ok(None)
        }
    }
}

/// Follows both exits of the visit of this turn.
fn pass_both(
    alloc: Global,
    function: &Function,
    wanted: CodeAt,
    visits: &mut Visits,
    turn: usize,
) -> Result<Option<Path>, AllocError>
    requires searched { IsSearchedTo function.now wanted.at wanted.code visits.old turn }
    requires within { turn < length visits.old.list }
    ensures { IfOk result (λ found. MatchOption found
        (IsSearchedTo function.now wanted.at wanted.code visits.new (turn + 1))
        (LeadsTo function.now wanted.at wanted.code)) }
{
    if let Some(path) = pass(alloc, function, wanted, visits, turn, Exit::Success)? {
        return Ok(Some(path));
    }
    pass(alloc, function, wanted, visits, turn, Exit::Fault)
}

/// Returns a path to what is wanted, or `None` if there is none.
fn search(alloc: Global, function: &Function, wanted: CodeAt) -> Result<Option<Path>, AllocError>
    requires { 0 < length function.now.code }
    ensures { IfOk result (λ found. MatchOption found (IsReported function.now wanted.at wanted.code → ⊥)
        (LeadsTo function.now wanted.at wanted.code)) }
{
    let entry = entry_of(function.parameters.as_slice());
    let mut visits = first_visits(alloc, &entry, function.code.len())?;
    let mut turn = 0;
    while turn < visits.list.len() {
        if let Some(path) = pass_both(alloc, function, wanted, &mut visits, turn)? {
            return Ok(Some(path));
        }
        turn += 1;
    }
    Ok(None)
}

/// Returns a path to the refusal in this function, or `None` if the refusal is another function's.
fn path_in(
    alloc: Global,
    function: &Function,
    refused: &Refused,
) -> Result<Option<Path>, AllocError>
    requires { IsFunction function.now }
    ensures { IfOk result (λ found. MatchOption found
        (function.now.name ≡ refused.now.function → IsReported function.now refused.now.at refused.now.code → ⊥)
        (λ path. (function.now.name ≡ refused.now.function)
        × LeadsTo function.now refused.now.at refused.now.code path)) }
{
    if function.name.as_bytes() != refused.function.as_bytes() {
        return Ok(None);
    }
    let wanted = CodeAt {
        at: refused.at,
        code: refused.code,
    };
    search(alloc, function, wanted)
}

/// Returns the exits that lead to what is refused: a path that reports the code at the point, or two paths that reach
/// the point in different states.
///
/// A refusal for want of memory, which has no point, has no path.
pub fn path_to(alloc: Global, module: &Module, refused: &Refused) -> Result<Path, AllocError>
    requires fits { IsModule «module».now }
    requires refused { IsRefusedFor «module».now.functions refused.now }
    ensures { IfOk result (IsPathTo «module».now.functions refused.now) }
{
    for function in module.functions.as_slice() {
        if let Some(path) = path_in(alloc, function, refused)? {
            return Ok(path);
        }
    }
    unreachable!()
}
