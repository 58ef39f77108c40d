//! The refusal of one function. `brc_check::check` stops at the first function that it refuses.
//!
//! `brc_check::first_states` promises that some path reaches each of its states, and `brc_check::follow` gives the ends
//! of the steps from there. So whatever is reported here is a refusal. It is the one that `brc_check::infer` finds, which
//! goes over the points in the same order; that is tested.

ghost use Rattle.std.specs.Prelude.{◌≡◌, IfOk, IfSome};
ghost use Rattle.brc_lang.specs.Grammar.{IsFunction, IsModule};
ghost use Rattle.brc_check.specs.Filling.{entry_at, AreReached};
ghost use Rattle.brc_check.specs.Refusal.{IsRefusedFor, IsReported};

use crate::differing::states_differ;
use crate::led::point_at;
use brc_check::{CheckCode, Exit, Refused, State, Step, first_states, follow};
use brc_lang::{Function, Module};
use std::alloc::{AllocError, Global};

/// A point of a function, and the code that is reported there.
#[derive(Clone, Copy)]
struct Reported {
    at: usize,
    code: CheckCode,
}

/// Returns the refusal of the function of this number. Returns `None` if the checker accepts the function, or if the
/// module has no such one.
pub fn refusal_of(
    alloc: Global,
    module: &Module,
    number: usize,
) -> Result<Option<Refused>, AllocError>
    requires { IsModule «module».now }
    ensures { IfOk result (λ found. IfSome found (IsRefusedFor «module».now.functions)) }
{
    let functions = module.functions.as_slice();
    if number >= functions.len() {
        return Ok(None);
    }
    let function = &functions[number];
    match reported_in(alloc, function)? {
        Some(found) => Ok(Some(Refused {
            function: function.name,
            at: found.at,
            code: found.code,
        })),
        None => Ok(None),
    }
}

/// Returns the refusal to explain: that of the function of the number `only`, if it is refused, and otherwise the first
/// one, which `check` returns.
pub fn refusal_asked(
    alloc: Global,
    module: &Module,
    first: &Refused,
    only: Option<usize>,
) -> Result<Refused, AllocError>
    requires fits { IsModule «module».now }
    requires refusal { IsRefusedFor «module».now.functions first.now }
    ensures { IfOk result (IsRefusedFor «module».now.functions) }
{
    let Some(number) = only else {
        return Ok(*first);
    };
    match refusal_of(alloc, module, number)? {
        Some(other) if !is_of_one_function(&other, first) => Ok(other),
        _ => Ok(*first),
    }
}

/// Returns whether both refusals are of the same function.
pub fn is_of_one_function(one: &Refused, other: &Refused) -> bool {
    one.function.as_bytes() == other.function.as_bytes()
}

/// Returns what is reported first in the function, point by point in the order in which paths find them.
fn reported_in(alloc: Global, function: &Function) -> Result<Option<Reported>, AllocError>
    requires { IsFunction function.now }
    ensures { IfOk result (λ found. IfSome found (λ r. IsReported function.now r.at r.code)) }
{
    let entries = first_states(alloc, function)?;
    let states = entries.as_slice();
    let mut order: Vec<usize> = Vec::new(alloc);
    order.push(0)?;
    for turn in 0..function.code.len() {
        let Some(at) = point_at(order.as_slice(), turn) else {
            break;
        };
        for exit in [Exit::Success, Exit::Fault] {
            if let Some(found) = reported_by(function, states, at, exit) {
                return Ok(Some(found));
            }
            if let Some(next) = point_behind(function, states, at, exit) {
                if !order.contains(&next) {
                    order.push(next)?;
                }
            }
        }
    }
    Ok(None)
}

/// Returns the state of the point, or `None` if it has none or there is no such point.
fn state_at(states: &[Option<State>], at: usize) -> Option<State>
    ensures { result ≡ entry_at states.now at }
{
    if at < states.len() { states[at] } else { None }
}

/// Returns what is reported of the step from the point by this exit: by its instruction, or where it leads to a point
/// in a second state.
fn reported_by(
    function: &Function,
    states: &[Option<State>],
    at: usize,
    exit: Exit,
) -> Option<Reported>
    requires { AreReached function.now states.now }
    ensures { IfSome result (λ r. IsReported function.now r.at r.code) }
{
    let code = function.code.as_slice();
    if at >= code.len() {
        return None;
    }
    let state = state_at(states, at)?;
    match follow(code, at, &state, exit) {
        Step::Ends => None,
        Step::Error(reported) => Some(Reported { at, code: reported }),
        Step::To(next, arriving) => {
            let first = state_at(states, next)?;
            if states_differ(&first, &arriving) {
                return Some(Reported {
                    at: next,
                    code: CheckCode::StatesDiffer,
                });
            }
            None
        }
    }
}

/// Returns the point to which the step from the point leads by this exit.
fn point_behind(
    function: &Function,
    states: &[Option<State>],
    at: usize,
    exit: Exit,
) -> Option<usize> {
    let code = function.code.as_slice();
    if at >= code.len() {
        return None;
    }
    let state = state_at(states, at)?;
    match follow(code, at, &state, exit) {
        Step::To(next, _) => Some(next),
        Step::Ends | Step::Error(_) => None,
    }
}
