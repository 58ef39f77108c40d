//! What a call refuses. A thread locks one object at a time, and the function called may lock one.

ghost use Rattle.std.specs.Prelude.{◌≡◌};
ghost use Rattle.std.specs.List.{list_any};
ghost use Rattle.brc_lang.specs.declared.check_code.CheckCode.TheVariants as codes;
ghost use Rattle.brc_model.specs.SlotStates.{lowest, var_of, is_empty, is_stolen, clash, are_given_once};
ghost use Rattle.brc_model.specs.SlotStates.{breaks, of_argument};

use crate::variables::{kind_of, var};
use brc_lang::{Argument, CheckCode, Instr, Kind, Passing, Variable};
use brc_model::{Slot, State};

fn is_stolen(argument: &Argument) -> bool
    ensures { result ≡ is_stolen argument.now }
{
    argument.parameter.passing == Passing::Steal
}

/// Returns whether two arguments are one variable, and the call steals its reference for one of them.
fn clash(one: &Argument, other: &Argument) -> bool
    ensures { result ≡ clash one.now other.now }
{
    (is_stolen(one) || is_stolen(other)) && one.from.number() == other.from.number()
}

fn clashes(one: &Argument, others: &[Argument]) -> bool
    ensures { result ≡ list_any (clash one.now) others.now }
{
    others.iter().any(|other| clash(one, other))
}

/// Returns whether each variable whose reference the call steals is one argument alone.
fn are_given_once(arguments: &[Argument]) -> bool
    ensures { result ≡ are_given_once arguments.now }
{
    for number in 0..arguments.len() {
        if clashes(&arguments[number], &arguments[number + 1..]) {
            return false;
        }
    }
    true
}

fn has_empty(state: &State, arguments: &[Argument]) -> bool
    ensures { result ≡ list_any (λ a. is_empty (var_of state.now a.from)) arguments.now }
{
    arguments
        .iter()
        .any(|argument| var(state, argument.from) == Slot::Empty)
}

/// Returns whether the argument isn't known to be of its parameter's kind.
fn has_other_kind(state: &State, argument: &Argument) -> bool
    ensures { result ≡ list_any (breaks state.now codes.WrongKind) (of_argument argument.now) }
{
    let asked = argument.parameter.kind;
    asked != Kind::Any && kind_of(var(state, argument.from)) != asked
}

fn has_other_kinds(state: &State, arguments: &[Argument]) -> bool
    ensures { result ≡ list_any (λ a. list_any (breaks state.now codes.WrongKind) (of_argument a)) arguments.now }
{
    arguments
        .iter()
        .any(|argument| has_other_kind(state, argument))
}

/// Returns whether the call steals the argument, which is borrowed.
fn is_stolen_unowned(state: &State, argument: &Argument) -> bool
    ensures { result ≡ list_any (breaks state.now codes.NotOwned) (of_argument argument.now) }
{
    is_stolen(argument) && matches!(var(state, argument.from), Slot::Caller(_) | Slot::Locked(_))
}

fn has_stolen_unowned(state: &State, arguments: &[Argument]) -> bool
    ensures { result ≡ list_any (λ a. list_any (breaks state.now codes.NotOwned) (of_argument a)) arguments.now }
{
    arguments
        .iter()
        .any(|argument| is_stolen_unowned(state, argument))
}

/// Returns the lowest code that `call` reports in the state.
pub fn call_refusal(state: &State, to: Variable, arguments: &[Argument]) -> Option<CheckCode>
    ensures { result ≡ lowest (Instr.Call to 0 arguments.now 0) state.now }
{
    if !are_given_once(arguments) || has_empty(state, arguments) {
        return Some(CheckCode::EmptyUsed);
    }
    if has_other_kinds(state, arguments) {
        return Some(CheckCode::WrongKind);
    }
    if has_stolen_unowned(state, arguments) {
        return Some(CheckCode::NotOwned);
    }
    if let Slot::Owned(_) = var(state, to) {
        return Some(CheckCode::StillOwns);
    }
    // While nothing is locked, no variable that the call changes is the locked one.
    state.locked.is_some().then_some(CheckCode::SecondLock)
}
