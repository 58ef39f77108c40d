//! The rows that the variables of a call name.

ghost use Rattle.std.specs.Prelude.{◌≡◌, ◌<◌, true, is_some};
ghost use Rattle.std.specs.List.{list_all, list_any};
ghost use Rattle.brc_lang.specs.Limits.{variable_count};
ghost use Rattle.brc_model.specs.SlotStates.{is_owned};
ghost use Rattle.brc_model.specs.Threads.{entry_variables, row_of};
ghost use Rattle.brc_model.specs.Actions.{argument_rows, first_named, kept_rows, owned_rows, passed_variables};

use brc_effect::rows::ROOT;
use brc_lang::{Argument, Passing, Variable};
use brc_model::Slot;

/// The row that each variable names, or `None` for an empty variable.
pub type Variables = [Option<u32>; Variable::COUNT];

/// Returns the variables at the start of a call from outside: v0 names the root, and the others are empty.
pub fn entry_variables() -> Variables
    ensures { result ≡ entry_variables }
{
    let mut variables = [None; 16];
    variables[0] = Some(ROOT);
    variables
}

/// Returns the row that the variable names, or `None` if the variable is empty.
pub fn row_of(variables: &Variables, variable: Variable) -> Option<u32>
    ensures { result ≡ row_of variables.now variable }
{
    variables[usize::from(variable.number())]
}

/// Returns whether each argument's variable names a row.
pub fn all_named(variables: &Variables, arguments: &[Argument]) -> bool
    ensures { result ≡ list_all is_some (argument_rows variables.now arguments.now) }
{
    for argument in arguments {
        if row_of(variables, argument.from).is_none() {
            return false;
        }
    }
    true
}

/// Returns the variables at the start of a call that these arguments are given: v0 names the root, and the variables
/// from v1 on name the arguments' rows.
pub fn passed_variables(variables: &Variables, arguments: &[Argument]) -> Variables
    ensures { result ≡ passed_variables variables.now arguments.now }
{
    let mut passed = entry_variables();
    for number in 0..Variable::COUNT - 1 {
        if number < arguments.len() {
            passed[number + 1] = row_of(variables, arguments[number].from);
        }
    }
    passed
}

/// Returns the variables of a call while it waits for one that these arguments are given: those that the call stole are
/// empty, and so is the variable that takes the result.
pub fn kept_rows(variables: &Variables, arguments: &[Argument], to: Variable) -> Variables
    ensures { result ≡ kept_rows variables.now arguments.now to }
{
    let mut kept = *variables;
    for argument in arguments {
        if let Passing::Steal = argument.parameter.passing {
            kept[usize::from(argument.from.number())] = None;
        }
    }
    kept[usize::from(to.number())] = None;
    kept
}

/// Returns whether some variable names a row.
pub fn names_some(variables: &Variables) -> bool
    ensures { result ≡ list_any is_some variables.now }
{
    variables.iter().any(|row| row.is_some())
}

/// Returns the first variable that names a row, by its number, or the number of variables if none does.
pub fn first_named(variables: &Variables) -> usize
    ensures first { result ≡ first_named variables.now }
    ensures low { list_any is_some variables.now ≡ true → result < variable_count }
{
    for variable in 0..Variable::COUNT {
        if variables[variable].is_some() {
            return variable;
        }
    }
    Variable::COUNT
}

fn is_owned(var: Slot) -> bool
    ensures { result ≡ is_owned var }
{
    matches!(var, Slot::Owned(_))
}

/// Returns the variables without those whose fields own no reference.
pub fn owned_rows(slots: &[Slot; Variable::COUNT], variables: &Variables) -> Variables
    ensures { result ≡ owned_rows slots.now variables.now }
{
    let mut owned = *variables;
    for variable in 0..Variable::COUNT {
        if !is_owned(slots[variable]) {
            owned[variable] = None;
        }
    }
    owned
}
