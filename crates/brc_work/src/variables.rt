//! The variables of a call, by the rows of the objects that they name.

ghost use Rattle.std.specs.Prelude.{◌≡◌, ◌<◌, ℕ, Some, slice_set};
ghost use Rattle.brc_lang.specs.Limits.{variable_count};
ghost use Rattle.brc_model.specs.Actions.{kept_rows, passed_variables};
ghost use Rattle.brc_model.specs.Threads.{row_of};

use brc_heap::ROOT;
use brc_lang::{Argument, Passing, Variable};

/// The row that each variable names, or `None` for a variable that names nothing.
pub(crate) type Variables = [Option<u32>; Variable::COUNT];

/// Returns the row of the object that the variable names.
pub(crate) fn row_in(rows: &Variables, variable: Variable) -> u32
    requires { (x : ℕ) × (row_of rows.now variable ≡ Some x) }
    ensures { row_of rows.now variable ≡ Some result }
{
    match rows[usize::from(variable.number())] {
        Some(row) => row,
        None => unreachable!(),
    }
}

/// Returns the row that the variable names, if it names one.
fn named_by(rows: &Variables, variable: Variable) -> Option<u32>
    ensures { result ≡ row_of rows.now variable }
{
    rows[usize::from(variable.number())]
}

/// Makes the variable name the row, or nothing.
pub(crate) fn name(rows: &mut Variables, variable: Variable, row: Option<u32>)
    ensures named { rows.new ≡ slice_set rows.old variable row }
    ensures low { variable < variable_count }
{
    rows[usize::from(variable.number())] = row;
}

/// Returns what the variables of a called function name at first: v0 the root, and those from v1 on the objects of the
/// arguments.
pub(crate) fn passed(rows: &Variables, arguments: &[Argument]) -> Variables
    ensures { result ≡ passed_variables rows.now arguments.now }
{
    let mut inner = [None; Variable::COUNT];
    inner[0] = Some(ROOT);
    for number in 0..Variable::COUNT - 1 {
        if number < arguments.len() {
            inner[number + 1] = named_by(rows, arguments[number].from);
        }
    }
    inner
}

/// Empties what a call can't name while it waits for one that it has made: the variables whose references that one has
/// stolen, and the one that takes the result.
pub(crate) fn keep(rows: &mut Variables, arguments: &[Argument], to: Variable)
    ensures { rows.new ≡ kept_rows rows.old arguments.now to }
{
    for argument in arguments {
        if let Passing::Steal = argument.parameter.passing {
            name(rows, argument.from, None);
        }
    }
    name(rows, to, None);
}
