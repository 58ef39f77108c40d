//! Whether a machine can have these calls.

ghost use Rattle.std.specs.Prelude.{◌≡◌, ◌<◌, ◌≤◌, true};
ghost use Rattle.std.specs.List.{AllByRecursion};
ghost use Rattle.brc_model.specs.Limits.{row_limit};
ghost use Rattle.brc_model.specs.Safety.{AreCalls, IsCall};

use brc_lang::Module;
use brc_model::{Call, MOST_ROWS, MOST_TIMES, MOST_WORKERS};

/// Returns whether a machine of the module can have `rows` rows for each worker and these calls.
pub fn is_possible(module: &Module, rows: u16, calls: &[Call]) -> bool
    ensures some_rows { result ≡ true → 0 < rows }
    ensures most_rows { result ≡ true → rows ≤ row_limit }
    ensures calls_fit { result ≡ true → AreCalls «module».now calls.now }
{
    if rows == 0 || rows > MOST_ROWS {
        return false;
    }
    if calls.len() == 0 || calls.len() > usize::from(MOST_WORKERS) {
        return false;
    }
    are_calls(module, calls)
}

/// Returns whether a worker can make each of the calls.
fn are_calls(module: &Module, calls: &[Call]) -> bool
    ensures { result ≡ true → AllByRecursion (IsCall «module».now) calls.now }
{
    for call in calls {
        if !is_call(module, call) {
            return false;
        }
    }
    true
}

/// Returns whether a worker can make the call: the module has the function, which has no parameters.
fn is_call(module: &Module, call: &Call) -> bool
    ensures { result ≡ true → IsCall «module».now call.now }
{
    let Some(function) = module.functions.as_slice().get(call.function) else {
        return false;
    };
    if function.parameters.len() != 0 || call.times == 0 || call.times > MOST_TIMES {
        return false;
    }
    true
}
