//! Modules that are given as texts.

ghost use Rattle.std.specs.Prelude.{◌≡◌, ◌<◌, true, [], length, IfOk};
ghost use Rattle.brc_model.specs.Threads.{function_at};

use brc_check::{Checked, check};
use brc_lang::read;
use std::alloc::Global;

/// Returns the module of the text, which is accepted.
///
/// # Errors
///
/// What doesn't hold, if the text isn't a module, or is refused.
pub fn accepted(alloc: Global, text: &[u8]) -> Result<Checked, &'static str> {
    let Ok(module) = read(alloc, text) else {
        return Err("the text is a module");
    };
    match check(alloc, module) {
        Ok(checked) => Ok(checked),
        Err(_) => Err("the module is accepted"),
    }
}

/// Returns whether the module has a function with this number, which has no parameters, as those that workers call.
#[tactic(auto, using(crate::proofs::Callable::has_no_parameters))]
pub fn is_callable(checked: &Checked, function: usize) -> bool
    ensures function { result ≡ true → function < length checked.now.module.functions }
    ensures parameters { result ≡ true → (function_at checked.now.module.functions function).parameters ≡ [] }
{
    let functions = checked.module().functions.as_slice();
    function < functions.len() && functions[function].parameters.len() == 0
}

/// Returns the number of the module's last function, which has no parameters.
///
/// # Errors
///
/// What doesn't hold, if it has parameters.
pub fn last_function(checked: &Checked) -> Result<usize, &'static str>
    ensures function { IfOk result (λ function. function < length checked.now.module.functions) }
    ensures parameters { IfOk result (λ function.
        (function_at checked.now.module.functions function).parameters ≡ []) }
{
    // The accepted module has a function.
    let last = checked.module().functions.len() - 1;
    if is_callable(checked, last) {
        Ok(last)
    } else {
        Err("the last function has no parameters")
    }
}
