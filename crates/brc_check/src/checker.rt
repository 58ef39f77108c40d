//! The check of a whole module.

ghost use Rattle.std.specs.Prelude.{◌≡◌, IfOk, OnOk, IfErr};
ghost use Rattle.brc_lang.specs.Grammar.{IsModule};
ghost use Rattle.brc_model.specs.Paths.{IsAcceptable};
ghost use Rattle.brc_model.specs.Safety.{Safe};
ghost use Rattle.brc_check.specs.Refusal.{IsForMemory, IsRefusal};
ghost use Rattle.brc_check.specs.Tables.{IsTrueTable};

use crate::checked::Checked;
use crate::inferring::infer;
use crate::refused::Refused;
use crate::verifying::verify;
use brc_lang::Module;
use std::alloc::Global;

/// Accepts the module if every path through every function obeys the ownership rules (Python/C API, Introduction,
/// Reference Count Details).
///
/// A refusal names a function, a point and the code that is reported there, or is `NoMemory`; it drops the module.
pub fn check(alloc: Global, module: Module) -> Result<Checked, Refused>
    requires { IsModule «module» }
    ensures accepted { IfOk result (λ c. c.module ≡ «module») }
    ensures table { IfOk result (λ c. IsTrueTable «module» c.table) }
    ensures acceptable { OnOk result (IsAcceptable «module») }
    ensures safe { OnOk result (Safe «module») }
    ensures refused { IfErr result (λ r. IsRefusal «module».functions r) }
    // An acceptable module is refused only if memory is.
    ensures complete { IsAcceptable «module» → IfErr result IsForMemory }
{
    let table = infer(alloc, &module)?;
    verify(module, table)
}
