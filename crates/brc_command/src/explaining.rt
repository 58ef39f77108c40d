//! The explanation of a module's text: of an accepted module, of a refused one, and of a text that can't be
//! read. It is made before any of it is written, so that want of memory leaves nothing behind.

ghost use Rattle.std.specs.Prelude.{◌≡◌, IfOk, IfErr, OnOk, option_map};
ghost use Rattle.std.specs.Io.KnownBytes.{Appends};
ghost use Rattle.brc_lang.specs.declared.module.Module.{Module};
ghost use Rattle.brc_lang.specs.Grammar.{Spells};
ghost use Rattle.brc_lang.specs.Written.{AppendsBeginning};
ghost use Rattle.brc_check.specs.Refusal.{IsRefusedFor};
ghost use Rattle.brc_command.specs.Explanations.{HasOnly, IsExplained, IsUnexplained, IsUnknownIn, number_in};
ghost use Rattle.brc_command.specs.Explanations.{RefusedModule};

use crate::calls::number_of;
use crate::explainer::Explain;
use crate::step_fault::StepFault;
use crate::stop::Stop;
use crate::texts::{accepted, module_of};
use brc_check::Refused;
use brc_lang::{Module, one_reading, write_bytes};
use brc_report::Paint;
use brc_world::NoMemory;
use std::alloc::Global;
use std::io;
use std::io::Write;

/// The explanation of a text, and how it ends.
#[derive(Drop)]
pub struct Explanation {
    pub text: Vec<u8>,
    /// Why the text spells no accepted module: `Text` or `Refused`. It is `None` if the text spells one.
    pub fault: Option<StepFault>,
}

/// Explains the module that the bytes spell, or its function of this name.
///
/// Returns `NoFunction` if the module can be read and lacks the function, accepted or not, and `NoMemory`.
pub fn explanation_of<'a, X: Explain>(
    alloc: Global,
    bytes: &[u8],
    function: Option<&'a str>,
    paint: Paint,
    explainer: &X,
) -> Result<Explanation, Stop<'a>>
    ensures explained { IfOk result (λ e. IsExplained (X.says explainer.now paint) bytes.now
        (option_map (λ name. name.now) function.entry) e.fault e.text.items) }
    ensures stopped { IfErr result (IsUnexplained bytes.now (option_map (λ name. name.now) function.entry)) }
{
    let module = match module_of(alloc, bytes) {
        Ok(module) => module,
        Err(StepFault::Text(fault)) => {
            return Ok(Explanation {
                text: explainer.unreadable(alloc, bytes, &fault, paint)?,
                fault: Some(StepFault::Text(fault)),
            });
        }
        Err(_) => return Err(Stop::Fault(StepFault::NoMemory)),
    };
    let only = match number_asked(&module, function) {
        Ok(only) => only,
        Err(stop) => return Err(stop),
    };
    match accepted(alloc, module) {
        Ok(checked) => Ok(Explanation {
            text: explainer.accepted(alloc, &checked, only, paint)?,
            fault: None,
        }),
        Err(StepFault::Refused(refused)) => Ok(Explanation {
            text: of_refused(alloc, bytes, &refused, only, paint, explainer)?,
            fault: Some(StepFault::Refused(refused)),
        }),
        Err(_) => Err(Stop::Fault(StepFault::NoMemory)),
    }
}

/// Returns the number of the function for which an explanation asks, if it asks for one. Returns `NoFunction` if the
/// module lacks it.
pub fn number_asked<'a>(
    module: &Module,
    function: Option<&'a str>,
) -> Result<Option<usize>, Stop<'a>>
    ensures number { IfOk result (λ number. number ≡ number_in «module».now
        (option_map (λ name. name.now) function.entry)) }
    ensures known { OnOk result (HasOnly «module».now (option_map (λ name. name.now) function.entry)) }
    ensures unknown { IfErr result (IsUnknownIn «module».now (option_map (λ name. name.now) function.entry)) }
{
    let Some(name) = function else {
        return Ok(None);
    };
    match number_of(module.functions.as_slice(), name.as_bytes()) {
        Some(number) => Ok(Some(number)),
        None => Err(Stop::NoFunction(name)),
    }
}

/// Writes the text, with the errors of `brc_lang::write_bytes`. With or without one, a prefix of it is written.
pub fn write_text<W: Write>(text: &[u8], out: &mut W) -> io::Result<()>
    ensures whole { OnOk result (Appends (W.contents out.old) (W.contents out.new) text.now) }
    ensures begun { AppendsBeginning (W.contents out.old) (W.contents out.new) text.now }
{
    write_bytes(text, out)
}

// The check has dropped the module, so the text is read again. It spells no other module.
fn of_refused<X: Explain>(
    alloc: Global,
    bytes: &[u8],
    refused: &Refused,
    only: Option<usize>,
    paint: Paint,
    explainer: &X,
) -> Result<Vec<u8>, NoMemory>
    requires { (m : Module) × Spells bytes.now m × IsRefusedFor m.functions refused.now }
    ensures { IfOk result (λ text. (m : Module) → Spells bytes.now m
        → X.says explainer.now paint (RefusedModule m refused.now only) text.items) }
{
    one_reading();
    let Ok(module) = module_of(alloc, bytes) else {
        return Err(NoMemory);
    };
    explainer.refused(alloc, &module, refused, only, paint)
}
