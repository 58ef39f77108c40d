//! The functions that names mean, and the calls of a schedule.

ghost use Rattle.std.specs.Prelude.{◌≡◌, position, IfOk, OnOk, IfErr};
ghost use Rattle.brc_model.specs.Safety.{AreCalls};
ghost use Rattle.brc_schedule.specs.Text.{IsSchedule};
ghost use Rattle.brc_command.specs.Calls.{is_named, is_callable, calls_of, AreKnown};
ghost use Rattle.brc_command.specs.Texts.{IsCallFault};

use crate::step_fault::StepFault;
use brc_lang::{Function, Module};
use brc_model::Call;
use brc_schedule::Schedule;
use std::alloc::Global;

/// Returns the number of the first function of this name, or `None`.
pub fn number_of(functions: &[Function], name: &[u8]) -> Option<usize>
    ensures { result ≡ position (is_named name.now) functions.now }
{
    functions.iter().position(|f| f.name.as_bytes() == name)
}

/// Returns the number of the first function of this name that can be called from outside, as one without parameters
/// can; or `None`.
pub fn number_of_callable(functions: &[Function], name: &[u8]) -> Option<usize>
    ensures { result ≡ position (is_callable name.now) functions.now }
{
    functions
        .iter()
        .position(|f| f.name.as_bytes() == name && f.parameters.len() == 0)
}

/// Returns the schedule's calls, each of the first function that can be called by its name.
///
/// Returns `NoFunction` for the first call that the module has no such function for, and `NoMemory`.
pub fn calls_of(alloc: Global, module: &Module, schedule: &Schedule) -> Result<Vec<Call>, StepFault>
    requires { IsSchedule schedule.now }
    ensures found { IfOk result (λ calls. calls.items ≡ calls_of module.now schedule.now.calls) }
    ensures known { OnOk result (AreKnown module.now schedule.now.calls) }
    ensures calls_fit { IfOk result (λ calls. AreCalls module.now calls.items) }
    ensures fault { IfErr result (λ e. IsCallFault module.now schedule.now e) }
{
    let planned = schedule.calls.as_slice();
    let mut calls = Vec::new(alloc);
    for call in planned {
        let functions = module.functions.as_slice();
        let Some(function) = number_of_callable(functions, call.name.as_bytes()) else {
            return Err(StepFault::NoFunction(call.name));
        };
        let times = call.times;
        calls.push(Call { function, times })?;
    }
    Ok(calls)
}
