//! Modules and schedules from their texts.

ghost use Rattle.std.specs.Prelude.{◌≡◌, MatchResult};
ghost use Rattle.brc_lang.specs.Grammar.{IsModule, Spells};
ghost use Rattle.brc_model.specs.Paths.{IsAcceptable};
ghost use Rattle.brc_schedule.specs.Text as schedules;
ghost use Rattle.brc_command.specs.Texts.{IsTextFault, IsPlanFault, IsCheckFault};

use crate::step_fault::StepFault;
use brc_check::{CheckCode, Checked, check};
use brc_lang::{FaultCode, Module, read};
use brc_schedule::{Schedule, read_schedule};
use std::alloc::Global;

/// Reads the module that the bytes spell. Returns `Text` or `NoMemory`.
pub fn module_of(alloc: Global, bytes: &[u8]) -> Result<Module, StepFault>
    ensures { MatchResult result (λ m. Spells bytes.now m) (λ e. IsTextFault bytes.now e) }
{
    match read(alloc, bytes) {
        Ok(module) => Ok(module),
        Err(fault) => match fault.code {
            FaultCode::NoMemory => Err(StepFault::NoMemory),
            _ => Err(StepFault::Text(fault)),
        },
    }
}

/// Reads the schedule that the bytes spell. Returns `Plan` or `NoMemory`.
pub fn schedule_of(alloc: Global, bytes: &[u8]) -> Result<Schedule, StepFault>
    ensures { MatchResult result (λ s. schedules.Spells bytes.now s) (λ e. IsPlanFault bytes.now e) }
{
    match read_schedule(alloc, bytes) {
        Ok(schedule) => Ok(schedule),
        Err(fault) => match fault.code {
            FaultCode::NoMemory => Err(StepFault::NoMemory),
            _ => Err(StepFault::Plan(fault)),
        },
    }
}

/// Checks the module. Returns `Refused` or `NoMemory`.
pub fn accepted(alloc: Global, module: Module) -> Result<Checked, StepFault>
    requires { IsModule «module» }
    ensures { MatchResult result (λ c. (c.module ≡ «module») × IsAcceptable «module») (λ e. IsCheckFault «module» e) }
{
    match check(alloc, module) {
        Ok(checked) => Ok(checked),
        Err(refused) => match refused.code {
            CheckCode::NoMemory => Err(StepFault::NoMemory),
            _ => Err(StepFault::Refused(refused)),
        },
    }
}
