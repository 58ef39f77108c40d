//! An accepted module with a schedule of its calls, both read from their texts.

ghost use Rattle.std.specs.Prelude.{◌≡◌, IfErr, IfOk};
ghost use Rattle.brc_model.specs.Safety.{AreCalls};
ghost use Rattle.brc_schedule.specs.Text.{IsSchedule};
ghost use Rattle.brc_command.specs.Calls.{calls_of};
ghost use Rattle.brc_command.specs.Texts.{IsFaultOfTexts, IsReady};

use crate::calls::calls_of;
use crate::step_fault::StepFault;
use crate::texts::{accepted, module_of, schedule_of};
use brc_check::Checked;
use brc_model::Call;
use brc_schedule::Schedule;
use std::alloc::Global;

/// An accepted module, a schedule, and the schedule's calls.
#[derive(Drop)]
pub struct Ready {
    pub checked: Checked,
    pub schedule: Schedule,
    pub calls: Vec<Call>,
}

/// Returns what the two texts spell.
///
/// Returns the first reason why it can't: the module's text, the schedule's text, the check, a function's name, memory.
pub fn ready_of(alloc: Global, module: &[u8], schedule: &[u8]) -> Result<Ready, StepFault>
    ensures ready { IfOk result (λ r. IsReady module.now schedule.now r.checked r.schedule) }
    ensures fits { IfOk result (λ r. IsSchedule r.schedule) }
    ensures found { IfOk result (λ r. r.calls.items ≡ calls_of r.checked.module r.schedule.calls) }
    ensures calls_fit { IfOk result (λ r. AreCalls r.checked.module r.calls.items) }
    ensures fault { IfErr result (λ e. IsFaultOfTexts module.now schedule.now e) }
{
    let module = module_of(alloc, module)?;
    let schedule = schedule_of(alloc, schedule)?;
    let checked = accepted(alloc, module)?;
    checked.states_are_true();
    let calls = calls_of(alloc, checked.module(), &schedule)?;
    Ok(Ready {
        checked,
        schedule,
        calls,
    })
}
