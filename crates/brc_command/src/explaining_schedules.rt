//! The explanation of a schedule's text. It is made before any of it is written, so that want of memory leaves nothing
//! behind.

ghost use Rattle.std.specs.Prelude.{None, IfOk, IfErr, OnOk};
ghost use Rattle.brc_command.specs.Commands.{Reports, LeavesExplanation};
ghost use Rattle.brc_command.specs.ScheduleExplanations.{HasScheduleExplanation, IsScheduleExplained};
ghost use Rattle.brc_command.specs.ScheduleExplanations.{IsScheduleReason};

use crate::explainer::Explain;
use crate::explaining::{Explanation, write_text};
use crate::load::Load;
use crate::loading::load_schedule;
use crate::step_fault::StepFault;
use crate::stop::Stop;
use crate::texts::schedule_of;
use brc_report::Paint;
use brc_world::NoMemory;
use std::alloc::Global;
use std::io::Write;

/// Writes the explanation of the file's schedule, also if its text can't be read.
pub fn explain_schedule_file<'a, L: Load, X: Explain, W: Write>(
    alloc: Global,
    file: &'a str,
    paint: Paint,
    load: &mut L,
    explainer: &X,
    out: &mut W,
) -> Result<(), Stop<'a>>
    ensures reported { OnOk result (Reports (HasScheduleExplanation (X.says explainer.now paint) (L.may_give load.old)
        file.now None) (W.contents out.old) (W.contents out.new)) }
    ensures stopped { IfErr result (IsScheduleReason (L.may_give load.old) (L.may_lack load.old) file.now) }
    ensures left { IfErr result (λ e. LeavesExplanation (HasScheduleExplanation (X.says explainer.now paint)
        (L.may_give load.old) file.now) e (W.contents out.old) (W.contents out.new)) }
{
    let bytes = load_schedule(alloc, file, load)?;
    match schedule_explanation(alloc, bytes.as_slice(), paint, explainer) {
        Ok(Explanation { text, fault }) => {
            let written = write_text(text.as_slice(), out);
            // The fault is the reason also if the explanation can't be written.
            if let Some(fault) = fault {
                return Err(Stop::Fault(fault));
            }
            if written.is_err() {
                return Err(Stop::Fault(StepFault::Output));
            }
            Ok(())
        }
        Err(_) => Err(Stop::Fault(StepFault::NoMemory)),
    }
}

/// Explains the schedule that the bytes spell, or why they spell none. Returns `NoMemory`.
fn schedule_explanation<X: Explain>(
    alloc: Global,
    bytes: &[u8],
    paint: Paint,
    explainer: &X,
) -> Result<Explanation, NoMemory>
    ensures explained { IfOk result (λ e. IsScheduleExplained (X.says explainer.now paint) bytes.now e.fault
        e.text.items) }
{
    match schedule_of(alloc, bytes) {
        Ok(_) => Ok(Explanation {
            text: explainer.schedule(alloc, bytes, None, paint)?,
            fault: None,
        }),
        Err(StepFault::Plan(fault)) => Ok(Explanation {
            text: explainer.schedule(alloc, bytes, Some(fault), paint)?,
            fault: Some(StepFault::Plan(fault)),
        }),
        Err(_) => Err(NoMemory),
    }
}
