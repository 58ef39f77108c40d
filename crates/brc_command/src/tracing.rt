//! The trace of a schedule over a module, both given as texts, and then the report.

ghost use Rattle.std.specs.Prelude.{◌≡◌, ◌⊎◌, IfErr, OnOk, OnErr};
ghost use Rattle.std.specs.Io.KnownBytes.{Appends};
ghost use Rattle.brc_lang.specs.Written.{AppendsBeginning};
ghost use Rattle.brc_model.specs.Safety.{AreCalls};
ghost use Rattle.brc_report.specs.declared.paint.Paint.TheVariants.{Plain};
ghost use Rattle.brc_schedule.specs.Text.{IsSchedule};
ghost use Rattle.brc_command.specs.declared.step_fault.StepFault.TheVariants.{NoMemory as MemoryRefused, Output};
ghost use Rattle.brc_command.specs.Calls.{calls_of};
ghost use Rattle.brc_command.specs.Texts.{IsFaultOfTexts};
ghost use Rattle.brc_command.specs.Traces.{traced_report, TracesTo, LeavesTraceOf};

use crate::ready::ready_of;
use crate::step_fault::StepFault;
use brc_check::Checked;
use brc_model::Call;
use brc_report::{Paint, write_tally};
use brc_schedule::Schedule;
use brc_trace::trace;
use brc_world::{World, runs_follow_machines, tallies_follow_machines};
use std::alloc::Global;
use std::io::Write;

/// Makes the schedule's steps over the module, writes a line for each of them, and then the report of the world.
///
/// Returns the first reason why it can't: the module's text, the schedule's text, the check, a function's name, memory,
/// the writer. A beginning of the lines and the report has been written if memory was refused or the writer returned an
/// error, and nothing otherwise.
pub fn trace_text<W: Write>(
    alloc: Global,
    module: &[u8],
    schedule: &[u8],
    out: &mut W,
) -> Result<(), StepFault>
    ensures traced { OnOk result (TracesTo Plain module.now schedule.now (W.contents out.old) (W.contents out.new)) }
    ensures fault { IfErr result (λ e. (e ≡ Output) ⊎ IsFaultOfTexts module.now schedule.now e) }
    ensures left { IfErr result (λ e. LeavesTraceOf Plain module.now schedule.now e (W.contents out.old)
        (W.contents out.new)) }
{
    trace_text_in(alloc, module, schedule, Paint::Plain, out)
}

/// Does what `trace_text` does, with the marks of the paint in the lines.
pub fn trace_text_in<W: Write>(
    alloc: Global,
    module: &[u8],
    schedule: &[u8],
    paint: Paint,
    out: &mut W,
) -> Result<(), StepFault>
    ensures traced { OnOk result (TracesTo paint module.now schedule.now (W.contents out.old) (W.contents out.new)) }
    ensures fault { IfErr result (λ e. (e ≡ Output) ⊎ IsFaultOfTexts module.now schedule.now e) }
    ensures left { IfErr result (λ e. LeavesTraceOf paint module.now schedule.now e (W.contents out.old)
        (W.contents out.new)) }
{
    runs_follow_machines();
    tallies_follow_machines();
    let ready = ready_of(alloc, module, schedule)?;
    let calls = ready.calls.as_slice();
    write_traced(alloc, &ready.checked, &ready.schedule, calls, paint, out)
}

fn write_traced<W: Write>(
    alloc: Global,
    checked: &Checked,
    schedule: &Schedule,
    calls: &[Call],
    paint: Paint,
    out: &mut W,
) -> Result<(), StepFault>
    requires fits { IsSchedule schedule.now }
    requires found { calls.now ≡ calls_of checked.now.module schedule.now.calls }
    requires calls_fit { AreCalls checked.now.module calls.now }
    ensures whole { OnOk result (Appends (W.contents out.old) (W.contents out.new)
        (traced_report paint checked.now schedule.now)) }
    ensures fault { IfErr result (λ e. (e ≡ Output) ⊎ (e ≡ MemoryRefused)) }
    ensures begun { OnErr result (AppendsBeginning (W.contents out.old) (W.contents out.new)
        (traced_report paint checked.now schedule.now)) }
{
    let workers = usize::from(schedule.workers);
    let mut world = World::new(alloc, checked, workers, schedule.rows, calls)?;
    trace(alloc, checked.module(), &mut world, schedule, paint, out)?;
    let tally = world.tally()?;
    match write_tally(&tally, out) {
        Ok(()) => Ok(()),
        Err(_) => Err(StepFault::Output),
    }
}
