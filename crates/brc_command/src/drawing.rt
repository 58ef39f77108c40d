//! The picture of a schedule's run over a module, both given as texts: an SVG document, which is saved once the trace
//! is written.

ghost use Rattle.std.specs.Prelude.{◌≡◌, ◌⊎◌, IfErr, OnOk};
ghost use Rattle.brc_model.specs.Safety.{AreCalls};
ghost use Rattle.brc_schedule.specs.Text.{IsSchedule};
ghost use Rattle.brc_command.specs.declared.step_fault.StepFault.TheVariants.{Output};
ghost use Rattle.brc_command.specs.Calls.{calls_of};
ghost use Rattle.brc_command.specs.Commands.{Reports, HasTraceReport, IsStepReason, LeavesTrace};
ghost use Rattle.brc_command.specs.Texts.{IsFaultOfTexts};
ghost use Rattle.brc_command.specs.Traces.{TracesTo, LeavesTraceOf};

use crate::carrying::read_standard_input_twice;
use crate::load::Load;
use crate::loading::{load_module, load_schedule};
use crate::ready::ready_of;
use crate::save::Save;
use crate::step_fault::StepFault;
use crate::stop::Stop;
use crate::tracing::trace_text_in;
use brc_check::Checked;
use brc_model::Call;
use brc_picture::{see_run, svg_text};
use brc_report::Paint;
use brc_schedule::Schedule;
use brc_world::{NoMemory, World};
use std::alloc::Global;
use std::io::Write;

/// Does what a trace of the two files does, and saves the picture of the run.
///
/// The picture is made before anything is written, and saved after all else. Returns `Output` also if it can't be
/// saved.
pub fn draw_files<'a, L: Load + Save, W: Write>(
    alloc: Global,
    file: &'a str,
    schedule: &'a str,
    picture: &str,
    paint: Paint,
    load: &mut L,
    out: &mut W,
) -> Result<(), Stop<'a>>
    ensures reported { OnOk result (Reports (HasTraceReport (L.may_give load.old) paint file.now schedule.now)
        (W.contents out.old) (W.contents out.new)) }
    ensures stopped { IfErr result (IsStepReason (L.may_give load.old)
        (L.may_lack load.old) file.now schedule.now) }
    ensures left { IfErr result (λ e. LeavesTrace
        (HasTraceReport (L.may_give load.old) paint file.now schedule.now) e
        (W.contents out.old) (W.contents out.new)) }
{
    if read_standard_input_twice(file, schedule) {
        return Err(Stop::UnreadableFile);
    }
    let module = load_module(alloc, file, load)?;
    let schedule = load_schedule(alloc, schedule, load)?;
    match draw_texts(
        alloc,
        module.as_slice(),
        schedule.as_slice(),
        picture,
        paint,
        load,
        out,
    ) {
        Ok(()) => Ok(()),
        Err(fault) => Err(Stop::Fault(fault)),
    }
}

/// Traces the run of the texts, and saves its picture.
#[tactic(auto, using(crate::proofs::Drawn::nothing_left, crate::proofs::Drawn::whole_left))]
fn draw_texts<S: Save, W: Write>(
    alloc: Global,
    module: &[u8],
    schedule: &[u8],
    picture: &str,
    paint: Paint,
    save: &mut S,
    out: &mut W,
) -> Result<(), StepFault>
    ensures traced { OnOk result (TracesTo paint module.now schedule.now (W.contents out.old) (W.contents out.new)) }
    ensures fault { IfErr result (λ e. (e ≡ Output) ⊎ IsFaultOfTexts module.now schedule.now e) }
    ensures left { IfErr result (λ e. LeavesTraceOf paint module.now schedule.now e (W.contents out.old)
        (W.contents out.new)) }
{
    let svg = match picture_text(alloc, module, schedule) {
        Ok(svg) => svg,
        Err(fault) => return Err(fault),
    };
    match trace_text_in(alloc, module, schedule, paint, out) {
        Ok(()) => {}
        Err(fault) => return Err(fault),
    }
    match save.save(picture, svg.as_slice()) {
        Ok(()) => Ok(()),
        Err(_) => Err(StepFault::Output),
    }
}

/// Returns the picture of the schedule's run over the module.
///
/// Returns the first reason why it can't: the module's text, the schedule's text, the check, a function's name, memory.
pub fn picture_text(alloc: Global, module: &[u8], schedule: &[u8]) -> Result<Vec<u8>, StepFault>
    ensures { IfErr result (λ e. IsFaultOfTexts module.now schedule.now e) }
{
    let ready = ready_of(alloc, module, schedule)?;
    let calls = ready.calls.as_slice();
    let svg = drawn(alloc, &ready.checked, &ready.schedule, calls)?;
    Ok(svg)
}

fn drawn(
    alloc: Global,
    checked: &Checked,
    schedule: &Schedule,
    calls: &[Call],
) -> Result<Vec<u8>, NoMemory>
    requires fits { IsSchedule schedule.now }
    requires found { calls.now ≡ calls_of checked.now.module schedule.now.calls }
    requires calls_fit { AreCalls checked.now.module calls.now }
{
    let workers = usize::from(schedule.workers);
    let mut world = World::new(alloc, checked, workers, schedule.rows, calls)?;
    let seen = see_run(alloc, checked.module(), &mut world, schedule)?;
    let functions = checked.module().functions.as_slice();
    Ok(svg_text(alloc, functions, &seen, None)?)
}
