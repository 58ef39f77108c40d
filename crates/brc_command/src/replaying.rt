//! The schedule of a file over the module of another, which the checker may refuse.

ghost use Rattle.std.specs.Prelude.{◌≡◌, ◌⊎◌, is_some, IfErr, IfOk};
ghost use Rattle.brc_lang.specs.Grammar.{IsModule};
ghost use Rattle.brc_command.specs.declared.step_fault.StepFault.TheVariants.{NoMemory as MemoryRefused, Output};
ghost use Rattle.brc_command.specs.Reruns.{Fits, RunEnds};
ghost use Rattle.brc_command.specs.Texts.{IsListFault};
ghost use Rattle.brc_command.specs.WholeRuns.{IsReplayFault, IsReplayReason};
ghost use Rattle.brc_command.specs.WrongRuns.{FilesEnd, PlanEnds, TextsEnd};

use crate::carrying::read_standard_input_twice;
use crate::drawing_unchecked::with_picture;
use crate::endings::Ending;
use crate::listed::listed_of;
use crate::load::Load;
use crate::loading::{load_module, load_schedule};
use crate::rerun::{Rerun, rerun_to_end};
use crate::save::Save;
use crate::step_fault::StepFault;
use crate::stop::Stop;
use crate::terminal::Terminal;
use crate::texts::module_of;
use brc_lang::Module;
use brc_report::Paint;
use std::alloc::Global;
use std::io::Write;

/// Takes the steps of the schedule over the module, which the checker may refuse, up to the first that is wrong. It
/// writes a line for each step, if the trace is asked for, and the report once all steps are taken. If there is a file
/// for a picture of the run, it is saved there after that.
///
/// Returns the first reason why it can't: a file, the texts, a function's name, memory, output.
pub fn replay<'a, L: Load + Save, T: Terminal, W: Write>(
    alloc: Global,
    file: &'a str,
    schedule: &'a str,
    trace: bool,
    picture: Option<&str>,
    load: &mut L,
    terminal: &mut T,
    out: &mut W,
) -> Result<Ending, Stop<'a>>
    ensures ended { IfOk result (FilesEnd (L.may_give load.old) file.now schedule.now trace (W.contents out.old)
        (W.contents out.new)) }
    ensures stopped { IfErr result (IsReplayReason (L.may_give load.old) (L.may_lack load.old) file.now schedule.now) }
{
    if read_standard_input_twice(file, schedule) {
        return Err(Stop::UnreadableFile);
    }
    let module_text = load_module(alloc, file, load)?;
    let schedule_text = load_schedule(alloc, schedule, load)?;
    let text = module_text.as_slice();
    let plan = schedule_text.as_slice();
    match replay_texts(alloc, text, plan, trace, picture, load, terminal, out) {
        Ok(ending) => Ok(ending),
        Err(fault) => Err(Stop::Fault(fault)),
    }
}

/// Does what `replay` does, of the two texts.
fn replay_texts<S: Save, T: Terminal, W: Write>(
    alloc: Global,
    text: &[u8],
    plan: &[u8],
    trace: bool,
    picture: Option<&str>,
    save: &mut S,
    terminal: &mut T,
    out: &mut W,
) -> Result<Ending, StepFault>
    ensures ended { IfOk result (TextsEnd text.now plan.now trace (W.contents out.old) (W.contents out.new)) }
    ensures fault { IfErr result (IsReplayFault text.now plan.now) }
{
    let module = module_of(alloc, text)?;
    replay_plan(alloc, &module, plan, trace, picture, save, terminal, out)
}

/// Does what `replay` does, of the module and the schedule's text.
fn replay_plan<S: Save, T: Terminal, W: Write>(
    alloc: Global,
    module: &Module,
    plan: &[u8],
    trace: bool,
    picture: Option<&str>,
    save: &mut S,
    terminal: &mut T,
    out: &mut W,
) -> Result<Ending, StepFault>
    requires fits { IsModule «module».now }
    ensures ended { IfOk result (PlanEnds «module».now plan.now trace (W.contents out.old) (W.contents out.new)) }
    ensures fault { IfErr result (λ e. (e ≡ Output) ⊎ IsListFault «module».now plan.now e) }
{
    let listed = listed_of(alloc, module, plan)?;
    let rerun = Rerun {
        module,
        rows: listed.schedule.rows,
        calls: listed.calls.as_slice(),
        events: listed.events.as_slice(),
        trace: paint_for(trace, terminal),
    };
    replay_run(alloc, &rerun, picture, save, terminal, out)
}

/// Returns how the lines of the steps are painted, if the trace is asked for.
fn paint_for<T: Terminal>(trace: bool, terminal: &T) -> Option<Paint>
    ensures { is_some result ≡ trace }
{
    if trace { Some(terminal.paint()) } else { None }
}

/// Does what `replay` does, of the run.
fn replay_run<S: Save, T: Terminal, W: Write>(
    alloc: Global,
    rerun: &Rerun<'_>,
    picture: Option<&str>,
    save: &mut S,
    terminal: &mut T,
    out: &mut W,
) -> Result<Ending, StepFault>
    requires fits { Fits rerun.now }
    ensures ended { IfOk result (RunEnds rerun.now (W.contents out.old) (W.contents out.new)) }
    ensures fault { IfErr result (λ e. (e ≡ Output) ⊎ (e ≡ MemoryRefused)) }
{
    let ending = rerun_to_end(alloc, rerun, terminal, out)?;
    with_picture(alloc, rerun, ending, picture, save)
}
