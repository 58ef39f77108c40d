//! The commands over a loader and writers.

ghost use Rattle.std.specs.Prelude.{◌≡◌, ◌≢◌, ◌≤◌, true, false, None, IsSome, IsNone, IfSome, IfOk, IfErr, OnOk, IsErrOf};
ghost use Rattle.std.specs.Prelude.{ℕ, List};
ghost use Rattle.std.specs.Prelude.{MatchResult, option_map};
ghost use Rattle.brc_model.specs.Safety.{IsCall};
ghost use Rattle.brc_command.specs.declared.stop.Stop.TheVariants.{Fault};
ghost use Rattle.brc_command.specs.declared.step_fault.StepFault.TheVariants.{Output};
ghost use Rattle.brc_command.specs.Calls.{calls_named, can_call};
ghost use Rattle.brc_command.specs.Commands.{Reports, BeginsReport, HasCheckReport, HasRunReport, HasStepReport};
ghost use Rattle.brc_command.specs.Commands.{HasReport, IsModuleReason, IsRunReason, IsStepReason, IsReason};
ghost use Rattle.brc_command.specs.Commands.{IsDone, IsStopped, IsModuleFault, HasExplanation, IsExplainReason};
ghost use Rattle.brc_command.specs.Commands.{IsPageReason, LeavesExplanation, ProgramLeaves, HasReportBy, LeavesBy};
ghost use Rattle.brc_command.specs.Commands.{HasTraceReport, LeavesTrace, IsStandardInput};
ghost use Rattle.brc_command.specs.Explanations.{Code, IsAccepted};
ghost use Rattle.brc_report.specs.declared.paint.Paint.TheVariants.{Plain};

use crate::accepted::write_accepted;
use crate::asked::{Asked, Run};
use crate::calls::number_of_callable;
use crate::drawing::draw_files;
use crate::explainer::{Explain, Explainer};
use crate::explaining::{Explanation, explanation_of, write_text};
use crate::explaining_schedules::explain_schedule_file;
use crate::lines::{write_stop, write_version};
use crate::load::{Load, STANDARD_INPUT};
use crate::loading::{load_module, load_schedule};
use crate::save::Save;
use crate::step_fault::StepFault;
use crate::stepping::step_text_on;
use crate::stop::Stop;
use crate::terminal::{NoTerminal, Terminal};
use crate::texts::{accepted, module_of};
use crate::tracing::trace_text_in;
use brc_check::Checked;
use brc_lang::{Module, write_bytes};
use brc_model::Call;
use brc_pages::Topic;
use brc_report::{Paint, write_tally};
use brc_run::{Plan, System, run_on_system};
use brc_table::Contention;
use std::alloc::Global;
use std::io::Write;

/// Carries out the request and returns the exit status: 0, or that of `Stop::status`. Nobody watches: no text is
/// coloured, and no progress is shown.
///
/// If the status isn't 0, a line on standard error gives the reason. An error of standard error is ignored.
pub fn execute<R: System, L: Load + Save, W: Write, E: Write>(
    rt: &R,
    alloc: Global,
    asked: &Asked<'_>,
    load: &mut L,
    out: &mut W,
    err: &mut E,
) -> u8
    ensures known { result ≤ 3 }
    ensures done { result ≡ 0 → IsDone (HasReport (L.may_give load.old) Plain asked.now) (W.contents out.old)
        (W.contents out.new) (E.contents err.old) (E.contents err.new) }
    ensures stopped { result ≢ 0 → IsStopped
        (IsReason (L.may_give load.old) (L.may_lack load.old) asked.now)
        (ProgramLeaves (L.may_give load.old) Plain asked.now) (W.contents out.old) (W.contents out.new)
        (E.contents err.old) (E.contents err.new) result }
{
    execute_on(rt, alloc, asked, load, &mut NoTerminal, out, err)
}

/// Does what `execute` does, before somebody at a terminal.
pub fn execute_on<R: System, L: Load + Save, T: Terminal, W: Write, E: Write>(
    rt: &R,
    alloc: Global,
    asked: &Asked<'_>,
    load: &mut L,
    terminal: &mut T,
    out: &mut W,
    err: &mut E,
) -> u8
    ensures known { result ≤ 3 }
    ensures done { result ≡ 0 → IsDone (HasReport (L.may_give load.old) (T.paint_of terminal.old) asked.now)
        (W.contents out.old) (W.contents out.new) (E.contents err.old) (E.contents err.new) }
    ensures stopped { result ≢ 0 → IsStopped
        (IsReason (L.may_give load.old) (L.may_lack load.old) asked.now)
        (ProgramLeaves (L.may_give load.old) (T.paint_of terminal.old) asked.now) (W.contents out.old)
        (W.contents out.new)
        (E.contents err.old) (E.contents err.new) result }
{
    match carry_out(rt, alloc, asked, load, terminal, &Explainer, out) {
        Ok(()) => 0,
        Err(stop) => {
            let _ = write_stop(&stop, err);
            stop.status()
        }
    }
}

/// Carries out the request and writes its report. What it explains is the whole text that the explainer gives.
///
/// Returns the first reason from the top why it can't: a file, the texts, the check, a function's name, memory, output.
pub fn carry_out<'a, R: System, L: Load + Save, T: Terminal, X: Explain, W: Write>(
    rt: &R,
    alloc: Global,
    asked: &Asked<'a>,
    load: &mut L,
    terminal: &mut T,
    explainer: &X,
    out: &mut W,
) -> Result<(), Stop<'a>>
    ensures reported { OnOk result (Reports (HasReportBy (X.says explainer.now (T.paint_of terminal.old))
        (L.may_give load.old) (T.paint_of terminal.old) asked.now) (W.contents out.old) (W.contents out.new)) }
    ensures stopped { IfErr result (IsReason (L.may_give load.old) (L.may_lack load.old) asked.now) }
    ensures left { IfErr result (λ e. LeavesBy (X.says explainer.now (T.paint_of terminal.old)) (L.may_give load.old)
        (T.paint_of terminal.old) asked.now e (W.contents out.old) (W.contents out.new)) }
{
    let paint = terminal.paint();
    match asked {
        Asked::Run(asked) => run_uncounted(rt, alloc, asked, load, terminal, out),
        Asked::Check { file } => check_file(alloc, file, load, out),
        Asked::Step {
            file,
            schedule,
            trace: false,
        } => step_files(alloc, file, schedule, load, terminal, out),
        Asked::Step { file, schedule, .. } => {
            trace_files(alloc, file, schedule, paint, load, out)
        }
        Asked::Draw {
            file,
            schedule,
            picture,
        } => draw_files(alloc, file, schedule, picture, paint, load, out),
        Asked::Explain { file, function } => {
            explain_file(alloc, file, *function, paint, load, explainer, out)
        }
        Asked::ExplainSchedule { file } => {
            explain_schedule_file(alloc, file, paint, load, explainer, out)
        }
        Asked::Page { topic } => explain_topic(alloc, *topic, paint, explainer, out),
        Asked::Version => match write_version(out) {
            Ok(()) => Ok(()),
            Err(_) => Err(Stop::Fault(StepFault::Output)),
        },
    }
}

/// Runs, and drops how often the threads have met.
fn run_uncounted<'a, R: System, L: Load, T: Terminal, W: Write>(
    rt: &R,
    alloc: Global,
    asked: &Run<'a>,
    load: &mut L,
    terminal: &mut T,
    out: &mut W,
) -> Result<(), Stop<'a>>
    ensures reported { OnOk result (Reports (HasRunReport (L.may_give load.old) asked.now) (W.contents out.old)
        (W.contents out.new)) }
    ensures stopped { IfErr result (IsRunReason (L.may_give load.old) (L.may_lack load.old) asked.now) }
    ensures unwritten { IfErr result (λ e. e ≢ Fault Output → W.contents out.new ≡ W.contents out.old) }
    ensures begun { IsErrOf result (Fault Output) → BeginsReport (HasRunReport (L.may_give load.old) asked.now)
        (W.contents out.old) (W.contents out.new) }
{
    match run_file(rt, alloc, asked, load, terminal, out) {
        Ok(_) => Ok(()),
        Err(stop) => Err(stop),
    }
}

/// Runs, and writes the report. Returns how often the threads have met.
pub(crate) fn run_file<'a, R: System, L: Load, T: Terminal, W: Write>(
    rt: &R,
    alloc: Global,
    asked: &Run<'a>,
    load: &mut L,
    terminal: &mut T,
    out: &mut W,
) -> Result<Contention, Stop<'a>>
    ensures reported { OnOk result (Reports (HasRunReport (L.may_give load.old) asked.now) (W.contents out.old)
        (W.contents out.new)) }
    ensures stopped { IfErr result (IsRunReason (L.may_give load.old) (L.may_lack load.old) asked.now) }
    ensures unwritten { IfErr result (λ e. e ≢ Fault Output → W.contents out.new ≡ W.contents out.old) }
    ensures begun { IsErrOf result (Fault Output) → BeginsReport (HasRunReport (L.may_give load.old) asked.now)
        (W.contents out.old) (W.contents out.new) }
{
    let checked = match checked_file(alloc, asked.file, load) {
        Ok(checked) => checked,
        Err(stop) => return Err(stop),
    };
    let Some(call) = call_of(checked.module(), asked) else {
        return Err(Stop::NoFunction(asked.function));
    };
    let plan = Plan {
        call,
        steps: asked.steps,
        threads: asked.threads as u8,
        rows: asked.rows,
    };
    let ran = run_on_system(
        rt,
        alloc,
        &checked,
        plan,
        asked.paths,
        asked.peers,
        &*terminal,
    );
    terminal.clear();
    let counted = ran?;
    match write_tally(&counted.tally, out) {
        Ok(()) => Ok(counted.contention),
        Err(_) => Err(Stop::Fault(StepFault::Output)),
    }
}

fn check_file<'a, L: Load, W: Write>(
    alloc: Global,
    file: &'a str,
    load: &mut L,
    out: &mut W,
) -> Result<(), Stop<'a>>
    ensures reported { OnOk result (Reports (HasCheckReport (L.may_give load.old) file.now) (W.contents out.old)
        (W.contents out.new)) }
    ensures stopped { IfErr result (IsModuleReason (L.may_give load.old) (L.may_lack load.old) file.now) }
    ensures unwritten { IfErr result (λ e. e ≢ Fault Output → W.contents out.new ≡ W.contents out.old) }
    ensures begun { IsErrOf result (Fault Output) → BeginsReport (HasCheckReport (L.may_give load.old) file.now)
        (W.contents out.old) (W.contents out.new) }
{
    let checked = match checked_file(alloc, file, load) {
        Ok(checked) => checked,
        Err(stop) => return Err(stop),
    };
    match write_accepted(&checked, out) {
        Ok(()) => Ok(()),
        Err(_) => Err(Stop::Fault(StepFault::Output)),
    }
}

/// Returns whether both files are standard input, which can be loaded only once.
pub fn read_standard_input_twice(file: &str, schedule: &str) -> bool
    ensures twice { result ≡ true → IsStandardInput file.now × IsStandardInput schedule.now }
    ensures apart { result ≡ false → IsStandardInput file.now → IsStandardInput schedule.now → ⊥ }
{
    file == STANDARD_INPUT && schedule == STANDARD_INPUT
}

// Both files are loaded before anything is said of either.
fn step_files<'a, L: Load, T: Terminal, W: Write>(
    alloc: Global,
    file: &'a str,
    schedule: &'a str,
    load: &mut L,
    terminal: &mut T,
    out: &mut W,
) -> Result<(), Stop<'a>>
    ensures reported { OnOk result (Reports (HasStepReport (L.may_give load.old) file.now schedule.now)
        (W.contents out.old) (W.contents out.new)) }
    ensures stopped { IfErr result (IsStepReason (L.may_give load.old)
        (L.may_lack load.old) file.now schedule.now) }
    ensures unwritten { IfErr result (λ e. e ≢ Fault Output → W.contents out.new ≡ W.contents out.old) }
    ensures begun { IsErrOf result (Fault Output) → BeginsReport
        (HasStepReport (L.may_give load.old) file.now schedule.now) (W.contents out.old) (W.contents out.new) }
{
    if read_standard_input_twice(file, schedule) {
        return Err(Stop::UnreadableFile);
    }
    let module = load_module(alloc, file, load)?;
    let schedule = load_schedule(alloc, schedule, load)?;
    match step_text_on(alloc, module.as_slice(), schedule.as_slice(), terminal, out) {
        Ok(()) => Ok(()),
        Err(fault) => Err(Stop::Fault(fault)),
    }
}

// The files are loaded as in `step_files`.
fn trace_files<'a, L: Load, W: Write>(
    alloc: Global,
    file: &'a str,
    schedule: &'a str,
    paint: Paint,
    load: &mut L,
    out: &mut W,
) -> Result<(), Stop<'a>>
    ensures reported { OnOk result (Reports (HasTraceReport (L.may_give load.old) paint file.now schedule.now)
        (W.contents out.old) (W.contents out.new)) }
    ensures stopped { IfErr result (IsStepReason (L.may_give load.old)
        (L.may_lack load.old) file.now schedule.now) }
    ensures left { IfErr result (λ e. LeavesTrace
        (HasTraceReport (L.may_give load.old) paint file.now schedule.now) e
        (W.contents out.old) (W.contents out.new)) }
{
    if read_standard_input_twice(file, schedule) {
        return Err(Stop::UnreadableFile);
    }
    let module = load_module(alloc, file, load)?;
    let schedule = load_schedule(alloc, schedule, load)?;
    match trace_text_in(alloc, module.as_slice(), schedule.as_slice(), paint, out) {
        Ok(()) => Ok(()),
        Err(fault) => Err(Stop::Fault(fault)),
    }
}

/// Writes the explanation of the file's module, also if its text can't be read or the checker refuses it.
fn explain_file<'a, L: Load, X: Explain, W: Write>(
    alloc: Global,
    file: &'a str,
    function: Option<&'a str>,
    paint: Paint,
    load: &mut L,
    explainer: &X,
    out: &mut W,
) -> Result<(), Stop<'a>>
    ensures reported { OnOk result (Reports (HasExplanation (X.says explainer.now paint) (L.may_give load.old) file.now
        (option_map (λ name. name.now) function.entry) None) (W.contents out.old) (W.contents out.new)) }
    ensures stopped { IfErr result (IsExplainReason (L.may_give load.old) (L.may_lack load.old) file.now
        (option_map (λ name. name.now) function.entry)) }
    ensures left { IfErr result (λ e. LeavesExplanation (HasExplanation (X.says explainer.now paint)
        (L.may_give load.old) file.now (option_map (λ name. name.now) function.entry)) e (W.contents out.old)
        (W.contents out.new)) }
{
    let bytes = load_module(alloc, file, load)?;
    match explanation_of(alloc, bytes.as_slice(), function, paint, explainer) {
        Ok(Explanation { text, fault }) => {
            let written = write_text(text.as_slice(), out);
            // The refusal is the reason also if the explanation can't be written.
            if let Some(fault) = fault {
                return Err(Stop::Fault(fault));
            }
            if written.is_err() {
                return Err(Stop::Fault(StepFault::Output));
            }
            Ok(())
        }
        Err(stop) => Err(stop),
    }
}

/// Writes the page of a code.
fn explain_topic<'a, X: Explain, W: Write>(
    alloc: Global,
    topic: Topic,
    paint: Paint,
    explainer: &X,
    out: &mut W,
) -> Result<(), Stop<'a>>
    ensures reported { OnOk result (Reports (X.says explainer.now paint (Code topic)) (W.contents out.old)
        (W.contents out.new)) }
    ensures stopped { IfErr result IsPageReason }
    ensures unwritten { IfErr result (λ e. e ≢ Fault Output → W.contents out.new ≡ W.contents out.old) }
    ensures begun { IsErrOf result (Fault Output) → BeginsReport (X.says explainer.now paint (Code topic))
        (W.contents out.old) (W.contents out.new) }
{
    let page = explainer.page(alloc, topic, paint)?;
    match write_bytes(page.as_slice(), out) {
        Ok(()) => Ok(()),
        Err(_) => Err(Stop::Fault(StepFault::Output)),
    }
}

/// Loads, reads and checks the module of the file.
pub fn checked_file<'a, L: Load>(
    alloc: Global,
    file: &'a str,
    load: &mut L,
) -> Result<Checked, Stop<'a>>
    ensures accepted { IfOk result (λ c. (text : List ℕ) × L.may_give load.old file.now text
        × IsAccepted text c.module) }
    ensures stopped { IfErr result (IsModuleReason (L.may_give load.old) (L.may_lack load.old) file.now) }
    ensures silent { IfErr result (λ e. e ≢ Fault Output) }
    ensures gives_no_more { (p bytes : List ℕ) → L.may_give load.new p bytes → L.may_give load.old p bytes }
    ensures lacks_no_more { (p : List ℕ) → L.may_lack load.new p → L.may_lack load.old p }
{
    let bytes = load_module(alloc, file, load)?;
    Ok(checked(alloc, bytes.as_slice())?)
}

/// Reads and checks the module of the text.
pub fn checked(alloc: Global, bytes: &[u8]) -> Result<Checked, StepFault>
    ensures { MatchResult result (λ c. IsAccepted bytes.now c.module) (λ e. IsModuleFault bytes.now e) }
{
    let module = module_of(alloc, bytes)?;
    accepted(alloc, module)
}

/// Returns the call that the command line asks for, or `None` if the module has no function that can be called so.
fn call_of(module: &Module, asked: &Run) -> Option<Call>
    ensures found { IfSome result (λ call. call ≡ calls_named «module».now asked.now.function.now asked.now.times) }
    ensures known { IsSome result → can_call «module».now asked.now.function.now ≡ true }
    ensures unknown { IsNone result → can_call «module».now asked.now.function.now ≡ false }
    ensures fits { IfSome result (λ call. IsCall «module».now call) }
{
    match number_of_callable(module.functions.as_slice(), asked.function.as_bytes()) {
        Some(number) => Some(Call {
            function: number,
            times: asked.times,
        }),
        None => None,
    }
}
