//! The steps of a run over any module, up to the first that is wrong.

ghost use Rattle.std.specs.Prelude.{◌≡◌, ◌⊎◌, ◌+◌, ◌<◌, ◌≤◌, true, length, is_some, IfErr, IfOk, OnOk};
ghost use Rattle.brc_model.specs.StepMachine.{next_machine};
ghost use Rattle.brc_plain.specs.Plains.{machine_in};
ghost use Rattle.brc_replay.specs.WrongRuns.{event_in, goes_on};
ghost use Rattle.brc_command.specs.declared.step_fault.StepFault.TheVariants.{NoMemory as MemoryRefused, Output};
ghost use Rattle.brc_command.specs.Reruns.{Fits, RunEnds, ReportEnds, StepsEnd, EndsBefore, events_in, first_of};
ghost use Rattle.brc_command.specs.WholeRuns.{AreMade, AreTold, IsRight, StopsAt};

use crate::blame::{write_complaint, write_lost};
use crate::endings::Ending;
use crate::retelling::tell_step;
use crate::step_fault::StepFault;
use crate::terminal::{Terminal, is_no_op, more_made};
use brc_lang::{Module, write_bytes};
use brc_model::{Call, Choice};
use brc_plain::{Plain, Refused};
use brc_replay::{Event, goes_wrong};
use brc_report::{Paint, write_tally};
use brc_trace::Teller;
use std::alloc::Global;
use std::io::Write;

/// A run that isn't checked before.
#[derive(Clone, Copy)]
pub struct Rerun<'a> {
    pub module: &'a Module,
    pub rows: u16,
    pub calls: &'a [Call],
    pub events: &'a [Event],
    /// How the lines of the steps are painted, if they are written.
    pub trace: Option<Paint>,
}

/// Takes the steps of the run, up to the first that is wrong. It writes a line for each step, if there is a trace, and
/// the report once all steps are taken.
///
/// Returns `Output` only for a run that is whole: what is wrong is the reason also if its lines can't be written.
pub fn rerun_to_end<T: Terminal, W: Write>(
    alloc: Global,
    rerun: &Rerun<'_>,
    terminal: &mut T,
    out: &mut W,
) -> Result<Ending, StepFault>
    requires fits { Fits rerun.now }
    ensures ended { IfOk result (RunEnds rerun.now (W.contents out.old) (W.contents out.new)) }
    ensures fault { IfErr result (λ e. (e ≡ Output) ⊎ (e ≡ MemoryRefused)) }
{
    match write_run(alloc, rerun, terminal, out) {
        Ok(ending) => Ok(ending),
        Err(StepFault::Output) => end_unwritten(alloc, rerun, terminal),
        Err(fault) => Err(fault),
    }
}

/// Takes the steps once more, without writing, and returns how the run ends, or `Output` if it is whole.
fn end_unwritten<T: Terminal>(
    alloc: Global,
    rerun: &Rerun<'_>,
    terminal: &mut T,
) -> Result<Ending, StepFault>
    requires fits { Fits rerun.now }
    ensures ended { IfOk result (EndsBefore rerun.now) }
    ensures fault { IfErr result (λ e. (e ≡ Output) ⊎ (e ≡ MemoryRefused)) }
{
    let silent = Rerun {
        trace: None,
        ..*rerun
    };
    let mut report: Vec<u8> = Vec::new(alloc);
    match write_run(alloc, &silent, terminal, &mut report) {
        Ok(Ending::Whole) => Err(StepFault::Output),
        Ok(Ending::Wrong(text)) => Ok(Ending::Wrong(text)),
        Ok(Ending::Beyond(number)) => Ok(Ending::Beyond(number)),
        Err(fault) => Err(fault),
    }
}

/// Does what `rerun_to_end` does, and returns `Output` at the first line that can't be written.
fn write_run<T: Terminal, W: Write>(
    alloc: Global,
    rerun: &Rerun<'_>,
    terminal: &mut T,
    out: &mut W,
) -> Result<Ending, StepFault>
    requires fits { Fits rerun.now }
    ensures ended { IfOk result (RunEnds rerun.now (W.contents out.old) (W.contents out.new)) }
    ensures fault { IfErr result (λ e. (e ≡ Output) ⊎ (e ≡ MemoryRefused)) }
{
    let mut plain = match Plain::first(alloc, rerun.module, rerun.rows, rerun.calls) {
        Ok(plain) => plain,
        Err(Refused::OutOfBounds) => return Ok(Ending::Beyond(0)),
        Err(Refused::NoMemory) => return Err(StepFault::NoMemory),
    };
    let taken = take_steps(alloc, rerun, &mut plain, terminal, out);
    terminal.clear();
    match taken {
        Ok(Some(ending)) => Ok(ending),
        Ok(None) => end(alloc, rerun, &plain, out),
        Err(fault) => Err(fault),
    }
}

/// Takes the steps, and returns how the run ends if not all are taken.
fn take_steps<T: Terminal, W: Write>(
    alloc: Global,
    rerun: &Rerun<'_>,
    plain: &mut Plain<'_>,
    terminal: &mut T,
    out: &mut W,
) -> Result<Option<Ending>, StepFault>
    requires fits { Fits rerun.now }
    requires begins { machine_in plain.old ≡ first_of rerun.now }
    ensures ended { IfOk result (StepsEnd rerun.now (machine_in plain.new) (W.contents out.old) (W.contents out.new)) }
    ensures fault { IfErr result (λ e. (e ≡ Output) ⊎ (e ≡ MemoryRefused)) }
{
    let Ok(mut teller) = Teller::new(alloc, plain.threads()) else {
        return Err(StepFault::NoMemory);
    };
    let mut made = 0;
    for at in 0..rerun.events.len() {
        let event = rerun.events[at];
        made = show_step(alloc, rerun, plain, event, made, terminal, &mut teller, out)?;
        match take_step(alloc, plain, event) {
            Ok(true) => {}
            Ok(false) => return Ok(Some(wrong_at(alloc, rerun, plain, at)?)),
            Err(Refused::OutOfBounds) => return Ok(Some(Ending::Beyond((at + 1) as u64))),
            Err(Refused::NoMemory) => return Err(StepFault::NoMemory),
        }
    }
    Ok(None)
}

/// Says whether the choice is another one than that the thread stops.
fn goes_on(choice: Choice) -> bool
    ensures { result ≡ goes_on choice }
{
    !matches!(choice, Choice::Stop)
}

/// Takes the step, and returns whether it isn't wrong. A wrong one isn't taken.
pub fn take_step(alloc: Global, plain: &mut Plain<'_>, event: Event) -> Result<bool, Refused>
    ensures right { IfOk result (λ right. right ≡ true → IsRight (machine_in plain.old) (event_in event)) }
    ensures made { IfOk result (λ right. right ≡ true
        → machine_in plain.new ≡ next_machine (machine_in plain.old) (event_in event)) }
{
    if plain.is_gone(event.thread) {
        return Ok(true);
    }
    // What a stopped thread gives up is known for accepted modules alone.
    if !goes_on(event.choice) {
        return Err(Refused::OutOfBounds);
    }
    if plain.is_bad(alloc, event.thread, event.choice)? {
        return Ok(false);
    }
    plain.step(alloc, event.thread, event.choice)?;
    Ok(true)
}

/// Writes the line of the step, if the trace is asked for, and else shows how many steps are made. Returns the number
/// of the steps that are shown so.
fn show_step<T: Terminal, W: Write>(
    alloc: Global,
    rerun: &Rerun<'_>,
    plain: &Plain<'_>,
    event: Event,
    made: u64,
    terminal: &mut T,
    teller: &mut Teller,
    out: &mut W,
) -> Result<u64, StepFault>
    ensures told { OnOk result (AreTold (is_some rerun.now.trace) (W.contents out.old) (W.contents out.new)) }
    ensures fault { IfErr result (λ e. (e ≡ Output) ⊎ (e ≡ MemoryRefused)) }
{
    match rerun.trace {
        Some(paint) => {
            write_line(alloc, rerun.module, plain, event, paint, teller, out)?;
            Ok(made)
        }
        None => {
            look_at(alloc, plain, event, terminal)?;
            Ok(more_made(made, 1, terminal))
        }
    }
}

/// Counts the event before a terminal, if it is a claim that will change nothing.
fn look_at<T: Terminal>(
    alloc: Global,
    plain: &Plain<'_>,
    event: Event,
    terminal: &mut T,
) -> Result<(), StepFault>
    ensures fault { IfErr result (λ e. (e ≡ Output) ⊎ (e ≡ MemoryRefused)) }
{
    let Choice::Claim(_) = event.choice else {
        return Ok(());
    };
    match plain.sight(alloc, event.thread, event.choice) {
        Ok(sight) => {
            if is_no_op(&sight) {
                terminal.no_op();
            }
            Ok(())
        }
        Err(Refused::OutOfBounds) => Ok(()),
        Err(Refused::NoMemory) => Err(StepFault::NoMemory),
    }
}

/// Writes the line of the step, if it has one.
fn write_line<W: Write>(
    alloc: Global,
    module: &Module,
    plain: &Plain<'_>,
    event: Event,
    paint: Paint,
    teller: &mut Teller,
    out: &mut W,
) -> Result<(), StepFault>
    ensures told { OnOk result (AreTold true (W.contents out.old) (W.contents out.new)) }
    ensures fault { IfErr result (λ e. (e ≡ Output) ⊎ (e ≡ MemoryRefused)) }
{
    let sight = match plain.sight(alloc, event.thread, event.choice) {
        Ok(sight) => sight,
        Err(Refused::OutOfBounds) => None,
        Err(Refused::NoMemory) => return Err(StepFault::NoMemory),
    };
    let functions = module.functions.as_slice();
    match tell_step(teller, paint, functions, event, &sight) {
        Ok(()) => match write_bytes(teller.line(), out) {
            Ok(()) => Ok(()),
            Err(_) => Err(StepFault::Output),
        },
        Err(_) => Err(StepFault::NoMemory),
    }
}

/// Returns how the run ends at the event of this index, which the machine says is wrong. `goes_wrong` checks the run up
/// to it once more, from the first machine on.
fn wrong_at(
    alloc: Global,
    rerun: &Rerun<'_>,
    plain: &Plain<'_>,
    at: usize,
) -> Result<Ending, StepFault>
    requires fits { Fits rerun.now }
    requires there { at < length rerun.now.events.now }
    requires stops { StopsAt (at + 1) (first_of rerun.now) (events_in rerun.now) }
    ensures ended { IfOk result (EndsBefore rerun.now) }
    ensures fault { IfErr result (λ e. (e ≡ Output) ⊎ (e ≡ MemoryRefused)) }
{
    let count = at + 1;
    let number = count as u64;
    let event = rerun.events[at];
    let mut text = Vec::new(alloc);
    match plain.complaint(alloc, event.thread, event.choice) {
        Ok(complaint) => {
            let said = write!(&mut text, "wrong step {number}: ");
            let why = write_complaint(rerun.module, plain, event.thread, &complaint, &mut text);
            if said.is_err() || why.is_err() {
                return Err(StepFault::NoMemory);
            }
        }
        Err(Refused::OutOfBounds) => return Ok(Ending::Beyond(number)),
        Err(Refused::NoMemory) => return Err(StepFault::NoMemory),
    }
    checked(alloc, rerun, count, text)
}

/// Checks that the run of the first `count` events goes wrong. If it does, the ending is `Wrong` with this text, and
/// otherwise `Beyond` with the number of the last of them.
fn checked(
    alloc: Global,
    rerun: &Rerun<'_>,
    count: usize,
    text: Vec<u8>,
) -> Result<Ending, StepFault>
    requires fits { Fits rerun.now }
    requires there { count ≤ length rerun.now.events.now }
    requires stops { StopsAt count (first_of rerun.now) (events_in rerun.now) }
    ensures ended { IfOk result (EndsBefore rerun.now) }
    ensures fault { IfErr result (λ e. (e ≡ Output) ⊎ (e ≡ MemoryRefused)) }
{
    let events = &rerun.events[..count];
    match goes_wrong(alloc, rerun.module, rerun.rows, rerun.calls, events) {
        Ok(true) => Ok(Ending::Wrong(text)),
        Ok(false) | Err(Refused::OutOfBounds) => Ok(Ending::Beyond(count as u64)),
        Err(Refused::NoMemory) => Err(StepFault::NoMemory),
    }
}

/// Writes the report, and returns how the run ends once all steps are taken.
fn end<W: Write>(
    alloc: Global,
    rerun: &Rerun<'_>,
    plain: &Plain<'_>,
    out: &mut W,
) -> Result<Ending, StepFault>
    requires fits { Fits rerun.now }
    requires made { AreMade (first_of rerun.now) (events_in rerun.now) (machine_in plain.now) }
    ensures ended { IfOk result (ReportEnds rerun.now (machine_in plain.now) (W.contents out.old)
        (W.contents out.new)) }
    ensures fault { IfErr result (λ e. (e ≡ Output) ⊎ (e ≡ MemoryRefused)) }
{
    let tally = match plain.tally(alloc) {
        Ok(tally) => tally,
        Err(_) => return Err(StepFault::NoMemory),
    };
    if write_tally(&tally, out).is_err() {
        return Err(StepFault::Output);
    }
    if !plain.has_ended() {
        return Ok(Ending::Whole);
    }
    let Some(row) = plain.lost() else {
        return Ok(Ending::Whole);
    };
    lost_at_end(alloc, rerun, plain, row)
}

/// Returns how the run ends that has lost the row's object, once all steps are taken.
fn lost_at_end(
    alloc: Global,
    rerun: &Rerun<'_>,
    plain: &Plain<'_>,
    row: u32,
) -> Result<Ending, StepFault>
    requires fits { Fits rerun.now }
    requires made { AreMade (first_of rerun.now) (events_in rerun.now) (machine_in plain.now) }
    ensures ended { IfOk result (EndsBefore rerun.now) }
    ensures fault { IfErr result (λ e. (e ≡ Output) ⊎ (e ≡ MemoryRefused)) }
{
    let mut text = Vec::new(alloc);
    let said = write_bytes(b"wrong end: ", &mut text);
    if said.is_err() || write_lost(plain, row, &mut text).is_err() {
        return Err(StepFault::NoMemory);
    }
    checked(alloc, rerun, rerun.events.len(), text)
}
