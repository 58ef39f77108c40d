//! What is shown of a run that goes wrong: its calls, a schedule that makes it, its last steps, and what is wrong.

ghost use Rattle.std.specs.Prelude.{◌≡◌, ◌++◌, true, map, IfOk, IfSome};
ghost use Rattle.brc_lang.specs.Grammar.{IsModule};
ghost use Rattle.brc_replay.specs.WrongRuns.{event_in, IsWrongRun};
ghost use Rattle.brc_command.specs.WrongRuns.{ShowsWrongRun, SpellsWrongRun};

use crate::listed::listed_of;
use crate::retelling::{Told, tell, write_told};
use crate::step_fault::StepFault;
use brc_explore::Run;
use brc_lang::{Function, Module, write_bytes};
use brc_model::Choice;
use brc_pages::write_heading;
use brc_plain::{Plain, Refused};
use brc_replay::{Event, goes_wrong};
use brc_report::Paint;
use brc_world::NoMemory;
use std::alloc::Global;
use std::io;
use std::io::Write;

/// Returns what is shown of the run, which goes wrong, or `None` if the schedule that is shown doesn't: it is read
/// back, and its steps are made. Returns the reason why it isn't one of the module, or `NoMemory`.
pub fn text_of_run(
    alloc: Global,
    module: &Module,
    run: &Run,
    paint: Paint,
) -> Result<Option<Vec<u8>>, StepFault>
    requires fits { IsModule «module».now }
    requires wrong { IsWrongRun «module».now run.now.rows run.now.calls.items (map event_in run.now.events.items) }
    ensures { IfOk result (λ found. IfSome found (λ text. ShowsWrongRun «module».now text.items)) }
{
    let schedule = written(schedule_of_run(alloc, module, run))?;
    let lines = schedule.as_slice();
    let wrong = spells_wrong_run(alloc, module, lines)?;
    if !wrong {
        return Ok(None);
    }
    let above = written(text_above(alloc, module, run, paint))?;
    let below = text_below(alloc, module, run, paint)?;
    let text = joined(above, lines, below.as_slice())?;
    Ok(Some(text))
}

/// Returns the three texts, one behind the other.
fn joined(above: Vec<u8>, lines: &[u8], below: &[u8]) -> Result<Vec<u8>, NoMemory>
    ensures { IfOk result (λ text. text.items ≡ (above.items ++ lines.now) ++ below.now) }
{
    let mut text = above;
    text.extend_from_slice(lines)?;
    text.extend_from_slice(below)?;
    Ok(text)
}

/// Returns whether the text spells a schedule whose run goes wrong. Returns the reason why it spells no schedule of the
/// module, or `NoMemory`.
fn spells_wrong_run(alloc: Global, module: &Module, text: &[u8]) -> Result<bool, StepFault>
    requires fits { IsModule «module».now }
    ensures { IfOk result (λ wrong. wrong ≡ true → SpellsWrongRun «module».now text.now) }
{
    let listed = listed_of(alloc, module, text)?;
    let calls = listed.calls.as_slice();
    let events = listed.events.as_slice();
    match goes_wrong(alloc, module, listed.schedule.rows, calls, events) {
        Ok(wrong) => Ok(wrong),
        Err(Refused::OutOfBounds) => Ok(false),
        Err(Refused::NoMemory) => Err(StepFault::NoMemory),
    }
}

/// A vector refuses bytes only for want of memory.
fn written(text: io::Result<Vec<u8>>) -> Result<Vec<u8>, NoMemory> {
    match text {
        Ok(text) => Ok(text),
        Err(_) => Err(NoMemory),
    }
}

/// Returns the schedule that lists the run.
fn schedule_of_run(alloc: Global, module: &Module, run: &Run) -> io::Result<Vec<u8>> {
    let mut text = Vec::new(alloc);
    let out = &mut text;
    let workers = run.calls.len();
    let rows = run.rows;
    write!(out, "schedule 1\nworkers {workers}\nrows {rows}\n")?;
    let functions = module.functions.as_slice();
    for at in 0..run.calls.len() {
        let call = run.calls[at];
        let worker = at.saturating_add(1);
        write!(out, "call {worker} ")?;
        write_name(functions, call.function, out)?;
        let times = call.times;
        write!(out, " {times}\n")?;
    }
    write_steps(run.events.as_slice(), out)?;
    Ok(text)
}

fn write_name<W: Write>(functions: &[Function], number: usize, out: &mut W) -> io::Result<()> {
    match functions.get(number) {
        Some(function) => write_bytes(function.name.as_bytes(), out),
        None => Ok(()),
    }
}

/// Writes a line for each group of events of one thread with the same choice.
fn write_steps<W: Write>(events: &[Event], out: &mut W) -> io::Result<()> {
    let mut times = 0u32;
    for at in 0..events.len() {
        times = times.saturating_add(1);
        let event = events[at];
        let goes_on = match events.get(at + 1) {
            Some(next) => next.thread == event.thread && next.choice == event.choice,
            None => false,
        };
        if !goes_on {
            let thread = event.thread;
            let exit = if event.choice == Choice::Fault {
                "fault"
            } else {
                "ok"
            };
            write!(out, "step {thread} {exit} {times}\n")?;
            times = 0;
        }
    }
    Ok(())
}

/// Returns what stands above the schedule: the calls.
fn text_above(alloc: Global, module: &Module, run: &Run, paint: Paint) -> io::Result<Vec<u8>> {
    let mut text = Vec::new(alloc);
    let out = &mut text;
    write_bytes(b"A run that goes wrong\n", out)?;
    let functions = module.functions.as_slice();
    for at in 0..run.calls.len() {
        let call = run.calls[at];
        let worker = at.saturating_add(1);
        write!(out, "  Thread {worker} calls ")?;
        write_name(functions, call.function, out)?;
        match call.times {
            1 => write!(out, " once")?,
            2 => write!(out, " twice")?,
            times => write!(out, " {times} times")?,
        }
        match run.rows {
            1 => write!(out, ", and has a row for one object.\n")?,
            rows => write!(out, ", and has rows for {rows} objects.\n")?,
        }
    }
    write_heading("Its schedule, for brc step --unchecked", paint, out)?;
    write_bytes(b"\n", out)?;
    Ok(text)
}

/// Returns what stands below the schedule: the last steps, and what is wrong.
fn text_below(alloc: Global, module: &Module, run: &Run, paint: Paint) -> Result<Vec<u8>, NoMemory>
    requires fits { IsModule «module».now }
    requires wrong { IsWrongRun «module».now run.now.rows run.now.calls.items (map event_in run.now.events.items) }
{
    let Ok(mut first) = Plain::first(alloc, module, run.rows, run.calls.as_slice()) else {
        return Err(NoMemory);
    };
    let told = tell(alloc, module, &mut first, run.events.as_slice(), paint)?;
    written(told_text(alloc, &told, paint))
}

fn told_text(alloc: Global, told: &Told, paint: Paint) -> io::Result<Vec<u8>> {
    let mut text = Vec::new(alloc);
    write_told(told, paint, &mut text)?;
    Ok(text)
}
