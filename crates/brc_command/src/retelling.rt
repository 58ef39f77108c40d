//! The end of a run of any module, in words: the lines of its last steps, as a trace has them, and what is wrong at its
//! end.

use crate::blame::{write_complaint, write_lost};
use brc_lang::{Function, Module, write_bytes};
use brc_pages::write_heading;
use brc_plain::{Plain, Refused};
use brc_replay::Event;
use brc_report::Paint;
use brc_trace::Teller;
use brc_world::{NoMemory, Sight};
use std::alloc::{AllocError, Global};
use std::io;
use std::io::Write;

/// How many lines of the run's trace there are.
const LAST_LINES: usize = 12;

/// The end of a run, in words.
#[derive(Drop)]
pub struct Told {
    /// The lines of its last steps.
    pub lines: Vec<u8>,
    /// What is wrong at its end, in a line.
    pub wrong: Vec<u8>,
}

/// Makes the events, from this machine on, and returns the end of their run in words. If an event leaves the machine's
/// bounds, the words end before it.
pub fn tell(
    alloc: Global,
    module: &Module,
    plain: &mut Plain<'_>,
    events: &[Event],
    paint: Paint,
) -> Result<Told, NoMemory> {
    let mut told = Told {
        lines: Vec::new(alloc),
        wrong: Vec::new(alloc),
    };
    let mut teller = Teller::new(alloc, plain.threads())?;
    tell_events(alloc, module, plain, events, paint, &mut teller, &mut told)?;
    Ok(told)
}

/// Makes the events, and adds their lines and what is wrong to the words.
fn tell_events(
    alloc: Global,
    module: &Module,
    plain: &mut Plain<'_>,
    events: &[Event],
    paint: Paint,
    teller: &mut Teller,
    told: &mut Told,
) -> Result<(), NoMemory> {
    let functions = module.functions.as_slice();
    for at in 0..events.len() {
        let event = events[at];
        match plain.sight(alloc, event.thread, event.choice) {
            Ok(sight) => tell_step(teller, paint, functions, event, &sight)?,
            Err(refused) => return unless_beyond(refused),
        }
        if at.saturating_add(LAST_LINES) >= events.len() {
            add_line(teller, &mut told.lines)?;
        }
        if at + 1 == events.len() && complains(alloc, module, plain, event, at, &mut told.wrong)? {
            return Ok(());
        }
        if let Err(refused) = plain.step(alloc, event.thread, event.choice) {
            return unless_beyond(refused);
        }
    }
    match plain.lost() {
        Some(row) => tell_lost(plain, row, &mut told.wrong),
        None => Ok(()),
    }
}

/// Adds the line of the latest step, if it has one.
fn add_line(teller: &Teller, lines: &mut Vec<u8>) -> Result<(), NoMemory> {
    if !teller.line().is_empty() {
        lines.extend_from_slice(b"    ")?;
        lines.extend_from_slice(teller.line())?;
    }
    Ok(())
}

fn tell_lost(plain: &Plain<'_>, row: u32, text: &mut Vec<u8>) -> Result<(), NoMemory> {
    let begun = write_bytes(b"The end: ", text);
    if begun.is_err() || write_lost(plain, row, text).is_err() {
        return Err(NoMemory);
    }
    Ok(())
}

/// Puts together the line of the event's step.
pub fn tell_step(
    teller: &mut Teller,
    paint: Paint,
    functions: &[Function],
    event: Event,
    sight: &Option<Sight>,
) -> Result<(), AllocError> {
    let Ok(thread) = u8::try_from(event.thread) else {
        return Ok(());
    };
    if event.thread >= teller.threads() {
        return Ok(());
    }
    teller.tell(paint, functions, thread, event.choice, sight)
}

/// The words end where the machine has left its bounds.
fn unless_beyond(refused: Refused) -> Result<(), NoMemory> {
    match refused {
        Refused::NoMemory => Err(NoMemory),
        Refused::OutOfBounds => Ok(()),
    }
}

/// Writes what is wrong about the event of this number, from 0, and returns whether anything is.
fn complains(
    alloc: Global,
    module: &Module,
    plain: &Plain<'_>,
    event: Event,
    at: usize,
    text: &mut Vec<u8>,
) -> Result<bool, NoMemory> {
    match plain.is_bad(alloc, event.thread, event.choice) {
        Ok(true) => {}
        Ok(false) | Err(Refused::OutOfBounds) => return Ok(false),
        Err(Refused::NoMemory) => return Err(NoMemory),
    }
    let complaint = match plain.complaint(alloc, event.thread, event.choice) {
        Ok(complaint) => complaint,
        Err(Refused::OutOfBounds) => return Ok(false),
        Err(Refused::NoMemory) => return Err(NoMemory),
    };
    let number = at.saturating_add(1);
    let begun = write!(text, "Step {number}: ");
    match write_complaint(module, plain, event.thread, &complaint, text) {
        Ok(()) if begun.is_ok() => Ok(true),
        _ => Err(NoMemory),
    }
}

/// Writes the end of the run, under headings.
pub fn write_told<W: Write>(told: &Told, paint: Paint, out: &mut W) -> io::Result<()> {
    write_heading("Its last steps", paint, out)?;
    write_bytes(told.lines.as_slice(), out)?;
    write_heading("What is wrong", paint, out)?;
    write_bytes(b"  ", out)?;
    write_bytes(told.wrong.as_slice(), out)
}
