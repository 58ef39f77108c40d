ghost use Rattle.std.specs.Prelude.{◌≤◌};

use crate::loaded::Loaded;
use brc_c_program::{Asked, Judgement, Status, judge_files};
use brc_command::{Load, StepFault, Stop, Terminal, write_stop};
use brc_lang::write_bytes;
use std::alloc::{AllocError, Global};
use std::io::Write;

/// Judges the functions of C files, writes what is found of them, and returns the exit status.
///
/// The status is 0 if there is no error, 1 if there is one, 2 if a file can't be read, a function isn't, or the output
/// can't be written, and 3 if memory is refused or the program contradicts itself. What is found is on standard output,
/// and why a file can't be read on standard error, of which an error is ignored. Until then the terminal shows how many
/// functions have been judged.
pub fn judge_c<L: Load, T: Terminal, W: Write, E: Write>(
    alloc: Global,
    asked: &Asked<'_>,
    load: &mut L,
    terminal: &mut T,
    out: &mut W,
    err: &mut E,
) -> u8
    ensures known { result ≤ 3 }
{
    let judgement = judged(alloc, asked, load, terminal);
    terminal.clear();
    match judgement {
        Ok(judgement) => write_judgement(&judgement, out, err),
        Err(_) => stop_for(StepFault::NoMemory, err),
    }
}

fn judged<'l, L: Load, T: Terminal>(
    alloc: Global,
    asked: &Asked<'_>,
    load: &'l mut L,
    terminal: &'l mut T,
) -> Result<Judgement, AllocError> {
    let mut files = Loaded {
        alloc,
        load,
        terminal,
    };
    judge_files(alloc, asked, &mut files)
}

fn write_judgement<W: Write, E: Write>(judgement: &Judgement, out: &mut W, err: &mut E) -> u8
    ensures known { result ≤ 3 }
{
    if write_bytes(judgement.text.as_str().as_bytes(), out).is_err() {
        return stop_for(StepFault::Output, err);
    }
    let _ = write_bytes(judgement.errors.as_str().as_bytes(), err);
    match judgement.status {
        Status::NoError => 0,
        Status::Error => 1,
        Status::NotRead => 2,
        Status::Internal => 3,
    }
}

/// Writes why the command stops, and returns its status.
fn stop_for<E: Write>(fault: StepFault, err: &mut E) -> u8
    ensures known { result ≤ 3 }
{
    let stop = Stop::Fault(fault);
    let _ = write_stop(&stop, err);
    stop.status()
}
