//! A run, and how often its threads have met at the counts of objects.

ghost use Rattle.std.specs.Prelude.{◌≡◌, ◌≢◌, ◌≤◌, OnOk, OnErr};
ghost use Rattle.std.specs.Io.KnownBytes.{Appends};
ghost use Rattle.brc_lang.specs.Written.{AppendsBeginning};
ghost use Rattle.brc_command.specs.declared.asked.Asked.TheVariants.{Run as ToRun};
ghost use Rattle.brc_command.specs.Commands.{HasRunReport, IsReason, IsStopped, ProgramLeaves};
ghost use Rattle.brc_command.specs.Meetings.{IsCounted, contention_lines, contention_text};

use crate::asked::Run;
use crate::carrying::run_file;
use crate::lines::write_stop;
use crate::load::Load;
use crate::terminal::Terminal;
use brc_lang::write_pieces;
use brc_run::System;
use brc_table::Contention;
use itoa::Buffer;
use std::alloc::Global;
use std::io;
use std::io::Write;

/// Runs as `execute_on` does, and then writes on standard error how often the threads have met. Returns the exit
/// status. An error of standard error is ignored.
pub fn execute_counted<R: System, L: Load, T: Terminal, W: Write, E: Write>(
    rt: &R,
    alloc: Global,
    asked: &Run<'_>,
    load: &mut L,
    terminal: &mut T,
    out: &mut W,
    err: &mut E,
) -> u8
    ensures known { result ≤ 3 }
    ensures done { result ≡ 0 → IsCounted (HasRunReport (L.may_give load.old) asked.now) (W.contents out.old)
        (W.contents out.new) (E.contents err.old) (E.contents err.new) }
    ensures stopped { result ≢ 0 → IsStopped
        (IsReason (L.may_give load.old) (L.may_lack load.old) (ToRun asked.now))
        (ProgramLeaves (L.may_give load.old) (T.paint_of terminal.old) (ToRun asked.now)) (W.contents out.old)
        (W.contents out.new) (E.contents err.old) (E.contents err.new) result }
{
    match run_file(rt, alloc, asked, load, terminal, out) {
        Ok(contention) => {
            let _ = write_contention(&contention, err);
            0
        }
        Err(stop) => {
            let _ = write_stop(&stop, err);
            stop.status()
        }
    }
}

/// Writes the four numbers, each on a line, with the errors of `brc_lang::write_bytes`.
fn write_contention<W: Write>(contention: &Contention, writer: &mut W) -> io::Result<()>
    ensures whole { OnOk result (Appends (W.contents writer.old) (W.contents writer.new)
        (contention_text contention.now)) }
    ensures begun { OnErr result (AppendsBeginning (W.contents writer.old) (W.contents writer.new)
        (contention_text contention.now)) }
{
    let mut queued = Buffer::new();
    let mut merged = Buffer::new();
    let mut claimed = Buffer::new();
    let mut lost = Buffer::new();
    write_numbers(
        queued.format(contention.queued).as_bytes(),
        merged.format(contention.merged).as_bytes(),
        claimed.format(contention.claimed).as_bytes(),
        lost.format(contention.lost).as_bytes(),
        writer,
    )
}

/// Writes the digits of the four numbers, each on a line.
fn write_numbers<'p, W: Write>(
    queued: &'p [u8],
    merged: &'p [u8],
    claimed: &'p [u8],
    lost: &'p [u8],
    writer: &mut W,
) -> io::Result<()>
    ensures whole { OnOk result (Appends (W.contents writer.old) (W.contents writer.new)
        (contention_lines queued.now merged.now claimed.now lost.now)) }
    ensures begun { OnErr result (AppendsBeginning (W.contents writer.old) (W.contents writer.new)
        (contention_lines queued.now merged.now claimed.now lost.now)) }
{
    write_pieces(
        &[
            b"queued ",
            queued,
            b"\nmerged ",
            merged,
            b"\nclaimed ",
            claimed,
            b"\nexchanges lost ",
            lost,
            b"\n",
        ],
        writer,
    )
}
