//! The lines on standard error, each with the reason why a command stops, and the version.

ghost use Rattle.std.specs.Prelude.{◌≡◌, OnOk, OnErr};
ghost use Rattle.std.specs.Io.KnownBytes.{Appends};
ghost use Rattle.brc_lang.specs.Written.{AppendsBeginning};
ghost use Rattle.brc_command.specs.Lines.{located_text, unreadable_text, refused_text};
ghost use Rattle.brc_command.specs.Lines.{unknown_text, fault_text, stop_text, version_text};
ghost use Rattle.brc_command.specs.WholeRuns.{bounds_text};

use crate::step_fault::StepFault;
use crate::stop::Stop;
use brc_check::Refused;
use brc_lang::{ReadFault, write_bytes, write_pieces};
use itoa::Buffer;
use std::io;
use std::io::Write;

/// The program's version.
pub const VERSION: &str = "0.1.0";

/// Writes the program's name and version, with the errors of `brc_lang::write_bytes`.
pub fn write_version<W: Write>(writer: &mut W) -> io::Result<()>
    ensures whole { OnOk result (Appends (W.contents writer.old) (W.contents writer.new) version_text) }
    ensures begun { OnErr result (AppendsBeginning (W.contents writer.old) (W.contents writer.new) version_text) }
{
    write_pieces(&[b"brc ", VERSION.as_bytes(), b"\n"], writer)
}

/// Writes the reason's line, with the errors of `brc_lang::write_bytes`.
pub fn write_stop<W: Write>(stop: &Stop<'_>, writer: &mut W) -> io::Result<()>
    ensures whole { OnOk result (Appends (W.contents writer.old) (W.contents writer.new) (stop_text stop.now)) }
    ensures begun { OnErr result (AppendsBeginning (W.contents writer.old) (W.contents writer.new)
        (stop_text stop.now)) }
{
    match stop {
        Stop::UnreadableFile => write_bytes(b"unreadable file\n", writer),
        Stop::NoFunction(name) => write_unknown(name.as_bytes(), writer),
        Stop::NoThread => write_bytes(b"no thread\n", writer),
        Stop::Fault(fault) => write_fault(fault, writer),
    }
}

/// Writes the line about a step that leaves the machine's bounds, with the errors of `brc_lang::write_bytes`.
pub fn write_bounds<W: Write>(number: u64, writer: &mut W) -> io::Result<()>
    ensures whole { OnOk result (Appends (W.contents writer.old) (W.contents writer.new) (bounds_text number)) }
    ensures begun { OnErr result (AppendsBeginning (W.contents writer.old) (W.contents writer.new)
        (bounds_text number)) }
{
    let mut digits = Buffer::new();
    let number = digits.format(number).as_bytes();
    write_pieces(&[b"out of bounds at step ", number, b"\n"], writer)
}

fn write_fault<W: Write>(fault: &StepFault, writer: &mut W) -> io::Result<()>
    ensures whole { OnOk result (Appends (W.contents writer.old) (W.contents writer.new) (fault_text fault.now)) }
    ensures begun { OnErr result (AppendsBeginning (W.contents writer.old) (W.contents writer.new)
        (fault_text fault.now)) }
{
    match fault {
        StepFault::Text(fault) => write_unreadable(b"", fault, writer),
        StepFault::Plan(fault) => write_unreadable(b"schedule ", fault, writer),
        StepFault::Refused(refused) => write_refused(refused, writer),
        StepFault::NoFunction(name) => write_unknown(name.as_bytes(), writer),
        StepFault::NoMemory => write_bytes(b"no memory\n", writer),
        StepFault::Output => write_bytes(b"cannot write\n", writer),
    }
}

fn write_unreadable<W: Write>(file: &[u8], fault: &ReadFault, writer: &mut W) -> io::Result<()>
    ensures whole { OnOk result (Appends (W.contents writer.old) (W.contents writer.new)
        (unreadable_text file.now fault.now)) }
    ensures begun { OnErr result (AppendsBeginning (W.contents writer.old) (W.contents writer.new)
        (unreadable_text file.now fault.now)) }
{
    let mut digits = Buffer::new();
    let number = digits.format(fault.line).as_bytes();
    let code = fault.code.name().as_bytes();
    write_located(b"unreadable ", file, b"line ", number, code, writer)
}

/// Writes the line of a refusal, with the errors of `brc_lang::write_bytes`.
pub fn write_refused<W: Write>(refused: &Refused, writer: &mut W) -> io::Result<()>
    ensures whole { OnOk result (Appends (W.contents writer.old) (W.contents writer.new) (refused_text refused.now)) }
    ensures begun { OnErr result (AppendsBeginning (W.contents writer.old) (W.contents writer.new)
        (refused_text refused.now)) }
{
    let mut digits = Buffer::new();
    let name = refused.function.as_bytes();
    let number = digits.format(refused.at as u64).as_bytes();
    let code = refused.code.name().as_bytes();
    write_located(b"refused ", name, b" @", number, code, writer)
}

/// Writes a word, the name to which it belongs, a number after its mark, and a code.
fn write_located<'p, W: Write>(
    word: &'p [u8],
    whose: &'p [u8],
    mark: &'p [u8],
    number: &'p [u8],
    code: &'p [u8],
    writer: &mut W,
) -> io::Result<()>
    ensures whole { OnOk result (Appends (W.contents writer.old) (W.contents writer.new)
        (located_text word.now whose.now mark.now number.now code.now)) }
    ensures begun { OnErr result (AppendsBeginning (W.contents writer.old) (W.contents writer.new)
        (located_text word.now whose.now mark.now number.now code.now)) }
{
    write_pieces(&[word, whose, mark, number, b" ", code, b"\n"], writer)
}

fn write_unknown<W: Write>(name: &[u8], writer: &mut W) -> io::Result<()>
    ensures whole { OnOk result (Appends (W.contents writer.old) (W.contents writer.new) (unknown_text name.now)) }
    ensures begun { OnErr result (AppendsBeginning (W.contents writer.old) (W.contents writer.new)
        (unknown_text name.now)) }
{
    write_pieces(&[b"no function ", name, b"\n"], writer)
}
