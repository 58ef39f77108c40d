//! The report of a tally, as bytes.

ghost use Rattle.std.specs.Prelude.{◌≡◌, OnOk, OnErr};
ghost use Rattle.std.specs.List.{flat_map};
ghost use Rattle.std.specs.Io.KnownBytes.{Appends};
ghost use Rattle.brc_lang.specs.Grammar.{line};
ghost use Rattle.brc_lang.specs.Written.{AppendsBeginning};
ghost use Rattle.brc_report.specs.Report.{entry, left_text, tally_text};

use crate::tally::{Left, Tally};
use brc_lang::{write_bytes, write_number};
use std::io;
use std::io::Write;

/// Writes the report of the tally, with the errors of `brc_lang::write_bytes`.
pub fn write_tally<W: Write>(tally: &Tally, writer: &mut W) -> io::Result<()>
    ensures whole { OnOk result (Appends (W.contents writer.old) (W.contents writer.new) (tally_text tally.now)) }
    ensures begun { OnErr result (AppendsBeginning (W.contents writer.old) (W.contents writer.new)
        (tally_text tally.now)) }
{
    let counts = [
        ("threads", tally.threads),
        ("running", tally.running),
        ("created", tally.created),
        ("closed", tally.closed),
        ("alive", tally.alive),
        ("host faults", tally.host_faults),
        ("close faults", tally.close_faults),
    ];
    write_counts(&counts, writer)?;
    write_lefts(tally.left.as_slice(), writer)
}

fn write_counts<W: Write>(counts: &[(&str, u64)], writer: &mut W) -> io::Result<()>
    ensures whole { OnOk result (Appends (W.contents writer.old) (W.contents writer.new)
        (flat_map (λ c. line (entry c.0.now c.1)) counts.now)) }
    ensures begun { OnErr result (AppendsBeginning (W.contents writer.old) (W.contents writer.new)
        (flat_map (λ c. line (entry c.0.now c.1)) counts.now)) }
{
    for (label, count) in counts {
        write_count(label.as_bytes(), *count, writer)?;
    }
    Ok(())
}

fn write_lefts<W: Write>(lefts: &[Left], writer: &mut W) -> io::Result<()>
    ensures whole { OnOk result (Appends (W.contents writer.old) (W.contents writer.new)
        (flat_map left_text lefts.now)) }
    ensures begun { OnErr result (AppendsBeginning (W.contents writer.old) (W.contents writer.new)
        (flat_map left_text lefts.now)) }
{
    for left in lefts {
        write_left(left, writer)?;
    }
    Ok(())
}

fn write_count<W: Write>(label: &[u8], count: u64, writer: &mut W) -> io::Result<()>
    ensures whole { OnOk result (Appends (W.contents writer.old) (W.contents writer.new)
        (line (entry label.now count))) }
    ensures begun { OnErr result (AppendsBeginning (W.contents writer.old) (W.contents writer.new)
        (line (entry label.now count))) }
{
    write_entry(label, count, writer)?;
    write_bytes(b"\n", writer)
}

fn write_left<W: Write>(left: &Left, writer: &mut W) -> io::Result<()>
    ensures whole { OnOk result (Appends (W.contents writer.old) (W.contents writer.new) (left_text left.now)) }
    ensures begun { OnErr result (AppendsBeginning (W.contents writer.old) (W.contents writer.new)
        (left_text left.now)) }
{
    write_entry(b"left", u64::from(left.row), writer)?;
    write_bytes(b" ", writer)?;
    write_bytes(left.kind.name().as_bytes(), writer)?;
    write_bytes(b"\n", writer)
}

/// Writes the label, a space and the number, with the errors of `brc_lang::write_bytes`.
pub fn write_entry<W: Write>(label: &[u8], number: u64, writer: &mut W) -> io::Result<()>
    ensures whole { OnOk result (Appends (W.contents writer.old) (W.contents writer.new) (entry label.now number)) }
    ensures begun { OnErr result (AppendsBeginning (W.contents writer.old) (W.contents writer.new)
        (entry label.now number)) }
{
    write_bytes(label, writer)?;
    write_bytes(b" ", writer)?;
    write_number(number, writer)
}
