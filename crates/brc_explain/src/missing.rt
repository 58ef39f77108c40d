//! What a line names and the text doesn't have: a function to call, a static list.

use crate::above::{Heading, Situation, heading_of};
use crate::advice::write_range;
use crate::line_fault::CALL_WORDS;
use crate::words::word_count;
use brc_lang::{write_bytes, write_number, write_pieces};
use std::io;
use std::io::Write;

/// Writes that no function above has this name, which a call has, or that it has other parameters.
pub fn write_callee<W: Write>(
    text: &[u8],
    found: &Situation<'_>,
    name: &[u8],
    out: &mut W,
) -> io::Result<()> {
    // The function that the line is in is open, and its own heading is the line above its body.
    let own = found.body_line.saturating_sub(1);
    match heading_of(text, name) {
        Some(heading) if heading.number < own => write_arguments(&heading, found.line, out),
        _ => write_bytes(
            b"No function above this one has this name.\n\
            Expected: the name of a function above. A function calls neither itself nor\n\
            one below it.\n",
            out,
        ),
    }
}

/// Writes that the module has no static list of the number that `take` asks for.
pub fn write_static_list<W: Write>(found: &Situation<'_>, out: &mut W) -> io::Result<()> {
    if found.statics == 0 {
        return write_bytes(
            b"The module has no static list.\n\
            Expected: a `static` line above all functions, and its number, counted from 0.\n",
            out,
        );
    }
    write_bytes(b"The module has ", out)?;
    write_counted(u64::from(found.statics), "static list", out)?;
    write_bytes(b", counted from 0.\n", out)?;
    write_range(0, found.statics.saturating_sub(1), out)
}

/// Writes that the call has an argument too many or too few for the function.
fn write_arguments<W: Write>(heading: &Heading<'_>, call: &[u8], out: &mut W) -> io::Result<()> {
    let arguments = word_count(call).saturating_sub(CALL_WORDS);
    let parameters = word_count(heading.line).saturating_sub(HEADING_WORDS) / 2;
    write_bytes(b"The function of line ", out)?;
    write_number(heading.number, out)?;
    write_bytes(b" has ", out)?;
    write_counted(parameters as u64, "parameter", out)?;
    write_bytes(b", and the call has ", out)?;
    write_counted(arguments as u64, "argument", out)?;
    write_bytes(b".\nExpected: one argument for each parameter.\n", out)
}

/// Writes the number and the noun, which ends in s but for one.
pub fn write_counted<W: Write>(number: u64, noun: &str, out: &mut W) -> io::Result<()> {
    let ending: &[u8] = if number == 1 { b"" } else { b"s" };
    write_number(number, out)?;
    write_pieces(&[b" ", noun.as_bytes(), ending], out)
}

/// The words of a line that opens a function without parameters: `func` and the name.
const HEADING_WORDS: usize = 2;
