//! The explanation of a text that can't be read.

use crate::above::{Situation, find_line, heading_of, line_at};
use crate::advice::write_advice;
use crate::forms::Form;
use crate::marks::{Mark, mark_of, words_fault};
use crate::visible::{Span, part, write_marked_line, write_plain_line};
use brc_lang::{FaultCode, ReadFault, write_bytes, write_number, write_pieces};
use brc_pages::{Topic, page_of, write_in};
use brc_report::{Paint, Role};
use std::io;
use std::io::Write;

/// Writes why `brc_lang::read` refuses the text: the line that is at fault, a mark under the word, the meaning of the
/// code, and what would be read there. It returns the errors of `brc_lang::write_bytes`.
pub fn explain_unreadable<W: Write>(
    text: &[u8],
    fault: &ReadFault,
    paint: Paint,
    out: &mut W,
) -> io::Result<()> {
    let page = page_of(Topic::Read(fault.code));
    let found = find_line(text, fault.line);
    let mark = mark_of(&found, fault);
    write_bytes(b"Line ", out)?;
    write_number(mark.line, out)?;
    write_bytes(b" can't be read. ", out)?;
    write_in(Role::Code, &[page.code.as_bytes()], paint, out)?;
    write_pieces(&[b": ", page.title.as_bytes(), b"\n\n"], out)?;
    write_lines(text, &found, fault.code, mark, paint, out)?;
    write_advice(text, &found, fault, mark, out)?;
    match fault.code {
        FaultCode::UnknownWord | FaultCode::Number => write_form(words_fault(&found).form, out)?,
        _ => {}
    }
    write_pieces(
        &[b"\nMore: brc explain --code ", page.code.as_bytes(), b"\n"],
        out,
    )
}

/// Writes the lines that the code is about: the one with the mark last.
fn write_lines<W: Write>(
    text: &[u8],
    found: &Situation<'_>,
    code: FaultCode,
    mark: Mark,
    paint: Paint,
    out: &mut W,
) -> io::Result<()> {
    match code {
        FaultCode::NoMemory => return Ok(()),
        // The line above the `end` says nothing of a target.
        FaultCode::Target => {}
        FaultCode::NameTwice => write_first_heading(text, part(found.line, mark.span), paint, out)?,
        _ => {
            if let Some(before) = found.before {
                write_plain_line(mark.line.saturating_sub(1), before, paint, out)?;
            }
        }
    }
    write_marked_line(mark.line, line_at(text, mark.line), mark.span, paint, out)?;
    write_bytes(b"\n", out)
}

/// Writes the line above, if there is one, and then the line with a mark under the part.
pub fn write_line<W: Write>(
    found: &Situation<'_>,
    number: u64,
    marked: Span,
    paint: Paint,
    out: &mut W,
) -> io::Result<()> {
    if let Some(before) = found.before {
        write_plain_line(number.saturating_sub(1), before, paint, out)?;
    }
    write_marked_line(number, found.line, marked, paint, out)?;
    write_bytes(b"\n", out)
}

/// Writes the first line that opens a function of this name.
fn write_first_heading<W: Write>(
    text: &[u8],
    name: &[u8],
    paint: Paint,
    out: &mut W,
) -> io::Result<()> {
    let Some(first) = heading_of(text, name) else {
        return Ok(());
    };
    write_plain_line(first.number, first.line, paint, out)?;
    write_bytes(b"  ..\n", out)
}

/// Writes the form of the line's instruction, if its name is one.
fn write_form<W: Write>(form: Option<Form>, out: &mut W) -> io::Result<()> {
    let Some(form) = form else {
        return Ok(());
    };
    write_pieces(
        &[
            b"\nThe form:  ",
            form.text.as_bytes(),
            b"\nIn C:      ",
            form.does.as_bytes(),
            b"\n",
        ],
        out,
    )
}
