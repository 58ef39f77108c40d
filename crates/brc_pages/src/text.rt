//! Parts of an explanation: colours, headings, paragraphs, columns.

use brc_lang::{write_bytes, write_pieces};
use brc_report::{Paint, Role};
use std::io;
use std::io::Write;

const SPACES: &[u8] = b"                                        ";

/// Writes the pieces in the colour of the role.
pub fn write_in<W: Write>(
    role: Role,
    pieces: &[&[u8]],
    paint: Paint,
    out: &mut W,
) -> io::Result<()> {
    write_bytes(paint.on(role).as_bytes(), out)?;
    write_pieces(pieces, out)?;
    write_bytes(paint.off().as_bytes(), out)
}

/// Writes a line with a code and its meaning in a few words.
pub fn write_title<W: Write>(code: &str, title: &str, paint: Paint, out: &mut W) -> io::Result<()> {
    write_in(Role::Code, &[code.as_bytes()], paint, out)?;
    write_pieces(&[b": ", title.as_bytes(), b"\n"], out)
}

/// Writes an empty line and a heading.
pub fn write_heading<W: Write>(heading: &str, paint: Paint, out: &mut W) -> io::Result<()> {
    write_bytes(b"\n", out)?;
    write_in(Role::Rule, &[heading.as_bytes()], paint, out)?;
    write_bytes(b"\n", out)
}

/// Writes a heading and a paragraph below it.
pub fn write_section<W: Write>(
    heading: &str,
    lines: &[&str],
    paint: Paint,
    out: &mut W,
) -> io::Result<()> {
    write_heading(heading, paint, out)?;
    write_paragraph(lines, out)
}

/// Writes the lines of a paragraph.
pub fn write_paragraph<W: Write>(lines: &[&str], out: &mut W) -> io::Result<()> {
    for line in lines {
        write_pieces(&[b"  ", line.as_bytes(), b"\n"], out)?;
    }
    Ok(())
}

/// Writes as many spaces as a column of this width still needs behind a text of `used` bytes, and two more.
pub fn write_gap<W: Write>(used: usize, width: usize, out: &mut W) -> io::Result<()> {
    let missing = width.saturating_sub(used).min(SPACES.len());
    write_pieces(&[&SPACES[..missing], b"  "], out)
}
