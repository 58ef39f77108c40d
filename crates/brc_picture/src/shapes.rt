//! The elements of an SVG document.

use crate::place::Across;
use brc_lang::write_bytes;
use std::io;
use std::io::Write;

/// What is written where a text is cut: an ellipsis.
const ELLIPSIS: &[u8] = b"&#8230;";

/// Writes a rectangle of the class.
pub fn write_rect<W: Write>(
    across: Across,
    top: u64,
    height: u64,
    class: &str,
    out: &mut W,
) -> io::Result<()> {
    let Across { left, width } = across;
    write!(
        out,
        "<rect x=\"{left}\" y=\"{top}\" width=\"{width}\" height=\"{height}\" class=\"{class}\"/>\n"
    )
}

/// Writes what opens a text of the class.
pub fn open_text<W: Write>(left: u64, base: u64, class: &str, out: &mut W) -> io::Result<()> {
    write!(out, "<text x=\"{left}\" y=\"{base}\" class=\"{class}\">")
}

/// Writes what closes a text.
pub fn close_text<W: Write>(out: &mut W) -> io::Result<()> {
    write_bytes(b"</text>\n", out)
}

/// Writes a text of the class.
pub fn write_text<W: Write>(
    left: u64,
    base: u64,
    class: &str,
    text: &[u8],
    out: &mut W,
) -> io::Result<()> {
    open_text(left, base, class, out)?;
    write_escaped(text, out)?;
    close_text(out)
}

/// Writes a text of the class, in so many characters at most: of a longer one the beginning and an ellipsis.
pub fn write_cut_text<W: Write>(
    left: u64,
    base: u64,
    class: &str,
    text: &[u8],
    most: usize,
    out: &mut W,
) -> io::Result<()> {
    open_text(left, base, class, out)?;
    if text.len() <= most {
        write_escaped(text, out)?;
    } else {
        write_escaped(text.get(..most.saturating_sub(1)).unwrap_or(text), out)?;
        write_bytes(ELLIPSIS, out)?;
    }
    close_text(out)
}

/// Writes the number in so many characters at most: of a longer one the first digits and an ellipsis.
pub fn write_cut_number<W: Write>(number: u64, most: usize, out: &mut W) -> io::Result<()> {
    let digits = digits_of(number);
    if digits <= most {
        return write!(out, "{number}");
    }
    let mut first = number;
    for _ in most.saturating_sub(1)..digits {
        first /= 10;
    }
    write!(out, "{first}")?;
    write_bytes(ELLIPSIS, out)
}

/// Returns how many digits the number has.
pub fn digits_of(number: u64) -> usize {
    let mut rest = number / 10;
    for digits in 1..20 {
        if rest == 0 {
            return digits;
        }
        rest /= 10;
    }
    20
}

/// Writes the text, of which the characters that begin or end markup are written as references (XML 1.0, 2.4).
pub fn write_escaped<W: Write>(text: &[u8], out: &mut W) -> io::Result<()> {
    for byte in text {
        match *byte {
            b'<' => write_bytes(b"&lt;", out)?,
            b'>' => write_bytes(b"&gt;", out)?,
            b'&' => write_bytes(b"&amp;", out)?,
            other => write_bytes(&[other], out)?,
        }
    }
    Ok(())
}
