//! A line of a text as a terminal can show it: cut around the part that matters, with a mark below that part.

use brc_lang::{write_bytes, write_number, write_pieces};
use brc_pages::write_in;
use brc_report::{Paint, Role};
use std::io;
use std::io::Write;

/// A part of a line: the bytes from `from` up to the one before `to`. If it is empty, it is the place before `from`.
#[derive(Clone, Copy)]
pub struct Span {
    pub from: usize,
    pub to: usize,
}

/// The most columns that a line's text is given: with its number in front it has 76 at most.
const ROOM: usize = 66;

/// The most columns before the marked part, if the line is cut.
const ROOM_BEFORE: usize = 24;

/// What is written where a line is cut.
const CUT: &[u8] = b"..";

const DIGITS: &[u8; 16] = b"0123456789abcdef";

/// Returns the bytes of the part, as far as the line has them.
pub fn part(line: &[u8], span: Span) -> &[u8] {
    let to = span.to.min(line.len());
    let from = span.from.min(to);
    &line[from..to]
}

/// Returns the span of a whole line.
pub fn whole(line: &[u8]) -> Span {
    Span {
        from: 0,
        to: line.len(),
    }
}

/// Returns the empty span behind a line.
pub fn behind(line: &[u8]) -> Span {
    Span {
        from: line.len(),
        to: line.len(),
    }
}

fn is_printable(byte: u8) -> bool {
    byte >= b' ' && byte <= b'~'
}

fn width_of(byte: u8) -> usize {
    if is_printable(byte) { 1 } else { 4 }
}

/// Returns how many columns the bytes take.
fn columns(bytes: &[u8]) -> usize {
    let mut total: usize = 0;
    for byte in bytes {
        total = total.saturating_add(width_of(*byte));
    }
    total
}

/// Returns how many of the first bytes fit into the columns.
fn fitting(bytes: &[u8], room: usize) -> usize {
    let mut left = room;
    for (at, byte) in bytes.iter().enumerate() {
        let width = width_of(*byte);
        if left < width {
            return at;
        }
        left -= width;
    }
    bytes.len()
}

/// Returns the first of the last bytes that fit into the columns, by its number.
fn first_fitting(bytes: &[u8], room: usize) -> usize {
    let mut taken = columns(bytes);
    for (at, byte) in bytes.iter().enumerate() {
        if taken <= room {
            return at;
        }
        taken = taken.saturating_sub(width_of(*byte));
    }
    bytes.len()
}

/// Returns the part of the line that is shown, around the marked one.
fn window(line: &[u8], marked: Span) -> Span {
    if columns(line) <= ROOM {
        return whole(line);
    }
    let before = part(
        line,
        Span {
            from: 0,
            to: marked.from,
        },
    );
    // At the end of the line there is more room in front.
    let last = first_fitting(line, ROOM - CUT.len());
    let from = first_fitting(before, ROOM_BEFORE).min(last);
    let rest = part(
        line,
        Span {
            from,
            to: line.len(),
        },
    );
    let shown = if columns(rest) <= ROOM - CUT.len() {
        rest.len()
    } else {
        fitting(rest, ROOM - 2 * CUT.len())
    };
    Span {
        from,
        to: from.saturating_add(shown),
    }
}

/// Writes the bytes; one that isn't printable ASCII as `\xNN`.
pub fn write_visible<W: Write>(bytes: &[u8], out: &mut W) -> io::Result<()> {
    for byte in bytes {
        write_visible_byte(*byte, out)?;
    }
    Ok(())
}

fn write_visible_byte<W: Write>(byte: u8, out: &mut W) -> io::Result<()> {
    if is_printable(byte) {
        return write_bytes(&[byte], out);
    }
    let high = DIGITS[(byte / 16) as usize];
    let low = DIGITS[(byte % 16) as usize];
    write_bytes(&[b'\\', b'x', high, low], out)
}

fn write_repeated<W: Write>(byte: u8, times: usize, out: &mut W) -> io::Result<()> {
    for _ in 0..times {
        write_bytes(&[byte], out)?;
    }
    Ok(())
}

/// Returns how many digits the number has.
fn digits_of(number: u64) -> usize {
    let mut rest = number / 10;
    for digits in 1..20 {
        if rest == 0 {
            return digits;
        }
        rest /= 10;
    }
    20
}

/// Writes a line of a text with its number, without a mark.
pub fn write_plain_line<W: Write>(
    number: u64,
    line: &[u8],
    paint: Paint,
    out: &mut W,
) -> io::Result<()> {
    write_number_column(number, paint, out)?;
    write_shown(line, window(line, Span { from: 0, to: 0 }), out)
}

/// Writes a line of a text with its number, and below it a mark under the part.
pub fn write_marked_line<W: Write>(
    number: u64,
    line: &[u8],
    marked: Span,
    paint: Paint,
    out: &mut W,
) -> io::Result<()> {
    let shown = window(line, marked);
    write_number_column(number, paint, out)?;
    write_shown(line, shown, out)?;
    write_repeated(b' ', digits_of(number), out)?;
    write_in(Role::Aside, &[b"   | "], paint, out)?;
    let cut = if shown.from > 0 { CUT.len() } else { 0 };
    let before = part(
        line,
        Span {
            from: shown.from,
            to: marked.from,
        },
    );
    write_repeated(b' ', columns(before).saturating_add(cut), out)?;
    let visible = part(
        line,
        Span {
            from: marked.from,
            to: marked.to.min(shown.to),
        },
    );
    write_bytes(paint.on(Role::Fault).as_bytes(), out)?;
    write_repeated(b'^', columns(visible).max(1), out)?;
    write_pieces(&[paint.off().as_bytes(), b"\n"], out)
}

fn write_number_column<W: Write>(number: u64, paint: Paint, out: &mut W) -> io::Result<()> {
    write_pieces(&[b"  ", paint.on(Role::Aside).as_bytes()], out)?;
    write_number(number, out)?;
    write_pieces(&[b" | ", paint.off().as_bytes()], out)
}

fn write_shown<W: Write>(line: &[u8], shown: Span, out: &mut W) -> io::Result<()> {
    if shown.from > 0 {
        write_bytes(CUT, out)?;
    }
    write_visible(part(line, shown), out)?;
    if shown.to < line.len() {
        write_bytes(CUT, out)?;
    }
    write_bytes(b"\n", out)
}
