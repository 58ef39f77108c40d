//! The words that say what is wrong, in lines.

use crate::place::{LEFT, LINE, PAD, characters_in, text_of};
use crate::shapes::write_text;
use std::io;
use std::io::Write;

/// What is left of words that have room.
const NOTHING: &[u8] = &[];

/// The most lines of the words. What is further is left out.
const MOST_LINES: u64 = 6;

/// Returns what has room in a line of so many characters, and the rest. It ends at a space, if there is one.
fn split_line(text: &[u8], characters: usize) -> (&[u8], &[u8]) {
    let Some(line) = text.get(..characters) else {
        return (text, NOTHING);
    };
    let mut end = None;
    for (at, byte) in line.iter().enumerate() {
        if *byte == b' ' {
            end = Some(at);
        }
    }
    match end {
        Some(at) => (
            text.get(..at).unwrap_or(line),
            text.get(at.saturating_add(1)..).unwrap_or(NOTHING),
        ),
        None => (line, text.get(characters..).unwrap_or(NOTHING)),
    }
}

/// Returns how high the words are in this width.
pub fn reason_height(reason: &[u8], width: u64) -> u64 {
    let mut rest = reason;
    let mut height = 6;
    for line in 0..MOST_LINES {
        if !rest.is_empty() {
            height = 6 + LINE + LINE * line;
            rest = split_line(rest, characters_in(width)).1;
        }
    }
    height
}

/// Writes the words in this width, from the picture's line on.
pub fn write_reason<W: Write>(reason: &[u8], width: u64, line: u32, out: &mut W) -> io::Result<()> {
    let mut rest = reason;
    let mut base = text_of(line).saturating_add(3);
    for _ in 0..MOST_LINES {
        if !rest.is_empty() {
            let (text, further) = split_line(rest, characters_in(width));
            write_text(LEFT + PAD, base, "part pale", text, out)?;
            rest = further;
            base = base.saturating_add(LINE);
        }
    }
    Ok(())
}
