//! What is above a line of a text. The lines above the first faulty one are without a fault.

use crate::visible::{Span, part};
use crate::words::word_at;
use brc_lang::{Version, is_word, number_between, split_line, split_word};

/// A line of a text, and what is above it.
#[derive(Clone, Copy)]
pub struct Situation<'a> {
    /// The version that the text's first line names.
    pub version: Version,
    /// The line, without its line feed.
    pub line: &'a [u8],
    /// Whether a line feed ends it.
    pub is_ended: bool,
    /// Whether the text has anything from this line on.
    pub is_there: bool,
    /// The line above, or `None` for the first one.
    pub before: Option<&'a [u8]>,
    /// Whether a function is open above the line.
    pub inside: bool,
    /// Whether a function begins above the line.
    pub below_function: bool,
    /// The number of static lists above the line.
    pub statics: u32,
    /// The text below the last heading above the line, and the number of its first line.
    pub body: &'a [u8],
    pub body_line: u64,
}

/// Returns the line of this number, from 1, and what is above it.
pub fn find_line(text: &[u8], number: u64) -> Situation<'_> {
    let mut rest = text;
    let mut before = None;
    let mut inside = false;
    let mut below_function = false;
    let mut statics: u32 = 0;
    let mut body = text;
    let mut body_line = 1;
    for above in 1..number {
        let Some((line, below)) = split_line(rest) else {
            break;
        };
        let (word, _) = split_word(line);
        if is_word(word, b"func") {
            inside = true;
            below_function = true;
            body = below;
            body_line = above + 1;
        } else if is_word(line, b"end") {
            inside = false;
        } else if is_word(word, b"static") {
            statics = statics.saturating_add(1);
        }
        before = Some(line);
        rest = below;
    }
    let (line, is_ended) = first_line(rest);
    Situation {
        version: version_of(text),
        line,
        is_ended,
        is_there: !rest.is_empty(),
        before,
        inside,
        below_function,
        statics,
        body,
        body_line,
    }
}

/// Returns the line of this number, from 1, without its line feed.
pub fn line_at(text: &[u8], number: u64) -> &[u8] {
    find_line(text, number).line
}

/// Returns the text's first line, and whether a line feed ends it.
fn first_line(text: &[u8]) -> (&[u8], bool) {
    match split_line(text) {
        Some((line, _)) => (line, true),
        None => (text, false),
    }
}

/// Returns the version that the text's first line names, which isn't at fault.
fn version_of(text: &[u8]) -> Version {
    match split_line(text) {
        Some((line, _)) if is_word(line, b"module 2") => Version::Two,
        Some((line, _)) if is_word(line, b"module 3") => Version::Three,
        _ => Version::One,
    }
}

/// The line that opens a function.
#[derive(Clone, Copy)]
pub struct Heading<'a> {
    /// The line's number, from 1.
    pub number: u64,
    pub line: &'a [u8],
}

/// Returns the first line that opens a function of this name, or `None`.
pub fn heading_of<'a>(text: &'a [u8], name: &[u8]) -> Option<Heading<'a>> {
    let mut rest = text;
    for number in 1..u64::MAX {
        let (line, below) = split_line(rest)?;
        if opens(line, name) {
            return Some(Heading { number, line });
        }
        rest = below;
    }
    None
}

/// Returns whether the line opens a function of this name.
fn opens(line: &[u8], name: &[u8]) -> bool {
    let (word, _) = split_word(line);
    match word_at(line, 1) {
        Some(span) => is_word(word, b"func") && is_word(part(line, span), name),
        None => false,
    }
}

/// Returns how many instructions a function has, from its first line on.
pub fn count_instructions(body: &[u8]) -> usize {
    let mut rest = body;
    for count in 0..usize::MAX {
        let Some((line, below)) = split_line(rest) else {
            return count;
        };
        if is_word(line, b"end") {
            return count;
        }
        rest = below;
    }
    0
}

/// An instruction whose target leads the wrong way.
#[derive(Clone, Copy)]
pub struct WrongTarget<'a> {
    /// The instruction's number, from 0.
    pub at: usize,
    pub line: &'a [u8],
    /// The place of the target in the line.
    pub span: Span,
    /// Whether the instruction is `again`, which leads back.
    pub back: bool,
}

/// Returns the first instruction of a function whose target leads the wrong way, or `None`.
pub fn wrong_target(body: &[u8]) -> Option<WrongTarget<'_>> {
    let count = count_instructions(body);
    let mut rest = body;
    for at in 0..count {
        let (line, below) = split_line(rest)?;
        if let Some(found) = wrong_target_in(line, at, count) {
            return Some(found);
        }
        rest = below;
    }
    None
}

/// Returns the line's target, if it has one that leads the wrong way.
fn wrong_target_in(line: &[u8], at: usize, count: usize) -> Option<WrongTarget<'_>> {
    let (word, _) = split_word(line);
    let back = is_word(word, b"again");
    let span = if back {
        word_at(line, 1)?
    } else {
        last_word(line)
    };
    let target = target_in(part(line, span))?;
    let leads = if back {
        target <= at
    } else {
        at < target && target < count
    };
    if leads {
        return None;
    }
    Some(WrongTarget {
        at,
        line,
        span,
        back,
    })
}

fn last_word(line: &[u8]) -> Span {
    let mut from = 0;
    for (at, byte) in line.iter().enumerate() {
        if *byte == b' ' {
            from = at + 1;
        }
    }
    Span {
        from,
        to: line.len(),
    }
}

/// Returns the number of a target's word, or `None` for another word.
fn target_in(word: &[u8]) -> Option<usize> {
    match word {
        [b'@', digits @ ..] => match number_between(0, 255, digits) {
            Ok(number) => Some(number as usize),
            Err(_) => None,
        },
        _ => None,
    }
}
