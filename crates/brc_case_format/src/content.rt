//! Content: the lines of a file of cases that spell the bytes of a text.

use crate::fault::Why;
use std::alloc::Global;

/// The named texts.
#[derive(Drop)]
pub struct Texts {
    pub(crate) entries: Vec<(String, Vec<u8>)>,
}

impl Texts {
    pub fn new(alloc: Global) -> Texts {
        Texts {
            entries: Vec::new(alloc),
        }
    }

    /// Returns the text of this name.
    pub fn get(&self, name: &str) -> Option<&[u8]> {
        for (its, text) in &self.entries {
            if its.as_str() == name {
                return Some(text.as_slice());
            }
        }
        None
    }
}

/// Returns whether the line is content.
pub fn is_content(line: &str) -> bool {
    line.starts_with('|') || line.starts_with('"') || line.starts_with('=')
}

/// Appends what the line of content stands for.
pub fn read_content(
    alloc: Global,
    texts: &Texts,
    line: &str,
    into: &mut Vec<u8>,
) -> Result<(), Why> {
    if let Some(text) = line.strip_prefix('|') {
        into.extend_from_slice(text.strip_prefix(' ').unwrap_or(text).as_bytes())?;
        into.push(b'\n')?;
        return Ok(());
    }
    let (what, times) = split_times(line)?;
    if let Some(name) = what.strip_prefix("= ") {
        let text = texts.get(name).ok_or(Why::NoText)?;
        return append(into, text, times);
    }
    let text = unquoted(alloc, what)?;
    append(into, text.as_slice(), times)
}

fn append(into: &mut Vec<u8>, text: &[u8], times: u32) -> Result<(), Why> {
    for _ in 0..times {
        into.extend_from_slice(text)?;
    }
    Ok(())
}

/// Parts the line from the number behind ` times `, which is 1 if there is none.
fn split_times(line: &str) -> Result<(&str, u32), Why> {
    match line.rsplit_once(" times ") {
        Some((what, number)) if !number.ends_with('"') => match number.parse::<u32>() {
            Ok(times) => Ok((what, times)),
            Err(_) => Err(Why::Number),
        },
        _ => Ok((line, 1)),
    }
}

/// Where a quoted text stands after a byte.
#[derive(Clone, Copy)]
enum Quoted {
    /// Before the first quote.
    Before,
    Inside,
    /// After a backslash.
    Escape,
    /// After `\x`.
    FirstDigit,
    /// After `\x` and this digit.
    SecondDigit(u8),
    /// After the last quote.
    After,
}

/// Returns the bytes of a text in quotes.
pub fn unquoted(alloc: Global, text: &str) -> Result<Vec<u8>, Why> {
    let mut made = Vec::new(alloc);
    let mut at = Quoted::Before;
    for byte in text.as_bytes() {
        let (next, meant) = after(at, *byte)?;
        at = next;
        if let Some(meant) = meant {
            made.push(meant)?;
        }
    }
    match at {
        Quoted::After => Ok(made),
        _ => Err(Why::Quoted),
    }
}

/// Returns where a quoted text stands after the byte, and the byte that it then has more.
fn after(at: Quoted, byte: u8) -> Result<(Quoted, Option<u8>), Why> {
    match (at, byte) {
        (Quoted::Before, b'"') => Ok((Quoted::Inside, None)),
        (Quoted::Inside, b'"') => Ok((Quoted::After, None)),
        (Quoted::Inside, b'\\') => Ok((Quoted::Escape, None)),
        (Quoted::Inside, _) => Ok((Quoted::Inside, Some(byte))),
        (Quoted::Escape, b'x') => Ok((Quoted::FirstDigit, None)),
        (Quoted::Escape, _) => Ok((Quoted::Inside, Some(escaped(byte)?))),
        (Quoted::FirstDigit, _) => Ok((Quoted::SecondDigit(digit(byte)?), None)),
        (Quoted::SecondDigit(high), _) => {
            let meant = high.wrapping_mul(16).wrapping_add(digit(byte)?);
            Ok((Quoted::Inside, Some(meant)))
        }
        _ => Err(Why::Quoted),
    }
}

/// Returns the byte that a backslash and this one mean.
fn escaped(byte: u8) -> Result<u8, Why> {
    match byte {
        b'n' => Ok(b'\n'),
        b'r' => Ok(b'\r'),
        b't' => Ok(b'\t'),
        b'0' => Ok(0),
        b'\\' | b'"' => Ok(byte),
        _ => Err(Why::Quoted),
    }
}

/// Returns the value of a hexadecimal digit.
fn digit(byte: u8) -> Result<u8, Why> {
    match byte {
        b'0'..=b'9' => Ok(byte - b'0'),
        b'a'..=b'f' => Ok(byte - b'a' + 10),
        b'A'..=b'F' => Ok(byte - b'A' + 10),
        _ => Err(Why::Quoted),
    }
}
