//! The words of a line by their places. Single spaces separate them, so two spaces have an empty word between them.

use crate::visible::Span;

/// Returns the place of the word of this number, from 0, or `None` if the line has fewer words.
pub fn word_at(line: &[u8], number: usize) -> Option<Span> {
    let mut left = number;
    let mut from = 0;
    for (at, byte) in line.iter().enumerate() {
        if *byte == b' ' {
            if left == 0 {
                return Some(Span { from, to: at });
            }
            left -= 1;
            from = at + 1;
        }
    }
    if left > 0 {
        return None;
    }
    Some(Span {
        from,
        to: line.len(),
    })
}

/// Returns the place of the first empty word, or `None`.
pub fn empty_word(line: &[u8]) -> Option<Span> {
    let mut from = 0;
    for (at, byte) in line.iter().enumerate() {
        if *byte == b' ' {
            if at == from {
                return Some(Span { from, to: from });
            }
            from = at + 1;
        }
    }
    if from == line.len() {
        return Some(Span { from, to: from });
    }
    None
}

/// Returns how many words the line has.
pub fn word_count(line: &[u8]) -> usize {
    let mut count: usize = 1;
    for byte in line {
        if *byte == b' ' {
            count = count.saturating_add(1);
        }
    }
    count
}
