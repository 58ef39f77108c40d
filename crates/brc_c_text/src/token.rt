use crate::punctuator::Punctuator;

/// What a token is.
#[derive(Clone, Copy, PartialEq, Eq)]
pub enum TokenKind {
    /// An identifier or a keyword.
    Name,
    /// A number of any form, as the preprocessor reads it.
    Number,
    /// A string, with its quotes.
    Text,
    /// A character, with its quotes.
    Character,
    Punctuator(Punctuator),
    /// A byte that begins no token: a quote that isn't closed on its line, or what C doesn't have.
    Unknown,
}

/// A token: what it is, and where it is.
#[derive(Clone, Copy)]
pub struct Token {
    pub kind: TokenKind,
    /// Whether it is the first one of its line, where continued lines are one.
    pub begins_line: bool,
    /// Whether a blank, a comment or the end of a line comes before it.
    pub is_apart: bool,
    /// Its line and column, from 1. Columns count bytes.
    pub line: u32,
    pub column: u32,
    /// Where its first byte is, and the byte after its last one.
    pub start: u32,
    pub end: u32,
}

impl Token {
    /// Returns the token's bytes in the source that it was read from.
    pub fn text(self, source: &[u8]) -> &[u8] {
        source
            .get(self.start as usize..self.end as usize)
            .unwrap_or(b"")
    }
}
