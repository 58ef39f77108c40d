use crate::keyword::Keyword;
use crate::punctuator::Punctuator;
use crate::symbols::{Symbol, Symbols};
use crate::token::{Token, TokenKind};
use std::alloc::{AllocError, Global};

/// What a lexeme is.
#[derive(Clone, Copy, PartialEq, Eq)]
pub enum LexemeKind {
    /// An identifier that is no keyword.
    Name,
    Keyword(Keyword),
    Number,
    Text,
    Character,
    Punctuator(Punctuator),
    /// A byte that begins no token.
    Unknown,
    /// What stands for the rest of a macro's use that is too long.
    Endless,
    /// What is read after the last lexeme.
    End,
}

/// A place in the sources of a program.
#[derive(Clone, Copy, PartialEq, Eq)]
pub struct Place {
    /// The number of the source.
    pub source: usize,
    /// The line and the column, from 1. Columns count bytes.
    pub line: u32,
    pub column: u32,
}

/// A token without its source: its symbol says what it spells.
#[derive(Clone, Copy)]
pub struct Lexeme {
    pub kind: LexemeKind,
    /// Whether it is the first one of its line, where continued lines are one.
    pub begins_line: bool,
    /// Whether a blank, a comment or the end of a line comes before it.
    pub is_apart: bool,
    /// What it spells. A punctuator's symbol is empty.
    pub symbol: Symbol,
    pub place: Place,
}

impl Lexeme {
    /// Returns whether it is this punctuator.
    pub fn is(&self, punctuator: Punctuator) -> bool {
        self.kind == LexemeKind::Punctuator(punctuator)
    }

    /// Returns what it spells.
    pub fn text<'a>(&self, symbols: &'a Symbols) -> &'a [u8] {
        match self.kind {
            LexemeKind::Punctuator(punctuator) => punctuator.text().as_bytes(),
            _ => symbols.text(self.symbol),
        }
    }
}

/// Returns the lexemes of a source's tokens.
pub fn lexemes_of(
    alloc: Global,
    symbols: &mut Symbols,
    tokens: &[Token],
    source: &[u8],
    number: usize,
) -> Result<Vec<Lexeme>, AllocError> {
    let mut lexemes = Vec::with_capacity(alloc, tokens.len())?;
    for token in tokens {
        let (kind, symbol) = spelled(symbols, token, source)?;
        lexemes.push(Lexeme {
            kind,
            begins_line: token.begins_line,
            is_apart: token.is_apart,
            symbol,
            place: Place {
                source: number,
                line: token.line,
                column: token.column,
            },
        })?;
    }
    Ok(lexemes)
}

/// Returns what a token is among lexemes, and its symbol.
fn spelled(
    symbols: &mut Symbols,
    token: &Token,
    source: &[u8],
) -> Result<(LexemeKind, Symbol), AllocError> {
    if let TokenKind::Punctuator(punctuator) = token.kind {
        return Ok((LexemeKind::Punctuator(punctuator), Symbol::EMPTY));
    }
    let symbol = symbols.symbol(token.text(source))?;
    let kind = match token.kind {
        TokenKind::Name => match symbols.keyword(symbol) {
            Some(keyword) => LexemeKind::Keyword(keyword),
            None => LexemeKind::Name,
        },
        TokenKind::Number => LexemeKind::Number,
        TokenKind::Text => LexemeKind::Text,
        TokenKind::Character => LexemeKind::Character,
        TokenKind::Unknown | TokenKind::Punctuator(_) => LexemeKind::Unknown,
    };
    Ok((kind, symbol))
}
