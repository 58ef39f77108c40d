//! Adjacent strings, which are one.

use brc_c_text::{Lexeme, LexemeKind, Punctuator, Symbol, Symbols};
use std::alloc::{AllocError, Global};

/// Fewer names than these may stand for strings in a row.
const NAMES_LIMIT: usize = 8;

/// Returns the lexemes with neighbouring strings joined to one. A name next to a string is a macro that has a string, as
/// `__FILE__` and those of a system's header: it adds nothing.
pub(crate) fn glued(
    alloc: Global,
    symbols: &mut Symbols,
    lexemes: &[Lexeme],
) -> Result<Vec<Lexeme>, AllocError> {
    let mut all: Vec<Lexeme> = Vec::with_capacity(alloc, lexemes.len())?;
    for (at, lexeme) in lexemes.iter().enumerate() {
        let before = all.last().copied();
        let last = match before {
            Some(last) if last.kind == LexemeKind::Text => last,
            _ => {
                if !begins_text(lexemes, at) {
                    all.push(*lexeme)?;
                }
                continue;
            }
        };
        if lexeme.kind == LexemeKind::Text {
            let symbol = joined(alloc, symbols, last.symbol, lexeme.symbol)?;
            let _ = all.pop();
            all.push(Lexeme { symbol, ..last })?;
        } else if !ends_text(lexemes, at) {
            all.push(*lexeme)?;
        }
    }
    Ok(all)
}

/// Returns whether this lexeme is a name, and a string comes after it and the names that follow it.
fn begins_text(lexemes: &[Lexeme], at: usize) -> bool {
    match after_names(lexemes, at) {
        Some(next) => next.kind == LexemeKind::Text,
        None => false,
    }
}

/// Returns whether after this name, and those that follow it, a string goes on, or the operand that it is part of ends.
fn ends_text(lexemes: &[Lexeme], at: usize) -> bool {
    match after_names(lexemes, at) {
        Some(next) => {
            next.kind == LexemeKind::Text
                || next.is(Punctuator::Comma)
                || next.is(Punctuator::RightParen)
        }
        None => false,
    }
}

/// Returns what comes after the names from this place on, if there is one at least and not too many.
fn after_names(lexemes: &[Lexeme], at: usize) -> Option<Lexeme> {
    let mut next = lexemes.get(at)?;
    for ahead in 1..NAMES_LIMIT {
        if next.kind != LexemeKind::Name {
            return if ahead > 1 { Some(*next) } else { None };
        }
        next = lexemes.get(at.checked_add(ahead)?)?;
    }
    None
}

fn joined(
    alloc: Global,
    symbols: &mut Symbols,
    left: Symbol,
    right: Symbol,
) -> Result<Symbol, AllocError> {
    let mut text = Vec::from_slice(alloc, symbols.text(left))?;
    let _ = text.pop();
    text.extend_from_slice(behind_quote(symbols.text(right)))?;
    symbols.symbol(text.as_slice())
}

/// Returns what comes after the first quote of a string.
fn behind_quote(text: &[u8]) -> &[u8] {
    match text.iter().position(|byte| *byte == b'"') {
        Some(quote) => text.get(quote.saturating_add(1)..).unwrap_or(b""),
        None => text,
    }
}
