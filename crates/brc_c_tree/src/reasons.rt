//! The words of reasons.

use crate::stop::{Expected, NESTING_LIMIT, Reason, TOKEN_LIMIT};
use brc_c_text::{Keyword, LexemeKind, Symbol, Symbols};
use std::alloc::{AllocError, Global};

/// Returns the reason in words.
pub fn reason_text(alloc: Global, symbols: &Symbols, reason: Reason) -> Result<String, AllocError> {
    match reason {
        Reason::Instead {
            found,
            symbol,
            expected,
        } => {
            let found = found_text(alloc, symbols, found, symbol)?;
            let expected = expected_text(alloc, expected)?;
            format!(in alloc; "{found} is read where {expected} is expected")
        }
        Reason::Unknown(symbol) => {
            let found = String::from_utf8_lossy(alloc, symbols.text(symbol))?;
            format!(in alloc; "`{found}` is read, which begins nothing in C")
        }
        Reason::Endless(symbol) => {
            let found = String::from_utf8_lossy(alloc, symbols.text(symbol))?;
            format!(in alloc; "a macro makes too much before `{found}`")
        }
        Reason::TooLong => format!(in alloc; "more than {TOKEN_LIMIT} tokens"),
        Reason::TooDeep => format!(in alloc; "nested more than {NESTING_LIMIT} deep"),
        _ => String::from_str(alloc, plain_text(reason)),
    }
}

fn plain_text(reason: Reason) -> &'static str {
    match reason {
        Reason::MissingCode => "`...` stands for code that isn't there",
        Reason::StatementExpression => "statements in an expression",
        Reason::Assembler => "assembler",
        Reason::Cleanup => "a variable whose end calls a function",
        Reason::NotClosed => "a brace or a parenthesis isn't closed",
        _ => "more than 512 functions in a file",
    }
}

fn found_text(
    alloc: Global,
    symbols: &Symbols,
    found: LexemeKind,
    symbol: Symbol,
) -> Result<String, AllocError> {
    match found {
        LexemeKind::End => String::from_str(alloc, "the end"),
        LexemeKind::Punctuator(punctuator) => {
            let text = punctuator.text();
            format!(in alloc; "`{text}`")
        }
        _ => {
            let text = String::from_utf8_lossy(alloc, symbols.text(symbol))?;
            format!(in alloc; "`{text}`")
        }
    }
}

fn expected_text(alloc: Global, expected: Expected) -> Result<String, AllocError> {
    match expected {
        Expected::Expression => String::from_str(alloc, "an expression"),
        Expected::Name => String::from_str(alloc, "a name"),
        Expected::Keyword(Keyword::While) => String::from_str(alloc, "`while`"),
        Expected::Keyword(_) => String::from_str(alloc, "a keyword"),
        Expected::Punctuator(punctuator) => {
            let text = punctuator.text();
            format!(in alloc; "`{text}`")
        }
    }
}
