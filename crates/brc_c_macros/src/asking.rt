//! The condition of an `#if`, with `defined` answered.

use crate::macros::Macros;
use crate::spelling::is_reserved;
use brc_c_text::{Lexeme, LexemeKind, Punctuator, Symbol, Symbols};
use std::alloc::{AllocError, Global};

/// What comes before a lexeme of the condition.
#[derive(Clone, Copy, PartialEq, Eq)]
enum Before {
    Other,
    /// `defined`
    Asked,
    /// `defined (`
    Opened,
    /// `defined (NAME`
    Named,
}

/// Returns the condition with 1 or 0 where it asks whether a name is defined.
pub(crate) fn answered(
    alloc: Global,
    symbols: &mut Symbols,
    macros: &Macros,
    condition: &[Lexeme],
) -> Result<Vec<Lexeme>, AllocError> {
    let defined = symbols.symbol(b"defined")?;
    let zero = symbols.symbol(b"0")?;
    let one = symbols.symbol(b"1")?;
    let mut all = Vec::new(alloc);
    let mut before = Before::Other;
    for lexeme in condition {
        before = match before {
            Before::Other if lexeme.symbol == defined => Before::Asked,
            Before::Asked if lexeme.is(Punctuator::LeftParen) => Before::Opened,
            Before::Named if lexeme.is(Punctuator::RightParen) => Before::Other,
            Before::Other | Before::Named => {
                all.push(*lexeme)?;
                Before::Other
            }
            Before::Asked | Before::Opened => {
                let is_defined = macros.find(lexeme.symbol).is_some();
                all.push(Lexeme {
                    kind: LexemeKind::Number,
                    symbol: if is_defined { one } else { zero },
                    ..*lexeme
                })?;
                if before == Before::Opened {
                    Before::Named
                } else {
                    Before::Other
                }
            }
        };
    }
    Ok(all)
}

/// Returns the first name of the condition that nothing defines.
pub(crate) fn first_missing(
    symbols: &Symbols,
    macros: &Macros,
    condition: &[Lexeme],
) -> Option<Symbol> {
    for lexeme in condition {
        if lexeme.kind == LexemeKind::Name && symbols.text(lexeme.symbol) != b"defined".as_slice() {
            if let Some(name) = missing(symbols, macros, lexeme) {
                return Some(name);
            }
        }
    }
    None
}

/// Returns the name if nothing defines it and it is an option of a build.
pub(crate) fn missing(symbols: &Symbols, macros: &Macros, name: &Lexeme) -> Option<Symbol> {
    if macros.find(name.symbol).is_some() || is_reserved(symbols.text(name.symbol)) {
        None
    } else {
        Some(name.symbol)
    }
}
