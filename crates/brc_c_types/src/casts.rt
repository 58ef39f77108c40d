use crate::types::Types;
use brc_c_text::{Keyword, Lexeme, LexemeKind, Punctuator, Symbol};
use brc_c_tree::TypeName;

impl Types {
    /// Returns what a function gives that a macro casts from a table: `(*(T *(*)(..))table[..])` has `T *`, and
    /// `(*(F)table[..])` what `F` gives, a type of pointers to functions. `body` is the macro's.
    pub fn cast_result(&self, body: &[Lexeme]) -> Option<TypeName> {
        match written_result(body) {
            Some(result) => Some(result),
            None => self.result_of_pointer(pointer_of(body)?),
        }
    }
}

/// Returns the name to which a body casts: `(*(F)..` has `F`.
fn pointer_of(body: &[Lexeme]) -> Option<Symbol> {
    match body {
        [first, star, second, name, close, ..]
            if first.is(Punctuator::LeftParen)
                && star.is(Punctuator::Star)
                && second.is(Punctuator::LeftParen)
                && name.kind == LexemeKind::Name
                && close.is(Punctuator::RightParen) => Some(name.symbol),
        _ => None,
    }
}

/// Returns the type that a body has before `(*`.
fn written_result(body: &[Lexeme]) -> Option<TypeName> {
    let mut symbol: Option<Symbol> = None;
    let mut stars: u32 = 0;
    for (at, lexeme) in body.iter().enumerate() {
        match lexeme.kind {
            LexemeKind::Name => {
                symbol = Some(lexeme.symbol);
                stars = 0;
            }
            LexemeKind::Keyword(Keyword::Const | Keyword::Struct | Keyword::Volatile) => {}
            LexemeKind::Punctuator(Punctuator::Star) => stars = stars.saturating_add(1),
            LexemeKind::Punctuator(Punctuator::LeftParen) => {
                if let Some(symbol) = symbol {
                    return ending(body.get(at..)?, symbol, stars);
                }
                stars = 0;
            }
            _ => return None,
        }
    }
    None
}

/// Returns the type before `(*` of a pointer to a function.
fn ending(rest: &[Lexeme], symbol: Symbol, stars: u32) -> Option<TypeName> {
    match rest {
        [_, star, ..] if star.is(Punctuator::Star) => Some(TypeName {
            symbol,
            tag: None,
            stars,
            is_function: false,
        }),
        _ => None,
    }
}
