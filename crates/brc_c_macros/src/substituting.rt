//! A macro's body with arguments in place of its parameters.

use crate::arguments::Arguments;
use crate::expanding::Reading;
use crate::macros::Part;
use crate::spelling::lexemes_in;
use brc_c_text::{Lexeme, LexemeKind, Punctuator, Symbol, Symbols};
use std::alloc::{AllocError, Global};

/// What is made of a body so far.
#[derive(Drop)]
struct Made {
    alloc: Global,
    all: Vec<Reading>,
    /// Whether `##` comes before what comes next.
    pastes: bool,
    /// Whether the last part of the body gave anything.
    has_left: bool,
}

/// Returns what the body of a macro is at a use, which is at `place`. `rest` is the parameter of `...`.
pub(crate) fn substituted(
    alloc: Global,
    symbols: &mut Symbols,
    body: &[Part],
    rest: Option<usize>,
    place: Reading,
    arguments: &Arguments,
) -> Result<Vec<Reading>, AllocError> {
    let mut made = Made {
        alloc,
        all: Vec::new(alloc),
        pastes: false,
        has_left: false,
    };
    let mut spells = false;
    for part in body {
        if spells {
            spells = false;
            if let Some(index) = part.parameter {
                let symbol = spelled(alloc, symbols, arguments.get(index))?;
                made.add(symbols, text(place, symbol))?;
                continue;
            }
        }
        if part.lexeme.is(Punctuator::HashHash) {
            made.pastes = made.has_left;
        } else if part.lexeme.is(Punctuator::Hash) {
            spells = true;
        } else if let Some(index) = part.parameter {
            if rest == Some(index) {
                made.drop_comma(arguments.get(index));
            }
            made.add_all(symbols, arguments.get(index))?;
        } else {
            made.add(symbols, at_place(&part.lexeme, place))?;
        }
    }
    Ok(made.all)
}

/// Returns a lexeme of the body at the place of the use.
fn at_place(lexeme: &Lexeme, place: Reading) -> Reading {
    Reading {
        lexeme: Lexeme {
            place: place.lexeme.place,
            ..*lexeme
        },
        inside: place.inside,
    }
}

fn text(place: Reading, symbol: Symbol) -> Reading {
    Reading {
        lexeme: Lexeme {
            kind: LexemeKind::Text,
            symbol,
            ..place.lexeme
        },
        inside: place.inside,
    }
}

/// Returns the string that spells an argument.
fn spelled(
    alloc: Global,
    symbols: &mut Symbols,
    argument: &[Reading],
) -> Result<Symbol, AllocError> {
    let mut spelling = Vec::new(alloc);
    spelling.push(b'"')?;
    for reading in argument {
        let lexeme = reading.lexeme;
        if lexeme.is_apart && spelling.len() > 1 {
            spelling.push(b' ')?;
        }
        let escapes = lexeme.kind == LexemeKind::Text || lexeme.kind == LexemeKind::Character;
        for byte in lexeme.text(symbols) {
            if escapes && (*byte == b'"' || *byte == b'\\') {
                spelling.push(b'\\')?;
            }
            spelling.push(*byte)?;
        }
    }
    spelling.push(b'"')?;
    symbols.symbol(spelling.as_slice())
}

impl Made {
    fn add(&mut self, symbols: &mut Symbols, reading: Reading) -> Result<(), AllocError> {
        if self.pastes {
            self.pastes = false;
            if let Some(left) = self.all.pop() {
                return self.paste(symbols, left, reading);
            }
        }
        self.has_left = true;
        self.all.push(reading)?;
        Ok(())
    }

    /// Drops the comma of `, ## __VA_ARGS__` if no arguments are left.
    fn drop_comma(&mut self, argument: &[Reading]) {
        let is_comma = match self.all.last() {
            Some(last) => last.lexeme.is(Punctuator::Comma),
            None => false,
        };
        if self.pastes && argument.is_empty() && is_comma {
            let _ = self.all.pop();
        }
    }

    fn add_all(&mut self, symbols: &mut Symbols, argument: &[Reading]) -> Result<(), AllocError> {
        for reading in argument {
            self.add(symbols, *reading)?;
        }
        self.has_left = !argument.is_empty() || self.pastes;
        self.pastes = false;
        Ok(())
    }

    /// Joins two lexemes to one, or leaves them as they are if they don't make one.
    fn paste(
        &mut self,
        symbols: &mut Symbols,
        left: Reading,
        right: Reading,
    ) -> Result<(), AllocError> {
        self.has_left = true;
        let mut joined = Vec::from_slice(self.alloc, left.lexeme.text(symbols))?;
        joined.extend_from_slice(right.lexeme.text(symbols))?;
        let lexemes = lexemes_in(self.alloc, symbols, joined.as_slice())?;
        match lexemes.as_slice() {
            [only] => self.all.push(Reading {
                lexeme: Lexeme {
                    place: left.lexeme.place,
                    ..*only
                },
                inside: left.inside.max(right.inside),
            })?,
            _ => {
                self.all.push(left)?;
                self.all.push(right)?;
            }
        }
        Ok(())
    }
}
