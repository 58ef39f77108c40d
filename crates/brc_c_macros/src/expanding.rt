//! Macros as they are expanded: what a use stands for is read again, and its own name isn't expanded in it.

use crate::arguments::Arguments;
use crate::macros::{Macro, Macros};
use crate::substituting::substituted;
use brc_c_text::{Lexeme, LexemeKind, Punctuator, Symbol, Symbols};
use std::alloc::{AllocError, Global};

/// How many lexemes are read for one use of a macro, with all that its body uses.
pub const USE_LIMIT: usize = 65536;

/// How many macros may be expanded inside one another.
const NESTING_LIMIT: usize = 64;

/// A lexeme that is read, and the macros in whose bodies it is.
#[derive(Clone, Copy)]
pub(crate) struct Reading {
    pub(crate) lexeme: Lexeme,
    /// The innermost of them by its number from 1, or 0 if there is none.
    pub(crate) inside: usize,
}

/// What expands the macros of a run of lexemes.
#[derive(Drop)]
pub(crate) struct Expander<'a> {
    pub(crate) alloc: Global,
    run: &'a [Lexeme],
    at: usize,
    /// What is read before the rest of the run, the next one last.
    before: Vec<Reading>,
    /// The uses that were expanded: the macro's name, and the use around it.
    uses: Vec<(Symbol, usize)>,
}

/// Appends a run of lexemes with its macros expanded.
pub(crate) fn expand(
    alloc: Global,
    symbols: &mut Symbols,
    macros: &Macros,
    run: &[Lexeme],
    into: &mut Vec<Lexeme>,
) -> Result<(), AllocError> {
    let mut expander = Expander {
        alloc,
        run,
        at: 0,
        before: Vec::new(alloc),
        uses: Vec::new(alloc),
    };
    let mut steps: usize = 0;
    for _turn in 0..run.len().saturating_mul(USE_LIMIT) {
        if expander.before.is_empty() {
            steps = 0;
        }
        let Some(next) = expander.take() else {
            break;
        };
        steps = steps.saturating_add(1);
        if steps > USE_LIMIT {
            expander.before.clear();
            into.push(endless(&next.lexeme))?;
            continue;
        }
        match macros.expanded(symbols, &next.lexeme) {
            Some(found) if !expander.is_inside(next) => {
                expander.apply(symbols, macros, &found, next, into)?;
            }
            _ => into.push(next.lexeme)?,
        }
    }
    Ok(())
}

/// Returns what stands for the rest of a use that is too long.
fn endless(lexeme: &Lexeme) -> Lexeme {
    Lexeme {
        kind: LexemeKind::Endless,
        ..*lexeme
    }
}

impl<'a> Expander<'a> {
    /// Takes what is read next.
    pub(crate) fn take(&mut self) -> Option<Reading> {
        if let Some(reading) = self.before.pop() {
            return Some(reading);
        }
        let lexeme = *self.run.get(self.at)?;
        self.at = self.at.saturating_add(1);
        Some(Reading { lexeme, inside: 0 })
    }

    fn peeks(&self, punctuator: Punctuator) -> bool {
        match self.before.last() {
            Some(reading) => reading.lexeme.is(punctuator),
            None => match self.run.get(self.at) {
                Some(lexeme) => lexeme.is(punctuator),
                None => false,
            },
        }
    }

    /// Returns where the run is being read, and how much is read before it.
    pub(crate) fn mark(&self) -> (usize, usize) {
        (self.at, self.before.len())
    }

    /// Goes back to a mark. These were taken since.
    pub(crate) fn go_back(
        &mut self,
        mark: (usize, usize),
        taken: &[Reading],
    ) -> Result<(), AllocError> {
        let (at, count) = mark;
        self.at = at;
        for reading in taken.get(..count).unwrap_or(taken).iter().rev() {
            if self.before.len() < count {
                self.before.push(*reading)?;
            }
        }
        Ok(())
    }

    /// Returns whether a name is in what its own macro is expanded to.
    fn is_inside(&self, reading: Reading) -> bool {
        let mut inside = reading.inside;
        for _turn in 0..NESTING_LIMIT {
            let Some(at) = inside.checked_sub(1) else {
                return false;
            };
            let Some((name, outer)) = self.uses.get(at).copied() else {
                return false;
            };
            if name == reading.lexeme.symbol {
                return true;
            }
            inside = outer;
        }
        true
    }

    /// Expands a use, or appends its name if it has no arguments.
    fn apply(
        &mut self,
        symbols: &mut Symbols,
        macros: &Macros,
        found: &Macro,
        name: Reading,
        into: &mut Vec<Lexeme>,
    ) -> Result<(), AllocError> {
        let arguments = match found.parameters {
            None => Some(Arguments::new(self.alloc)),
            Some(count) if self.peeks(Punctuator::LeftParen) => {
                self.arguments(count, found.is_variadic)?
            }
            Some(_) => None,
        };
        let Some(arguments) = arguments else {
            into.push(name.lexeme)?;
            return Ok(());
        };
        self.uses.push((name.lexeme.symbol, name.inside))?;
        let place = Reading {
            lexeme: name.lexeme,
            inside: self.uses.len(),
        };
        let made = substituted(
            self.alloc,
            symbols,
            macros.parts_of(found),
            macros.rest_of(found),
            place,
            &arguments,
        )?;
        for reading in made.iter().rev() {
            self.before.push(*reading)?;
        }
        Ok(())
    }
}
