use crate::asking::{answered, first_missing, missing};
use crate::conditions::{Conditions, Lost, Verdict};
use crate::directive::{Action, Directive, directive_of};
use crate::evaluating::value_of;
use crate::expanding::expand;
use crate::fault::MacroFault;
use crate::gluing::glued;
use crate::headers::Headers;
use crate::macros::Macros;
use crate::sources::{Next, Sources};
use brc_c_text::{
    Lexeme, LexemeKind, Place, Punctuator, Symbol, Symbols, TextFault, lexemes_of, scan,
};
use std::alloc::{AllocError, Global};

/// The greatest number of lexemes that are read or made for a source, with its headers.
pub const LEXEME_LIMIT: usize = 4194304;

/// What is left of a source.
#[derive(Drop)]
pub struct Preprocessed {
    /// What is in the source and in its headers, without directives, with macros expanded.
    pub lexemes: Vec<Lexeme>,
    /// What is left out for want of a name.
    pub lost: Vec<Lost>,
    /// The macros at its end.
    pub macros: Macros,
}

/// What preprocesses a source.
#[derive(Drop)]
struct Preprocessor {
    alloc: Global,
    macros: Macros,
    conditions: Conditions,
    sources: Sources,
    /// What isn't expanded yet.
    run: Vec<Lexeme>,
    out: Vec<Lexeme>,
    /// How many lexemes were read.
    count: usize,
}

/// Preprocesses the lexemes of a source, which has this number. `macros` are those that are defined before it.
///
/// # Errors
///
/// `TooLong` if more than `LEXEME_LIMIT` lexemes are read or made, or `NoMemory`. What isn't a directive of C's has no
/// effect, and a header that `headers` doesn't have is empty.
pub fn preprocess<H: Headers>(
    alloc: Global,
    symbols: &mut Symbols,
    headers: &mut H,
    macros: Macros,
    lexemes: Vec<Lexeme>,
    number: usize,
) -> Result<Preprocessed, MacroFault> {
    let mut this = Preprocessor {
        alloc,
        macros,
        conditions: Conditions::new(alloc),
        sources: Sources::new(alloc, lexemes, number)?,
        run: Vec::new(alloc),
        out: Vec::new(alloc),
        count: 0,
    };
    this.read_all(symbols, headers)?;
    this.finish(symbols)
}

impl Preprocessor {
    fn read_all<H: Headers>(
        &mut self,
        symbols: &mut Symbols,
        headers: &mut H,
    ) -> Result<(), MacroFault> {
        // Each turn reads a line, or ends a source.
        for _turn in 0..LEXEME_LIMIT {
            match self.sources.next() {
                None => return Ok(()),
                Some(Next::Line(start, end)) => self.read_line(symbols, headers, start, end)?,
                Some(Next::End(depth)) => self.end_source(symbols, depth)?,
            }
        }
        Err(MacroFault::TooLong)
    }

    fn finish(self, symbols: &mut Symbols) -> Result<Preprocessed, MacroFault> {
        let Preprocessor {
            alloc,
            macros,
            conditions,
            sources: _,
            run: _,
            out,
            count: _,
        } = self;
        let lexemes = glued(alloc, symbols, out.as_slice())?;
        Ok(Preprocessed {
            lexemes,
            lost: conditions.into_lost(),
            macros,
        })
    }

    fn end_source(&mut self, symbols: &mut Symbols, depth: usize) -> Result<(), MacroFault> {
        self.flush(symbols)?;
        let place = match self.out.last() {
            Some(last) => last.place,
            None => BEGINNING,
        };
        self.conditions.end_beyond(depth, place)?;
        Ok(())
    }

    fn read_line<H: Headers>(
        &mut self,
        symbols: &mut Symbols,
        headers: &mut H,
        start: usize,
        end: usize,
    ) -> Result<(), MacroFault> {
        let line = self.sources.line(start, end);
        self.count = self.count.saturating_add(line.len());
        if self.count > LEXEME_LIMIT {
            return Err(MacroFault::TooLong);
        }
        if directive_of(symbols, line).is_none() {
            if self.conditions.is_read() {
                self.run.extend_from_slice(line)?;
            }
            return Ok(());
        }
        let line = Vec::from_slice(self.alloc, line)?;
        let Some(directive) = directive_of(symbols, line.as_slice()) else {
            return Ok(());
        };
        self.direct(symbols, headers, &directive, line.as_slice())
    }

    fn direct<H: Headers>(
        &mut self,
        symbols: &mut Symbols,
        headers: &mut H,
        directive: &Directive<'_>,
        line: &[Lexeme],
    ) -> Result<(), MacroFault> {
        let Some(hash) = line.first() else {
            return Ok(());
        };
        let place = hash.place;
        let rest = directive.rest;
        match directive.action {
            Action::If | Action::Ifdef | Action::Ifndef => {
                let verdict = self.verdict(symbols, directive)?;
                self.conditions.begin(verdict, place)?;
            }
            Action::Elif if self.conditions.asks_next() => {
                let verdict = self.verdict(symbols, directive)?;
                self.conditions.next(verdict, place)?;
            }
            Action::Elif | Action::Else => self.conditions.next(ALWAYS, place)?,
            Action::Endif => self.conditions.end(place)?,
            Action::Define if self.conditions.is_read() => {
                self.flush(symbols)?;
                define(self.alloc, symbols, &mut self.macros, rest)?;
            }
            Action::Undef if self.conditions.is_read() => {
                self.flush(symbols)?;
                if let Some(name) = rest.first() {
                    self.macros.remove(name.symbol);
                }
            }
            Action::Include if self.conditions.is_read() => self.include(symbols, headers, rest)?,
            _ => {}
        }
        Ok(())
    }

    /// Expands what was read since the last change of macros.
    fn flush(&mut self, symbols: &mut Symbols) -> Result<(), MacroFault> {
        if self.run.is_empty() {
            return Ok(());
        }
        expand(
            self.alloc,
            symbols,
            &self.macros,
            self.run.as_slice(),
            &mut self.out,
        )?;
        self.run.clear();
        if self.out.len() > LEXEME_LIMIT {
            return Err(MacroFault::TooLong);
        }
        Ok(())
    }

    /// Begins the header that a directive names in quotes.
    fn include<H: Headers>(
        &mut self,
        symbols: &mut Symbols,
        headers: &mut H,
        rest: &[Lexeme],
    ) -> Result<(), MacroFault> {
        let Some(first) = rest.first() else {
            return Ok(());
        };
        if first.kind != LexemeKind::Text || !self.sources.has_room() {
            return Ok(());
        }
        self.flush(symbols)?;
        let mut bytes = Vec::new(self.alloc);
        let text = symbols.text(first.symbol);
        let name = match text {
            [b'"', name @ .., b'"'] => name,
            _ => return Ok(()),
        };
        let Some(number) = headers.load(name, self.sources.number(), &mut bytes)? else {
            return Ok(());
        };
        match scan(self.alloc, bytes.as_slice()) {
            Err(TextFault::NoMemory) => Err(MacroFault::NoMemory),
            // A header beyond the limit is as good as none.
            Err(TextFault::TooLong) => Ok(()),
            Ok(scanned) => {
                let lexemes = lexemes_of(
                    self.alloc,
                    symbols,
                    scanned.tokens.as_slice(),
                    bytes.as_slice(),
                    number,
                )?;
                self.sources
                    .begin(lexemes, number, self.conditions.depth())?;
                Ok(())
            }
        }
    }

    /// Decides a condition. Where lines aren't read anyway, nothing is asked.
    fn verdict(
        &self,
        symbols: &mut Symbols,
        directive: &Directive<'_>,
    ) -> Result<Verdict, AllocError> {
        if directive.action != Action::Elif && !self.conditions.is_read() {
            return Ok(ALWAYS);
        }
        if directive.action == Action::If || directive.action == Action::Elif {
            return self.decided(symbols, directive.rest);
        }
        let Some(name) = directive.rest.first() else {
            return Ok(ALWAYS);
        };
        let is_defined = self.macros.find(name.symbol).is_some();
        Ok(Verdict {
            holds: is_defined == (directive.action == Action::Ifdef),
            missing: if is_defined {
                None
            } else {
                missing(symbols, &self.macros, name)
            },
        })
    }

    fn decided(&self, symbols: &mut Symbols, condition: &[Lexeme]) -> Result<Verdict, AllocError> {
        let asked = answered(self.alloc, symbols, &self.macros, condition)?;
        let mut expanded = Vec::new(self.alloc);
        expand(
            self.alloc,
            symbols,
            &self.macros,
            asked.as_slice(),
            &mut expanded,
        )?;
        let value = value_of(self.alloc, symbols, expanded.as_slice())?;
        let holds = value.unwrap_or(0) != 0;
        Ok(Verdict {
            holds,
            missing: if holds {
                None
            } else {
                first_missing(symbols, &self.macros, condition)
            },
        })
    }
}

const ALWAYS: Verdict = Verdict {
    holds: true,
    missing: None,
};

/// Where nothing was read yet.
const BEGINNING: Place = Place {
    source: 0,
    line: 1,
    column: 1,
};

/// Defines the macro of a directive.
fn define(
    alloc: Global,
    symbols: &Symbols,
    macros: &mut Macros,
    rest: &[Lexeme],
) -> Result<(), MacroFault> {
    let [name, behind @ ..] = rest else {
        return Ok(());
    };
    if name.kind != LexemeKind::Name {
        return Ok(());
    }
    // Parentheses right after the name enclose parameters.
    match behind.first() {
        Some(open) if open.is(Punctuator::LeftParen) && !open.is_apart => {}
        _ => return macros.add(symbols, name.symbol, None, false, behind),
    }
    let mut parameters = Vec::new(alloc);
    let mut is_variadic = false;
    for (at, lexeme) in behind.iter().enumerate() {
        if lexeme.is(Punctuator::RightParen) {
            let body = behind.get(at.saturating_add(1)..).unwrap_or(&[]);
            let parameters = Some(parameters.as_slice());
            return macros.add(symbols, name.symbol, parameters, is_variadic, body);
        }
        if lexeme.kind == LexemeKind::Name {
            parameters.push(lexeme.symbol)?;
        }
        if lexeme.is(Punctuator::Ellipsis) {
            is_variadic = true;
            // `name...` has a name already.
            if !follows_name(behind, at) {
                let rest = symbols.find(b"__VA_ARGS__").unwrap_or(Symbol::EMPTY);
                parameters.push(rest)?;
            }
        }
    }
    Ok(())
}

/// Returns whether a name comes right before the lexeme at a place.
fn follows_name(lexemes: &[Lexeme], at: usize) -> bool {
    match at.checked_sub(1) {
        Some(before) => match lexemes.get(before) {
            Some(lexeme) => lexeme.kind == LexemeKind::Name,
            None => false,
        },
        None => false,
    }
}
