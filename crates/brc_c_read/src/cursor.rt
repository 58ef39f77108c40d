use crate::stop::{Stop, not_read};
use brc_c_text::{Keyword, Lexeme, LexemeKind, Place, Punctuator, Symbol};
use brc_c_tree::{Expected, Reason};

/// A place among lexemes.
#[derive(Clone, Copy)]
pub(crate) struct Cursor<'a> {
    lexemes: &'a [Lexeme],
    at: usize,
    /// What is read after the last lexeme.
    end: Lexeme,
}

impl<'a> Cursor<'a> {
    /// Returns a cursor before the first of these lexemes. They end at this place.
    pub(crate) fn new(lexemes: &'a [Lexeme], end: Place) -> Cursor<'a> {
        Cursor {
            lexemes,
            at: 0,
            end: Lexeme {
                kind: LexemeKind::End,
                begins_line: true,
                is_apart: true,
                symbol: Symbol::EMPTY,
                place: end,
            },
        }
    }

    /// Returns how many lexemes are left.
    pub(crate) fn left(&self) -> usize {
        self.lexemes.len().saturating_sub(self.at)
    }

    /// Returns the lexeme this far after the next one.
    pub(crate) fn ahead(&self, by: usize) -> Lexeme {
        match self.lexemes.get(self.at.saturating_add(by)) {
            Some(lexeme) => *lexeme,
            None => self.end,
        }
    }

    pub(crate) fn peek(&self) -> Lexeme {
        self.ahead(0)
    }

    /// Takes the next lexeme.
    pub(crate) fn take(&mut self) -> Lexeme {
        let taken = self.peek();
        self.at = self.at.saturating_add(1);
        taken
    }

    /// Takes this punctuator if it is next, and returns whether it was.
    pub(crate) fn eat(&mut self, punctuator: Punctuator) -> bool {
        let is_next = self.peek().is(punctuator);
        if is_next {
            self.take();
        }
        is_next
    }

    /// Takes this keyword if it is next, and returns whether it was.
    pub(crate) fn eat_keyword(&mut self, keyword: Keyword) -> bool {
        let is_next = self.peek().kind == LexemeKind::Keyword(keyword);
        if is_next {
            self.take();
        }
        is_next
    }

    /// Takes this punctuator, which has to be next.
    pub(crate) fn expect(&mut self, punctuator: Punctuator) -> Result<(), Stop> {
        if self.eat(punctuator) {
            return Ok(());
        }
        Err(self.instead(Expected::Punctuator(punctuator)))
    }

    /// Takes a name, which has to be next.
    pub(crate) fn name(&mut self) -> Result<Lexeme, Stop> {
        if self.peek().kind == LexemeKind::Name {
            return Ok(self.take());
        }
        Err(self.instead(Expected::Name))
    }

    /// Returns that the next lexeme is where something else is expected.
    pub(crate) fn instead(&self, expected: Expected) -> Stop {
        let found = self.peek();
        let reason = match found.kind {
            LexemeKind::Unknown => Reason::Unknown(found.symbol),
            LexemeKind::Endless => Reason::Endless(found.symbol),
            LexemeKind::Punctuator(Punctuator::Ellipsis) => Reason::MissingCode,
            kind => Reason::Instead {
                found: kind,
                symbol: found.symbol,
                expected,
            },
        };
        not_read(found.place, reason)
    }

    /// Passes what is between two brackets, the first of which is next. Returns whether there were both.
    pub(crate) fn skip_nested(&mut self, open: Punctuator, close: Punctuator) -> bool {
        let mut depth: usize = 0;
        for _turn in 0..self.left() {
            let lexeme = self.take();
            if lexeme.is(open) {
                depth = depth.saturating_add(1);
            } else if lexeme.is(close) {
                depth = depth.saturating_sub(1);
            }
            if depth == 0 {
                return lexeme.is(close);
            }
        }
        false
    }
}
