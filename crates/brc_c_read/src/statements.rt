//! Statements.

use crate::infix::{ASSIGNMENT, COMMA};
use crate::parsing::Parser;
use crate::stop::{Stop, not_read};
use brc_c_text::{Keyword, Lexeme, LexemeKind, Punctuator};
use brc_c_tree::{Expected, Expression, ExpressionId, Known, Reason, Statement, StatementId};

impl<'a> Parser<'a> {
    /// Reads a statement, in which at most `depth` others may be nested.
    #[cycle(statement)]
    pub(crate) fn statement(&mut self, depth: usize) -> Result<StatementId, Stop> {
        self.skip_standard_attribute();
        let first = self.cursor.peek();
        match first.kind {
            LexemeKind::Punctuator(Punctuator::LeftBrace) => self.block(depth),
            LexemeKind::Keyword(Keyword::Typedef) => self.declaration(depth),
            LexemeKind::Keyword(keyword) if !begins_declaration(keyword) => {
                self.keyword_statement(keyword, depth)
            }
            _ => self.simple_statement(depth),
        }
    }

    /// Passes an attribute of a statement, as `[[fallthrough]]`.
    fn skip_standard_attribute(&mut self) {
        let is_one = self.cursor.peek().is(Punctuator::LeftBracket)
            && self.cursor.ahead(1).is(Punctuator::LeftBracket);
        if is_one {
            self.cursor
                .skip_nested(Punctuator::LeftBracket, Punctuator::RightBracket);
        }
    }

    /// Reads a statement that is nested in another one.
    #[cycle(statement)]
    pub(crate) fn nested(&mut self, depth: usize) -> Result<StatementId, Stop> {
        if depth == 0 {
            return Err(self.too_deep());
        }
        self.statement(depth - 1)
    }

    /// Reads a block.
    #[cycle(statement)]
    pub(crate) fn block(&mut self, depth: usize) -> Result<StatementId, Stop> {
        let place = self.cursor.peek().place;
        self.cursor.expect(Punctuator::LeftBrace)?;
        let scope = self.begin_scope();
        let staying = self.endings.len();
        let mut all = Vec::new(self.alloc);
        // Each turn takes a lexeme.
        for _turn in 0..self.cursor.left() {
            let next = self.cursor.peek();
            if next.is(Punctuator::RightBrace) || next.kind == LexemeKind::End {
                break;
            }
            all.push(self.nested(depth)?)?;
        }
        let end = self.cursor.peek().place;
        if !self.cursor.eat(Punctuator::RightBrace) {
            return Err(not_read(place, Reason::NotClosed));
        }
        self.end_variables(staying, end, &mut all)?;
        self.endings.truncate(staying);
        self.end_scope(scope);
        self.block_at(all.as_slice(), place)
    }

    /// Reads a statement that begins with this keyword.
    #[cycle(statement)]
    fn keyword_statement(&mut self, keyword: Keyword, depth: usize) -> Result<StatementId, Stop> {
        match keyword {
            Keyword::If => self.if_statement(depth),
            Keyword::While => self.while_statement(depth),
            Keyword::Do => self.do_statement(depth),
            Keyword::For => self.for_statement(depth),
            Keyword::Switch => self.switch_statement(depth),
            _ => self.leaf_statement(keyword, depth),
        }
    }

    /// Reads a statement that begins with no keyword, or with one that begins a declaration.
    fn simple_statement(&mut self, depth: usize) -> Result<StatementId, Stop> {
        let first = self.cursor.peek();
        let place = first.place;
        if self.cursor.eat(Punctuator::Semicolon) {
            return self.block_at(&[], place);
        }
        if first.kind == LexemeKind::Name {
            let behind = self.cursor.ahead(1);
            if behind.is(Punctuator::Colon) && !self.cursor.ahead(2).is(Punctuator::Colon) {
                self.cursor.take();
                self.cursor.take();
                return self.leaving(Statement::Label(first.symbol), place);
            }
            if let Some(known) = Known::of(self.symbols.text(first.symbol)) {
                return self.known_statement(known, depth);
            }
        }
        if self.is_declaration() {
            return self.declaration(depth);
        }
        self.expression_statement(depth)
    }

    /// Reads one of Python's macros, whose parentheses and semicolon may be missing.
    fn known_statement(&mut self, known: Known, depth: usize) -> Result<StatementId, Stop> {
        let place = self.cursor.take().place;
        let mut found = Vec::new(self.alloc);
        if self.cursor.eat(Punctuator::LeftParen) {
            for _turn in 0..self.cursor.left() {
                if self.cursor.peek().is(Punctuator::RightParen) {
                    break;
                }
                found.push(self.expression(depth, ASSIGNMENT)?)?;
                if !self.cursor.eat(Punctuator::Comma) {
                    break;
                }
            }
            self.cursor.expect(Punctuator::RightParen)?;
        }
        self.cursor.eat(Punctuator::Semicolon);
        let arguments = self.list_of(found.as_slice())?;
        self.leaving(Statement::Known { known, arguments }, place)
    }

    /// Reads an expression and its semicolon, which may be missing after a macro at a line's end.
    fn expression_statement(&mut self, depth: usize) -> Result<StatementId, Stop> {
        let first = self.cursor.peek();
        let value = self.expression(depth, COMMA)?;
        if !self.cursor.eat(Punctuator::Semicolon) {
            let next = self.cursor.peek();
            let ends_line = next.place.line > first.place.line;
            if !ends_line || !self.is_macro(value, &first) {
                return Err(self.instead(Expected::Punctuator(Punctuator::Semicolon)));
            }
        }
        self.statement_at(Statement::Expression(value), first.place)
    }

    /// Returns whether the expression may be a macro that brings its own semicolon: a name in capitals, or one of
    /// Python's or C's, alone or with arguments.
    fn is_macro(&self, value: ExpressionId, first: &Lexeme) -> bool {
        let is_plain = match self.tree.expression(value) {
            Some(Expression::Name(_)) => true,
            Some(Expression::Call { function, .. }) => {
                matches!(self.tree.expression(function), Some(Expression::Name(_)))
            }
            _ => false,
        };
        let name = self.symbols.text(first.symbol);
        is_plain && first.kind == LexemeKind::Name && (is_capital(name) || is_pythons(name))
    }
}

fn begins_declaration(keyword: Keyword) -> bool {
    keyword.is_qualifier() || keyword.has_tag()
}

fn is_capital(name: &[u8]) -> bool {
    for byte in name {
        if !byte.is_ascii_uppercase() && !byte.is_ascii_digit() && *byte != b'_' {
            return false;
        }
    }
    name.len() > 1 && name[0].is_ascii_uppercase()
}

fn is_pythons(name: &[u8]) -> bool {
    name.starts_with(b"Py_") || name.starts_with(b"_Py_") || name == b"_Pragma".as_slice()
}
