//! Declarations of variables.

use crate::ending::Ending;
use crate::infix::ASSIGNMENT;
use crate::parsing::Parser;
use crate::specifying::Specifiers;
use crate::stop::{Stop, not_read};
use brc_c_text::{Keyword, Punctuator, Symbol};
use brc_c_tree::{Declaration, Expression, ExpressionId, Reason, Statement, StatementId};

impl<'a> Parser<'a> {
    /// Reads a declaration with its semicolon.
    pub(crate) fn declaration(&mut self, depth: usize) -> Result<StatementId, Stop> {
        let place = self.cursor.peek().place;
        let is_typedef = self.cursor.eat_keyword(Keyword::Typedef);
        self.cleanup = None;
        let specifiers = self.specifiers()?;
        let cleanup = self.cleanup;
        let mut found = Vec::new(self.alloc);
        for _turn in 0..self.cursor.left() {
            // `struct s { .. };` declares no variable.
            if self.cursor.peek().is(Punctuator::Semicolon) {
                break;
            }
            self.cleanup = cleanup;
            let mut declared = self.declarator(specifiers)?;
            if is_typedef {
                self.declare_type(declared.name)?;
            } else if specifiers.is_extern || self.passes_parameters()? {
                self.declare_outside(declared.name)?;
            } else {
                // Its first value may speak of it.
                declared.name = self.declare(declared.name)?;
                self.end_with_call(declared.name)?;
                declared.value = self.first_value_of(depth)?;
                found.push(declared)?;
            }
            if !self.cursor.eat(Punctuator::Comma) {
                break;
            }
        }
        self.cursor.expect(Punctuator::Semicolon)?;
        let list = self.tree.add_declarations(found.as_slice())?;
        self.statement_at(Statement::Declare(list), place)
    }

    /// Notes that the end of a variable calls a function, if an attribute says so.
    fn end_with_call(&mut self, variable: Symbol) -> Result<(), Stop> {
        if let Some(function) = self.cleanup {
            self.endings.push(Ending { function, variable })?;
        }
        Ok(())
    }

    /// Reads a variable's stars, name and dimensions.
    fn declarator(&mut self, specifiers: Specifiers) -> Result<Declaration, Stop> {
        let place = self.cursor.peek().place;
        let mut type_name = self.stars(specifiers.type_name);
        let name = if self.cursor.peek().is(Punctuator::LeftParen) {
            type_name.is_function = true;
            match self.function_pointer()? {
                Some(name) => name,
                None => return Err(self.no_name()),
            }
        } else {
            self.cursor.name()?
        };
        let dimensions = self.dimensions()?;
        type_name.stars = type_name.stars.saturating_add(dimensions);
        self.attributes()?;
        Ok(Declaration {
            name: name.symbol,
            type_name,
            dimensions,
            is_static: specifiers.is_static,
            is_const: specifiers.is_const,
            value: None,
            place,
        })
    }

    /// Passes the parameters of a function that is declared among variables, and returns whether there are any.
    fn passes_parameters(&mut self) -> Result<bool, Stop> {
        let next = self.cursor.peek();
        if !next.is(Punctuator::LeftParen) {
            return Ok(false);
        }
        if !self
            .cursor
            .skip_nested(Punctuator::LeftParen, Punctuator::RightParen)
        {
            return Err(not_read(next.place, Reason::NotClosed));
        }
        Ok(true)
    }

    /// Reads a variable's first value, if it has one.
    fn first_value_of(&mut self, depth: usize) -> Result<Option<ExpressionId>, Stop> {
        if !self.cursor.eat(Punctuator::Equal) {
            return Ok(None);
        }
        Ok(Some(self.first_value(depth)?))
    }

    /// Passes the dimensions of an array, and returns how many it has.
    pub(crate) fn dimensions(&mut self) -> Result<u32, Stop> {
        let mut count: u32 = 0;
        for _turn in 0..self.cursor.left() {
            let place = self.cursor.peek().place;
            if !self.cursor.peek().is(Punctuator::LeftBracket) {
                break;
            }
            if !self
                .cursor
                .skip_nested(Punctuator::LeftBracket, Punctuator::RightBracket)
            {
                return Err(not_read(place, Reason::NotClosed));
            }
            count = count.saturating_add(1);
        }
        Ok(count)
    }

    fn first_value(&mut self, depth: usize) -> Result<ExpressionId, Stop> {
        if !self.cursor.peek().is(Punctuator::LeftBrace) {
            return self.expression(depth, ASSIGNMENT);
        }
        // What isn't a plain list of values isn't looked into.
        let before = self.cursor;
        let pending = self.pending.len();
        match self.values(depth) {
            Err(Stop::NotRead(_)) => {
                self.cursor = before;
                self.pending.truncate(pending);
                self.opaque_braces()
            }
            read => read,
        }
    }

    fn values(&mut self, depth: usize) -> Result<ExpressionId, Stop> {
        let place = self.cursor.take().place;
        let mut found = Vec::new(self.alloc);
        for _turn in 0..self.cursor.left() {
            if self.cursor.peek().is(Punctuator::RightBrace) {
                break;
            }
            found.push(self.expression(depth, ASSIGNMENT)?)?;
            if !self.cursor.eat(Punctuator::Comma) {
                break;
            }
        }
        self.cursor.expect(Punctuator::RightBrace)?;
        let list = self.list_of(found.as_slice())?;
        self.expression_at(Expression::Values(list), place)
    }
}
