//! Statements that begin with a keyword.

use crate::infix::{COMMA, CONDITIONAL};
use crate::parsing::Parser;
use crate::stop::{Stop, not_read};
use brc_c_text::{Keyword, LexemeKind, Place, Punctuator};
use brc_c_tree::{Expected, ExpressionId, Reason, Statement, StatementId};

impl<'a> Parser<'a> {
    /// Reads the condition of `if` or `while`: in parentheses, or a macro's that brings them.
    fn condition(&mut self, depth: usize) -> Result<ExpressionId, Stop> {
        if self.cursor.peek().kind == LexemeKind::Name {
            return self.operand(depth);
        }
        self.in_parens(depth)
    }

    fn in_parens(&mut self, depth: usize) -> Result<ExpressionId, Stop> {
        self.cursor.expect(Punctuator::LeftParen)?;
        let value = self.expression(depth, COMMA)?;
        self.cursor.expect(Punctuator::RightParen)?;
        Ok(value)
    }

    /// Reads `if`, with all the `else if` after it: these aren't nested.
    #[cycle(statement)]
    pub(crate) fn if_statement(&mut self, depth: usize) -> Result<StatementId, Stop> {
        let mut arms = Vec::new(self.alloc);
        let mut otherwise = None;
        for _turn in 0..self.cursor.left() {
            let place = self.cursor.take().place;
            let condition = self.condition(depth)?;
            let then = self.nested(depth)?;
            arms.push((condition, then, place))?;
            if !self.cursor.eat_keyword(Keyword::Else) {
                break;
            }
            if self.cursor.peek().kind != LexemeKind::Keyword(Keyword::If) {
                otherwise = Some(self.nested(depth)?);
                break;
            }
        }
        self.join_arms(arms.as_slice(), otherwise)
    }

    /// Makes the statement of the arms of an `if`, the last one first.
    fn join_arms(
        &mut self,
        arms: &[(ExpressionId, StatementId, Place)],
        last: Option<StatementId>,
    ) -> Result<StatementId, Stop> {
        let mut otherwise = last;
        for (condition, then, place) in arms.iter().rev() {
            otherwise = Some(self.statement_at(
                Statement::If {
                    condition: *condition,
                    then: *then,
                    otherwise,
                },
                *place,
            )?);
        }
        otherwise.ok_or(self.instead(Expected::Expression))
    }

    #[cycle(statement)]
    pub(crate) fn while_statement(&mut self, depth: usize) -> Result<StatementId, Stop> {
        let place = self.cursor.take().place;
        let condition = self.condition(depth)?;
        let outside = self.begin_loop();
        let body = self.nested(depth)?;
        self.staying = outside;
        self.statement_at(Statement::While { condition, body }, place)
    }

    #[cycle(statement)]
    pub(crate) fn do_statement(&mut self, depth: usize) -> Result<StatementId, Stop> {
        let place = self.cursor.take().place;
        let outside = self.begin_loop();
        let body = self.nested(depth)?;
        self.staying = outside;
        if !self.cursor.eat_keyword(Keyword::While) {
            return Err(self.instead(Expected::Keyword(Keyword::While)));
        }
        let condition = self.in_parens(depth)?;
        self.cursor.eat(Punctuator::Semicolon);
        self.statement_at(Statement::DoWhile { body, condition }, place)
    }

    #[cycle(statement)]
    pub(crate) fn for_statement(&mut self, depth: usize) -> Result<StatementId, Stop> {
        let place = self.cursor.take().place;
        self.cursor.expect(Punctuator::LeftParen)?;
        let scope = self.begin_scope();
        let first = self.first_of_for(depth)?;
        let condition = self.expression_before(Punctuator::Semicolon, depth)?;
        let next = self.expression_before(Punctuator::RightParen, depth)?;
        let outside = self.begin_loop();
        let body = self.nested(depth)?;
        self.staying = outside;
        self.end_scope(scope);
        self.statement_at(
            Statement::For {
                first,
                condition,
                next,
                body,
            },
            place,
        )
    }

    /// Reads what a `for` does first, with its semicolon.
    fn first_of_for(&mut self, depth: usize) -> Result<Option<StatementId>, Stop> {
        let place = self.cursor.peek().place;
        if self.is_declaration() {
            let count = self.endings.len();
            let first = self.declaration(depth)?;
            // The loop's end would end the variable.
            if self.endings.len() > count {
                return Err(not_read(place, Reason::Cleanup));
            }
            return Ok(Some(first));
        }
        match self.expression_before(Punctuator::Semicolon, depth)? {
            Some(value) => Ok(Some(self.statement_at(Statement::Expression(value), place)?)),
            None => Ok(None),
        }
    }

    /// Reads an expression, if there is one, and the punctuator after it.
    fn expression_before(
        &mut self,
        end: Punctuator,
        depth: usize,
    ) -> Result<Option<ExpressionId>, Stop> {
        if self.cursor.eat(end) {
            return Ok(None);
        }
        let value = self.expression(depth, COMMA)?;
        self.cursor.expect(end)?;
        Ok(Some(value))
    }

    #[cycle(statement)]
    pub(crate) fn switch_statement(&mut self, depth: usize) -> Result<StatementId, Stop> {
        let place = self.cursor.take().place;
        let value = self.in_parens(depth)?;
        let outside = self.begin_switch();
        let body = self.nested(depth)?;
        self.staying = outside;
        self.statement_at(Statement::Switch { value, body }, place)
    }

    /// Reads a statement that has no other in it and begins with this keyword.
    pub(crate) fn leaf_statement(
        &mut self,
        keyword: Keyword,
        depth: usize,
    ) -> Result<StatementId, Stop> {
        let place = self.cursor.peek().place;
        if keyword == Keyword::Sizeof {
            let value = self.expression(depth, COMMA)?;
            self.cursor.expect(Punctuator::Semicolon)?;
            return self.statement_at(Statement::Expression(value), place);
        }
        if keyword == Keyword::Asm {
            return Err(not_read(place, Reason::Assembler));
        }
        if !begins_leaf(keyword) {
            return Err(self.instead(Expected::Expression));
        }
        self.cursor.take();
        let (statement, end) = self.leaf(keyword, depth)?;
        self.cursor.expect(end)?;
        self.leaving(statement, place)
    }

    /// Reads what comes after the keyword of such a statement, and returns what ends it.
    fn leaf(&mut self, keyword: Keyword, depth: usize) -> Result<(Statement, Punctuator), Stop> {
        match keyword {
            Keyword::Return if self.cursor.peek().is(Punctuator::Semicolon) => {
                Ok((Statement::Return(None), Punctuator::Semicolon))
            }
            Keyword::Return => {
                let value = self.expression(depth, COMMA)?;
                Ok((Statement::Return(Some(value)), Punctuator::Semicolon))
            }
            Keyword::Goto => {
                let label = self.cursor.name()?.symbol;
                Ok((Statement::Goto(label), Punctuator::Semicolon))
            }
            Keyword::Break => Ok((Statement::Break, Punctuator::Semicolon)),
            Keyword::Continue => Ok((Statement::Continue, Punctuator::Semicolon)),
            Keyword::Default => Ok((Statement::Default, Punctuator::Colon)),
            _ => Ok((Statement::Case(self.case_value(depth)?), Punctuator::Colon)),
        }
    }

    /// Reads the value of a `case`. Of a range the first one counts.
    fn case_value(&mut self, depth: usize) -> Result<ExpressionId, Stop> {
        let value = self.expression(depth, CONDITIONAL)?;
        if self.cursor.eat(Punctuator::Ellipsis) {
            self.expression(depth, CONDITIONAL)?;
        }
        Ok(value)
    }
}

fn begins_leaf(keyword: Keyword) -> bool {
    matches!(
        keyword,
        Keyword::Return
            | Keyword::Goto
            | Keyword::Break
            | Keyword::Continue
            | Keyword::Case
            | Keyword::Default
    )
}
