//! Expressions: operands, and the operators between them.

use crate::infix::{ASSIGNMENT, COMMA, CONDITIONAL, Infix, Level, OPEN};
use crate::parsing::Parser;
use crate::pending::{Operator, Pending};
use crate::stop::{Stop, not_read};
use brc_c_text::{Keyword, Lexeme, LexemeKind, Punctuator};
use brc_c_tree::{Expected, Expression, ExpressionId, Reason, Unary};

impl<'a> Parser<'a> {
    /// Reads an expression whose operators bind at least as tightly as this. At most `depth` parentheses may be open
    /// in it at once.
    #[cycle(expression)]
    pub(crate) fn expression(&mut self, depth: usize, least: Level) -> Result<ExpressionId, Stop> {
        let base = self.pending.len();
        let mut open: usize = 0;
        // Each turn takes an operand.
        for _turn in 0..self.cursor.left() {
            self.prefixes()?;
            let operand = self.operand(depth)?;
            match self.infix(least, open) {
                None => return self.finish(operand, base),
                Some(Infix::Question) => open = open.saturating_add(1),
                Some(Infix::Colon) => open = open.saturating_sub(1),
                Some(_) => {}
            }
            self.push_infix(operand, base)?;
        }
        Err(self.instead(Expected::Expression))
    }

    /// Reads an operand with what comes after it: calls, indices, fields, `++` and `--`.
    #[cycle(expression)]
    pub(crate) fn operand(&mut self, depth: usize) -> Result<ExpressionId, Stop> {
        let first = self.cursor.peek();
        let mut operand = if first.is(Punctuator::LeftParen) {
            self.parenthesized(depth)?
        } else {
            self.simple_operand()?
        };
        for _turn in 0..self.cursor.left() {
            let next = self.cursor.peek();
            operand = match next.kind {
                LexemeKind::Punctuator(Punctuator::LeftParen) => {
                    self.call(depth, operand, &first)?
                }
                LexemeKind::Punctuator(Punctuator::LeftBracket) => self.index(depth, operand)?,
                LexemeKind::Punctuator(
                    Punctuator::Dot
                    | Punctuator::Arrow
                    | Punctuator::PlusPlus
                    | Punctuator::MinusMinus,
                ) => self.suffix(operand, next)?,
                _ => return Ok(operand),
            };
        }
        Ok(operand)
    }

    #[cycle(expression)]
    fn parenthesized(&mut self, depth: usize) -> Result<ExpressionId, Stop> {
        let open = self.cursor.take();
        if self.cursor.peek().is(Punctuator::LeftBrace) {
            return Err(not_read(open.place, Reason::StatementExpression));
        }
        if depth == 0 {
            return Err(self.too_deep());
        }
        let inside = self.expression(depth - 1, COMMA)?;
        self.cursor.expect(Punctuator::RightParen)?;
        Ok(inside)
    }

    /// Reads the arguments of a call, whose function is `function` and begins with the lexeme `first`.
    #[cycle(expression)]
    fn call(
        &mut self,
        depth: usize,
        function: ExpressionId,
        first: &Lexeme,
    ) -> Result<ExpressionId, Stop> {
        let open = self.cursor.take();
        let mut found = Vec::new(self.alloc);
        for _turn in 0..self.cursor.left() {
            if self.cursor.peek().is(Punctuator::RightParen) {
                break;
            }
            found.push(self.argument(depth, first)?)?;
            if !self.cursor.eat(Punctuator::Comma) {
                break;
            }
        }
        self.cursor.expect(Punctuator::RightParen)?;
        let arguments = self.list_of(found.as_slice())?;
        self.expression_at(
            Expression::Call {
                function,
                arguments,
            },
            open.place,
        )
    }

    #[cycle(expression)]
    fn argument(&mut self, depth: usize, function: &Lexeme) -> Result<ExpressionId, Stop> {
        let place = self.cursor.peek().place;
        if self.is_type_argument(function) {
            self.type_name()?;
            return self.expression_at(Expression::Opaque, place);
        }
        if depth == 0 {
            return Err(self.too_deep());
        }
        self.expression(depth - 1, ASSIGNMENT)
    }

    #[cycle(expression)]
    fn index(&mut self, depth: usize, array: ExpressionId) -> Result<ExpressionId, Stop> {
        let open = self.cursor.take();
        if depth == 0 {
            return Err(self.too_deep());
        }
        let index = self.expression(depth - 1, COMMA)?;
        self.cursor.expect(Punctuator::RightBracket)?;
        self.expression_at(Expression::Index { array, index }, open.place)
    }

    /// Reads a field, `++` or `--` after an operand.
    fn suffix(&mut self, operand: ExpressionId, next: Lexeme) -> Result<ExpressionId, Stop> {
        self.cursor.take();
        let is_field = next.is(Punctuator::Dot) || next.is(Punctuator::Arrow);
        let expression = if is_field {
            Expression::Field {
                object: operand,
                name: self.cursor.name()?.symbol,
                is_arrow: next.is(Punctuator::Arrow),
            }
        } else {
            Expression::Step {
                is_up: next.is(Punctuator::PlusPlus),
                is_before: false,
                operand,
            }
        };
        self.expression_at(expression, next.place)
    }

    /// Reads an operand that isn't in parentheses.
    fn simple_operand(&mut self) -> Result<ExpressionId, Stop> {
        let first = self.cursor.peek();
        let expression = match first.kind {
            LexemeKind::Name => Expression::Name(self.meant(first.symbol)),
            LexemeKind::Number => Expression::Number(first.symbol),
            LexemeKind::Character => Expression::Character(first.symbol),
            LexemeKind::Text => Expression::Text(first.symbol),
            LexemeKind::Keyword(Keyword::Sizeof) => return self.size_of(),
            LexemeKind::Punctuator(Punctuator::LeftBrace) if self.follows_cast() => {
                return self.opaque_braces();
            }
            _ => return Err(self.instead(Expected::Expression)),
        };
        self.cursor.take();
        self.expression_at(expression, first.place)
    }

    fn follows_cast(&self) -> bool {
        match self.pending.last() {
            Some(last) => matches!(last.operator, Operator::Cast(_)),
            None => false,
        }
    }

    /// Reads `sizeof` before a parenthesis.
    fn size_of(&mut self) -> Result<ExpressionId, Stop> {
        let place = self.cursor.take().place;
        if !self
            .cursor
            .skip_nested(Punctuator::LeftParen, Punctuator::RightParen)
        {
            return Err(not_read(place, Reason::NotClosed));
        }
        self.expression_at(Expression::SizeOf, place)
    }

    /// Passes braces and what they enclose.
    pub(crate) fn opaque_braces(&mut self) -> Result<ExpressionId, Stop> {
        let place = self.cursor.peek().place;
        if !self
            .cursor
            .skip_nested(Punctuator::LeftBrace, Punctuator::RightBrace)
        {
            return Err(not_read(place, Reason::NotClosed));
        }
        self.expression_at(Expression::Opaque, place)
    }

    /// Reads the operators and casts before an operand.
    fn prefixes(&mut self) -> Result<(), Stop> {
        for _turn in 0..self.cursor.left() {
            let next = self.cursor.peek();
            let place = next.place;
            if next.is(Punctuator::LeftParen) && self.is_cast() {
                let operator = Operator::Cast(self.cast()?);
                self.pending.push(Pending { operator, place })?;
                continue;
            }
            let Some(operator) = prefix(next.kind) else {
                return Ok(());
            };
            if operator == Operator::SizeOf && self.cursor.ahead(1).is(Punctuator::LeftParen) {
                return Ok(());
            }
            self.cursor.take();
            self.pending.push(Pending { operator, place })?;
        }
        Ok(())
    }

    /// Returns what comes next, if it goes on with an expression of which `open` conditions have no `:` yet.
    fn infix(&self, least: Level, open: usize) -> Option<Infix> {
        let infix = Infix::of(self.cursor.peek().kind)?;
        let goes_on = if open > 0 {
            true
        } else {
            infix != Infix::Colon && infix.level() >= least
        };
        if goes_on { Some(infix) } else { None }
    }

    /// Takes the operator that comes next, after an operand.
    fn push_infix(&mut self, operand: ExpressionId, base: usize) -> Result<(), Stop> {
        let next = self.cursor.take();
        let place = next.place;
        let Some(infix) = Infix::of(next.kind) else {
            return Err(self.instead(Expected::Expression));
        };
        let operator = match infix {
            Infix::Binary(operator) => {
                Operator::Binary(operator, self.reduce(operand, base, infix.level())?)
            }
            // An assignment and a condition are read from the right.
            Infix::Assign(operator) => {
                Operator::Assign(operator, self.reduce(operand, base, CONDITIONAL)?)
            }
            Infix::Comma => Operator::Comma(self.reduce(operand, base, COMMA)?),
            Infix::Question => Operator::Question(self.reduce(operand, base, CONDITIONAL + 1)?),
            Infix::Colon => self.colon(operand, base)?,
        };
        Ok(self.pending.push(Pending { operator, place })?)
    }

    /// Ends the value between `?` and `:`.
    fn colon(&mut self, operand: ExpressionId, base: usize) -> Result<Operator, Stop> {
        let then = self.reduce(operand, base, COMMA)?;
        match self.pending.pop() {
            Some(
                Pending {
                    operator: Operator::Question(condition),
                    ..
                },
            ) => Ok(Operator::Colon(condition, then)),
            _ => Err(self.instead(Expected::Expression)),
        }
    }

    /// Applies the operators above `base` that bind at least as tightly as this, the last one first.
    fn reduce(
        &mut self,
        operand: ExpressionId,
        base: usize,
        least: Level,
    ) -> Result<ExpressionId, Stop> {
        let mut value = operand;
        for _turn in base..self.pending.len() {
            let Some(last) = self.pending.last().copied() else {
                break;
            };
            if last.level() < least || last.level() == OPEN {
                break;
            }
            let _ = self.pending.pop();
            value = self.expression_at(last.applied(value), last.place)?;
        }
        Ok(value)
    }

    fn finish(&mut self, operand: ExpressionId, base: usize) -> Result<ExpressionId, Stop> {
        let value = self.reduce(operand, base, COMMA)?;
        if self.pending.len() > base {
            return Err(self.instead(Expected::Punctuator(Punctuator::Colon)));
        }
        Ok(value)
    }
}

fn prefix(kind: LexemeKind) -> Option<Operator> {
    let punctuator = match kind {
        LexemeKind::Punctuator(punctuator) => punctuator,
        LexemeKind::Keyword(Keyword::Sizeof) => return Some(Operator::SizeOf),
        _ => return None,
    };
    match punctuator {
        Punctuator::Not => Some(Operator::Unary(Unary::Not)),
        Punctuator::Plus => Some(Operator::Unary(Unary::Plus)),
        Punctuator::Minus => Some(Operator::Unary(Unary::Minus)),
        Punctuator::Tilde => Some(Operator::Unary(Unary::Complement)),
        Punctuator::Star => Some(Operator::Unary(Unary::Dereference)),
        Punctuator::And => Some(Operator::Unary(Unary::Address)),
        Punctuator::PlusPlus => Some(Operator::Step { is_up: true }),
        Punctuator::MinusMinus => Some(Operator::Step { is_up: false }),
        _ => None,
    }
}
