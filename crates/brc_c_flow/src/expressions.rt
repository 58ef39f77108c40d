//! What happens while an expression's value is found, and what it is.

use crate::building::Builder;
use crate::facts::is_comparison;
use crate::operand::{Operand, Want};
use crate::reasons::FlowReason;
use crate::stop::Stop;
use brc_c_store::{Local, Source};
use brc_c_tree::{Binary, Expression, ExpressionId, Unary};

/// How many operands may be within each other.
pub(crate) const EXPRESSION_DEPTH: usize = 256;

impl<'a> Builder<'a> {
    /// Adds what happens while an expression's value is found, and returns what it is.
    #[cycle(expression)]
    pub(crate) fn value(
        &mut self,
        id: ExpressionId,
        want: Want,
        depth: usize,
    ) -> Result<Operand, Stop> {
        let Some(inside) = depth.checked_sub(1) else {
            return Err(self.stop_at(id, FlowReason::TooDeep));
        };
        let Some(expression) = self.tree.expression(id) else {
            return Ok(Operand::Plain);
        };
        match expression {
            Expression::Name(symbol) => self.name(id, symbol, want),
            Expression::Cast { to, operand } => {
                let is_object = want.is_object || self.types.is_object(self.symbols, to);
                self.value(operand, Want { is_object, ..want }, inside)
            }
            Expression::Binary { operator, .. } if is_condition(operator) => {
                self.truth(id, want, inside)
            }
            Expression::Unary {
                operator: Unary::Not,
                ..
            } => self.truth(id, want, inside),
            Expression::Assign {
                operator,
                left,
                right,
            } => { self.assign(operator, left, right, inside) }
            Expression::Conditional {
                condition,
                then,
                otherwise,
            } => { self.choose(condition, then, otherwise, want, inside) }
            Expression::Comma { left, right } => {
                self.value(left, Want::NOTHING, inside)?;
                self.value(right, want, inside)
            }
            Expression::Call {
                function,
                arguments,
            } => { self.call(id, function, arguments, want, inside) }
            _ => {
                if let Some(local) = self.followed_element(id)? {
                    return Ok(Operand::Object(local));
                }
                let first = self.parts(id, inside)?;
                self.combined(id, expression, first, want)
            }
        }
    }

    /// Returns the name of an element that has one.
    fn followed_element(&mut self, id: ExpressionId) -> Result<Option<Local>, Stop> {
        match self.element(id) {
            Some(local) => Ok(Some(local)),
            None => self.lent_element(id),
        }
    }

    /// Adds what happens in the operands of an expression, and returns what the first one has.
    #[cycle(expression)]
    pub(crate) fn parts(&mut self, id: ExpressionId, depth: usize) -> Result<Operand, Stop> {
        match self.tree.expression(id) {
            Some(
                Expression::Unary {
                    operator: Unary::Address,
                    operand,
                },
            ) => {
                match self.address(operand)? {
                    Some(found) => Ok(found),
                    None => self.inside_of(operand, depth),
                }
            }
            Some(
                Expression::Unary { operand, .. }
                | Expression::Step { operand, .. }
                | Expression::Field {
                    object: operand,
                    ..
                },
            ) => self.value(operand, Want::NOTHING, depth),
            Some(
                Expression::Binary { left, right, .. }
                | Expression::Index {
                    array: left,
                    index: right,
                },
            ) => {
                let first = self.value(left, Want::NOTHING, depth)?;
                self.value(right, Want::NOTHING, depth)?;
                Ok(first)
            }
            Some(Expression::Values(list)) => {
                let tree = self.tree;
                for value in tree.operands(list) {
                    self.value(*value, Want::NOTHING, depth)?;
                }
                Ok(Operand::Plain)
            }
            _ => Ok(Operand::Plain),
        }
    }

    /// Adds what happens while the place of a field or an element is found.
    #[cycle(expression)]
    fn inside_of(&mut self, id: ExpressionId, depth: usize) -> Result<Operand, Stop> {
        let Some(inside) = depth.checked_sub(1) else {
            return Err(self.stop_at(id, FlowReason::TooDeep));
        };
        let id = self.without_casts(id);
        let base = self.parts(id, inside)?;
        self.use_base(id, base)?;
        let cell = self.cell_at(id, base)?;
        self.forget_cell(cell, self.place_of(id))?;
        Ok(Operand::Plain)
    }

    /// Returns what an expression has whose first operand has this.
    fn combined(
        &mut self,
        id: ExpressionId,
        expression: Expression,
        first: Operand,
        want: Want,
    ) -> Result<Operand, Stop> {
        match expression {
            Expression::Number(_) | Expression::Character(_) => match self.constant_in(id) {
                Some(number) => Ok(Operand::Number(number)),
                None => Ok(Operand::Plain),
            },
            Expression::Binary { .. } => match self.constant_in(id) {
                Some(number) => Ok(Operand::Number(number)),
                None => Ok(Operand::Plain),
            },
            Expression::Unary {
                operator: Unary::Address,
                ..
            } => Ok(first),
            Expression::Unary {
                operator: Unary::Plus,
                ..
            } => Ok(first),
            Expression::Unary {
                operator: Unary::Minus,
                ..
            } => match first {
                Operand::Number(number) => match number.checked_neg() {
                    Some(negated) => Ok(Operand::Number(negated)),
                    None => Ok(Operand::Plain),
                },
                _ => Ok(Operand::Plain),
            },
            Expression::Step { operand, .. } => {
                self.changed(operand, Operand::Plain)?;
                Ok(first)
            }
            Expression::Field { .. }
            | Expression::Index { .. }
            | Expression::Unary {
                operator: Unary::Dereference,
                ..
            } => { self.memory(id, first, want) }
            _ => Ok(Operand::Plain),
        }
    }

    /// Finds whether a condition holds, as a number.
    #[cycle(expression)]
    fn truth(&mut self, id: ExpressionId, want: Want, depth: usize) -> Result<Operand, Stop> {
        let place = self.place_of(id);
        let branches = self.branches(place)?;
        let into = match want.into {
            Some(local) if !want.is_object => Some(local),
            _ if want.is_asked => Some(self.unnamed()?),
            _ => None,
        };
        self.condition(id, branches, depth)?;
        let Some(into) = into else {
            self.land(branches.fails);
            self.jump(branches.holds);
            self.land(branches.holds);
            return Ok(Operand::Plain);
        };
        let end = self.meeting(place)?;
        self.land(branches.holds);
        self.copy_signs(into, Operand::Number(1), place)?;
        self.jump(end);
        self.land(branches.fails);
        self.copy_signs(into, Operand::Number(0), place)?;
        self.land(end);
        Ok(Operand::Counted(into))
    }

    /// Finds one of two values.
    #[cycle(expression)]
    fn choose(
        &mut self,
        condition: ExpressionId,
        then: ExpressionId,
        otherwise: ExpressionId,
        want: Want,
        depth: usize,
    ) -> Result<Operand, Stop> {
        let place = self.place_of(condition);
        let branches = self.branches(place)?;
        let end = self.meeting(place)?;
        let is_object = want.is_object || self.is_object(then) || self.is_object(otherwise);
        let into = self.chosen(want, is_object)?;
        let want = Want {
            is_object,
            is_asked: want.is_asked,
            into,
        };
        self.condition(condition, branches, depth)?;
        self.land(branches.holds);
        let value = self.value(then, want, depth)?;
        self.settle(then, value, want)?;
        self.jump(end);
        self.land(branches.fails);
        let value = self.value(otherwise, want, depth)?;
        self.settle(otherwise, value, want)?;
        self.land(end);
        Ok(match into {
            Some(local) if is_object => Operand::Object(local),
            Some(local) => Operand::Counted(local),
            None => Operand::Plain,
        })
    }

    /// Returns the name that has one of two values afterwards.
    fn chosen(&mut self, want: Want, is_object: bool) -> Result<Option<Local>, Stop> {
        match want.into {
            Some(local) if want.is_object == is_object => Ok(Some(local)),
            _ if is_object || want.is_asked => Ok(Some(self.unnamed()?)),
            _ => Ok(None),
        }
    }

    /// Gives the wanted name a value, unless it has it already.
    pub(crate) fn settle(
        &mut self,
        id: ExpressionId,
        value: Operand,
        want: Want,
    ) -> Result<(), Stop> {
        let Some(to) = want.into else {
            return Ok(());
        };
        let place = self.place_of(id);
        if !want.is_object {
            return self.copy_signs(to, value, place);
        }
        match value {
            Operand::Object(local) => self.copy(to, Source::Local(local), place),
            Operand::Singleton(singleton) => match self.singleton_local(singleton)? {
                Some(local) => self.copy(to, Source::Local(local), place),
                None => Ok(()),
            },
            _ if value.is_null() => self.copy(to, Source::Null, place),
            _ => {
                self.unknown(id, want)?;
                Ok(())
            }
        }
    }
}

fn is_condition(operator: Binary) -> bool {
    operator == Binary::And || operator == Binary::Or || is_comparison(operator)
}
