//! Operators that wait for their right operand.

use crate::infix::{ASSIGNMENT, COMMA, CONDITIONAL, Infix, Level, OPEN, PREFIX};
use brc_c_text::Place;
use brc_c_tree::{Binary, Expression, ExpressionId, TypeName, Unary};

/// An operator, with the operands that come before it.
#[derive(Clone, Copy, PartialEq, Eq)]
pub(crate) enum Operator {
    Unary(Unary),
    Step { is_up: bool },
    SizeOf,
    Cast(TypeName),
    Binary(Binary, ExpressionId),
    Assign(Option<Binary>, ExpressionId),
    Comma(ExpressionId),
    /// `?`, whose `:` hasn't come yet.
    Question(ExpressionId),
    /// `:`, after a condition and the value where it holds.
    Colon(ExpressionId, ExpressionId),
}

#[derive(Clone, Copy)]
pub(crate) struct Pending {
    pub(crate) operator: Operator,
    pub(crate) place: Place,
}

impl Pending {
    pub(crate) fn level(&self) -> Level {
        match self.operator {
            Operator::Unary(_) | Operator::Step { .. } | Operator::SizeOf | Operator::Cast(_) => {
                PREFIX
            }
            Operator::Binary(operator, _) => Infix::Binary(operator).level(),
            Operator::Assign(_, _) => ASSIGNMENT,
            Operator::Comma(_) => COMMA,
            Operator::Question(_) => OPEN,
            Operator::Colon(_, _) => CONDITIONAL,
        }
    }

    /// Returns the expression that the operator makes of its right operand.
    pub(crate) fn applied(&self, operand: ExpressionId) -> Expression {
        match self.operator {
            Operator::Unary(operator) => Expression::Unary { operator, operand },
            Operator::Step { is_up } => Expression::Step {
                is_up,
                is_before: true,
                operand,
            },
            Operator::SizeOf => Expression::SizeOf,
            Operator::Cast(to) => Expression::Cast { to, operand },
            Operator::Binary(operator, left) => Expression::Binary {
                operator,
                left,
                right: operand,
            },
            Operator::Assign(operator, left) => Expression::Assign {
                operator,
                left,
                right: operand,
            },
            Operator::Comma(left) => Expression::Comma {
                left,
                right: operand,
            },
            // An open `?` is never applied: its `:` takes its place.
            Operator::Question(_) => Expression::Opaque,
            Operator::Colon(condition, then) => Expression::Conditional {
                condition,
                then,
                otherwise: operand,
            },
        }
    }
}
