//! Constant expressions of `#if`.

use crate::constant::{character, integer};
use brc_c_text::{Lexeme, LexemeKind, Punctuator, Symbols};
use std::alloc::{AllocError, Global};

/// What waits for its right operand.
#[derive(Clone, Copy, PartialEq, Eq)]
enum Waiting {
    Open,
    Prefix(Punctuator),
    Infix(Punctuator),
    /// `?`, whose condition is the value before.
    Question,
    /// `:`, whose condition and value are the two values before.
    Colon,
}

impl Waiting {
    fn level(self) -> u8 {
        match self {
            Waiting::Open | Waiting::Question => 0,
            Waiting::Colon => 1,
            Waiting::Infix(punctuator) => level_of(punctuator).unwrap_or(0),
            Waiting::Prefix(_) => 12,
        }
    }
}

/// An expression that is being evaluated.
#[derive(Drop)]
struct Evaluation {
    values: Vec<i64>,
    waiting: Vec<Waiting>,
    /// Whether an operand comes next.
    wants_operand: bool,
}

/// Returns the value of an expression whose macros are expanded, or `None` if it has none, as where it calls what
/// nothing defines. A name that is left counts as 0.
pub(crate) fn value_of(
    alloc: Global,
    symbols: &Symbols,
    lexemes: &[Lexeme],
) -> Result<Option<i64>, AllocError> {
    let mut evaluation = Evaluation {
        values: Vec::new(alloc),
        waiting: Vec::new(alloc),
        wants_operand: true,
    };
    for lexeme in lexemes {
        let is_known = if evaluation.wants_operand {
            evaluation.add_operand(symbols, lexeme)?
        } else {
            evaluation.add_operator(lexeme)?
        };
        if !is_known {
            return Ok(None);
        }
    }
    if evaluation.wants_operand || !evaluation.reduce(1)? || !evaluation.waiting.is_empty() {
        return Ok(None);
    }
    Ok(evaluation.values.pop())
}

impl Evaluation {
    /// Takes a lexeme where an operand is wanted. Returns whether it may be there.
    fn add_operand(&mut self, symbols: &Symbols, lexeme: &Lexeme) -> Result<bool, AllocError> {
        let value = match lexeme.kind {
            LexemeKind::Number => match integer(symbols.text(lexeme.symbol)) {
                Some(value) => value,
                None => return Ok(false),
            },
            LexemeKind::Character => character(symbols.text(lexeme.symbol)),
            LexemeKind::Name | LexemeKind::Keyword(_) => 0,
            LexemeKind::Punctuator(Punctuator::LeftParen) => {
                self.waiting.push(Waiting::Open)?;
                return Ok(true);
            }
            LexemeKind::Punctuator(
                punctuator @ (Punctuator::Not
                | Punctuator::Minus
                | Punctuator::Plus
                | Punctuator::Tilde),
            ) => {
                self.waiting.push(Waiting::Prefix(punctuator))?;
                return Ok(true);
            }
            _ => return Ok(false),
        };
        self.values.push(value)?;
        self.wants_operand = false;
        Ok(true)
    }

    /// Takes a lexeme after an operand. Returns whether it may be there.
    fn add_operator(&mut self, lexeme: &Lexeme) -> Result<bool, AllocError> {
        let LexemeKind::Punctuator(punctuator) = lexeme.kind else {
            return Ok(false);
        };
        let next = match punctuator {
            Punctuator::RightParen => {
                return Ok(self.reduce(1)? && self.waiting.pop() == Some(Waiting::Open));
            }
            Punctuator::Question => {
                if !self.reduce(2)? {
                    return Ok(false);
                }
                Waiting::Question
            }
            Punctuator::Colon => {
                if !self.reduce(1)? || self.waiting.pop() != Some(Waiting::Question) {
                    return Ok(false);
                }
                Waiting::Colon
            }
            _ => {
                let Some(level) = level_of(punctuator) else {
                    return Ok(false);
                };
                if !self.reduce(level)? {
                    return Ok(false);
                }
                Waiting::Infix(punctuator)
            }
        };
        self.waiting.push(next)?;
        self.wants_operand = true;
        Ok(true)
    }

    /// Applies what waits and binds at least as tightly as this. Returns whether each had its operands.
    fn reduce(&mut self, least: u8) -> Result<bool, AllocError> {
        for _turn in 0..self.waiting.len() {
            let Some(last) = self.waiting.last().copied() else {
                break;
            };
            if last.level() < least {
                break;
            }
            let _ = self.waiting.pop();
            match self.applied(last) {
                Some(value) => self.values.push(value)?,
                None => return Ok(false),
            }
        }
        Ok(true)
    }

    /// Takes the operands of an operator, and returns its value.
    fn applied(&mut self, operator: Waiting) -> Option<i64> {
        let right = self.values.pop()?;
        match operator {
            Waiting::Prefix(punctuator) => Some(prefixed(punctuator, right)),
            Waiting::Infix(punctuator) => {
                let left = self.values.pop()?;
                Some(joined(punctuator, left, right))
            }
            Waiting::Colon => {
                let then = self.values.pop()?;
                let condition = self.values.pop()?;
                Some(if condition != 0 { then } else { right })
            }
            Waiting::Open | Waiting::Question => None,
        }
    }
}

fn level_of(punctuator: Punctuator) -> Option<u8> {
    match punctuator {
        Punctuator::OrOr => Some(2),
        Punctuator::AndAnd => Some(3),
        Punctuator::Or => Some(4),
        Punctuator::Caret => Some(5),
        Punctuator::And => Some(6),
        Punctuator::EqualEqual | Punctuator::NotEqual => Some(7),
        Punctuator::Less | Punctuator::Greater | Punctuator::LessEqual | Punctuator::GreaterEqual =>
            Some(8),
        Punctuator::LeftShift | Punctuator::RightShift => Some(9),
        Punctuator::Plus | Punctuator::Minus => Some(10),
        Punctuator::Star | Punctuator::Slash | Punctuator::Percent => Some(11),
        _ => None,
    }
}

fn prefixed(punctuator: Punctuator, value: i64) -> i64 {
    match punctuator {
        Punctuator::Not => truth(value == 0),
        Punctuator::Minus => value.wrapping_neg(),
        Punctuator::Tilde => !value,
        _ => value,
    }
}

fn truth(holds: bool) -> i64 {
    if holds { 1 } else { 0 }
}

/// Returns the value of an operator between two operands. What C leaves open is 0.
fn joined(punctuator: Punctuator, left: i64, right: i64) -> i64 {
    match punctuator {
        Punctuator::OrOr => truth(left != 0 || right != 0),
        Punctuator::AndAnd => truth(left != 0 && right != 0),
        Punctuator::Or => left | right,
        Punctuator::Caret => left ^ right,
        Punctuator::And => left & right,
        Punctuator::EqualEqual => truth(left == right),
        Punctuator::NotEqual => truth(left != right),
        Punctuator::Less => truth(left < right),
        Punctuator::Greater => truth(left > right),
        Punctuator::LessEqual => truth(left <= right),
        Punctuator::GreaterEqual => truth(left >= right),
        Punctuator::LeftShift => shifted(left, right, true),
        Punctuator::RightShift => shifted(left, right, false),
        Punctuator::Plus => left.wrapping_add(right),
        Punctuator::Minus => left.wrapping_sub(right),
        Punctuator::Star => left.wrapping_mul(right),
        Punctuator::Slash => left.checked_div(right).unwrap_or(0),
        Punctuator::Percent => left.checked_rem(right).unwrap_or(0),
        _ => 0,
    }
}

fn shifted(value: i64, by: i64, is_left: bool) -> i64 {
    let Ok(by) = u32::try_from(by) else {
        return 0;
    };
    let shifted = if is_left {
        value.checked_shl(by)
    } else {
        value.checked_shr(by)
    };
    shifted.unwrap_or(0)
}
