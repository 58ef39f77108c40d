//! What comes after an operand, and how tightly it binds.

use brc_c_text::{LexemeKind, Punctuator};
use brc_c_tree::Binary;

/// How tightly operators bind: the greater level is read first.
pub(crate) type Level = u8;

/// An open `?`, which only its `:` closes.
pub(crate) const OPEN: Level = 0;

pub(crate) const COMMA: Level = 1;

pub(crate) const ASSIGNMENT: Level = 2;

pub(crate) const CONDITIONAL: Level = 3;

pub(crate) const PREFIX: Level = 14;

#[derive(Clone, Copy, PartialEq, Eq)]
pub(crate) enum Infix {
    Binary(Binary),
    Assign(Option<Binary>),
    Comma,
    Question,
    Colon,
}

impl Infix {
    pub(crate) fn of(kind: LexemeKind) -> Option<Infix> {
        let LexemeKind::Punctuator(punctuator) = kind else {
            return None;
        };
        match punctuator {
            Punctuator::Comma => Some(Infix::Comma),
            Punctuator::Question => Some(Infix::Question),
            Punctuator::Colon => Some(Infix::Colon),
            Punctuator::Equal => Some(Infix::Assign(None)),
            _ => match assigned(punctuator) {
                Some(operator) => Some(Infix::Assign(Some(operator))),
                None => Some(Infix::Binary(binary(punctuator)?)),
            },
        }
    }

    pub(crate) fn level(self) -> Level {
        match self {
            Infix::Binary(operator) => level_of(operator),
            Infix::Assign(_) => ASSIGNMENT,
            Infix::Comma => COMMA,
            Infix::Question => CONDITIONAL,
            Infix::Colon => OPEN,
        }
    }
}

/// Returns the operator that an assignment as `+=` has.
fn assigned(punctuator: Punctuator) -> Option<Binary> {
    match punctuator {
        Punctuator::PlusEqual => Some(Binary::Add),
        Punctuator::MinusEqual => Some(Binary::Subtract),
        Punctuator::StarEqual => Some(Binary::Multiply),
        Punctuator::SlashEqual => Some(Binary::Divide),
        Punctuator::PercentEqual => Some(Binary::Remainder),
        Punctuator::LeftShiftEqual => Some(Binary::ShiftLeft),
        Punctuator::RightShiftEqual => Some(Binary::ShiftRight),
        Punctuator::AndEqual => Some(Binary::BitAnd),
        Punctuator::CaretEqual => Some(Binary::BitXor),
        Punctuator::OrEqual => Some(Binary::BitOr),
        _ => None,
    }
}

fn binary(punctuator: Punctuator) -> Option<Binary> {
    match punctuator {
        Punctuator::OrOr => Some(Binary::Or),
        Punctuator::AndAnd => Some(Binary::And),
        Punctuator::Or => Some(Binary::BitOr),
        Punctuator::Caret => Some(Binary::BitXor),
        Punctuator::And => Some(Binary::BitAnd),
        Punctuator::EqualEqual => Some(Binary::Equal),
        Punctuator::NotEqual => Some(Binary::NotEqual),
        Punctuator::Less => Some(Binary::Less),
        Punctuator::LessEqual => Some(Binary::LessEqual),
        Punctuator::Greater => Some(Binary::Greater),
        Punctuator::GreaterEqual => Some(Binary::GreaterEqual),
        Punctuator::LeftShift => Some(Binary::ShiftLeft),
        Punctuator::RightShift => Some(Binary::ShiftRight),
        Punctuator::Plus => Some(Binary::Add),
        Punctuator::Minus => Some(Binary::Subtract),
        Punctuator::Star => Some(Binary::Multiply),
        Punctuator::Slash => Some(Binary::Divide),
        Punctuator::Percent => Some(Binary::Remainder),
        _ => None,
    }
}

fn level_of(operator: Binary) -> Level {
    match operator {
        Binary::Or => 4,
        Binary::And => 5,
        Binary::BitOr => 6,
        Binary::BitXor => 7,
        Binary::BitAnd => 8,
        Binary::Equal | Binary::NotEqual => 9,
        Binary::Less | Binary::LessEqual | Binary::Greater | Binary::GreaterEqual => 10,
        Binary::ShiftLeft | Binary::ShiftRight => 11,
        Binary::Add | Binary::Subtract => 12,
        Binary::Multiply | Binary::Divide | Binary::Remainder => 13,
    }
}
