use crate::tree::{ExpressionId, List};
use crate::type_name::TypeName;
use brc_c_text::Symbol;

/// An operator in front of its operand.
#[derive(Clone, Copy, Debug, PartialEq, Eq)]
pub enum Unary {
    Not,
    Plus,
    Minus,
    Complement,
    Dereference,
    Address,
}

/// An operator between two operands.
#[derive(Clone, Copy, Debug, PartialEq, Eq)]
pub enum Binary {
    Or,
    And,
    BitOr,
    BitXor,
    BitAnd,
    Equal,
    NotEqual,
    Less,
    LessEqual,
    Greater,
    GreaterEqual,
    ShiftLeft,
    ShiftRight,
    Add,
    Subtract,
    Multiply,
    Divide,
    Remainder,
}

/// An expression. It names its operands by their places in the function's tree.
#[derive(Clone, Copy)]
pub enum Expression {
    Name(Symbol),
    Number(Symbol),
    /// A character, with its quotes.
    Character(Symbol),
    /// A string, with its quotes.
    Text(Symbol),
    Unary {
        operator: Unary,
        operand: ExpressionId,
    },
    /// `++` or `--`, before its operand or after it.
    Step {
        is_up: bool,
        is_before: bool,
        operand: ExpressionId,
    },
    Binary {
        operator: Binary,
        left: ExpressionId,
        right: ExpressionId,
    },
    /// `=`, or with an operator `+=` and its like.
    Assign {
        operator: Option<Binary>,
        left: ExpressionId,
        right: ExpressionId,
    },
    Conditional {
        condition: ExpressionId,
        then: ExpressionId,
        otherwise: ExpressionId,
    },
    Comma {
        left: ExpressionId,
        right: ExpressionId,
    },
    Cast {
        to: TypeName,
        operand: ExpressionId,
    },
    Call {
        function: ExpressionId,
        arguments: List,
    },
    Index {
        array: ExpressionId,
        index: ExpressionId,
    },
    Field {
        object: ExpressionId,
        name: Symbol,
        /// Whether it is read through a pointer.
        is_arrow: bool,
    },
    SizeOf,
    /// The values of an array in braces.
    Values(List),
    /// What isn't looked into: a type among arguments, or other values in braces.
    Opaque,
}
