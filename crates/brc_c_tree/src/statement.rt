use crate::known::Known;
use crate::tree::{ExpressionId, List, StatementId};
use crate::type_name::TypeName;
use brc_c_text::{Place, Symbol};

/// A statement. It names its parts by their places in the function's tree.
#[derive(Clone, Copy)]
pub enum Statement {
    Block(List),
    Expression(ExpressionId),
    /// Declarations, by their list in the tree.
    Declare(List),
    If {
        condition: ExpressionId,
        then: StatementId,
        otherwise: Option<StatementId>,
    },
    While {
        condition: ExpressionId,
        body: StatementId,
    },
    DoWhile {
        body: StatementId,
        condition: ExpressionId,
    },
    For {
        first: Option<StatementId>,
        condition: Option<ExpressionId>,
        next: Option<ExpressionId>,
        body: StatementId,
    },
    Switch {
        value: ExpressionId,
        body: StatementId,
    },
    /// `case`. The statement after it is one of its own.
    Case(ExpressionId),
    Default,
    Label(Symbol),
    Goto(Symbol),
    Break,
    Continue,
    Return(Option<ExpressionId>),
    /// A macro of Python's that is a statement.
    Known {
        known: Known,
        arguments: List,
    },
}

/// A variable of a function.
#[derive(Clone, Copy)]
pub struct Declaration {
    pub name: Symbol,
    /// Its type. An array's has a star for each of its dimensions.
    pub type_name: TypeName,
    /// How many dimensions it has as an array.
    pub dimensions: u32,
    pub is_static: bool,
    /// Whether `const` is among its specifiers.
    pub is_const: bool,
    pub value: Option<ExpressionId>,
    pub place: Place,
}
