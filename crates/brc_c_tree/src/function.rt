use crate::statement::Statement;
use crate::stop::NotRead;
use crate::tree::{StatementId, Tree};
use crate::type_name::TypeName;
use brc_c_text::{Place, Symbol};

/// A parameter of a function.
#[derive(Clone, Copy)]
pub struct Parameter {
    pub name: Option<Symbol>,
    pub type_name: TypeName,
    /// Whether it is `...`.
    pub is_variadic: bool,
}

/// What is read of a function's body.
#[derive(Drop)]
pub enum Body {
    /// The tree, and the block that is the whole body.
    Read(Tree, StatementId),
    NotRead(NotRead),
}

/// A function that has a body.
#[derive(Drop)]
pub struct Function {
    pub name: Symbol,
    /// Where its name is in its head.
    pub place: Place,
    /// Where its last brace is.
    pub end: Place,
    pub is_static: bool,
    pub result: TypeName,
    pub parameters: Vec<Parameter>,
    pub body: Body,
}

impl Function {
    /// Returns the statement that is the whole body, if the function is read.
    pub fn whole(&self) -> Option<Statement> {
        match &self.body {
            Body::Read(tree, whole) => tree.statement(*whole),
            Body::NotRead(_) => None,
        }
    }
}
