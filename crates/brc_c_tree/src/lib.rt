//! The tree of C functions, and what is outside them: values without any rule of the grammar.
#![tactic(auto)]

mod expression;
mod function;
mod known;
mod outside;
mod reasons;
mod statement;
mod stop;
mod tree;
mod type_name;

pub use expression::{Binary, Expression, Unary};
pub use function::{Body, Function, Parameter};
pub use known::Known;
pub use outside::{Alias, Field, Prototype, Record, RecordName, SourceTree, Variable};
pub use reasons::reason_text;
pub use statement::{Declaration, Statement};
pub use stop::{Expected, FUNCTION_LIMIT, NESTING_LIMIT, NotRead, Reason, TOKEN_LIMIT};
pub use tree::{ExpressionId, List, StatementId, Tree};
pub use type_name::{Tag, TypeName, names_objects};
