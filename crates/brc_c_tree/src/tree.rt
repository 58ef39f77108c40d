use crate::expression::Expression;
use crate::statement::{Declaration, Statement};
use brc_c_text::Place;
use std::alloc::{AllocError, Global};

/// The place of an expression in its tree.
#[derive(Clone, Copy, PartialEq, Eq)]
pub struct ExpressionId(usize);

impl ExpressionId {
    /// Returns its place among all expressions of the tree.
    pub fn index(self) -> usize {
        self.0
    }
}

/// The place of a statement in its tree.
#[derive(Clone, Copy)]
pub struct StatementId(usize);

impl StatementId {
    /// Returns its place among all statements of the tree.
    pub fn index(self) -> usize {
        self.0
    }
}

/// Neighbours in one of a tree's lists.
#[derive(Clone, Copy, PartialEq, Eq)]
pub struct List {
    start: usize,
    end: usize,
}

impl List {
    pub fn len(self) -> usize {
        self.end.saturating_sub(self.start)
    }
}

/// The statements and expressions of a function. Each comes after those that it names.
#[derive(Drop)]
pub struct Tree {
    expressions: Vec<(Expression, Place)>,
    statements: Vec<(Statement, Place)>,
    /// Arguments and values, those of one list adjacent, ..
    operands: Vec<ExpressionId>,
    /// .. the statements of blocks, ..
    bodies: Vec<StatementId>,
    /// .. and declarations.
    declarations: Vec<Declaration>,
}

impl Tree {
    pub fn new(alloc: Global) -> Tree {
        Tree {
            expressions: Vec::new(alloc),
            statements: Vec::new(alloc),
            operands: Vec::new(alloc),
            bodies: Vec::new(alloc),
            declarations: Vec::new(alloc),
        }
    }

    /// Returns an expression of the tree. An identifier of another tree may have none.
    pub fn expression(&self, id: ExpressionId) -> Option<Expression> {
        Some(self.expressions.get(id.0)?.0)
    }

    /// Returns where an expression is: at its operator, or at its first lexeme if it has none.
    pub fn expression_place(&self, id: ExpressionId) -> Option<Place> {
        Some(self.expressions.get(id.0)?.1)
    }

    pub fn statement(&self, id: StatementId) -> Option<Statement> {
        Some(self.statements.get(id.0)?.0)
    }

    /// Returns where a statement begins.
    pub fn statement_place(&self, id: StatementId) -> Option<Place> {
        Some(self.statements.get(id.0)?.1)
    }

    /// Returns all expressions, each after its operands.
    pub fn expressions(&self) -> &[(Expression, Place)] {
        self.expressions.as_slice()
    }

    /// Returns all statements, each after its parts.
    pub fn statements(&self) -> &[(Statement, Place)] {
        self.statements.as_slice()
    }

    /// Returns the arguments of a call, or the values in braces.
    pub fn operands(&self, list: List) -> &[ExpressionId] {
        self.operands.get(list.start..list.end).unwrap_or(&[])
    }

    /// Returns the statements of a block.
    pub fn body(&self, list: List) -> &[StatementId] {
        self.bodies.get(list.start..list.end).unwrap_or(&[])
    }

    pub fn declarations(&self, list: List) -> &[Declaration] {
        self.declarations.get(list.start..list.end).unwrap_or(&[])
    }

    /// Adds an expression, whose operands are those of the tree.
    pub fn add_expression(
        &mut self,
        expression: Expression,
        place: Place,
    ) -> Result<ExpressionId, AllocError> {
        let id = ExpressionId(self.expressions.len());
        self.expressions.push((expression, place))?;
        Ok(id)
    }

    /// Adds a statement, whose parts are those of the tree.
    pub fn add_statement(
        &mut self,
        statement: Statement,
        place: Place,
    ) -> Result<StatementId, AllocError> {
        let id = StatementId(self.statements.len());
        self.statements.push((statement, place))?;
        Ok(id)
    }

    /// Adds the operands of a call or of braces, adjacent to each other.
    pub fn add_operands(&mut self, all: &[ExpressionId]) -> Result<List, AllocError> {
        let start = self.operands.len();
        self.operands.extend_from_slice(all)?;
        Ok(List {
            start,
            end: self.operands.len(),
        })
    }

    /// Adds the statements of a block, adjacent to each other.
    pub fn add_body(&mut self, all: &[StatementId]) -> Result<List, AllocError> {
        let start = self.bodies.len();
        self.bodies.extend_from_slice(all)?;
        Ok(List {
            start,
            end: self.bodies.len(),
        })
    }

    /// Adds declarations, adjacent to each other.
    pub fn add_declarations(&mut self, all: &[Declaration]) -> Result<List, AllocError> {
        let start = self.declarations.len();
        self.declarations.extend_from_slice(all)?;
        Ok(List {
            start,
            end: self.declarations.len(),
        })
    }
}
