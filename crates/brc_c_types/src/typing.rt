use crate::locals::locals_of;
use crate::types::Types;
use brc_c_text::Symbol;
use brc_c_tree::{Binary, Body, Expression, ExpressionId, Function, Tree, TypeName, Unary};
use std::alloc::{AllocError, Global};
use std::collections::HashMap;

/// The types of a function's expressions, as far as they are known.
#[derive(Drop)]
struct Typing<'a> {
    types: &'a Types,
    locals: HashMap<Symbol, TypeName>,
    /// Those of the expressions so far.
    found: Vec<Option<TypeName>>,
}

/// Returns the type of each expression of a function, by its place in the tree, where declarations tell one.
pub fn types_of(
    alloc: Global,
    types: &Types,
    function: &Function,
) -> Result<Vec<Option<TypeName>>, AllocError> {
    let mut typing = Typing {
        types,
        locals: locals_of(alloc, function)?,
        found: Vec::new(alloc),
    };
    if let Body::Read(tree, _) = &function.body {
        // Each expression comes after its operands.
        for (expression, _) in tree.expressions() {
            let found = typing.type_of(tree, expression);
            typing.found.push(found)?;
        }
    }
    Ok(typing.found)
}

impl<'a> Typing<'a> {
    fn at(&self, id: ExpressionId) -> Option<TypeName> {
        match self.found.get(id.index()) {
            Some(found) => *found,
            None => None,
        }
    }

    fn type_of(&self, tree: &Tree, expression: &Expression) -> Option<TypeName> {
        match *expression {
            Expression::Name(name) => match self.locals.get(&name) {
                Some(found) => Some(*found),
                None => self.types.variable(name),
            },
            Expression::Cast { to, .. } => Some(to),
            Expression::Field { object, name, .. } => self.types.field(self.at(object)?, name),
            Expression::Index { array, .. } => self.types.pointee(self.at(array)?),
            Expression::Unary { operator, operand } => self.behind(operator, operand),
            Expression::Call { function, .. } => self.result(tree, function),
            Expression::Conditional {
                then,
                otherwise,
                ..
            } => self.at(then).or(self.at(otherwise)),
            Expression::Assign { left, .. } => self.at(left),
            Expression::Comma { right, .. } => self.at(right),
            Expression::Step { operand, .. } => self.at(operand),
            Expression::Binary {
                operator: Binary::Add | Binary::Subtract,
                left,
                ..
            } => self.pointer(left),
            _ => None,
        }
    }

    /// Returns the type of `*` or `&` before an operand.
    fn behind(&self, operator: Unary, operand: ExpressionId) -> Option<TypeName> {
        let inside = self.at(operand)?;
        match operator {
            // What a pointer to a function points to is called as the pointer is.
            Unary::Dereference if self.types.resolved(inside).is_function => Some(inside),
            Unary::Dereference => self.types.pointee(inside),
            Unary::Address => Some(inside.pointer()),
            _ => None,
        }
    }

    /// Returns the type of a place near the one that an operand points to.
    fn pointer(&self, operand: ExpressionId) -> Option<TypeName> {
        let found = self.at(operand)?;
        if found.stars > 0 { Some(found) } else { None }
    }

    /// Returns what a function gives: one by its name, or what a pointer to a function leads to.
    fn result(&self, tree: &Tree, function: ExpressionId) -> Option<TypeName> {
        if let Some(Expression::Name(name)) = tree.expression(function) {
            if let Some(result) = self.types.result_of(name) {
                return Some(result);
            }
        }
        let pointer = self.types.resolved(self.at(function)?);
        if !pointer.is_function {
            return None;
        }
        Some(TypeName {
            is_function: false,
            ..pointer
        })
    }
}
