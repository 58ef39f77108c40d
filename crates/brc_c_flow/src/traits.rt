//! What is known of each expression before the graph is made.

use crate::building::Builder;
use crate::calls::{gives_object, is_cast};
use crate::constants::{folded, is_singleton};
use crate::names::Kind;
use brc_c_text::Symbol;
use brc_c_tree::{Expression, ExpressionId, TypeName, Unary};
use std::alloc::AllocError;

/// What is known of an expression.
#[derive(Clone, Copy)]
pub(crate) struct Traits {
    /// Whether it has an object, as far as declarations and the table say.
    pub(crate) is_object: bool,
    /// Whether it has the same value as long as no variable in it is assigned.
    pub(crate) is_pure: bool,
    /// Whether something is called or assigned in it.
    pub(crate) has_effect: bool,
    /// Whether it reads what other functions may set.
    pub(crate) reads_memory: bool,
    /// Its value, if it is one of constants with an operator between them.
    pub(crate) constant: Option<i64>,
}

impl Traits {
    const NONE: Traits = Traits {
        is_object: false,
        is_pure: true,
        has_effect: false,
        reads_memory: false,
        constant: None,
    };
}

impl<'a> Builder<'a> {
    pub(crate) fn traits_of(&self, id: ExpressionId) -> Traits {
        match self.traits.get(id.index()) {
            Some(found) => *found,
            None => Traits::NONE,
        }
    }

    pub(crate) fn is_object(&self, id: ExpressionId) -> bool {
        self.traits_of(id).is_object
    }

    /// Finds the traits of all expressions, each after its operands.
    pub(crate) fn find_traits(&mut self) -> Result<(), AllocError> {
        self.traits.clear();
        let tree = self.tree;
        for (at, (expression, _)) in tree.expressions().iter().enumerate() {
            let found = self.found_traits(*expression, at);
            self.traits.push(found)?;
        }
        Ok(())
    }

    fn found_traits(&self, expression: Expression, at: usize) -> Traits {
        let mut found = self.inner_traits(expression);
        found.is_object = self.has_object(expression, at);
        match expression {
            Expression::Call { .. } | Expression::Assign { .. } | Expression::Step { .. } => {
                found.has_effect = true;
                found.is_pure = false;
            }
            Expression::Index { .. }
            | Expression::Unary {
                operator: Unary::Dereference,
                ..
            }
            | Expression::Values(_)
            | Expression::Opaque => found.is_pure = false,
            Expression::Field { name, .. } => {
                found.reads_memory = found.reads_memory || !self.usage.is_steady(name);
            }
            Expression::Name(symbol) => found.reads_memory = self.is_elsewhere(symbol),
            Expression::Binary {
                operator,
                left,
                right,
            } => {
                if let (Some(left), Some(right)) = (
                    self.constant_in(left),
                    self.constant_in(right),
                ) {
                    found.constant = folded(operator, left, right);
                }
            }
            _ => {}
        }
        found
    }

    /// Returns what an expression has of its operands.
    fn inner_traits(&self, expression: Expression) -> Traits {
        let mut found = Traits::NONE;
        for operand in operands_of(expression) {
            if let Some(operand) = operand {
                found = joined(found, self.traits_of(operand));
            }
        }
        if let Expression::Call {
            arguments: list,
            ..
        }
        | Expression::Values(list) = expression
        {
            for operand in self.tree.operands(list) {
                found = joined(found, self.traits_of(*operand));
            }
        }
        found
    }

    fn has_object(&self, expression: Expression, at: usize) -> bool {
        match expression {
            Expression::Name(symbol) => match self.variables.get(&symbol) {
                Some(variable) => matches!(variable.kind, Kind::Object | Kind::Static),
                None => is_singleton(self.symbols.text(symbol)) || self.has_object_type(at),
            },
            Expression::Call {
                function,
                arguments,
            } => {
                self.call_gives_object(function, self.tree.operands(arguments))
                    || self.has_object_type(at)
            }
            Expression::Cast { operand, .. } => {
                self.is_object(operand) || self.has_object_type(at)
            }
            Expression::Conditional {
                then,
                otherwise,
                ..
            } => { self.is_object(then) || self.is_object(otherwise) }
            Expression::Assign { left, .. } => self.is_object(left),
            Expression::Comma { right, .. } => self.is_object(right),
            Expression::Field { object, name, .. } => {
                // Of an object's field that nothing declares it isn't known either what it owns.
                self.has_object_type(at)
                    || (!self.is_object(object) && self.is_used_field(name, self.type_at(at)))
            }
            Expression::Index { .. }
            | Expression::Unary {
                operator: Unary::Dereference,
                ..
            } => self.has_object_type(at),
            _ => false,
        }
    }

    /// Returns whether the expression at a place has an object.
    pub(crate) fn has_object_at(&self, at: usize) -> bool {
        match self.traits.get(at) {
            Some(found) => found.is_object,
            None => false,
        }
    }

    pub(crate) fn type_at(&self, at: usize) -> Option<TypeName> {
        match self.typed.get(at) {
            Some(found) => *found,
            None => None,
        }
    }

    fn has_object_type(&self, at: usize) -> bool {
        match self.type_at(at) {
            Some(found) => self.types.is_object(self.symbols, found),
            None => false,
        }
    }

    /// Returns whether the table says that a call gives an object.
    fn call_gives_object(&self, function: ExpressionId, arguments: &[ExpressionId]) -> bool {
        match self.tree.expression(function) {
            Some(Expression::Name(name)) => {
                let name = self.symbols.text(name);
                if is_cast(name) {
                    return match arguments.first() {
                        Some(first) => self.is_object(*first),
                        None => false,
                    };
                }
                gives_object(name, self.tables.row(name))
                    || gives_object(b"", self.row_of_type(function))
            }
            Some(Expression::Field { name, .. }) => {
                let name = self.symbols.text(name);
                gives_object(name, self.tables.field(name))
                    || gives_object(b"", self.row_of_type(function))
            }
            _ => gives_object(b"", self.row_of_type(function)),
        }
    }

    /// Returns whether a name is that of a variable outside the function.
    fn is_elsewhere(&self, symbol: Symbol) -> bool {
        match self.variables.get(&symbol) {
            Some(variable) => matches!(variable.kind, Kind::Static),
            None => self.types.variable(symbol).is_some(),
        }
    }
}

fn joined(one: Traits, other: Traits) -> Traits {
    Traits {
        is_object: false,
        is_pure: one.is_pure && other.is_pure,
        has_effect: one.has_effect || other.has_effect,
        reads_memory: one.reads_memory || other.reads_memory,
        constant: None,
    }
}

/// Returns the operands of an expression, without those in lists.
fn operands_of(expression: Expression) -> [Option<ExpressionId>; 3] {
    match expression {
        Expression::Unary { operand, .. }
        | Expression::Step { operand, .. }
        | Expression::Cast { operand, .. }
        | Expression::Field {
            object: operand,
            ..
        }
        | Expression::Call {
            function: operand,
            ..
        } => [Some(operand), None, None],
        Expression::Binary { left, right, .. }
        | Expression::Assign { left, right, .. }
        | Expression::Comma { left, right }
        | Expression::Index {
            array: left,
            index: right,
        } => [Some(left), Some(right), None],
        Expression::Conditional {
            condition,
            then,
            otherwise,
        } => { [Some(condition), Some(then), Some(otherwise)] }
        _ => [None, None, None],
    }
}
