//! Which fields and variables outside functions have references that a function gives up.

use crate::references::Counting;
use crate::usage::{Usage, own_variables};
use brc_c_text::{Symbol, Symbols};
use brc_c_tree::{Expression, ExpressionId, Function, Statement, Tree};
use std::alloc::{AllocError, Global};
use std::collections::HashSet;

/// How many casts of one expression are passed.
const CAST_LIMIT: usize = 64;

impl Usage {
    /// Adds the fields and variables whose references a function gives up: itself, or by a variable of its own into
    /// which they go.
    pub(crate) fn add_releases(
        &mut self,
        alloc: Global,
        symbols: &Symbols,
        function: &Function,
        tree: &Tree,
    ) -> Result<(), AllocError> {
        let mut own = OwnNames {
            all: own_variables(alloc, function, tree)?,
            given: HashSet::new(alloc),
        };
        for (expression, _) in tree.expressions() {
            if let Some(given) = given_up(symbols, tree, *expression) {
                self.add_released(tree, &mut own, given)?;
            }
        }
        self.add_assigned(tree, &mut own)
    }

    fn add_released(
        &mut self,
        tree: &Tree,
        own: &mut OwnNames,
        id: ExpressionId,
    ) -> Result<(), AllocError> {
        match place_at(tree, id) {
            Some(Expression::Name(name)) if own.all.contains(&name) => {
                own.given.insert(name)?;
            }
            Some(Expression::Name(name) | Expression::Field { name, .. }) => {
                self.released.insert(name)?;
            }
            _ => {}
        }
        Ok(())
    }

    /// What goes into a variable whose reference is given up is given up, too.
    fn add_assigned(&mut self, tree: &Tree, own: &mut OwnNames) -> Result<(), AllocError> {
        for (expression, _) in tree.expressions() {
            if let Expression::Assign {
                operator: None,
                left,
                right,
            } = *expression
            {
                if self.is_given(own, place_at(tree, left)) {
                    self.add_released(tree, own, right)?;
                }
            }
        }
        for (statement, _) in tree.statements() {
            if let Statement::Declare(list) = statement {
                for declared in tree.declarations(*list) {
                    if let Some(value) = declared.value {
                        if self.is_given(own, Some(Expression::Name(declared.name))) {
                            self.add_released(tree, own, value)?;
                        }
                    }
                }
            }
        }
        Ok(())
    }

    fn is_given(&self, own: &OwnNames, place: Option<Expression>) -> bool {
        match place {
            Some(Expression::Name(name)) if own.all.contains(&name) => own.given.contains(&name),
            Some(Expression::Name(name) | Expression::Field { name, .. }) => {
                self.released.contains(&name)
            }
            _ => false,
        }
    }
}

/// The parameters and variables of a function.
#[derive(Drop)]
struct OwnNames {
    all: HashSet<Symbol>,
    /// Those whose references it gives up.
    given: HashSet<Symbol>,
}

/// Returns the place whose reference a call gives up.
fn given_up(symbols: &Symbols, tree: &Tree, expression: Expression) -> Option<ExpressionId> {
    let Expression::Call {
        function,
        arguments,
    } = expression
    else {
        return None;
    };
    match tree.expression(function) {
        Some(Expression::Name(name)) if Counting::of(symbols.text(name))?.gives_up() => {
            tree.operands(arguments).first().copied()
        }
        _ => None,
    }
}

/// Returns the variable or the field that an expression is.
fn place_at(tree: &Tree, id: ExpressionId) -> Option<Expression> {
    let mut found = id;
    for _turn in 0..CAST_LIMIT {
        match tree.expression(found)? {
            Expression::Cast { operand, .. } => found = operand,
            place => return Some(place),
        }
    }
    None
}
