//! Functions that give 0 for 0: those that make an exception of a status, and return at once where it is 0.

use crate::building::{Branches, Builder};
use crate::names::Kind;
use crate::stop::Stop;
use brc_c_graph::NodeId;
use brc_c_store::{Comparison, Event, Local, Test};
use brc_c_text::{Symbol, Symbols};
use brc_c_tree::{
    Binary, Expression, ExpressionId, Function, List, Statement, StatementId, Tree, Unary,
};

/// Returns the number of a parameter, from 0, for which the function gives 0 before it does anything, where it is 0.
pub(crate) fn zero_for_zero(
    symbols: &Symbols,
    function: &Function,
    tree: &Tree,
    whole: StatementId,
) -> Option<usize> {
    let asked = match tree.statement(first_step(tree, whole)?)? {
        Statement::If {
            condition,
            then,
            ..
        } if returns_zero(symbols, tree, then) => zero_asked(symbols, tree, condition)?,
        Statement::Switch { value, body } if zero_case_returns(symbols, tree, body) => {
            name_at(tree, value)?
        }
        _ => return None,
    };
    for (number, parameter) in function.parameters.iter().enumerate() {
        if parameter.name == Some(asked) && parameter.type_name.stars == 0 {
            return Some(number);
        }
    }
    None
}

/// Returns the first statement of a block that does something, after variables that get constants.
fn first_step(tree: &Tree, whole: StatementId) -> Option<StatementId> {
    for id in body_of(tree, whole)? {
        match tree.statement(*id)? {
            Statement::Declare(list) if has_constants(tree, list) => {}
            _ => return Some(*id),
        }
    }
    None
}

fn body_of(tree: &Tree, block: StatementId) -> Option<&[StatementId]> {
    match tree.statement(block)? {
        Statement::Block(list) => Some(tree.body(list)),
        _ => None,
    }
}

/// Returns whether variables get nothing but names, numbers and strings.
fn has_constants(tree: &Tree, list: List) -> bool {
    for declared in tree.declarations(list) {
        if let Some(value) = declared.value {
            let is_constant = matches!(
                tree.expression(value),
                Some(Expression::Name(_) | Expression::Number(_) | Expression::Text(_))
            );
            if !is_constant {
                return false;
            }
        }
    }
    true
}

/// Returns the variable of which a condition asks whether it is 0.
fn zero_asked(symbols: &Symbols, tree: &Tree, condition: ExpressionId) -> Option<Symbol> {
    match tree.expression(condition)? {
        Expression::Unary {
            operator: Unary::Not,
            operand,
        } => name_at(tree, operand),
        Expression::Binary {
            operator: Binary::Equal,
            left,
            right,
        } if is_zero(symbols, tree, right) => name_at(tree, left),
        _ => None,
    }
}

fn name_at(tree: &Tree, id: ExpressionId) -> Option<Symbol> {
    match tree.expression(id)? {
        Expression::Name(name) => Some(name),
        _ => None,
    }
}

/// Returns whether a statement is `return 0;`, also in braces.
fn returns_zero(symbols: &Symbols, tree: &Tree, id: StatementId) -> bool {
    let found = match body_of(tree, id) {
        Some([only]) => tree.statement(*only),
        Some(_) => None,
        None => tree.statement(id),
    };
    match found {
        Some(Statement::Return(Some(value))) => is_zero(symbols, tree, value),
        _ => false,
    }
}

/// Returns whether a `switch` has a case of 0 that is `return 0;`.
fn zero_case_returns(symbols: &Symbols, tree: &Tree, body: StatementId) -> bool {
    let Some(statements) = body_of(tree, body) else {
        return false;
    };
    let mut is_case = false;
    for id in statements {
        match tree.statement(*id) {
            Some(Statement::Case(value)) => is_case = is_case || is_zero(symbols, tree, value),
            _ if is_case => return returns_zero(symbols, tree, *id),
            _ => {}
        }
    }
    false
}

fn is_zero(symbols: &Symbols, tree: &Tree, id: ExpressionId) -> bool {
    match tree.expression(id) {
        Some(Expression::Name(name) | Expression::Number(name)) => {
            matches!(symbols.text(name), b"0" | b"false")
        }
        _ => false,
    }
}

impl<'a> Builder<'a> {
    /// Leads paths on which a call gives 0, since it gets 0, to where they go on then. Others go on to the call.
    pub(crate) fn lead_zero(&mut self, call: ExpressionId, to: NodeId) -> Result<(), Stop> {
        let Some(of) = self.zero_passed(call) else {
            return Ok(());
        };
        let place = self.place_of(call);
        let test = Test {
            comparison: Comparison::Equal,
            constant: 0,
        };
        let other = self.meeting(place)?;
        self.ask(
            Event::Sign { of, test },
            place,
            None,
            Branches {
                holds: to,
                fails: other,
            },
        )?;
        self.land(other);
        Ok(())
    }

    /// Returns the variable for which a call gives 0 where it is 0.
    fn zero_passed(&self, call: ExpressionId) -> Option<Local> {
        let Some(
            Expression::Call {
                function,
                arguments,
            },
        ) = self.tree.expression(call)
        else {
            return None;
        };
        let called = name_at(self.tree, function)?;
        for (at, argument) in self.tree.operands(arguments).iter().enumerate() {
            if self.is_zero_passed(called, at) {
                let variable = self.variable(self.name_in(*argument)?)?;
                return if variable.kind == Kind::Plain {
                    variable.local
                } else {
                    None
                };
            }
        }
        None
    }

    /// Returns whether a function gives 0 where its argument of this number is 0.
    pub(crate) fn is_zero_passed(&self, called: Symbol, argument: usize) -> bool {
        self.variable(called).is_none() && self.usage.gives_zero(called, argument)
    }
}
