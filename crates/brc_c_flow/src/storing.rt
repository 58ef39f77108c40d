//! What an expression stores in a field.

use crate::references::Counting;
use brc_c_text::{Symbol, Symbols};
use brc_c_tree::{Expression, ExpressionId, List, Tree};

/// How many casts of one expression are passed.
const CAST_LIMIT: usize = 64;

/// Returns the place that `Py_CLEAR` and its like set.
pub(crate) fn replaced(
    symbols: &Symbols,
    tree: &Tree,
    function: ExpressionId,
    arguments: List,
) -> Option<ExpressionId> {
    let Some(Expression::Name(name)) = tree.expression(function) else {
        return None;
    };
    if Counting::of(symbols.text(name))?.replaces() {
        tree.operands(arguments).first().copied()
    } else {
        None
    }
}

/// Returns whether an expression that stores something stores NULL.
pub(crate) fn stores_null(symbols: &Symbols, tree: &Tree, expression: Expression) -> bool {
    match expression {
        Expression::Assign {
            operator: None,
            right,
            ..
        } => is_null(symbols, tree, right),
        Expression::Call { function, .. } => match tree.expression(function) {
            Some(Expression::Name(name)) => {
                matches!(Counting::of(symbols.text(name)), Some(Counting::Clear))
            }
            _ => false,
        },
        _ => false,
    }
}

/// Returns whether an expression is NULL as it is written.
fn is_null(symbols: &Symbols, tree: &Tree, id: ExpressionId) -> bool {
    let mut found = id;
    for _turn in 0..CAST_LIMIT {
        match tree.expression(found) {
            Some(Expression::Cast { operand, .. }) => found = operand,
            Some(Expression::Name(name) | Expression::Number(name)) => {
                return matches!(symbols.text(name), b"NULL" | b"0");
            }
            _ => return false,
        }
    }
    false
}

/// Returns the field that a place is.
pub(crate) fn field_at(tree: &Tree, place: Option<ExpressionId>) -> Option<Symbol> {
    match tree.expression(place?)? {
        Expression::Field { name, .. } => Some(name),
        _ => None,
    }
}
