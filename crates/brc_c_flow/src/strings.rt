//! Strings that are known: those in the source, and those of variables that never have another value.

use crate::building::Builder;
use brc_c_text::Symbol;
use brc_c_tree::{Declaration, Expression, ExpressionId, Statement, Unary};

impl<'a> Builder<'a> {
    /// Returns the text of a format, without its quotes, if it is known. NULL is none.
    pub(crate) fn format_text(&self, id: ExpressionId) -> Option<&'a [u8]> {
        if self.constant_in(id) == Some(0) {
            return Some(b"");
        }
        let symbols = self.symbols;
        match symbols.text(self.string_in(id)?) {
            [b'"', inside @ .., b'"'] => Some(inside),
            _ => None,
        }
    }

    /// Returns the string that an expression is, with its quotes.
    fn string_in(&self, id: ExpressionId) -> Option<Symbol> {
        match self.tree.expression(self.without_casts(id))? {
            Expression::Text(text) => Some(text),
            Expression::Name(name) if self.variable(name).is_some() => self.string_of(name),
            Expression::Name(name) => self.types.string_of(name),
            _ => None,
        }
    }

    /// Returns the string that a variable of the function always has.
    fn string_of(&self, name: Symbol) -> Option<Symbol> {
        let text = self.first_string(name)?;
        if self.is_changed(name) {
            None
        } else {
            Some(text)
        }
    }

    /// Returns the string that a variable has at first. What is in an array that isn't constant may be changed.
    fn first_string(&self, name: Symbol) -> Option<Symbol> {
        for (statement, _) in self.tree.statements() {
            if let Statement::Declare(list) = *statement {
                for declared in self.tree.declarations(list) {
                    if declared.name == name {
                        return self.declared_string(declared);
                    }
                }
            }
        }
        None
    }

    fn declared_string(&self, declared: &Declaration) -> Option<Symbol> {
        if declared.dimensions > 0 && !declared.is_const {
            return None;
        }
        match self.tree.expression(self.without_casts(declared.value?))? {
            Expression::Text(text) => Some(text),
            _ => None,
        }
    }

    /// Returns whether a variable is assigned, or its address is taken.
    fn is_changed(&self, name: Symbol) -> bool {
        for (expression, _) in self.tree.expressions() {
            let place = match *expression {
                Expression::Assign { left, .. } => Some(left),
                Expression::Step { operand, .. }
                | Expression::Unary {
                    operator: Unary::Address,
                    operand,
                } => Some(operand),
                _ => None,
            };
            if let Some(place) = place {
                if self.name_in(place) == Some(name) {
                    return true;
                }
            }
        }
        false
    }
}
