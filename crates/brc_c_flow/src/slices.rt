//! Slices of tuples: what a slice has its tuple has, too. So what is read from the slice is lent by the tuple, and is
//! alive after the slice is released.

use crate::building::Builder;
use brc_c_store::Local;
use brc_c_text::Symbol;
use brc_c_tree::{Expression, ExpressionId, Statement, Unary};
use std::alloc::AllocError;

/// A variable that has slices of one other variable's tuple, and nothing else.
#[derive(Clone, Copy)]
pub(crate) struct Slice {
    name: Symbol,
    /// The variable that has the tuple, or `None` if something else is assigned to this one.
    of: Option<Symbol>,
}

impl<'a> Builder<'a> {
    /// Finds the variables that have slices.
    pub(crate) fn find_slices(&mut self) -> Result<(), AllocError> {
        let tree = self.tree;
        for (expression, _) in tree.expressions() {
            if let Expression::Assign { left, right, .. } = *expression {
                self.find_slice(self.name_in(left), right)?;
            }
        }
        for (statement, _) in tree.statements() {
            if let Statement::Declare(list) = statement {
                for declared in tree.declarations(*list) {
                    if let Some(value) = declared.value {
                        self.find_slice(Some(declared.name), value)?;
                    }
                }
            }
        }
        Ok(())
    }

    /// Notes what a variable gets. NULL changes nothing.
    fn find_slice(&mut self, to: Option<Symbol>, value: ExpressionId) -> Result<(), AllocError> {
        let Some(name) = to else {
            return Ok(());
        };
        if self.constant_in(value) == Some(0) {
            return Ok(());
        }
        let of = match self.sliced(value) {
            Some(of) if !self.is_addressed(name) => Some(of),
            _ => None,
        };
        for known in self.slices.iter_mut() {
            if known.name == name {
                if known.of != of {
                    known.of = None;
                }
                return Ok(());
            }
        }
        self.slices.push(Slice { name, of })?;
        Ok(())
    }

    /// Returns the variable of which an expression is a slice.
    fn sliced(&self, value: ExpressionId) -> Option<Symbol> {
        let Expression::Call {
            function,
            arguments,
        } = self.tree.expression(self.without_casts(value))?
        else {
            return None;
        };
        let called = self.name_in(function)?;
        let is_slicing = matches!(
            self.symbols.text(called),
            b"PySequence_GetSlice" | b"PyTuple_GetSlice"
        );
        if !is_slicing {
            return None;
        }
        let of = self.name_in(*self.tree.operands(arguments).first()?)?;
        if self.is_set_once(of) { Some(of) } else { None }
    }

    /// Returns whether at most one place gives a variable its value: a parameter has it from the caller.
    fn is_set_once(&self, name: Symbol) -> bool {
        let mut count: usize = 0;
        if let Some(variable) = self.variable(name) {
            count = usize::from(variable.is_parameter);
        }
        for (expression, _) in self.tree.expressions() {
            let set = match *expression {
                Expression::Assign { left, .. } => self.name_in(left),
                Expression::Unary {
                    operator: Unary::Address,
                    operand,
                } => self.name_in(operand),
                _ => None,
            };
            if set == Some(name) {
                count = count.saturating_add(1);
            }
        }
        count <= 1
    }

    /// Returns the name that lends what is read from this one.
    pub(crate) fn lender_of(&self, local: Option<Local>) -> Option<Local> {
        let found = local?;
        for slice in self.slices.iter() {
            if self.local_of(slice.name) == Some(found) {
                return match slice.of {
                    Some(of) => self.local_of(of),
                    None => local,
                };
            }
        }
        local
    }
}
