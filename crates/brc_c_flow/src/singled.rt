//! Singletons that the function itself assigns. Only from there can a name have one of them.

use crate::building::Builder;
use crate::constants::is_plain_singleton;
use brc_c_store::{Local, Singleton};
use brc_c_text::Symbol;
use brc_c_tree::{Expression, ExpressionId, Statement, Unary};
use std::alloc::AllocError;

impl<'a> Builder<'a> {
    /// Finds the variables to which a singleton is assigned, and whose address isn't passed.
    pub(crate) fn find_singled(&mut self) -> Result<(), AllocError> {
        let tree = self.tree;
        for (expression, _) in tree.expressions() {
            if let Expression::Assign {
                operator: None,
                left,
                right,
            } = *expression
            {
                self.find_singled_in(self.name_in(left), right)?;
            }
        }
        for (statement, _) in tree.statements() {
            if let Statement::Declare(list) = statement {
                for declared in tree.declarations(*list) {
                    if let Some(value) = declared.value {
                        self.find_singled_in(Some(declared.name), value)?;
                    }
                }
            }
        }
        Ok(())
    }

    fn find_singled_in(
        &mut self,
        to: Option<Symbol>,
        value: ExpressionId,
    ) -> Result<(), AllocError> {
        if let (Some(to), Some(name)) = (to, self.name_in(value)) {
            let is_one = is_plain_singleton(self.symbols.text(name));
            if is_one && !self.is_addressed(to) {
                self.singled.push((to, name))?;
            }
        }
        Ok(())
    }

    pub(crate) fn is_addressed(&self, name: Symbol) -> bool {
        for (expression, _) in self.tree.expressions() {
            if let Expression::Unary {
                operator: Unary::Address,
                operand,
            } = *expression
            {
                if self.name_in(operand) == Some(name) {
                    return true;
                }
            }
        }
        false
    }

    /// Returns whether the function assigns the singleton to the variable.
    pub(crate) fn is_singled(&self, local: Local, singleton: Singleton) -> bool {
        let Some(known) = self.singletons.get(singleton.0) else {
            return false;
        };
        for (variable, name) in self.singled.iter() {
            if *name == known.symbol && self.local_of(*variable) == Some(local) {
                return !known.is_address;
            }
        }
        false
    }

    pub(crate) fn local_of(&self, variable: Symbol) -> Option<Local> {
        self.variable(variable)?.local
    }
}
