//! Constants with a name: where a variable gets one, the two are equal.

use crate::building::Builder;
use crate::stop::Stop;
use brc_c_store::{Signs, Source};
use brc_c_text::{Place, Symbol};
use brc_c_tree::{Expression, ExpressionId, Statement};
use std::alloc::AllocError;

impl<'a> Builder<'a> {
    /// Finds the comparisons of which assignments say whether they hold.
    pub(crate) fn find_settled(&mut self) -> Result<(), AllocError> {
        let tree = self.tree;
        for (expression, _) in tree.expressions() {
            if let Expression::Assign {
                operator: None,
                left,
                right,
            } = *expression
            {
                self.find_settled_by(self.name_in(left), right)?;
            }
        }
        for (statement, _) in tree.statements() {
            if let Statement::Declare(list) = statement {
                for declared in tree.declarations(*list) {
                    if let Some(value) = declared.value {
                        self.find_settled_by(Some(declared.name), value)?;
                    }
                }
            }
        }
        Ok(())
    }

    fn find_settled_by(
        &mut self,
        to: Option<Symbol>,
        value: ExpressionId,
    ) -> Result<(), AllocError> {
        let Some(to) = to else {
            return Ok(());
        };
        if self.opens(value) {
            return self.find_opened(to);
        }
        if let Some(constant) = self.settled_by(to, value) {
            let left = self.symbol_text(to)?;
            let right = self.symbol_text(constant)?;
            self.compare_again(left.as_str(), right.as_str());
        }
        Ok(())
    }

    /// Returns the name of the constant that a variable gets, if it has one.
    fn settled_by(&self, to: Symbol, value: ExpressionId) -> Option<Symbol> {
        let variable = self.variable(to)?;
        let constant = self.name_in(value)?;
        let is_constant = self.variable(constant).is_none()
            && self.types.variable(constant).is_none()
            && self.constant_in(value).is_none()
            && !self.is_object(value);
        if is_constant && !variable.is_static {
            Some(constant)
        } else {
            None
        }
    }

    pub(crate) fn symbol_text(&self, symbol: Symbol) -> Result<String, AllocError> {
        String::from_utf8_lossy(self.alloc, self.symbols.text(symbol))
    }

    /// Adds that a variable and the constant that it has just got are equal.
    pub(crate) fn settle_conditions(
        &mut self,
        to: Symbol,
        value: ExpressionId,
        place: Place,
    ) -> Result<(), Stop> {
        if self.opens(value) {
            return self.settle_opened(to, place);
        }
        let Some(constant) = self.settled_by(to, value) else {
            return Ok(());
        };
        let left = self.symbol_text(to)?;
        let right = self.symbol_text(constant)?;
        match self.difference_of(left.as_str(), right.as_str())? {
            Some(difference) => self.copy(difference, Source::Number(Signs::ZERO), place),
            None => Ok(()),
        }
    }
}
