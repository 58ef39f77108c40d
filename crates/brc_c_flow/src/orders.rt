//! How two values are ordered that are compared more than once, each time in the same words: of `a < b`, `a == b` and
//! `a > b` one holds.

use crate::building::{Branches, Builder};
use crate::facts::{is_comparison, mentions};
use crate::stop::Stop;
use brc_c_store::{Comparison, Local, Source, Test};
use brc_c_text::{Place, Symbol};
use brc_c_tree::{Expression, ExpressionId};
use std::alloc::AllocError;

/// Two values that are compared.
#[derive(Drop)]
pub(crate) struct KnownOrder {
    left: String,
    right: String,
    is_asked_twice: bool,
    /// Whether a call may change it.
    reads_memory: bool,
    /// The name of their difference, whose sign is followed.
    difference: Option<Local>,
}

impl KnownOrder {
    fn is_of(&self, left: &str, right: &str) -> bool {
        self.left.as_str() == left && self.right.as_str() == right
    }
}

impl<'a> Builder<'a> {
    /// Notes two values that a condition compares of which nothing else is known. Returns whether it is one.
    pub(crate) fn find_order(&mut self, id: ExpressionId) -> Result<bool, AllocError> {
        let Some((left, right)) = self.compared(id) else {
            return Ok(false);
        };
        let left = self.text_of(left)?;
        let right = self.text_of(right)?;
        for known in self.orders.iter_mut() {
            if known.is_of(left.as_str(), right.as_str())
                || known.is_of(right.as_str(), left.as_str())
            {
                known.is_asked_twice = true;
                return Ok(true);
            }
        }
        let reads_memory = self.traits_of(id).reads_memory;
        self.orders.push(KnownOrder {
            left,
            right,
            is_asked_twice: false,
            reads_memory,
            difference: None,
        })?;
        Ok(true)
    }

    /// Returns the sides of a comparison of values that are no objects, or of which one is a standard stream.
    fn compared(&self, id: ExpressionId) -> Option<(ExpressionId, ExpressionId)> {
        let Some(
            Expression::Binary {
                operator,
                left,
                right,
            },
        ) = self.tree.expression(id)
        else {
            return None;
        };
        let has_objects = self.is_object(left) || self.is_object(right);
        let is_of_stream = self.is_stream(left) || self.is_stream(right);
        if is_comparison(operator) && (!has_objects || is_of_stream) && self.traits_of(id).is_pure {
            Some((left, right))
        } else {
            None
        }
    }

    /// Asks how two values are ordered that are compared more than once. Returns whether they are.
    pub(crate) fn ask_order(
        &mut self,
        id: ExpressionId,
        comparison: Comparison,
        branches: Branches,
    ) -> Result<bool, Stop> {
        let Some((left, right)) = self.compared(id) else {
            return Ok(false);
        };
        let left = self.text_of(left)?;
        let right = self.text_of(right)?;
        for at in 0..self.orders.len() {
            let Some(comparison) = self.asked_order(at, left.as_str(), right.as_str(), comparison)
            else {
                continue;
            };
            let of = self.difference_at(at)?;
            let test = Test {
                comparison,
                constant: 0,
            };
            self.ask_sign(id, of, test, branches)?;
            return Ok(true);
        }
        Ok(false)
    }

    /// Returns how a difference compares with 0 if a comparison is one of its values.
    fn asked_order(
        &self,
        at: usize,
        left: &str,
        right: &str,
        comparison: Comparison,
    ) -> Option<Comparison> {
        let known = self.orders.get(at)?;
        if !known.is_asked_twice {
            None
        } else if known.is_of(left, right) {
            Some(comparison)
        } else if known.is_of(right, left) {
            Some(comparison.mirrored())
        } else {
            None
        }
    }

    /// The values in these words are compared once more: where one gets the other.
    pub(crate) fn compare_again(&mut self, left: &str, right: &str) {
        for known in self.orders.iter_mut() {
            if known.is_of(left, right) || known.is_of(right, left) {
                known.is_asked_twice = true;
            }
        }
    }

    /// Returns the name of the difference of two values, if they are compared more than once.
    pub(crate) fn difference_of(&mut self, left: &str, right: &str) -> Result<Option<Local>, Stop> {
        for at in 0..self.orders.len() {
            if self
                .asked_order(at, left, right, Comparison::Equal)
                .is_some()
            {
                return Ok(Some(self.difference_at(at)?));
            }
        }
        Ok(None)
    }

    fn difference_at(&mut self, at: usize) -> Result<Local, Stop> {
        if let Some(known) = self.orders.get(at) {
            if let Some(local) = known.difference {
                return Ok(local);
            }
        }
        let local = self.unnamed()?;
        if let Some(known) = self.orders.get_mut(at) {
            known.difference = Some(local);
        }
        Ok(local)
    }

    /// A variable or a field of this name is assigned.
    pub(crate) fn forget_orders(&mut self, name: Symbol, place: Place) -> Result<(), Stop> {
        let symbols = self.symbols;
        let text = symbols.text(name);
        for at in 0..self.orders.len() {
            let is_changed = match self.orders.get(at) {
                Some(known) => {
                    known.is_asked_twice
                        && (mentions(known.left.as_str().as_bytes(), text)
                            || mentions(known.right.as_str().as_bytes(), text))
                }
                None => false,
            };
            if is_changed {
                self.forget_order(at, place)?;
            }
        }
        Ok(())
    }

    /// Another function may set what values are made of.
    pub(crate) fn forget_orders_in_memory(&mut self, place: Place) -> Result<(), Stop> {
        for at in 0..self.orders.len() {
            let is_changed = match self.orders.get(at) {
                Some(known) => known.is_asked_twice && known.reads_memory,
                None => false,
            };
            if is_changed {
                self.forget_order(at, place)?;
            }
        }
        Ok(())
    }

    fn forget_order(&mut self, at: usize, place: Place) -> Result<(), Stop> {
        let difference = self.difference_at(at)?;
        self.copy(difference, Source::Nothing, place)
    }
}
