//! Which functions of a program call which.

use crate::file::{Files, Numbered};
use crate::names::Names;
use brc_c_text::Symbol;
use brc_c_tree::{Body, Expression, Tree};
use std::alloc::{AllocError, Global};

/// The functions that each function calls by name.
#[derive(Drop)]
pub(crate) struct Calls {
    /// The numbers of the callees, those of one caller adjacent, ..
    callees: Vec<usize>,
    /// .. and where those of each caller end.
    ends: Vec<usize>,
}

impl Calls {
    /// Returns the calls in the bodies that are read. What a table knows isn't looked up in the program.
    pub(crate) fn of(
        files: &Files<'_>,
        names: &Names,
        numbered: &[Numbered],
    ) -> Result<Calls, AllocError> {
        let mut calls = Calls {
            callees: Vec::new(files.alloc),
            ends: Vec::new(files.alloc),
        };
        for known in numbered {
            if let Some((_, function)) = files.function(*known) {
                if let Body::Read(tree, _) = &function.body {
                    calls.add(files, names, known.file, tree)?;
                }
            }
            calls.ends.push(calls.callees.len())?;
        }
        Ok(calls)
    }

    fn add(
        &mut self,
        files: &Files<'_>,
        names: &Names,
        file: usize,
        tree: &Tree,
    ) -> Result<(), AllocError> {
        let own = names.in_file(file, &[]);
        for (expression, _) in tree.expressions() {
            if let Some(name) = called_name(tree, *expression) {
                if let Some(number) = own.number(name) {
                    if files.tables.row(files.symbols.text(name)).is_none() {
                        self.callees.push(number)?;
                    }
                }
            }
        }
        Ok(())
    }

    /// Returns the number of functions.
    pub(crate) fn len(&self) -> usize {
        self.ends.len()
    }

    /// Returns how many turns a walk over all functions and calls takes at most.
    pub(crate) fn turns(&self) -> usize {
        self.callees
            .len()
            .saturating_add(self.ends.len().saturating_mul(2))
    }

    /// Returns the numbers of the functions that a function calls.
    pub(crate) fn callees(&self, number: usize) -> &[usize] {
        let first = match number.checked_sub(1) {
            Some(before) => self.end(before),
            None => 0,
        };
        self.callees.get(first..self.end(number)).unwrap_or(&[])
    }

    /// Returns of each function whether it is a helper, or called by name.
    pub(crate) fn needed(&self, alloc: Global, helpers: &[bool]) -> Result<Vec<bool>, AllocError> {
        let mut needed = Vec::from_slice(alloc, helpers)?;
        for callee in self.callees.iter() {
            if let Some(found) = needed.get_mut(*callee) {
                *found = true;
            }
        }
        Ok(needed)
    }

    fn end(&self, number: usize) -> usize {
        self.ends.get(number).copied().unwrap_or(0)
    }
}

/// Returns the name of what an expression calls, if it calls something by its name.
fn called_name(tree: &Tree, expression: Expression) -> Option<Symbol> {
    let Expression::Call { function, .. } = expression else {
        return None;
    };
    match tree.expression(function)? {
        Expression::Name(name) => Some(name),
        _ => None,
    }
}
