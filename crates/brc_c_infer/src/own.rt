use crate::names::Names;
use brc_c_flow::{OwnFunctions, OwnRow};
use brc_c_text::Symbol;
use std::alloc::Global;

/// What is known of the functions of a program.
#[derive(Drop)]
pub struct Own {
    pub(crate) names: Names,
    pub(crate) rows: Vec<Option<OwnRow>>,
    /// Of each function whether its recursion has no end: what is known of it changes with each round.
    pub(crate) unsettled: Vec<bool>,
}

impl Own {
    /// Returns that nothing is known of any function.
    pub fn new(alloc: Global) -> Own {
        Own {
            names: Names::new(alloc),
            rows: Vec::new(alloc),
            unsettled: Vec::new(alloc),
        }
    }

    /// Returns the functions that a file knows, by the file's number.
    pub fn functions(&self, file: usize) -> OwnFunctions<'_> {
        self.names.in_file(file, self.rows.as_slice())
    }

    /// Returns whether the function that a name means in a file has a recursion without a fixed point.
    pub fn is_unsettled(&self, file: usize, name: Symbol) -> bool {
        match self.functions(file).number(name) {
            Some(number) => self.unsettled.get(number).copied().unwrap_or(false),
            None => false,
        }
    }
}
