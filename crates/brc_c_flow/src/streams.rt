//! The standard streams of C: no stream that a call opens is one of them.

use crate::building::Builder;
use crate::stop::Stop;
use brc_c_store::{Signs, Source};
use brc_c_text::{Place, Symbol};
use brc_c_tree::{Expression, ExpressionId};
use std::alloc::AllocError;

impl<'a> Builder<'a> {
    /// Returns whether an expression is the name of a standard stream.
    pub(crate) fn is_stream(&self, id: ExpressionId) -> bool {
        match self.name_in(id) {
            Some(name) if self.variable(name).is_none() => {
                matches!(self.symbols.text(name), b"stdin" | b"stdout" | b"stderr")
            }
            _ => false,
        }
    }

    /// Returns whether an expression is a call that opens a stream.
    pub(crate) fn opens(&self, id: ExpressionId) -> bool {
        let id = self.without_casts(id);
        let Some(Expression::Call { function, .. }) = self.tree.expression(id) else {
            return false;
        };
        match self.name_in(function) {
            Some(name) => OPENING.contains(&self.symbols.text(name)),
            None => false,
        }
    }

    /// Notes that a variable with a stream that a call opens differs from the standard ones.
    pub(crate) fn find_opened(&mut self, to: Symbol) -> Result<(), AllocError> {
        let left = self.symbol_text(to)?;
        self.compare_again(left.as_str(), "stdin");
        self.compare_again(left.as_str(), "stdout");
        self.compare_again(left.as_str(), "stderr");
        Ok(())
    }

    /// Adds that a variable has a stream that a call has opened.
    pub(crate) fn settle_opened(&mut self, to: Symbol, place: Place) -> Result<(), Stop> {
        let left = self.symbol_text(to)?;
        self.differ(left.as_str(), "stdin", place)?;
        self.differ(left.as_str(), "stdout", place)?;
        self.differ(left.as_str(), "stderr", place)
    }

    fn differ(&mut self, left: &str, right: &str, place: Place) -> Result<(), Stop> {
        match self.difference_of(left, right)? {
            Some(difference) => self.copy(difference, Source::Number(Signs::ABOVE), place),
            None => Ok(()),
        }
    }
}

/// The functions that open a stream.
const OPENING: [&[u8]; 5] = [b"fopen", b"fdopen", b"popen", b"tmpfile", b"fmemopen"];
