//! Whether an exception is set: `PyErr_Occurred` right after a call that gives NULL only if one is.

use crate::building::{Branches, Builder};
use crate::names::Kind;
use crate::stop::Stop;
use brc_c_graph::NodeId;
use brc_c_store::{Event, Local};
use brc_c_table::{Fails, Gives};
use brc_c_text::Symbol;
use brc_c_tree::{Expression, ExpressionId, List};

impl<'a> Builder<'a> {
    /// Notes the name that an assignment gives what a call makes.
    pub(crate) fn note_assigned(&mut self, id: ExpressionId) {
        if let Some(
            Expression::Assign {
                operator: None,
                left,
                right,
            },
        ) = self.tree.expression(id)
        {
            if let Some(name) = self.name_in(left) {
                self.just_given = self.given_with_exception(name, right);
            }
        }
    }

    /// The same, of the last of some variables with their first values.
    pub(crate) fn note_declared(&mut self, list: List) {
        if let Some(declared) = self.tree.declarations(list).last() {
            if let (false, Some(value)) = (declared.is_static, declared.value) {
                self.just_given = self.given_with_exception(declared.name, value);
            }
        }
    }

    fn given_with_exception(&self, name: Symbol, value: ExpressionId) -> Option<Local> {
        let value = self.without_casts(value);
        let Some(Expression::Call { function, .. }) = self.tree.expression(value) else {
            return None;
        };
        let callee = self.callee_of(function)?;
        let row = callee.row;
        let is_python = callee.own.is_some() || row.is_field || is_of_python(row.name.as_slice());
        if row.gives != Gives::New || row.fails != Fails::Null || !is_python {
            return None;
        }
        match self.variable(name) {
            Some(variable) if variable.kind == Kind::Object => variable.local,
            _ => None,
        }
    }

    /// Where it is asked whether an exception is set, and a call has just given NULL, there is one: leads these paths
    /// to where they go on then.
    pub(crate) fn lead_null(&mut self, id: ExpressionId, to: NodeId) -> Result<(), Stop> {
        let Some(Expression::Call { function, .. }) = self.tree.expression(id) else {
            return Ok(());
        };
        let Some(Expression::Name(name)) = self.tree.expression(function) else {
            return Ok(());
        };
        let Some(local) = self.just_given else {
            return Ok(());
        };
        if self.symbols.text(name) != b"PyErr_Occurred".as_slice() {
            return Ok(());
        }
        let place = self.place_of(id);
        let other = self.meeting(place)?;
        self.ask(
            Event::Null(local),
            place,
            None,
            Branches {
                holds: to,
                fails: other,
            },
        )?;
        self.land(other);
        Ok(())
    }
}

/// Returns whether a function of this name is Python's: a C library's sets no exception.
fn is_of_python(name: &[u8]) -> bool {
    name.starts_with(b"Py") || name.starts_with(b"_Py")
}
