//! Addresses of fields, and of variables outside functions, that are passed to functions of the program.

use crate::building::Builder;
use crate::names::Kind;
use crate::operand::{Operand, Want};
use crate::passing::Passing;
use crate::reasons::FlowReason;
use crate::stop::Stop;
use brc_c_store::{Cell, Local};
use brc_c_tree::{Expression, ExpressionId, Unary};

/// A cell whose address is passed, and the name that has what is there while the call lasts.
#[derive(Clone, Copy)]
pub(crate) struct PassedCell {
    cell: Cell,
    local: Local,
}

impl<'a> Builder<'a> {
    /// Finds the value of an argument. Where a function of the program may store an object in a cell, it is a place.
    #[cycle(expression)]
    pub(crate) fn argument(
        &mut self,
        id: ExpressionId,
        passing: Passing,
        want: Want,
        depth: usize,
    ) -> Result<Operand, Stop> {
        match self.kept_place(id, passing) {
            Some(place) => self.place_passed(place, depth),
            None => self.value(id, want, depth),
        }
    }

    /// Returns the field, or the variable outside functions, whose address a function gets that is known to store
    /// something there.
    fn kept_place(&self, id: ExpressionId, passing: Passing) -> Option<ExpressionId> {
        match passing {
            Passing::Own(out) if out.is_told() => {}
            _ => return None,
        }
        let Expression::Unary {
            operator: Unary::Address,
            operand,
        } = self.tree.expression(self.without_casts(id))?
        else {
            return None;
        };
        let place = self.without_casts(operand);
        let is_kept = match self.tree.expression(place)? {
            Expression::Field { .. } => true,
            Expression::Name(name) => match self.variable(name) {
                Some(variable) => variable.kind == Kind::Static,
                None => true,
            },
            _ => false,
        };
        if is_kept && self.is_object(place) {
            Some(place)
        } else {
            None
        }
    }

    /// Finds the cell whose address is passed, and gives it a name while the call lasts.
    #[cycle(expression)]
    fn place_passed(&mut self, place: ExpressionId, depth: usize) -> Result<Operand, Stop> {
        let Some(inside) = depth.checked_sub(1) else {
            return Err(self.stop_at(place, FlowReason::TooDeep));
        };
        let base = self.parts(place, inside)?;
        self.use_base(place, base)?;
        match self.cell_at(place, base)? {
            Some(cell) if !cell.owes.is_assumed => {
                let local = self.unnamed()?;
                self.passed_cells.push(PassedCell { cell, local })?;
                Ok(Operand::Address(local))
            }
            found => {
                self.forget_cell(found, self.place_of(place))?;
                Ok(Operand::Plain)
            }
        }
    }

    /// Returns the cell whose address is passed under this name.
    pub(crate) fn passed_cell(&self, local: Local) -> Option<Cell> {
        for passed in self.passed_cells.iter() {
            if passed.local == local {
                return Some(passed.cell);
            }
        }
        None
    }
}
