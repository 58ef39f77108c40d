//! Cells: fields of objects, and variables that are there after the call, too.

use crate::building::Builder;
use crate::names::Kind;
use crate::operand::{Operand, Want};
use crate::stop::Stop;
use brc_c_graph::Words;
use brc_c_store::{Cell, Event, Field, Local, Owes};
use brc_c_text::{Place, Symbol};
use brc_c_tree::{Expression, ExpressionId};

/// A cell in memory that is no object's, in words.
#[derive(Drop)]
pub(crate) struct PlainCell {
    text: String,
    field: Field,
}

impl<'a> Builder<'a> {
    /// Returns the cell that an expression is. `base` is what the pointer of a field has.
    pub(crate) fn cell_at(
        &mut self,
        id: ExpressionId,
        base: Operand,
    ) -> Result<Option<Cell>, Stop> {
        if !self.is_object(id) {
            return Ok(None);
        }
        match self.tree.expression(id) {
            Some(Expression::Name(name)) => self.variable_cell(name),
            Some(
                Expression::Field {
                    object,
                    name,
                    is_arrow,
                },
            ) => {
                if self.traits_of(object).has_effect {
                    return Ok(None);
                }
                match base {
                    Operand::Object(holder) if is_arrow && self.is_place(object) => {
                        self.field_cell(name, holder)
                    }
                    _ => self.plain_cell(id),
                }
            }
            _ => Ok(None),
        }
    }

    /// Returns whether an expression is a variable or a field.
    fn is_place(&self, id: ExpressionId) -> bool {
        matches!(
            self.tree.expression(self.without_casts(id)),
            Some(Expression::Name(_) | Expression::Field { .. })
        )
    }

    pub(crate) fn field_cell(&mut self, name: Symbol, holder: Local) -> Result<Option<Cell>, Stop> {
        let words = self.words_of_symbol(name)?;
        Ok(Some(Cell {
            holder: Some(holder),
            field: self.graph.add_field(words)?,
            owes: self.owed_by_field(name),
        }))
    }

    /// Returns the cell that a variable is, if it is there after the call, too.
    pub(crate) fn variable_cell(&mut self, name: Symbol) -> Result<Option<Cell>, Stop> {
        let is_one = match self.variable(name) {
            Some(variable) => variable.kind == Kind::Static,
            None => self.types.variable(name).is_some(),
        };
        if !is_one {
            return Ok(None);
        }
        let words = self.words_of_symbol(name)?;
        Ok(Some(Cell {
            holder: None,
            field: self.graph.add_field(words)?,
            owes: self.owed_by_variable(name),
        }))
    }

    /// Returns a cell in memory that is no object's: of it nothing is known.
    fn plain_cell(&mut self, id: ExpressionId) -> Result<Option<Cell>, Stop> {
        let text = self.text_of(id)?;
        let words = self.words_of(id)?;
        let field = self.graph.add_field(words)?;
        if !self.plain_cells.iter().any(|known| known.field == field) {
            self.plain_cells.push(PlainCell { text, field })?;
        }
        Ok(Some(Cell {
            holder: None,
            field,
            owes: Owes {
                old: false,
                alive: false,
                owned: false,
                section: false,
                is_assumed: true,
                is_steady: false,
            },
        }))
    }

    /// Reads a cell into a name of its own.
    pub(crate) fn read_cell(&mut self, id: ExpressionId, cell: Cell) -> Result<Operand, Stop> {
        let to = self.unnamed()?;
        let words = self.words_of(id)?;
        self.emit(Event::Read { cell, to }, self.place_of(id), Some(words))?;
        self.has_objects = true;
        self.cells_read.insert(id.index(), cell)?;
        if cell.owes.is_assumed {
            self.assume(words)?;
        }
        Ok(Operand::Object(to))
    }

    /// Returns the cell from which the value of an expression was read.
    pub(crate) fn cell_read(&self, id: ExpressionId) -> Option<Cell> {
        self.cells_read
            .get(&self.without_casts(id).index())
            .copied()
    }

    /// Stores a value in a cell. `id` is the value's expression.
    pub(crate) fn put(
        &mut self,
        cell: Cell,
        id: ExpressionId,
        value: Operand,
        place: Place,
        words: Words,
    ) -> Result<Option<Local>, Stop> {
        let from = self.put_from(id, value)?;
        self.emit(Event::Put { cell, from }, place, Some(words))?;
        self.has_objects = true;
        if cell.owes.is_assumed && from.is_some() {
            self.assume(words)?;
        }
        Ok(from)
    }

    /// Returns the name that has a value, or `None` if it is NULL.
    fn put_from(&mut self, id: ExpressionId, value: Operand) -> Result<Option<Local>, Stop> {
        match value {
            Operand::Object(local) => Ok(Some(local)),
            _ if value.is_null() => Ok(None),
            _ => {
                let to = self.unnamed()?;
                self.settle(id, value, Want::OBJECT.into(to))?;
                Ok(Some(to))
            }
        }
    }

    /// Adds that another function may set a cell whose address is passed.
    pub(crate) fn forget_cell(&mut self, cell: Option<Cell>, place: Place) -> Result<(), Stop> {
        if let Some(cell) = cell {
            self.emit(Event::ForgetCell(cell), place, None)?;
        }
        Ok(())
    }

    /// Adds that cells are handed back, if there are any.
    pub(crate) fn hand_back(&mut self, runs_code: bool, place: Place) -> Result<(), Stop> {
        if self.habits.has_cells {
            self.emit(Event::HandBack { runs_code }, place, None)?;
        }
        Ok(())
    }

    pub(crate) fn plain_cell_by(&self, at: usize) -> Option<(&str, Field)> {
        let known = self.plain_cells.get(at)?;
        Some((known.text.as_str(), known.field))
    }
}
