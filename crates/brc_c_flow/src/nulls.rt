//! Fields of parameters that a function leaves NULL.

use crate::building::{Branches, Builder};
use crate::names::Kind;
use crate::own::NullField;
use crate::purpose::Purpose;
use crate::references::Counting;
use crate::stop::Stop;
use brc_c_store::{Event, Local, Source};
use brc_c_text::{Place, Symbol};
use brc_c_tree::{Expression, ExpressionId, List};

/// A field that is asked for at the ends, and the name that has what is in it then.
#[derive(Clone, Copy)]
pub(crate) struct AskedField {
    pub(crate) null: NullField,
    /// The name of the parameter.
    holder: Local,
    pub(crate) local: Local,
}

impl<'a> Builder<'a> {
    /// Finds the fields of parameters that the function sets to NULL, or that functions do which it calls.
    pub(crate) fn find_asked_fields(&mut self) -> Result<(), Stop> {
        if let Purpose::Verdict(_) = self.purpose {
            return Ok(());
        }
        let tree = self.tree;
        for (expression, _) in tree.expressions() {
            match *expression {
                Expression::Assign {
                    operator: None,
                    left,
                    right,
                } if self.constant_in(right) == Some(0) => self.ask_for_field(left)?,
                Expression::Call {
                    function,
                    arguments,
                } => self.ask_for_fields(function, arguments)?,
                _ => {}
            }
        }
        self.habits.has_cells = self.habits.has_cells || !self.asked_fields.is_empty();
        Ok(())
    }

    fn ask_for_fields(&mut self, function: ExpressionId, arguments: List) -> Result<(), Stop> {
        let tree = self.tree;
        let ids = tree.operands(arguments);
        if let Some(Expression::Name(name)) = tree.expression(function) {
            if let (Some(Counting::Clear), Some(first)) = (
                Counting::of(self.symbols.text(name)),
                ids.first(),
            ) {
                return self.ask_for_field(*first);
            }
        }
        let Some(callee) = self.callee_of(function) else {
            return Ok(());
        };
        let Some(own) = callee.own else {
            return Ok(());
        };
        for null in own.nulls.iter() {
            if let Some(id) = ids.get(null.argument) {
                if let Some(holder) = self.name_in(*id) {
                    self.add_asked_field(holder, null.field)?;
                }
            }
        }
        Ok(())
    }

    /// Asks for what an expression is, if it is a field of a parameter.
    fn ask_for_field(&mut self, id: ExpressionId) -> Result<(), Stop> {
        let id = self.without_casts(id);
        if let Some(
            Expression::Field {
                object,
                name,
                is_arrow: true,
            },
        ) = self.tree.expression(id)
        {
            if let (true, Some(holder)) = (self.is_object(id), self.name_in(object)) {
                self.add_asked_field(holder, name)?;
            }
        }
        Ok(())
    }

    fn add_asked_field(&mut self, holder: Symbol, field: Symbol) -> Result<(), Stop> {
        let (Some(argument), Some(local)) = (
            self.parameter_number(holder),
            self.unchanged_parameter(holder),
        ) else {
            return Ok(());
        };
        let null = NullField { argument, field };
        if self.asked_fields.iter().any(|known| known.null == null) {
            return Ok(());
        }
        let asked = AskedField {
            null,
            holder: local,
            local: self.unnamed()?,
        };
        self.asked_fields.push(asked)?;
        Ok(())
    }

    pub(crate) fn parameter_number(&self, name: Symbol) -> Option<usize> {
        for (number, parameter) in self.function.parameters.iter().enumerate() {
            if parameter.name == Some(name) {
                return Some(number);
            }
        }
        None
    }

    /// Returns the name of a parameter that has what the caller passed wherever it is asked for.
    fn unchanged_parameter(&self, name: Symbol) -> Option<Local> {
        let variable = self.variable(name)?;
        if variable.kind == Kind::Object && variable.is_parameter && !self.mixed.contains(&name) {
            variable.local
        } else {
            None
        }
    }

    /// Adds that fields are read at an end. Those of NULL are as good as NULL.
    pub(crate) fn ask_fields(&mut self, place: Place) -> Result<(), Stop> {
        for at in 0..self.asked_fields.len() {
            if let Some(asked) = self.asked_fields.get(at).copied() {
                let Branches { holds, fails } = self.branches(place)?;
                self.copy(asked.local, Source::Null, place)?;
                self.ask(
                    Event::Null(asked.holder),
                    place,
                    None,
                    Branches { holds, fails },
                )?;
                self.land(fails);
                if let Some(cell) = self.field_cell(asked.null.field, asked.holder)? {
                    let to = asked.local;
                    self.emit(Event::Read { cell, to }, place, None)?;
                }
                self.land(holds);
            }
        }
        Ok(())
    }
}
