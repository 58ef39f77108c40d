//! Assignments.

use crate::building::Builder;
use crate::names::Kind;
use crate::operand::{Operand, Want};
use crate::stop::Stop;
use brc_c_store::{Cell, Event, Local};
use brc_c_text::{Place, Symbol};
use brc_c_tree::{Binary, Expression, ExpressionId};

/// What is assigned to.
#[derive(Clone, Copy)]
enum Target {
    /// A variable whose object is followed.
    Object(Local),
    /// A variable whose sign is followed.
    Counted(Local),
    /// A variable of which nothing is followed.
    Variable,
    /// A field, an element, where a pointer points to, or a variable that is there after the call, too.
    Memory,
}

impl<'a> Builder<'a> {
    /// Adds an assignment, and returns what it has.
    #[cycle(expression)]
    pub(crate) fn assign(
        &mut self,
        operator: Option<Binary>,
        left: ExpressionId,
        right: ExpressionId,
        depth: usize,
    ) -> Result<Operand, Stop> {
        let target = self.target(left);
        if operator.is_some() {
            self.value(right, Want::NOTHING, depth)?;
            self.changed(left, Operand::Plain)?;
            return Ok(Operand::Plain);
        }
        let want = self.assigned(target, left);
        let value = self.value(right, want, depth)?;
        if let Target::Memory = target {
            let left = self.without_casts(left);
            let base = self.parts(left, depth)?;
            self.use_base(left, base)?;
            if let Some(cell) = self.cell_at(left, base)? {
                return self.store_in_cell(cell, left, right, value);
            }
        }
        self.store(target, left, right, value)
    }

    fn target(&self, left: ExpressionId) -> Target {
        if let Some(local) = self.element(left) {
            return Target::Object(local);
        }
        let Some(name) = self.name_in(left) else {
            return Target::Memory;
        };
        let Some(variable) = self.variable(name) else {
            return Target::Memory;
        };
        match (variable.kind, variable.local) {
            (Kind::Object, Some(local)) => Target::Object(local),
            (Kind::Plain, Some(local)) => Target::Counted(local),
            (Kind::Static, _) => Target::Memory,
            _ => Target::Variable,
        }
    }

    /// Returns what the value of an assignment is for.
    fn assigned(&self, target: Target, left: ExpressionId) -> Want {
        match target {
            Target::Object(local) => Want {
                is_object: true,
                is_asked: self.is_tested(left),
                into: Some(local),
            },
            Target::Counted(local) => Want::ASKED.into(local),
            Target::Variable => Want::NOTHING,
            Target::Memory => Want {
                is_object: self.is_object(left),
                ..Want::ASKED
            },
        }
    }

    fn is_tested(&self, left: ExpressionId) -> bool {
        match self.name_in(left) {
            Some(name) => self.tested.contains(&name),
            None => true,
        }
    }

    fn store(
        &mut self,
        target: Target,
        left: ExpressionId,
        right: ExpressionId,
        value: Operand,
    ) -> Result<Operand, Stop> {
        let place = self.place_of(left);
        if let Some(name) = self.assigned_name(left) {
            self.forget(name, place)?;
        }
        match target {
            Target::Object(local) => {
                self.settle(right, value, Want::OBJECT.into(local))?;
                if let Some(name) = self.name_in(left) {
                    self.settle_conditions(name, right, place)?;
                }
                Ok(Operand::Object(local))
            }
            Target::Counted(local) => {
                self.stow(left, value, place)?;
                self.copy_signs(local, value, place)?;
                if let Some(name) = self.name_in(left) {
                    self.settle_conditions(name, right, place)?;
                }
                Ok(Operand::Counted(local))
            }
            Target::Variable | Target::Memory => {
                self.stow(left, value, place)?;
                Ok(value)
            }
        }
    }

    fn store_in_cell(
        &mut self,
        cell: Cell,
        left: ExpressionId,
        right: ExpressionId,
        value: Operand,
    ) -> Result<Operand, Stop> {
        let place = self.place_of(left);
        if let Some(name) = self.assigned_name(left) {
            self.forget(name, place)?;
        }
        let words = self.words_of(left)?;
        match self.put(cell, right, value, place, words)? {
            Some(local) => Ok(Operand::Object(local)),
            None => Ok(Operand::Null),
        }
    }

    /// An object goes where it isn't followed: its reference, if there is one, is kept there.
    pub(crate) fn stow(
        &mut self,
        left: ExpressionId,
        value: Operand,
        place: Place,
    ) -> Result<(), Stop> {
        let local = match value {
            Operand::Object(local) => local,
            Operand::Singleton(singleton) => match self.singleton_local(singleton)? {
                Some(local) => local,
                None => return Ok(()),
            },
            _ => return Ok(()),
        };
        if !self.keeps_objects(left) {
            return Ok(());
        }
        let words = self.words_of(left)?;
        // What everybody knows by name is there in any case.
        if let Operand::Object(_) = value {
            self.assume(words)?;
        }
        self.emit(Event::Stow(local), place, Some(words))?;
        Ok(())
    }

    /// Returns whether a place can have a reference: it isn't that of a number.
    fn keeps_objects(&self, left: ExpressionId) -> bool {
        match self.name_in(left) {
            Some(name) => match self.variable(name) {
                Some(variable) => variable.kind == Kind::Static || variable.type_name.stars > 0,
                None => true,
            },
            None => true,
        }
    }

    /// A variable or a field has another value.
    pub(crate) fn changed(&mut self, left: ExpressionId, value: Operand) -> Result<(), Stop> {
        let place = self.place_of(left);
        if let Some(name) = self.assigned_name(left) {
            self.forget(name, place)?;
        }
        if let Target::Counted(local) = self.target(left) {
            self.copy_signs(local, value, place)?;
        }
        Ok(())
    }

    /// Returns the name of a variable or a field.
    fn assigned_name(&self, left: ExpressionId) -> Option<Symbol> {
        match self.tree.expression(self.without_casts(left))? {
            Expression::Name(name) | Expression::Field { name, .. } => Some(name),
            _ => None,
        }
    }
}
