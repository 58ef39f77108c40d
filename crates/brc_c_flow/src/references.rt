//! Calls that count references and do nothing else, as `Py_INCREF`.

use crate::building::Builder;
use crate::names::Kind;
use crate::operand::{Operand, Site, Want};
use crate::reasons::FlowReason;
use crate::stop::Stop;
use brc_c_store::{Cell, Event, Local, Source};
use brc_c_tree::{Expression, ExpressionId, Unary};

/// What is done to references.
#[derive(Clone, Copy)]
pub(crate) enum Counting {
    Take,
    TakeOrNull,
    Release,
    ReleaseOrNull,
    NewRef,
    NewRefOrNull,
    Clear,
    Replace,
    ReplaceOrNull,
}

/// Where an argument has its object from.
#[derive(Clone, Copy)]
enum Origin {
    Variable,
    /// A field, or a variable that is there after the call, too.
    Kept,
    Element,
    /// The value of any other expression.
    Value,
}

impl Counting {
    pub(crate) fn of(name: &[u8]) -> Option<Counting> {
        match name {
            b"Py_INCREF" | b"_Py_NewReference" => Some(Counting::Take),
            b"Py_XINCREF" | b"Py_IncRef" => Some(Counting::TakeOrNull),
            b"Py_DECREF" => Some(Counting::Release),
            b"Py_XDECREF" | b"Py_DecRef" => Some(Counting::ReleaseOrNull),
            b"Py_NewRef" => Some(Counting::NewRef),
            b"Py_XNewRef" => Some(Counting::NewRefOrNull),
            b"Py_CLEAR" => Some(Counting::Clear),
            b"Py_SETREF" => Some(Counting::Replace),
            b"Py_XSETREF" => Some(Counting::ReplaceOrNull),
            _ => None,
        }
    }

    /// Returns whether NULL serves too.
    pub(crate) fn may_be_null(self) -> bool {
        match self {
            Counting::TakeOrNull
            | Counting::ReleaseOrNull
            | Counting::NewRefOrNull
            | Counting::Clear
            | Counting::ReplaceOrNull => true,
            Counting::Take | Counting::Release | Counting::NewRef | Counting::Replace => false,
        }
    }

    /// Returns whether a reference that the argument has is given up.
    pub(crate) fn gives_up(self) -> bool {
        self.replaces() || matches!(self, Counting::Release | Counting::ReleaseOrNull)
    }

    pub(crate) fn replaces(self) -> bool {
        matches!(
            self,
            Counting::Clear | Counting::Replace | Counting::ReplaceOrNull
        )
    }
}

impl<'a> Builder<'a> {
    /// Adds what a call does to the references of its argument.
    pub(crate) fn count(
        &mut self,
        counting: Counting,
        ids: &[ExpressionId],
        operands: &[Operand],
        site: Site,
    ) -> Result<Operand, Stop> {
        let (Some(id), Some(operand)) = (ids.first(), operands.first()) else {
            return Err(self.stop_at(site.id, FlowReason::Expression));
        };
        if self.cell_read(*id).is_none() {
            let origin = self.origin(*id);
            if counting.replaces() && matches!(origin, Origin::Value) {
                return Err(self.stop_at(*id, FlowReason::Expression));
            }
            if is_elsewhere(counting, origin) {
                return self.count_elsewhere(ids, operands, site);
            }
        }
        let local = self.counted(*id, *operand)?;
        if counting.replaces() {
            self.replace(counting, ids, operands, local, site)?;
            return Ok(Operand::Plain);
        }
        let end = if counting.may_be_null() {
            Some(self.unless_null(*id, local)?)
        } else {
            None
        };
        if counting.gives_up() {
            self.take_item(*id, local, site)?;
            self.emit(Event::Release(local), site.place, Some(site.words))?;
        } else {
            self.emit(Event::Take(local), site.place, Some(site.words))?;
        }
        if let Some(end) = end {
            self.land(end);
        }
        match counting {
            Counting::NewRef | Counting::NewRefOrNull => Ok(Operand::Object(local)),
            _ => Ok(Operand::Plain),
        }
    }

    /// What a deallocator releases of the items of its own object is the object's reference.
    fn take_item(&mut self, id: ExpressionId, local: Local, site: Site) -> Result<(), Stop> {
        if self.habits.is_deallocator && self.is_own_item(id) {
            self.emit(Event::Take(local), site.place, Some(site.words))?;
        }
        Ok(())
    }

    /// Returns whether an expression is an item of a parameter.
    fn is_own_item(&self, id: ExpressionId) -> bool {
        let Some(
            Expression::Call {
                function,
                arguments,
            },
        ) = self.tree.expression(self.without_casts(id))
        else {
            return false;
        };
        let is_item = match self.name_in(function) {
            Some(name) => matches!(
                self.symbols.text(name),
                b"PyTuple_GET_ITEM" | b"PyList_GET_ITEM"
            ),
            None => false,
        };
        match self.tree.operands(arguments).first() {
            Some(first) if is_item => match self.name_in(*first) {
                Some(name) => self.is_parameter(name),
                None => false,
            },
            _ => false,
        }
    }

    /// Notes that a reference is made, given up or replaced where it isn't followed: nothing is known of it.
    fn count_elsewhere(
        &mut self,
        ids: &[ExpressionId],
        operands: &[Operand],
        site: Site,
    ) -> Result<Operand, Stop> {
        if let Some(id) = ids.first() {
            let words = self.words_of(*id)?;
            self.assume(words)?;
            if let Some(value) = operands.get(1) {
                self.stow(*id, *value, site.place)?;
            }
        }
        Ok(Operand::Plain)
    }

    /// Gives a variable another value, and gives up what it had.
    fn replace(
        &mut self,
        counting: Counting,
        ids: &[ExpressionId],
        operands: &[Operand],
        local: Local,
        site: Site,
    ) -> Result<(), Stop> {
        let Some(id) = ids.first() else {
            return Ok(());
        };
        let old = match self.cell_read(*id) {
            Some(cell) => {
                self.replace_in_cell(cell, ids, operands, site)?;
                local
            }
            None => self.replace_variable(ids, operands, local, site)?,
        };
        if counting.may_be_null() {
            let end = self.unless_null(*id, old)?;
            self.emit(Event::Release(old), site.place, Some(site.words))?;
            self.land(end);
        } else {
            self.emit(Event::Release(old), site.place, Some(site.words))?;
        }
        Ok(())
    }

    /// Gives a variable another value, and returns the name that has the one that it had.
    fn replace_variable(
        &mut self,
        ids: &[ExpressionId],
        operands: &[Operand],
        local: Local,
        site: Site,
    ) -> Result<Local, Stop> {
        let old = self.unnamed()?;
        self.copy(old, Source::Local(local), site.place)?;
        match (ids.get(1), operands.get(1)) {
            (Some(id), Some(value)) => self.settle(*id, *value, Want::OBJECT.into(local))?,
            _ => self.copy(local, Source::Null, site.place)?,
        }
        Ok(old)
    }

    /// Stores the second argument in a cell, or NULL.
    fn replace_in_cell(
        &mut self,
        cell: Cell,
        ids: &[ExpressionId],
        operands: &[Operand],
        site: Site,
    ) -> Result<(), Stop> {
        let id = ids.last().copied().unwrap_or(site.id);
        let value = operands.get(1).copied().unwrap_or(Operand::Null);
        let words = match ids.first() {
            Some(first) => self.words_of(*first)?,
            None => site.words,
        };
        self.put(cell, id, value, site.place, words)?;
        Ok(())
    }

    /// Returns the name that has what is counted.
    fn counted(&mut self, id: ExpressionId, operand: Operand) -> Result<Local, Stop> {
        if let Operand::Object(local) = operand {
            return Ok(local);
        }
        if let Operand::Singleton(singleton) = operand {
            if let Some(local) = self.singleton_local(singleton)? {
                return Ok(local);
            }
        }
        let to = self.unnamed()?;
        self.settle(id, operand, Want::OBJECT.into(to))?;
        Ok(to)
    }

    /// Returns where an argument has its object from.
    fn origin(&self, id: ExpressionId) -> Origin {
        match self.tree.expression(self.without_casts(id)) {
            Some(Expression::Name(name)) => match self.kind(name) {
                Some(Kind::Object) => Origin::Variable,
                Some(Kind::Static) => Origin::Kept,
                Some(_) => Origin::Value,
                None if self.types.variable(name).is_some() => Origin::Kept,
                None => Origin::Value,
            },
            Some(Expression::Field { .. }) => Origin::Kept,
            _ if self.element(id).is_some() => Origin::Variable,
            _ if self.is_lent_element(id) => Origin::Value,
            Some(
                Expression::Index { .. }
                | Expression::Unary {
                    operator: Unary::Dereference,
                    ..
                },
            ) => Origin::Element,
            _ => Origin::Value,
        }
    }
}

/// Returns whether a reference is counted that an element has, or a field that isn't followed.
fn is_elsewhere(counting: Counting, origin: Origin) -> bool {
    match origin {
        Origin::Kept => counting.gives_up(),
        Origin::Element => !matches!(counting, Counting::NewRef | Counting::NewRefOrNull),
        Origin::Variable | Origin::Value => false,
    }
}
