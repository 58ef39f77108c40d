//! What names, constants, fields and elements have.

use crate::building::{Builder, KnownSingleton};
use crate::constants::{character, integer, is_singleton};
use crate::names::Kind;
use crate::operand::{Operand, Want};
use crate::stop::Stop;
use brc_c_graph::{LocalName, Node, NodeId, Ways};
use brc_c_store::{Choice, Event, Local, Singleton, Source};
use brc_c_text::{Place, Symbol};
use brc_c_tree::{Expression, ExpressionId, Unary};

/// How many casts of one expression are passed.
const CAST_LIMIT: usize = 64;

impl<'a> Builder<'a> {
    /// Returns an expression without the casts before it.
    pub(crate) fn without_casts(&self, id: ExpressionId) -> ExpressionId {
        let mut found = id;
        for _turn in 0..CAST_LIMIT {
            let Some(Expression::Cast { operand, .. }) = self.tree.expression(found) else {
                break;
            };
            found = operand;
        }
        found
    }

    /// Returns the value of a constant, of which NULL is 0.
    pub(crate) fn constant_in(&self, id: ExpressionId) -> Option<i64> {
        match self.tree.expression(self.without_casts(id))? {
            Expression::Number(symbol) => integer(self.symbols.text(symbol)),
            Expression::Character(symbol) => character(self.symbols.text(symbol)),
            Expression::Name(symbol) => match self.symbols.text(symbol) {
                b"NULL" | b"false" | b"FALSE" => Some(0),
                b"true" | b"TRUE" => Some(1),
                _ => None,
            },
            Expression::Unary {
                operator: Unary::Minus,
                operand,
            } => {
                match self.tree.expression(operand)? {
                    Expression::Number(symbol) => {
                        integer(self.symbols.text(symbol))?.checked_neg()
                    }
                    _ => None,
                }
            }
            _ => self.traits_of(self.without_casts(id)).constant,
        }
    }

    /// Returns what a name has.
    pub(crate) fn name(
        &mut self,
        id: ExpressionId,
        symbol: Symbol,
        want: Want,
    ) -> Result<Operand, Stop> {
        if let Some(variable) = self.variable(symbol) {
            return match (variable.kind, variable.local) {
                (Kind::Object, Some(local)) => Ok(Operand::Object(local)),
                (Kind::Static, _) => self.kept(id, symbol, want),
                (Kind::Array, _) => Ok(Operand::Plain),
                (Kind::Objects, _) => Ok(self.out_pointer(symbol)),
                _ if want.is_object => self.unknown(id, want),
                (_, Some(local)) => Ok(Operand::Counted(local)),
                (_, None) => Ok(Operand::Plain),
            };
        }
        let text = self.symbols.text(symbol);
        if text == b"NULL".as_slice() {
            return Ok(Operand::Null);
        }
        if let Some(number) = self.constant_in(id) {
            return Ok(Operand::Number(number));
        }
        if is_singleton(text) {
            return Ok(Operand::Singleton(self.singleton(symbol, false)?));
        }
        if want.is_object || self.is_object(id) {
            return self.kept(id, symbol, want);
        }
        Ok(Operand::Plain)
    }

    /// Reads a variable that is there after the call, too.
    fn kept(&mut self, id: ExpressionId, symbol: Symbol, want: Want) -> Result<Operand, Stop> {
        if self.is_object(id) {
            if let Some(cell) = self.variable_cell(symbol)? {
                return self.read_cell(id, cell);
            }
        }
        self.unknown(id, want)
    }

    /// Returns an object of which nothing is known, or NULL.
    pub(crate) fn unknown(&mut self, id: ExpressionId, want: Want) -> Result<Operand, Stop> {
        let to = self.destination(want)?;
        let words = self.words_of(id)?;
        let event = Event::Copy {
            to,
            from: Source::Unknown,
        };
        self.emit(event, self.place_of(id), Some(words))?;
        self.has_objects = true;
        Ok(Operand::Object(to))
    }

    /// Returns the name that an object goes into.
    pub(crate) fn destination(&mut self, want: Want) -> Result<Local, Stop> {
        match want.into {
            Some(local) if want.is_object => Ok(local),
            _ => self.unnamed(),
        }
    }

    /// Returns the address of a variable or of a static object, or `None` if the operand isn't a name.
    pub(crate) fn address(&mut self, operand: ExpressionId) -> Result<Option<Operand>, Stop> {
        if let Some(local) = self.element(operand) {
            return Ok(Some(Operand::Address(local)));
        }
        let Some(name) = self.name_in(operand) else {
            return Ok(None);
        };
        if self.is_object(operand) {
            let cell = self.variable_cell(name)?;
            self.forget_cell(cell, self.place_of(operand))?;
        }
        let Some(variable) = self.variable(name) else {
            if self.is_object(operand) {
                return Ok(Some(Operand::Plain));
            }
            return Ok(Some(Operand::Singleton(self.singleton(name, true)?)));
        };
        // Where its address goes it may be set.
        self.forget(name, self.place_of(operand))?;
        match (variable.kind, variable.local) {
            (Kind::Object, Some(local)) => Ok(Some(Operand::Address(local))),
            (Kind::Plain, Some(local)) => {
                self.copy_signs(local, Operand::Plain, self.place_of(operand))?;
                Ok(Some(Operand::Plain))
            }
            _ => Ok(Some(Operand::Plain)),
        }
    }

    /// Reads a field, an element, or where a pointer points to. `base` is what the pointer has.
    pub(crate) fn memory(
        &mut self,
        id: ExpressionId,
        base: Operand,
        want: Want,
    ) -> Result<Operand, Stop> {
        self.use_base(id, base)?;
        if !want.is_object && !self.is_object(id) {
            return Ok(Operand::Plain);
        }
        match self.cell_at(id, base)? {
            Some(cell) => self.read_cell(id, cell),
            None => self.unknown(id, want),
        }
    }

    /// Uses the object whose field is read or set.
    pub(crate) fn use_base(&mut self, id: ExpressionId, base: Operand) -> Result<(), Stop> {
        if let (Some(Expression::Field { .. }), Operand::Object(local)) = (
            self.tree.expression(id),
            base,
        ) {
            self.emit(Event::Use(local), self.place_of(id), None)?;
        }
        Ok(())
    }

    /// Returns an object that everybody knows by name.
    pub(crate) fn singleton(
        &mut self,
        symbol: Symbol,
        is_address: bool,
    ) -> Result<Singleton, Stop> {
        for (at, known) in self.singletons.iter().enumerate() {
            if known.symbol == symbol && known.is_address == is_address {
                return Ok(Singleton(at));
            }
        }
        let found = Singleton(self.singletons.len());
        self.singletons.push(KnownSingleton {
            symbol,
            is_address,
            local: None,
        })?;
        Ok(found)
    }

    /// Returns the name that has a singleton. It has it from the start, since all that count it count one object.
    pub(crate) fn singleton_local(&mut self, singleton: Singleton) -> Result<Option<Local>, Stop> {
        let Some(known) = self.singletons.get(singleton.0).copied() else {
            return Ok(None);
        };
        if known.local.is_some() {
            return Ok(known.local);
        }
        let mut text = String::from_str(self.alloc, if known.is_address { "&" } else { "" })?;
        let name = String::from_utf8_lossy(self.alloc, self.symbols.text(known.symbol))?;
        text.push_str(name.as_str())?;
        let words = self.graph.add_words(text)?;
        let to = self.graph.add_local(LocalName {
            name: Some(words),
            is_parameter: false,
        })?;
        if let Some(found) = self.singletons.get_mut(singleton.0) {
            found.local = Some(to);
        }
        self.begin_with(Event::Copy {
            to,
            from: Source::Singleton(singleton),
        })?;
        Ok(Some(to))
    }

    /// Adds an event to the start of each path.
    pub(crate) fn begin_with(&mut self, event: Event) -> Result<(), Stop> {
        let mut ways = Ways::NONE;
        if let Some(entry) = self.graph.node(NodeId::ENTRY) {
            ways = entry.ways;
        }
        let first = self.graph.add_node(Node {
            event,
            ways,
            place: self.function.place,
            words: None,
        })?;
        self.graph.set_way(NodeId::ENTRY, Choice::Yes, first);
        Ok(())
    }

    /// Gives a name the sign of a number.
    pub(crate) fn copy_signs(
        &mut self,
        to: Local,
        from: Operand,
        place: Place,
    ) -> Result<(), Stop> {
        let source = match from {
            Operand::Counted(local) => Source::Local(local),
            _ => Source::Number(from.signs()),
        };
        self.copy(to, source, place)
    }
}
