//! Elements of arrays that are followed: of a variable whose indices are constants, and of the caller's arrays.

use crate::building::Builder;
use crate::expressions::EXPRESSION_DEPTH;
use crate::facts::mentions;
use crate::names::Kind;
use crate::operand::Want;
use crate::stop::Stop;
use brc_c_graph::LocalName;
use brc_c_store::{Event, Local, Source};
use brc_c_text::{Place, Symbol};
use brc_c_tree::{Declaration, Expression, ExpressionId, Unary};
use std::alloc::AllocError;

/// An element of a variable.
#[derive(Clone, Copy)]
pub(crate) struct Element {
    array: Symbol,
    index: i64,
    local: Local,
}

/// An element of the caller's array, in words. The caller lends it.
#[derive(Drop)]
pub(crate) struct LentElement {
    text: String,
    local: Local,
}

impl<'a> Builder<'a> {
    /// Gives names to the elements of variables of which each index is a constant.
    pub(crate) fn find_elements(&mut self) -> Result<(), Stop> {
        let tree = self.tree;
        for (expression, _) in tree.expressions() {
            if let Some(array) = self.mixed_by(*expression) {
                self.mixed.insert(array)?;
            }
        }
        for (expression, _) in tree.expressions() {
            if let Expression::Index { array, index } = *expression {
                let index = self.constant_in(index);
                if let (Some(array), Some(index)) = (self.array_in(array), index) {
                    self.add_element(array, index)?;
                }
            }
        }
        Ok(())
    }

    /// Returns the variable whose elements can't be followed: it has an index that is no constant, or is assigned.
    fn mixed_by(&self, expression: Expression) -> Option<Symbol> {
        match expression {
            Expression::Index { array, index } if self.constant_in(index).is_none() => {
                self.array_in(array)
            }
            Expression::Assign { left, .. } => self.name_in(left),
            _ => None,
        }
    }

    /// Returns the variable that is an array of objects.
    pub(crate) fn array_in(&self, id: ExpressionId) -> Option<Symbol> {
        let name = self.name_in(id)?;
        if self.kind(name) == Some(Kind::Array) {
            Some(name)
        } else {
            None
        }
    }

    fn add_element(&mut self, array: Symbol, index: i64) -> Result<(), Stop> {
        if self.mixed.contains(&array) || self.known_element(array, index).is_some() {
            return Ok(());
        }
        let name = String::from_utf8_lossy(self.alloc, self.symbols.text(array))?;
        let words = self
            .graph
            .add_words(format!(in self.alloc; "{name}[{index}]")?)?;
        let local = self.graph.add_local(LocalName {
            name: Some(words),
            is_parameter: false,
        })?;
        self.has_objects = true;
        self.elements.push(Element {
            array,
            index,
            local,
        })?;
        Ok(())
    }

    /// Returns the names of the elements of an array that are followed.
    pub(crate) fn elements_of(&self, array: Symbol) -> Result<Vec<Local>, AllocError> {
        let mut names = Vec::new(self.alloc);
        for element in self.elements.iter() {
            if element.array == array {
                names.push(element.local)?;
            }
        }
        Ok(names)
    }

    fn known_element(&self, array: Symbol, index: i64) -> Option<Local> {
        for element in self.elements.iter() {
            if element.array == array && element.index == index {
                return Some(element.local);
            }
        }
        None
    }

    /// Returns the name of an element that is followed.
    pub(crate) fn element(&self, id: ExpressionId) -> Option<Local> {
        match self.tree.expression(self.without_casts(id))? {
            Expression::Index { array, index } => {
                let index = self.constant_in(index)?;
                match self.out_passed(array) {
                    Some(local) if index == 0 => Some(local),
                    _ => self.known_element(self.array_in(array)?, index),
                }
            }
            Expression::Unary {
                operator: Unary::Dereference,
                operand,
            } => self.out_passed(operand),
            _ => None,
        }
    }

    /// Begins the elements of an array.
    pub(crate) fn begin_elements(&mut self, declared: &Declaration) -> Result<(), Stop> {
        let tree = self.tree;
        let mut from = Source::Nothing;
        if let Some(value) = declared.value {
            from = Source::Unknown;
            if let Some(Expression::Values(list)) = tree.expression(value) {
                from = Source::Null;
                for (at, value) in tree.operands(list).iter().enumerate() {
                    let index = i64::try_from(at).unwrap_or(i64::MAX);
                    self.begin_element(declared, index, *value)?;
                }
            }
        }
        let given = self.given_elements(declared);
        for at in 0..self.elements.len() {
            if let Some(element) = self.elements.get(at).copied() {
                if element.array == declared.name && element.index >= given {
                    self.copy(element.local, from, declared.place)?;
                }
            }
        }
        Ok(())
    }

    /// Returns how many elements a declaration gives a value.
    fn given_elements(&self, declared: &Declaration) -> i64 {
        match declared.value {
            Some(value) => match self.tree.expression(value) {
                Some(Expression::Values(list)) => i64::try_from(list.len()).unwrap_or(i64::MAX),
                _ => 0,
            },
            None => 0,
        }
    }

    fn begin_element(
        &mut self,
        declared: &Declaration,
        index: i64,
        value: ExpressionId,
    ) -> Result<(), Stop> {
        match self.known_element(declared.name, index) {
            Some(local) => {
                let want = Want::ASKED_OBJECT.into(local);
                let found = self.value(value, want, EXPRESSION_DEPTH)?;
                self.settle(value, found, want)
            }
            None => {
                let found = self.value(value, Want::ASKED_OBJECT, EXPRESSION_DEPTH)?;
                if self.mixed.contains(&declared.name) {
                    self.stow(value, found, declared.place)?;
                }
                Ok(())
            }
        }
    }

    /// Returns the name of an element of the caller's array, unless something happens while its index is found.
    pub(crate) fn lent_element(&mut self, id: ExpressionId) -> Result<Option<Local>, Stop> {
        if !self.is_lent_element(id) {
            return Ok(None);
        }
        let text = self.text_of(id)?;
        for known in self.lent.iter() {
            if known.text.as_str() == text.as_str() {
                return Ok(Some(known.local));
            }
        }
        let words = self.words_of(id)?;
        let local = self.graph.add_local(LocalName {
            name: Some(words),
            is_parameter: false,
        })?;
        self.lent.push(LentElement { text, local })?;
        self.begin_with(lending(local))?;
        self.has_objects = true;
        Ok(Some(local))
    }

    pub(crate) fn is_lent_element(&self, id: ExpressionId) -> bool {
        let id = self.without_casts(id);
        let Some(Expression::Index { array, .. }) = self.tree.expression(id) else {
            return false;
        };
        let Some(name) = self.name_in(array) else {
            return false;
        };
        match self.variable(name) {
            Some(variable) => {
                variable.kind == Kind::Objects
                    && variable.is_parameter
                    && !self.mixed.contains(&name)
                    && !self.traits_of(id).has_effect
                    && !self.gives_elements_of(name)
            }
            None => false,
        }
    }

    /// Elements whose index has another value are other ones.
    pub(crate) fn lend_anew(&mut self, name: Symbol, place: Place) -> Result<(), Stop> {
        for at in 0..self.lent.len() {
            if let Some(local) = self.lent_by(at, name) {
                self.emit(lending(local), place, None)?;
            }
        }
        Ok(())
    }

    fn lent_by(&self, at: usize, name: Symbol) -> Option<Local> {
        let known = self.lent.get(at)?;
        if mentions(known.text.as_str().as_bytes(), self.symbols.text(name)) {
            Some(known.local)
        } else {
            None
        }
    }
}

fn lending(to: Local) -> Event {
    Event::Lend {
        to,
        lender: None,
        is_optional: false,
    }
}
