//! Conditions: which variables they ask for, and which of them are asked twice in the same words.

use crate::building::Builder;
use crate::constants::{is_identifier_byte, is_plain_singleton};
use crate::names::Kind;
use crate::passing::{letter, may_be_null};
use crate::references::Counting;
use crate::stop::Stop;
use brc_c_store::{Event, Fact, Field};
use brc_c_table::Fails;
use brc_c_text::{Place, Symbol};
use brc_c_tree::{Binary, Expression, ExpressionId, List, Statement, Unary};
use std::alloc::AllocError;

/// How many copies of a value are followed, one after another.
const COPY_ROUNDS: usize = 2;

/// A condition in words.
#[derive(Drop)]
pub(crate) struct KnownCondition {
    text: String,
    is_asked_twice: bool,
    /// Whether a call may change it.
    reads_memory: bool,
}

impl<'a> Builder<'a> {
    /// Finds what is asked for.
    pub(crate) fn find_conditions(&mut self) -> Result<(), AllocError> {
        let asked = self.asked()?;
        for id in &asked {
            self.find_tested(*id)?;
        }
        for (expression, _) in self.tree.expressions() {
            if let Expression::Call {
                function,
                arguments,
            } = *expression
            {
                self.find_tested_arguments(function, arguments)?;
            }
        }
        self.find_tested_copies()?;
        for id in &asked {
            self.find_condition(*id)?;
        }
        self.find_settled()
    }

    /// Returns the expressions at which paths divide, and those that are made of such.
    fn asked(&self) -> Result<Vec<ExpressionId>, AllocError> {
        let mut asked = Vec::new(self.alloc);
        for (statement, _) in self.tree.statements() {
            match *statement {
                Statement::If { condition, .. }
                | Statement::While { condition, .. }
                | Statement::DoWhile { condition, .. }
                | Statement::For {
                    condition: Some(condition),
                    ..
                }
                | Statement::Switch {
                    value: condition,
                    ..
                } => asked.push(condition)?,
                _ => {}
            }
        }
        for (expression, _) in self.tree.expressions() {
            match *expression {
                Expression::Binary {
                    operator: Binary::And | Binary::Or,
                    left,
                    right,
                } => {
                    asked.push(left)?;
                    asked.push(right)?;
                }
                Expression::Unary {
                    operator: Unary::Not,
                    operand,
                } => asked.push(operand)?,
                Expression::Conditional { condition, .. } => asked.push(condition)?,
                _ => {}
            }
        }
        Ok(asked)
    }

    /// Notes the variables that a condition asks for.
    fn find_tested(&mut self, id: ExpressionId) -> Result<(), AllocError> {
        let id = self.without_casts(id);
        match self.tree.expression(id) {
            Some(
                Expression::Binary {
                    operator,
                    left,
                    right,
                },
            ) if is_comparison(operator) => {
                self.find_tested_side(left)?;
                self.find_tested_side(right)
            }
            Some(Expression::Comma { right, .. }) => self.find_tested_side(right),
            _ => self.find_tested_side(id),
        }
    }

    /// Notes the variables of numbers whose values go into others that are asked for.
    fn find_tested_copies(&mut self) -> Result<(), AllocError> {
        let tree = self.tree;
        for _round in 0..COPY_ROUNDS {
            for (expression, _) in tree.expressions() {
                if let Expression::Assign {
                    operator: None,
                    left,
                    right,
                } = *expression
                {
                    self.find_tested_copy(self.name_in(left), right)?;
                }
            }
            for (statement, _) in tree.statements() {
                if let Statement::Declare(list) = statement {
                    for declared in tree.declarations(*list) {
                        if let Some(value) = declared.value {
                            self.find_tested_copy(Some(declared.name), value)?;
                        }
                    }
                }
            }
        }
        Ok(())
    }

    fn find_tested_copy(
        &mut self,
        to: Option<Symbol>,
        value: ExpressionId,
    ) -> Result<(), AllocError> {
        if let (Some(to), Some(from)) = (to, self.name_in(value)) {
            let are_numbers = self.kind(to) == Some(Kind::Plain)
                && self.kind(from) == Some(Kind::Plain);
            if are_numbers && self.tested.contains(&to) {
                self.tested.insert(from)?;
            }
        }
        Ok(())
    }

    /// Notes a variable that is asked for.
    pub(crate) fn find_tested_side(&mut self, id: ExpressionId) -> Result<(), AllocError> {
        let id = self.without_casts(id);
        let name = match self.tree.expression(id) {
            Some(Expression::Assign { left, .. }) => self.name_in(left),
            _ => self.name_in(id),
        };
        if let Some(name) = name {
            self.tested.insert(name)?;
        }
        Ok(())
    }

    /// Notes the variables that are passed where NULL serves too.
    fn find_tested_arguments(
        &mut self,
        function: ExpressionId,
        arguments: List,
    ) -> Result<(), AllocError> {
        let Some(Expression::Name(called)) = self.tree.expression(function) else {
            return Ok(());
        };
        let name = self.symbols.text(called);
        let asks = match Counting::of(name) {
            Some(counting) => counting.may_be_null(),
            None => false,
        };
        let tables = self.tables;
        // A call that can't fail for NULL doesn't show that somebody thought of it.
        let takes = match tables.row(name) {
            Some(row) if row.fails != Fails::Never => row.takes.as_slice(),
            _ => &[],
        };
        let tree = self.tree;
        for (at, argument) in tree.operands(arguments).iter().enumerate() {
            if asks || may_be_null(letter(takes, at)) || self.is_zero_passed(called, at) {
                self.find_tested_side(*argument)?;
            }
        }
        Ok(())
    }

    /// Notes a condition's words.
    fn find_condition(&mut self, id: ExpressionId) -> Result<(), AllocError> {
        let id = self.without_casts(id);
        if !self.is_free(id) || self.find_order(id)? {
            return Ok(());
        }
        let text = self.text_of(id)?;
        for known in self.conditions.iter_mut() {
            if known.text.as_str() == text.as_str() {
                known.is_asked_twice = true;
                return Ok(());
            }
        }
        let reads_memory = self.traits_of(id).reads_memory;
        self.conditions.push(KnownCondition {
            text,
            is_asked_twice: false,
            reads_memory,
        })?;
        Ok(())
    }

    /// Returns whether nothing is known of a condition but its words.
    fn is_free(&self, id: ExpressionId) -> bool {
        if !self.traits_of(id).is_pure {
            return false;
        }
        match self.tree.expression(id) {
            Some(
                Expression::Binary {
                    operator,
                    left,
                    right,
                },
            ) => {
                if !is_comparison(operator) {
                    return operator != Binary::And && operator != Binary::Or;
                }
                let is_counted = (self.is_counted(left) && self.is_constant(right))
                    || (self.is_counted(right) && self.is_constant(left));
                let asks_singleton = self.is_singleton(left) || self.is_singleton(right);
                let asks_stream = self.is_stream(left) || self.is_stream(right);
                asks_singleton
                    || asks_stream
                    || (!is_counted && !self.is_object(left) && !self.is_object(right))
            }
            Some(
                Expression::Unary {
                    operator: Unary::Not,
                    ..
                },
            ) => false,
            _ => !self.is_counted(id) && !self.is_object(id),
        }
    }

    /// Returns whether an expression is a variable whose sign is followed.
    fn is_counted(&self, id: ExpressionId) -> bool {
        match self.name_in(id) {
            Some(name) => self.kind(name) == Some(Kind::Plain) && self.tested.contains(&name),
            None => false,
        }
    }

    fn is_constant(&self, id: ExpressionId) -> bool {
        self.constant_in(id).is_some()
    }

    fn is_singleton(&self, id: ExpressionId) -> bool {
        match self.name_in(id) {
            Some(name) => is_plain_singleton(self.symbols.text(name)),
            None => false,
        }
    }

    /// Returns what is known of a condition by its words.
    pub(crate) fn fact_of(&self, id: ExpressionId) -> Result<Option<Fact>, AllocError> {
        let id = self.without_casts(id);
        if !self.traits_of(id).is_pure {
            return Ok(None);
        }
        let text = self.text_of(id)?;
        Ok(self.asked_fact(text.as_str()))
    }

    /// Returns the condition in these words, if it is asked twice.
    fn asked_fact(&self, text: &str) -> Option<Fact> {
        for (at, known) in self.conditions.iter().enumerate() {
            if known.is_asked_twice && known.text.as_str() == text {
                return Some(Fact(at));
            }
        }
        None
    }

    /// A variable or a field of this name is assigned: what was found for conditions with the name holds no more.
    pub(crate) fn forget(&mut self, name: Symbol, place: Place) -> Result<(), Stop> {
        for at in 0..self.conditions.len() {
            if self.speaks_of(at, name) {
                self.emit(Event::Forget(Fact(at)), place, None)?;
            }
        }
        self.forget_orders(name, place)?;
        self.drop_plain_cells(name, place)?;
        self.lend_anew(name, place)
    }

    /// Cells whose words have the name may be other ones.
    fn drop_plain_cells(&mut self, name: Symbol, place: Place) -> Result<(), Stop> {
        for at in 0..self.plain_cells.len() {
            if let Some(field) = self.plain_cell_with(at, name) {
                self.emit(Event::DropCells(field), place, None)?;
            }
        }
        Ok(())
    }

    fn plain_cell_with(&self, at: usize, name: Symbol) -> Option<Field> {
        let (text, field) = self.plain_cell_by(at)?;
        if mentions(text.as_bytes(), self.symbols.text(name)) {
            Some(field)
        } else {
            None
        }
    }

    fn speaks_of(&self, at: usize, name: Symbol) -> bool {
        match self.conditions.get(at) {
            Some(known) => {
                known.is_asked_twice
                    && mentions(known.text.as_str().as_bytes(), self.symbols.text(name))
            }
            None => false,
        }
    }

    /// Another function may set what conditions and cells have.
    pub(crate) fn forget_memory(&mut self, place: Place) -> Result<(), Stop> {
        for at in 0..self.conditions.len() {
            let is_open = match self.conditions.get(at) {
                Some(known) => known.is_asked_twice && known.reads_memory,
                None => false,
            };
            if is_open {
                self.emit(Event::Forget(Fact(at)), place, None)?;
            }
        }
        self.forget_orders_in_memory(place)?;
        self.hand_back(true, place)
    }
}

/// Returns whether a text has a name, and not only as a part of a longer one.
pub(crate) fn mentions(text: &[u8], name: &[u8]) -> bool {
    let mut rest = text;
    let mut is_inside = false;
    for _byte in 0..text.len() {
        if !is_inside && begins_with(rest, name) {
            return true;
        }
        let [first, others @ ..] = rest else {
            return false;
        };
        is_inside = is_identifier_byte(*first);
        rest = others;
    }
    false
}

/// Returns whether a text begins with this whole name.
fn begins_with(text: &[u8], name: &[u8]) -> bool {
    if !text.starts_with(name) {
        return false;
    }
    match text.get(name.len()) {
        Some(next) => !is_identifier_byte(*next),
        None => true,
    }
}

pub(crate) fn is_comparison(operator: Binary) -> bool {
    matches!(
        operator,
        Binary::Equal
            | Binary::NotEqual
            | Binary::Less
            | Binary::LessEqual
            | Binary::Greater
            | Binary::GreaterEqual
    )
}
