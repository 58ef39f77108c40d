//! What kind of function it is, as far as fields and variables outside functions go: what they owe.

use crate::building::Builder;
use crate::names::Kind;
use crate::references::Counting;
use crate::usage::is_freeing;
use brc_c_store::Owes;
use brc_c_text::Symbol;
use brc_c_tree::{Expression, ExpressionId};
use std::alloc::AllocError;

/// What kind of function it is.
#[derive(Clone, Copy)]
pub(crate) struct Habits {
    /// Whether it speaks of a cell.
    pub(crate) has_cells: bool,
    /// Whether functions of the program call it, whose affair it may be what fields have afterwards, or it begins the
    /// module.
    is_helper: bool,
    /// Whether it may be the one that gives fields their first values.
    is_making: bool,
    /// Whether it gives the memory of objects back.
    is_ending: bool,
    /// Whether it is a deallocator, by its name: what it frees is lent to it.
    pub(crate) is_deallocator: bool,
    /// Whether other threads may have the objects that it works on.
    is_shared: bool,
}

impl Habits {
    pub(crate) const NONE: Habits = Habits {
        has_cells: false,
        is_helper: false,
        is_making: false,
        is_ending: false,
        is_deallocator: false,
        is_shared: false,
    };
}

/// Parts of the names of functions that begin a module.
const BEGINNING: [&[u8]; 4] = [b"PyInit_", b"module_init", b"moduleinit", b"exec"];

/// Parts of the names of functions that make objects.
const MAKING: [&[u8]; 5] = [b"init", b"new", b"create", b"make", b"alloc"];

/// Parts of the names of functions whose objects no other thread has.
const UNSHARED: [&[u8]; 8] = [
    b"PyInit",
    b"init",
    b"exec",
    b"_new",
    b"dealloc",
    b"clear",
    b"traverse",
    b"finalize",
];

impl<'a> Builder<'a> {
    /// Finds what kind of function it is, and which fields it sets.
    pub(crate) fn find_habits(&mut self) -> Result<(), AllocError> {
        let symbols = self.symbols;
        let name = symbols.text(self.function.name);
        let frees = self.frees();
        let is_deallocator = has_part(name, b"dealloc");
        let is_beginning = has_part_of(name, &BEGINNING);
        let is_called = self.usage.is_called(self.function.name);
        let is_helper = !self.function.is_static || is_beginning || is_called;
        self.habits = Habits {
            has_cells: self.speaks_of_cells(),
            is_helper,
            is_making: has_part_of(name, &MAKING),
            is_ending: frees || is_deallocator,
            is_deallocator,
            is_shared: !frees && !has_part_of(name, &UNSHARED) && !is_helper,
        };
        let tree = self.tree;
        for (expression, _) in tree.expressions() {
            if let Some(field) = self.field_set_by(*expression) {
                self.set_fields.insert(field)?;
            }
        }
        Ok(())
    }

    fn frees(&self) -> bool {
        for (expression, _) in self.tree.expressions() {
            if let Expression::Name(name) | Expression::Field { name, .. } = *expression {
                if is_freeing(self.symbols.text(name)) {
                    return true;
                }
            }
        }
        false
    }

    fn speaks_of_cells(&self) -> bool {
        for (at, (expression, _)) in self.tree.expressions().iter().enumerate() {
            let is_cell = match *expression {
                Expression::Field { .. } => true,
                Expression::Name(name) => match self.variable(name) {
                    Some(variable) => variable.kind == Kind::Static,
                    None => self.types.variable(name).is_some(),
                },
                _ => false,
            };
            if is_cell && self.has_object_at(at) {
                return true;
            }
        }
        false
    }

    /// Returns the field that an expression sets, by an assignment or by `Py_CLEAR` and its like.
    fn field_set_by(&self, expression: Expression) -> Option<Symbol> {
        match expression {
            Expression::Assign { left, .. } => self.field_in(left),
            Expression::Call {
                function,
                arguments,
            } => {
                let Some(Expression::Name(name)) = self.tree.expression(function) else {
                    return None;
                };
                if !Counting::of(self.symbols.text(name))?.replaces() {
                    return None;
                }
                self.field_in(*self.tree.operands(arguments).first()?)
            }
            _ => None,
        }
    }

    fn field_in(&self, id: ExpressionId) -> Option<Symbol> {
        match self.tree.expression(self.without_casts(id))? {
            Expression::Field { name, .. } => Some(name),
            _ => None,
        }
    }

    /// Returns what a field of an object owes.
    pub(crate) fn owed_by_field(&self, name: Symbol) -> Owes {
        let owns = !self.habits.is_helper && !self.usage.owns_nothing(name);
        Owes {
            old: owns && !self.habits.is_making,
            alive: owns && !self.habits.is_ending,
            owned: owns && !self.habits.is_deallocator,
            section: owns && self.habits.is_shared && self.set_fields.contains(&name),
            is_assumed: false,
            is_steady: self.usage.is_steady(name) && !self.set_fields.contains(&name),
        }
    }

    /// Returns what a variable owes that is there after the call, too.
    pub(crate) fn owed_by_variable(&self, name: Symbol) -> Owes {
        let is_static = self.variable(name).is_some();
        let owns = !self.habits.is_helper && self.usage.is_released(name);
        Owes {
            old: owns && !is_static,
            alive: owns,
            owned: owns,
            section: false,
            is_assumed: false,
            is_steady: false,
        }
    }
}

/// Returns whether a function of this name gives fields their first values, or their last. A slot that clears has one
/// parameter: with more it may be a method, which runs at any time.
pub(crate) fn begins_or_ends(name: &[u8], parameters: usize) -> bool {
    if has_part(name, b"clear") && parameters != 1 {
        return false;
    }
    has_part_of(name, &MAKING) || has_part_of(name, &UNSHARED)
}

fn has_part_of(text: &[u8], parts: &[&[u8]]) -> bool {
    for part in parts {
        if has_part(text, part) {
            return true;
        }
    }
    false
}

/// Returns whether a text has this part.
fn has_part(text: &[u8], part: &[u8]) -> bool {
    let mut rest = text;
    for _byte in 0..text.len() {
        if rest.starts_with(part) {
            return true;
        }
        let [_, others @ ..] = rest else {
            return false;
        };
        rest = others;
    }
    false
}
