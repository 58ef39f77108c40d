//! Arrays of which a function gives elements up: from its body nobody knows which of them.

use crate::building::Builder;
use crate::callee::Callee;
use crate::operand::Site;
use crate::references::Counting;
use crate::stop::Stop;
use brc_c_store::Event;
use brc_c_text::{Symbol, Symbols};
use brc_c_tree::{Expression, ExpressionId, Statement, Tree, Unary};
use std::alloc::{AllocError, Global};
use std::collections::HashSet;

/// How many casts of one expression are passed.
const CAST_LIMIT: usize = 64;

/// What a call does with the references of elements.
#[derive(Clone, Copy)]
enum Done {
    Nothing,
    Made,
    GivenUp,
}

/// Returns whether a function gives up references that elements of an array have, and makes none to them itself.
pub(crate) fn gives_elements(
    alloc: Global,
    symbols: &Symbols,
    tree: &Tree,
    array: Symbol,
) -> Result<bool, AllocError> {
    let names = names_of_elements(alloc, tree, array)?;
    let mut gives = false;
    for (expression, _) in tree.expressions() {
        match done_by(symbols, tree, *expression, array, &names) {
            Done::Nothing => {}
            Done::Made => return Ok(false),
            Done::GivenUp => gives = true,
        }
    }
    Ok(gives)
}

/// Returns whether an array is passed to a function that gives elements up of what it gets there.
pub(crate) fn is_passed_on(tree: &Tree, givers: &HashSet<(Symbol, usize)>, array: Symbol) -> bool {
    for (expression, _) in tree.expressions() {
        if let Expression::Call {
            function,
            arguments,
        } = *expression
        {
            if let Some(Expression::Name(called)) = tree.expression(function) {
                for (at, id) in tree.operands(arguments).iter().enumerate() {
                    if name_at(tree, *id) == Some(array) && givers.contains(&(called, at)) {
                        return true;
                    }
                }
            }
        }
    }
    false
}

/// Returns the variables that get elements of an array.
fn names_of_elements(
    alloc: Global,
    tree: &Tree,
    array: Symbol,
) -> Result<HashSet<Symbol>, AllocError> {
    let mut names = HashSet::new(alloc);
    for (expression, _) in tree.expressions() {
        if let Expression::Assign {
            operator: None,
            left,
            right,
        } = *expression
        {
            if let (true, Some(name)) = (is_of(tree, right, array), name_at(tree, left)) {
                names.insert(name)?;
            }
        }
    }
    for (statement, _) in tree.statements() {
        if let Statement::Declare(list) = statement {
            for declared in tree.declarations(*list) {
                if let Some(value) = declared.value {
                    if is_of(tree, value, array) {
                        names.insert(declared.name)?;
                    }
                }
            }
        }
    }
    Ok(names)
}

fn done_by(
    symbols: &Symbols,
    tree: &Tree,
    expression: Expression,
    array: Symbol,
    names: &HashSet<Symbol>,
) -> Done {
    let Expression::Call {
        function,
        arguments,
    } = expression
    else {
        return Done::Nothing;
    };
    let Some(Expression::Name(called)) = tree.expression(function) else {
        return Done::Nothing;
    };
    let text = symbols.text(called);
    let ids = tree.operands(arguments);
    let (meant, done) = match Counting::of(text) {
        Some(counting) if counting.gives_up() => (ids.first(), Done::GivenUp),
        Some(_) => (ids.first(), Done::Made),
        None if steals_last(text) => (ids.last(), Done::GivenUp),
        None => return Done::Nothing,
    };
    let is_meant = match meant {
        Some(id) => {
            is_of(tree, *id, array)
                || match name_at(tree, *id) {
                    Some(name) => names.contains(&name),
                    None => false,
                }
        }
        None => false,
    };
    if is_meant { done } else { Done::Nothing }
}

/// Returns whether an expression is an element of an array, or what a pointer to its elements points to.
fn is_of(tree: &Tree, id: ExpressionId, array: Symbol) -> bool {
    let place = match tree.expression(without_casts(tree, id)) {
        Some(Expression::Index { array, .. }) => array,
        Some(
            Expression::Unary {
                operator: Unary::Dereference,
                operand,
            },
        ) => {
            match tree.expression(without_casts(tree, operand)) {
                Some(Expression::Step { operand, .. }) => operand,
                _ => return false,
            }
        }
        _ => return false,
    };
    name_at(tree, place) == Some(array)
}

fn name_at(tree: &Tree, id: ExpressionId) -> Option<Symbol> {
    match tree.expression(without_casts(tree, id))? {
        Expression::Name(name) => Some(name),
        _ => None,
    }
}

fn without_casts(tree: &Tree, id: ExpressionId) -> ExpressionId {
    let mut found = id;
    for _turn in 0..CAST_LIMIT {
        match tree.expression(found) {
            Some(Expression::Cast { operand, .. }) => found = operand,
            _ => break,
        }
    }
    found
}

/// The functions of the C API that steal their last argument.
const STEALING: [&[u8]; 4] = [
    b"PyTuple_SET_ITEM",
    b"PyList_SET_ITEM",
    b"PyTuple_SetItem",
    b"PyList_SetItem",
];

fn steals_last(name: &[u8]) -> bool {
    STEALING.contains(&name)
}

impl<'a> Builder<'a> {
    /// Returns whether the function gives elements of this parameter up, which its callers may know.
    pub(crate) fn gives_elements_of(&self, parameter: Symbol) -> bool {
        let name = self.function.name;
        match self.parameter_number(parameter) {
            Some(number) => {
                self.usage.is_called(name) && self.usage.gives_elements(name, number)
            }
            None => false,
        }
    }

    /// Adds that a function of the program may give up the elements of an array that it gets.
    pub(crate) fn stow_elements(
        &mut self,
        callee: Callee<'a>,
        ids: &[ExpressionId],
        site: Site,
    ) -> Result<(), Stop> {
        let Some(called) = self.called_symbol(site.id) else {
            return Ok(());
        };
        if callee.own.is_none() {
            return Ok(());
        }
        for (number, id) in ids.iter().enumerate() {
            if self.usage.gives_elements(called, number) {
                self.stow_elements_of(*id, site)?;
            }
        }
        Ok(())
    }

    fn stow_elements_of(&mut self, id: ExpressionId, site: Site) -> Result<(), Stop> {
        let Some(array) = self.array_passed(id) else {
            return Ok(());
        };
        let words = self.words_of(id)?;
        self.assume(words)?;
        for local in self.elements_of(array)?.iter() {
            self.at_site(Event::Stow(*local), site)?;
        }
        Ok(())
    }

    /// Returns the array that an argument is, or the one to an element of which it points.
    fn array_passed(&self, id: ExpressionId) -> Option<Symbol> {
        if let Some(
            Expression::Unary {
                operator: Unary::Address,
                operand,
            },
        ) = self.tree.expression(self.without_casts(id))
        {
            return match self.tree.expression(self.without_casts(operand)) {
                Some(Expression::Index { array, .. }) => self.array_in(array),
                _ => None,
            };
        }
        self.array_in(id)
    }
}
