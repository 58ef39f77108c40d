//! What the functions of a source do with fields, with variables outside them, and with each other.

use crate::arrays::{gives_elements, is_passed_on};
use crate::habits::begins_or_ends;
use crate::storing::{field_at, replaced, stores_null};
use crate::zeros::zero_for_zero;
use brc_c_text::{Symbol, Symbols};
use brc_c_tree::{Body, Expression, ExpressionId, Function, SourceTree, Statement, Tree, Unary};
use std::alloc::{AllocError, Global};
use std::collections::HashSet;

/// Through how many functions an array is followed whose elements the last one gives up.
const PASSING_ROUNDS: usize = 3;

/// What is known of a source beside its declarations.
#[derive(Drop)]
pub struct Usage {
    /// The fields and variables whose references some function gives up.
    pub(crate) released: HashSet<Symbol>,
    /// The functions that are called by their names.
    called: HashSet<Symbol>,
    /// The functions that call nothing, and set nothing but variables of their own.
    idle: HashSet<Symbol>,
    /// Functions, each with a field in which it stores something else than NULL, and with one where it stores NULL.
    setters: HashSet<(Symbol, Symbol)>,
    clearers: HashSet<(Symbol, Symbol)>,
    /// Functions, each with a field that it reads or sets.
    speakers: HashSet<(Symbol, Symbol)>,
    /// Functions, each with the number of an argument, an array of which it gives elements up.
    element_givers: HashSet<(Symbol, usize)>,
    /// The fields that some function sets, and those that one sets which neither makes objects nor ends them.
    set: HashSet<Symbol>,
    set_late: HashSet<Symbol>,
    /// Functions, each with the number of an argument: where that is 0, the function gives 0 at once.
    zeros: HashSet<(Symbol, usize)>,
    /// Whether some function gives the memory of objects back.
    frees: bool,
}

impl Usage {
    /// Returns what the functions of a source do.
    pub fn of(alloc: Global, symbols: &Symbols, source: &SourceTree) -> Result<Usage, AllocError> {
        let mut usage = Usage {
            released: HashSet::new(alloc),
            called: HashSet::new(alloc),
            idle: HashSet::new(alloc),
            setters: HashSet::new(alloc),
            clearers: HashSet::new(alloc),
            speakers: HashSet::new(alloc),
            element_givers: HashSet::new(alloc),
            set: HashSet::new(alloc),
            set_late: HashSet::new(alloc),
            zeros: HashSet::new(alloc),
            frees: false,
        };
        for function in source.functions.iter() {
            if let Body::Read(tree, whole) = &function.body {
                usage.add_calls(symbols, tree)?;
                if let Some(argument) = zero_for_zero(symbols, function, tree, *whole) {
                    usage.zeros.insert((function.name, argument))?;
                }
                usage.add_releases(alloc, symbols, function, tree)?;
                usage.add_set(symbols, function, tree)?;
                usage.add_given(alloc, symbols, function, tree)?;
                if is_idle(alloc, function, tree)? {
                    usage.idle.insert(function.name)?;
                }
            }
        }
        for _round in 0..PASSING_ROUNDS {
            usage.add_passed(source)?;
        }
        Ok(usage)
    }

    /// Returns whether nobody gives up what a field of this name has, so that it seems to own nothing.
    pub(crate) fn owns_nothing(&self, field: Symbol) -> bool {
        self.frees && !self.is_released(field)
    }

    pub(crate) fn is_released(&self, name: Symbol) -> bool {
        self.released.contains(&name)
    }

    pub(crate) fn is_called(&self, function: Symbol) -> bool {
        self.called.contains(&function)
    }

    pub(crate) fn is_idle(&self, function: Symbol) -> bool {
        self.idle.contains(&function)
    }

    /// Returns whether a function stores something else than NULL in a field of this name.
    pub(crate) fn sets(&self, function: Symbol, field: Symbol) -> bool {
        self.setters.contains(&(function, field))
    }

    /// Returns whether a function stores NULL in a field of this name.
    pub(crate) fn clears(&self, function: Symbol, field: Symbol) -> bool {
        self.clearers.contains(&(function, field))
    }

    /// Returns whether a function may go by what a field of this name has: it speaks of it, and doesn't clear it.
    pub(crate) fn goes_by(&self, function: Symbol, field: Symbol) -> bool {
        self.speakers.contains(&(function, field)) && !self.clears(function, field)
    }

    /// Returns whether a function gives up elements of an array that is its argument of this number, from 0.
    pub(crate) fn gives_elements(&self, function: Symbol, argument: usize) -> bool {
        self.element_givers.contains(&(function, argument))
    }

    /// Returns whether a function gives 0, and does nothing else, where its argument of this number is 0.
    pub(crate) fn gives_zero(&self, function: Symbol, argument: usize) -> bool {
        self.zeros.contains(&(function, argument))
    }

    /// Returns whether a field of this name has what it had when its object was made, as long as the object lives.
    pub(crate) fn is_steady(&self, field: Symbol) -> bool {
        let is_known = self.set.contains(&field) || self.is_released(field);
        is_known && !self.set_late.contains(&field)
    }

    /// Adds the fields that a function sets, or whose address it takes.
    fn add_set(
        &mut self,
        symbols: &Symbols,
        function: &Function,
        tree: &Tree,
    ) -> Result<(), AllocError> {
        let setter = function.name;
        let is_late = !begins_or_ends(symbols.text(setter), function.parameters.len());
        for (expression, _) in tree.expressions() {
            let target = match *expression {
                Expression::Assign { left, .. } => Some(left),
                Expression::Step { operand, .. }
                | Expression::Unary {
                    operator: Unary::Address,
                    operand,
                } => Some(operand),
                Expression::Call {
                    function,
                    arguments,
                } => replaced(symbols, tree, function, arguments),
                _ => None,
            };
            if let Expression::Field { name, .. } = *expression {
                self.speakers.insert((setter, name))?;
            }
            if let Some(field) = field_at(tree, target) {
                if stores_null(symbols, tree, *expression) {
                    self.clearers.insert((setter, field))?;
                } else {
                    self.setters.insert((setter, field))?;
                }
                self.set.insert(field)?;
                if is_late {
                    self.set_late.insert(field)?;
                }
            }
        }
        Ok(())
    }

    /// Adds the arguments that are pointers to pointers, if the function gives up what is there.
    fn add_given(
        &mut self,
        alloc: Global,
        symbols: &Symbols,
        function: &Function,
        tree: &Tree,
    ) -> Result<(), AllocError> {
        for (number, parameter) in function.parameters.iter().enumerate() {
            if let (true, Some(name)) = (parameter.type_name.stars > 1, parameter.name) {
                if gives_elements(alloc, symbols, tree, name)? {
                    self.element_givers.insert((function.name, number))?;
                }
            }
        }
        Ok(())
    }

    /// Adds the arguments that a function passes to another one, which gives up what is there.
    fn add_passed(&mut self, source: &SourceTree) -> Result<(), AllocError> {
        for function in source.functions.iter() {
            if let Body::Read(tree, _) = &function.body {
                for (number, parameter) in function.parameters.iter().enumerate() {
                    if let (true, Some(name)) = (parameter.type_name.stars > 1, parameter.name) {
                        if is_passed_on(tree, &self.element_givers, name) {
                            self.element_givers.insert((function.name, number))?;
                        }
                    }
                }
            }
        }
        Ok(())
    }

    fn add_calls(&mut self, symbols: &Symbols, tree: &Tree) -> Result<(), AllocError> {
        for (expression, _) in tree.expressions() {
            if let Expression::Call { function, .. } = *expression {
                self.add_call(symbols, tree, function)?;
            }
        }
        Ok(())
    }

    fn add_call(
        &mut self,
        symbols: &Symbols,
        tree: &Tree,
        function: ExpressionId,
    ) -> Result<(), AllocError> {
        match tree.expression(function) {
            Some(Expression::Name(name)) => {
                self.called.insert(name)?;
                let text = symbols.text(name);
                self.frees = self.frees || is_freeing(text);
            }
            Some(Expression::Field { name, .. }) => {
                self.frees = self.frees || is_freeing(symbols.text(name));
            }
            _ => {}
        }
        Ok(())
    }
}

/// Returns whether a function calls nothing, and sets nothing but variables of its own.
fn is_idle(alloc: Global, function: &Function, tree: &Tree) -> Result<bool, AllocError> {
    let own = own_variables(alloc, function, tree)?;
    for (expression, _) in tree.expressions() {
        let set = match *expression {
            Expression::Call { .. } => return Ok(false),
            Expression::Assign { left, .. } => left,
            Expression::Step { operand, .. } => operand,
            _ => continue,
        };
        match tree.expression(set) {
            Some(Expression::Name(name)) if own.contains(&name) => {}
            _ => return Ok(false),
        }
    }
    Ok(true)
}

/// Returns the names of a function's parameters and variables.
pub(crate) fn own_variables(
    alloc: Global,
    function: &Function,
    tree: &Tree,
) -> Result<HashSet<Symbol>, AllocError> {
    let mut own = HashSet::new(alloc);
    for parameter in function.parameters.iter() {
        if let Some(name) = parameter.name {
            own.insert(name)?;
        }
    }
    for (statement, _) in tree.statements() {
        if let Statement::Declare(list) = statement {
            for declared in tree.declarations(*list) {
                if !declared.is_static {
                    own.insert(declared.name)?;
                }
            }
        }
    }
    Ok(own)
}

/// The functions that give the memory of an object back.
const FREEING: [&[u8]; 6] = [
    b"tp_free",
    b"PyObject_Del",
    b"PyObject_DEL",
    b"PyObject_GC_Del",
    b"PyObject_Free",
    b"PyObject_FREE",
];

pub(crate) fn is_freeing(name: &[u8]) -> bool {
    FREEING.contains(&name)
}
