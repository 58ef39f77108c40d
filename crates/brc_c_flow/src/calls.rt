//! Calls: what is called, and what its arguments are for.

use crate::asserting::has_word;
use crate::building::{Branches, Builder};
use crate::callee::Callee;
use crate::facts::is_comparison;
use crate::operand::{Operand, Site, Want};
use crate::passing::{Passing, argument_want, passed};
use crate::reasons::FlowReason;
use crate::references::Counting;
use crate::stop::Stop;
use brc_c_graph::{NodeId, Words};
use brc_c_store::{Event, Local};
use brc_c_table::{Gives, Row};
use brc_c_text::Symbol;
use brc_c_tree::{Binary, Expression, ExpressionId, List, Unary};

impl<'a> Builder<'a> {
    /// Adds a call: what happens in its arguments, from left to right, and then what it does itself.
    #[cycle(expression)]
    pub(crate) fn call(
        &mut self,
        id: ExpressionId,
        function: ExpressionId,
        arguments: List,
        want: Want,
        depth: usize,
    ) -> Result<Operand, Stop> {
        let tree = self.tree;
        let ids = tree.operands(arguments);
        let name = self.called_name(function);
        if is_cast(name) {
            if let [only] = ids {
                return self.value(*only, want.of_object(), depth);
            }
        }
        if is_nothing(name, want) {
            return Ok(Operand::Plain);
        }
        self.just_given = None;
        if self.is_assertion(function, ids) {
            return self.assertion(ids, depth);
        }
        if name.is_empty() {
            let base = self.parts(function, depth)?;
            self.use_base(function, base)?;
        }
        let how = self.passings(function, ids)?;
        let mut operands = Vec::new(self.alloc);
        let is_unknown = how.is_empty() && Counting::of(name).is_none();
        for (at, argument) in ids.iter().enumerate() {
            let operand = match self.out_passed(*argument) {
                Some(local) => Operand::Address(local),
                None if is_unknown => self.undecided(*argument, depth)?,
                None => {
                    let want = self.want_of(name, how.as_slice(), at);
                    self.argument(*argument, passed(how.as_slice(), at), want, depth)?
                }
            };
            operands.push(operand)?;
        }
        self.called(id, function, ids, operands.as_slice(), how.as_slice(), want)
    }

    /// Finds the value of an argument of a call of which nothing is known. A condition decides nothing there: paths
    /// don't divide.
    #[cycle(expression)]
    fn undecided(&mut self, id: ExpressionId, depth: usize) -> Result<Operand, Stop> {
        let Some(inside) = depth.checked_sub(1) else {
            return Err(self.stop_at(id, FlowReason::TooDeep));
        };
        match self.tree.expression(id) {
            Some(
                Expression::Binary {
                    operator,
                    left,
                    right,
                },
            ) if is_comparison(operator) => {
                self.value(left, Want::NOTHING, inside)?;
                self.value(right, Want::NOTHING, inside)?;
                Ok(Operand::Plain)
            }
            // Whether the right side is asked depends on the left one.
            Some(
                Expression::Binary {
                    operator: Binary::And | Binary::Or,
                    left,
                    right,
                },
            ) if !self.traits_of(right).has_effect => {
                self.undecided(left, inside)?;
                Ok(Operand::Plain)
            }
            Some(
                Expression::Unary {
                    operator: Unary::Not,
                    operand,
                },
            ) => {
                self.undecided(operand, inside)?;
                Ok(Operand::Plain)
            }
            _ => self.value(id, Want::ASKED, depth),
        }
    }

    /// Returns the name of the function that is called, or no bytes if it isn't called by a name.
    fn called_name(&self, function: ExpressionId) -> &'a [u8] {
        let symbols = self.symbols;
        match self.tree.expression(function) {
            Some(Expression::Name(name)) => symbols.text(name),
            _ => b"",
        }
    }

    /// Returns what is known of what is called: by a table, or else by the function's own body.
    pub(crate) fn callee_of(&self, function: ExpressionId) -> Option<Callee<'a>> {
        let tables = self.tables;
        let symbols = self.symbols;
        let row = match self.tree.expression(self.without_casts(function))? {
            Expression::Name(name) => match tables.row(symbols.text(name)) {
                Some(row) => Some(row),
                None => match self.own_callee(name) {
                    Some(callee) => return Some(callee),
                    None => None,
                },
            },
            Expression::Field { name, .. } => tables.field(symbols.text(name)),
            _ => None,
        };
        let row = match row {
            Some(row) => row,
            None => self.row_of_type(function)?,
        };
        Some(Callee { row, own: None })
    }

    /// Returns what the table says of functions to which a pointer of this type points, as `visitproc`.
    pub(crate) fn row_of_type(&self, function: ExpressionId) -> Option<&'a Row> {
        let tables = self.tables;
        let found = self.type_at(function.index())?;
        if found.stars > 0 {
            return None;
        }
        tables.field(self.symbols.text(found.symbol))
    }

    /// Returns what is known of a function of the program, unless a variable has its name.
    fn own_callee(&self, name: Symbol) -> Option<Callee<'a>> {
        if self.variable(name).is_some() {
            return None;
        }
        let own = self.own.row(name)?;
        Some(Callee {
            row: &own.row,
            own: Some(own),
        })
    }

    /// Returns what an argument of a call is for.
    fn want_of(&self, name: &[u8], how: &[Passing], at: usize) -> Want {
        match Counting::of(name) {
            Some(counting) => Want {
                is_asked: counting.may_be_null(),
                ..Want::OBJECT
            },
            None => argument_want(passed(how, at)),
        }
    }

    /// Adds what a call does whose arguments have these values.
    fn called(
        &mut self,
        id: ExpressionId,
        function: ExpressionId,
        ids: &[ExpressionId],
        operands: &[Operand],
        how: &[Passing],
        want: Want,
    ) -> Result<Operand, Stop> {
        let name = self.called_name(function);
        let site = Site {
            id,
            place: self.place_of(function),
            words: self.callee_words(function)?,
        };
        if let Some(counting) = Counting::of(name) {
            return self.count(counting, ids, operands, site);
        }
        if is_end(name) {
            self.end(Event::Halt, site.place)?;
            return Ok(Operand::Plain);
        }
        if self.is_visitor(function) {
            return self.visit(operands, site);
        }
        match self.callee_of(function) {
            Some(callee) if how.len() == operands.len() => {
                self.known_call(callee, ids, operands, how, site, want)
            }
            _ => self.assumed_call(name, operands, site, want),
        }
    }

    /// Returns whether a parameter is called that visits objects for Python's garbage collector.
    fn is_visitor(&self, function: ExpressionId) -> bool {
        match self.name_in(function) {
            Some(name) => match self.variable(name) {
                Some(variable) => {
                    self.symbols.text(variable.type_name.symbol) == b"visitproc".as_slice()
                }
                None => false,
            },
            None => false,
        }
    }

    /// Adds a call of a visitor, which borrows its arguments and runs no other code.
    fn visit(&mut self, operands: &[Operand], site: Site) -> Result<Operand, Stop> {
        for operand in operands {
            if let Operand::Object(local) = *operand {
                self.at_site(Event::UseOrNull(local), site)?;
            }
        }
        Ok(Operand::Plain)
    }

    /// Returns the words for what is called: the name of a function or of a field in the table, or all words.
    fn callee_words(&mut self, function: ExpressionId) -> Result<Words, Stop> {
        match self.tree.expression(self.without_casts(function)) {
            Some(Expression::Field { name, .. }) if self.callee_of(function).is_some() => {
                self.words_of_symbol(name)
            }
            _ => self.words_of(function),
        }
    }

    pub(crate) fn last_name(&self, function: ExpressionId) -> Symbol {
        match self.tree.expression(self.without_casts(function)) {
            Some(Expression::Name(name) | Expression::Field { name, .. }) => name,
            _ => Symbol::EMPTY,
        }
    }

    /// Leads a path past what is done only if a name doesn't have NULL. Returns where it goes on in both cases.
    pub(crate) fn unless_null(&mut self, id: ExpressionId, local: Local) -> Result<NodeId, Stop> {
        let place = self.place_of(id);
        let Branches { holds, fails } = self.branches(place)?;
        self.ask_null(id, local, Branches { holds, fails })?;
        self.land(fails);
        Ok(holds)
    }
}

/// Returns whether a function gives an object: by its row, if it has one.
pub(crate) fn gives_object(name: &[u8], row: Option<&Row>) -> bool {
    if matches!(name, b"Py_NewRef" | b"Py_XNewRef") {
        return true;
    }
    match row {
        Some(row) => {
            name != b"PyErr_Occurred".as_slice()
                && matches!(
                    row.gives,
                    Gives::New
                        | Gives::Item { .. }
                        | Gives::Part { .. }
                        | Gives::Lent
                        | Gives::Same { .. }
                )
        }
        None => false,
    }
}

/// Returns whether a macro of this name is a cast.
pub(crate) fn is_cast(name: &[u8]) -> bool {
    matches!(name, b"PyObject_CAST" | b"_PyObject_CAST")
}

/// Returns whether a function of this name gives its first argument, and says how often it isn't 0.
pub(crate) fn is_expectation(name: &[u8]) -> bool {
    name == b"__builtin_expect".as_slice() || has_word(name, b"likely")
}

/// Returns whether a call does nothing with objects, and its arguments aren't looked into.
fn is_nothing(name: &[u8], want: Want) -> bool {
    if name == b"PyErr_Occurred".as_slice() {
        return !want.is_object;
    }
    matches!(
        name,
        b"Py_BUILD_ASSERT" | b"static_assert" | b"va_start" | b"va_end" | b"Py_UNUSED"
    )
}

/// The functions that don't return. A `match` over texts would have a branch for each of their bytes in its proof.
const ENDS: [&[u8]; 19] = [
    b"abort",
    b"exit",
    b"_exit",
    b"_Exit",
    b"quick_exit",
    b"longjmp",
    b"siglongjmp",
    b"pthread_exit",
    b"__builtin_unreachable",
    b"__builtin_trap",
    b"Py_FatalError",
    b"_Py_FatalErrorFormat",
    b"Py_Exit",
    b"Py_ExitStatusException",
    b"Py_UNREACHABLE",
    b"PyThread_exit_thread",
    b"g_error",
    b"g_abort",
    b"g_assert_not_reached",
];

/// Returns whether a function of this name doesn't return.
fn is_end(name: &[u8]) -> bool {
    ENDS.contains(&name)
}
