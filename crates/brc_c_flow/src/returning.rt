//! `return`, and the end of a function.

use crate::building::Builder;
use crate::expressions::EXPRESSION_DEPTH;
use crate::operand::{Operand, Want};
use crate::promoting::is_basic;
use crate::purpose::{Purpose, Returned, ReturnedValue};
use crate::stop::Stop;
use brc_c_store::{Calling, Comparison, Event, Gives, Local, Signs, Test};
use brc_c_table::Fails;
use brc_c_text::Place;
use brc_c_tree::{Expression, ExpressionId, Statement};
use std::alloc::AllocError;

/// How many expressions with a comma behind them are passed.
const COMMA_LIMIT: usize = 64;

impl<'a> Builder<'a> {
    /// Finds whether the function gives an object: by its type, or since it returns one.
    pub(crate) fn find_result(&mut self) -> Result<(), AllocError> {
        let result = self.function.result;
        let name = self.symbols.text(result.symbol);
        let is_struct = result.stars == 1 && !result.is_function && !is_basic(name);
        let returns_object = self.tree.statements().iter().any(|(statement, _)| match *statement {
            Statement::Return(Some(value)) => self.is_object(value) && !self.is_null(value),
            _ => false,
        });
        self.gives_objects = self.types.is_object(self.symbols, result)
            || name == b"PyMODINIT_FUNC".as_slice()
            || (is_struct && returns_object);
        self.has_objects = self.has_objects || self.gives_objects;
        self.find_returned()
    }

    /// Returns whether an expression is NULL, whatever comes before it.
    fn is_null(&self, id: ExpressionId) -> bool {
        let mut found = id;
        for _turn in 0..COMMA_LIMIT {
            let Some(Expression::Comma { right, .. }) = self
                .tree
                .expression(self.without_casts(found))
            else {
                break;
            };
            found = right;
        }
        self.constant_in(found) == Some(0)
    }

    /// Notes the variables whose numbers are returned, where their signs matter.
    fn find_returned(&mut self) -> Result<(), AllocError> {
        if self.gives_objects || !self.asks_numbers() {
            return Ok(());
        }
        let tree = self.tree;
        for (statement, _) in tree.statements() {
            if let Statement::Return(Some(value)) = *statement {
                self.find_tested_side(value)?;
            }
        }
        Ok(())
    }

    /// Returns whether it matters which sign a returned number has.
    fn asks_numbers(&self) -> bool {
        match self.purpose {
            Purpose::Row { .. } => true,
            Purpose::Verdict(own) => match own {
                Some(own) => own.row.fails != Fails::Never,
                None => false,
            },
        }
    }

    pub(crate) fn return_statement(
        &mut self,
        value: Option<ExpressionId>,
        place: Place,
    ) -> Result<(), Stop> {
        let Some(id) = value else {
            self.return_arguments(false, place)?;
            return self.end_call(Event::ReturnPlain, ReturnedValue::Nothing, place);
        };
        if !self.gives_objects {
            let want = if self.asks_numbers() {
                Want::ASKED
            } else {
                Want::NOTHING
            };
            let found = self.value(id, want, EXPRESSION_DEPTH)?;
            self.returned_as_number(id, found, place)?;
            return self.return_number(found, place);
        }
        let found = self.value(id, Want::ASKED_OBJECT, EXPRESSION_DEPTH)?;
        let local = match found {
            Operand::Object(local) => Some(local),
            Operand::Singleton(singleton) => self.singleton_local(singleton)?,
            _ if found.is_null() || self.begins_module() => None,
            _ => Some(self.returned(id)?),
        };
        match local {
            Some(local) => self.return_object(local, place),
            None => self.return_none(found, place),
        }
    }

    /// Notes that an object is returned as something else: nobody knows whose it is then.
    fn returned_as_number(
        &mut self,
        id: ExpressionId,
        found: Operand,
        place: Place,
    ) -> Result<(), Stop> {
        if let Operand::Object(local) = found {
            let words = self.words_of(id)?;
            self.assume(words)?;
            self.emit(Event::Assume(local), place, None)?;
        }
        Ok(())
    }

    /// Adds the end of a function that gives NULL, or the definition of a module.
    fn return_none(&mut self, found: Operand, place: Place) -> Result<(), Stop> {
        let is_null = found.is_null();
        self.return_arguments(is_null, place)?;
        let value = if is_null {
            ReturnedValue::Null
        } else {
            ReturnedValue::Singleton
        };
        self.end_call(Event::ReturnPlain, value, place)
    }

    /// Adds the ends of a function that gives what a name has.
    fn return_object(&mut self, local: Local, place: Place) -> Result<(), Stop> {
        if !self.hands_back() {
            return self.end_with(local, place);
        }
        let branches = self.branches(place)?;
        self.ask(Event::Null(local), place, None, branches)?;
        self.land(branches.holds);
        self.return_arguments(true, place)?;
        self.end_with(local, place)?;
        self.land(branches.fails);
        self.return_arguments(false, place)?;
        self.end_with(local, place)
    }

    /// What a helper gives that it only borrows is the caller's to know.
    fn end_with(&mut self, local: Local, place: Place) -> Result<(), Stop> {
        let gives_borrowed = match self.purpose {
            Purpose::Verdict(Some(own)) => own.gives_borrowed(),
            _ => false,
        };
        if !gives_borrowed {
            return self.end_call(Event::Return(local), ReturnedValue::Object(local), place);
        }
        self.emit(Event::UseOrNull(local), place, None)?;
        self.end_call(Event::ReturnPlain, ReturnedValue::Nothing, place)
    }

    /// Adds the ends of a function that gives a number.
    fn return_number(&mut self, found: Operand, place: Place) -> Result<(), Stop> {
        let value = match found {
            Operand::Counted(local) => ReturnedValue::Counted(local),
            _ => ReturnedValue::Number(found.signs()),
        };
        let test = self.failure_test();
        match (test, value) {
            (Some(test), ReturnedValue::Counted(of)) if self.hands_back() => {
                let branches = self.branches(place)?;
                self.ask(Event::Sign { of, test }, place, None, branches)?;
                self.land(branches.holds);
                self.return_arguments(true, place)?;
                self.end_call(Event::ReturnPlain, value, place)?;
                self.land(branches.fails);
                self.return_arguments(false, place)?;
                self.end_call(Event::ReturnPlain, value, place)
            }
            (Some(test), ReturnedValue::Number(signs)) => {
                self.return_arguments(signs.that(test, false).is_empty(), place)?;
                self.end_call(Event::ReturnPlain, value, place)
            }
            _ => {
                self.return_arguments(false, place)?;
                self.end_call(Event::ReturnPlain, value, place)
            }
        }
    }

    /// Returns which numbers say that the function itself failed.
    fn failure_test(&self) -> Option<Test> {
        let Purpose::Verdict(Some(own)) = self.purpose else {
            return None;
        };
        let comparison = match own.row.fails {
            Fails::Negative => Comparison::Less,
            Fails::Zero => Comparison::Equal,
            Fails::Missing => Comparison::LessEqual,
            _ => return None,
        };
        Some(Test {
            comparison,
            constant: 0,
        })
    }

    /// Returns whether the function begins a module, by giving its definition.
    fn begins_module(&self) -> bool {
        let name = self.symbols.text(self.function.name);
        name.starts_with(b"PyInit_")
    }

    /// Returns the name of what is returned by words of which nothing is known: a new reference.
    fn returned(&mut self, id: ExpressionId) -> Result<Local, Stop> {
        let into = self.unnamed()?;
        let words = self.words_of(id)?;
        self.assume(words)?;
        let event = Event::Call {
            gives: Gives::New {
                is_fresh: false,
                is_assumed: true,
            },
            into: Some(into),
            calling: Calling::Succeeds,
        };
        self.emit(event, self.place_of(id), Some(words))?;
        Ok(into)
    }

    /// Adds the end of a call, at which the function gives a value.
    pub(crate) fn end_call(
        &mut self,
        event: Event,
        value: ReturnedValue,
        place: Place,
    ) -> Result<(), Stop> {
        self.ask_at_end(place)?;
        self.hand_back(false, place)?;
        let node = self.emit(event, place, None)?;
        self.open = None;
        if let Purpose::Verdict(_) = self.purpose {
            return Ok(());
        }
        self.returns.push(Returned { node, value })?;
        if let ReturnedValue::Counted(local) = value {
            self.graph.keep_at(node, local)?;
        }
        for kept in self.kept.iter() {
            self.graph.keep_at(node, kept.local)?;
        }
        for out in self.outs.iter() {
            self.graph.keep_at(node, out.first)?;
            self.graph.keep_at(node, out.last)?;
        }
        for asked in self.asked_fields.iter() {
            self.graph.keep_at(node, asked.local)?;
        }
        Ok(())
    }

    /// Adds the end of the function's block.
    pub(crate) fn finish(&mut self) -> Result<(), Stop> {
        let place = self.function.end;
        if self.gives_objects {
            self.end(Event::End, place)
        } else {
            self.return_arguments(false, place)?;
            self.end_call(Event::ReturnPlain, ReturnedValue::Number(Signs::ALL), place)
        }
    }
}
