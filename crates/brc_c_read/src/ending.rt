//! Variables whose end calls a function: where the block of an `x` with `__attribute__((cleanup(f)))` is left, `f(&x)`
//! is called. `return` computes its value before.

use crate::parsing::Parser;
use crate::stop::{Stop, not_read};
use brc_c_text::{Place, Symbol};
use brc_c_tree::{
    Declaration, Expression, ExpressionId, Known, Reason, Statement, StatementId, TypeName, Unary,
};

/// How many casts and operators before a value are passed.
const NAME_LIMIT: usize = 8;

/// A variable whose end calls a function.
#[derive(Clone, Copy)]
pub(crate) struct Ending {
    pub(crate) function: Symbol,
    /// The variable's symbol in the tree.
    pub(crate) variable: Symbol,
}

/// How many of the variables whose end calls a function stay where a statement leaves blocks.
#[derive(Clone, Copy)]
pub(crate) struct Staying {
    pub(crate) at_break: usize,
    pub(crate) at_continue: usize,
}

impl<'a> Parser<'a> {
    /// Begins the body of a loop, and returns what is to be restored where it ends.
    pub(crate) fn begin_loop(&mut self) -> Staying {
        let before = self.staying;
        let count = self.endings.len();
        self.staying = Staying {
            at_break: count,
            at_continue: count,
        };
        before
    }

    /// Begins the body of a `switch`, and returns what is to be restored where it ends.
    pub(crate) fn begin_switch(&mut self) -> Staying {
        let before = self.staying;
        self.staying.at_break = self.endings.len();
        before
    }

    /// Adds the calls at the end of all variables from this one on, the last one's first.
    pub(crate) fn end_variables(
        &mut self,
        from: usize,
        place: Place,
        all: &mut Vec<StatementId>,
    ) -> Result<(), Stop> {
        let mut at = self.endings.len();
        for _turn in from..self.endings.len() {
            at = at.saturating_sub(1);
            if let Some(ending) = self.endings.get(at).copied() {
                all.push(self.end_of(ending, place)?)?;
            }
        }
        Ok(())
    }

    /// Makes the call at the end of a variable.
    fn end_of(&mut self, ending: Ending, place: Place) -> Result<StatementId, Stop> {
        let function = self.expression_at(Expression::Name(ending.function), place)?;
        let operand = self.expression_at(Expression::Name(ending.variable), place)?;
        let address = Expression::Unary {
            operator: Unary::Address,
            operand,
        };
        let only = [self.expression_at(address, place)?];
        let arguments = self.list_of(only.as_slice())?;
        let call = Expression::Call {
            function,
            arguments,
        };
        let call = self.expression_at(call, place)?;
        self.statement_at(Statement::Expression(call), place)
    }

    /// Adds a statement that may leave blocks, after the calls at the end of their variables.
    pub(crate) fn leaving(
        &mut self,
        statement: Statement,
        place: Place,
    ) -> Result<StatementId, Stop> {
        let from = self.staying_at(statement, place)?;
        if from >= self.endings.len() {
            return self.statement_at(statement, place);
        }
        let mut all = Vec::new(self.alloc);
        let last = match statement {
            Statement::Return(Some(value)) => {
                let value = self.computed(value, place, &mut all)?;
                Statement::Return(Some(value))
            }
            other => other,
        };
        self.end_variables(from, place, &mut all)?;
        all.push(self.statement_at(last, place)?)?;
        self.block_at(all.as_slice(), place)
    }

    /// Returns how many variables whose end calls a function stay after a statement.
    fn staying_at(&self, statement: Statement, place: Place) -> Result<usize, Stop> {
        let count = self.endings.len();
        match statement {
            // A jump leaves them all: a label after one of them isn't read.
            Statement::Return(_) | Statement::Goto(_) => Ok(0),
            Statement::Known { known, .. } if returns(known) => Ok(0),
            Statement::Break => Ok(self.staying.at_break),
            Statement::Continue => Ok(self.staying.at_continue),
            Statement::Label(_) if count > 0 => Err(not_read(place, Reason::Cleanup)),
            _ => Ok(count),
        }
    }

    /// Adds a variable that gets the value of a `return`, unless the calls don't change that, and returns what is
    /// returned.
    fn computed(
        &mut self,
        value: ExpressionId,
        place: Place,
        all: &mut Vec<StatementId>,
    ) -> Result<ExpressionId, Stop> {
        let Some(name) = self.name_for(value) else {
            return Ok(value);
        };
        let symbol = self.unnamed(name)?;
        let only = [Declaration {
            name: symbol,
            type_name: self.result_type(),
            dimensions: 0,
            is_static: false,
            is_const: false,
            value: Some(value),
            place,
        }];
        let list = self.tree.add_declarations(only.as_slice())?;
        all.push(self.statement_at(Statement::Declare(list), place)?)?;
        self.expression_at(Expression::Name(symbol), place)
    }

    /// Returns the name under which a value is kept until it is returned, or `None` if that isn't needed: it is a
    /// constant, or a variable that stays.
    fn name_for(&self, value: ExpressionId) -> Option<Symbol> {
        let mut value = value;
        for _turn in 0..NAME_LIMIT {
            match self.tree.expression(value)? {
                Expression::Cast { operand, .. }
                | Expression::Unary {
                    operator: Unary::Minus | Unary::Not,
                    operand,
                } => value = operand,
                Expression::Name(name) => {
                    return if self.endings.iter().any(|ending| ending.variable == name) {
                        Some(name)
                    } else {
                        None
                    };
                }
                Expression::Number(_) | Expression::Character(_) | Expression::Text(_) => {
                    return None;
                }
                _ => return Some(self.types.result()),
            }
        }
        Some(self.types.result())
    }

    /// Returns the type of what the function gives. A module's initialization gives an object.
    fn result_type(&self) -> TypeName {
        let is_module = self.symbols.text(self.result.symbol) == b"PyMODINIT_FUNC".as_slice();
        match self.symbols.find(b"PyObject") {
            Some(symbol) if is_module && self.result.stars == 0 => TypeName {
                symbol,
                tag: None,
                stars: 1,
                is_function: false,
            },
            _ => self.result,
        }
    }
}

/// Returns whether the macro returns.
fn returns(known: Known) -> bool {
    matches!(
        known,
        Known::ReturnNone
            | Known::ReturnTrue
            | Known::ReturnFalse
            | Known::ReturnNotImplemented
            | Known::ReturnRichCompare
            | Known::ReturnNumber
    )
}
