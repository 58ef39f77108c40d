//! Conditions: at each, paths go on in two ways.

use crate::building::{Branches, Builder};
use crate::calls::is_expectation;
use crate::comparing::{compares, comparison_of};
use crate::facts::is_comparison;
use crate::names::Kind;
use crate::operand::{Operand, Want};
use crate::reasons::FlowReason;
use crate::stop::Stop;
use brc_c_graph::NodeId;
use brc_c_store::{Choice, Comparison, Event, Fact, Local, Test};
use brc_c_table::{Fails, Gives, Takes};
use brc_c_tree::{Binary, Expression, ExpressionId, Unary};

impl<'a> Builder<'a> {
    /// Adds a condition, after which no path is open.
    #[cycle(expression)]
    pub(crate) fn condition(
        &mut self,
        id: ExpressionId,
        branches: Branches,
        depth: usize,
    ) -> Result<(), Stop> {
        let Some(inside) = depth.checked_sub(1) else {
            return Err(self.stop_at(id, FlowReason::TooDeep));
        };
        let Branches { holds, fails } = branches;
        match self.tree.expression(id) {
            Some(
                Expression::Unary {
                    operator: Unary::Not,
                    operand,
                },
            ) => { self.condition(operand, branches.swapped(), inside) }
            Some(
                Expression::Binary {
                    operator: Binary::And,
                    left,
                    right,
                },
            ) => {
                let next = self.meeting(self.place_of(right))?;
                self.condition(left, Branches { holds: next, fails }, inside)?;
                self.land(next);
                self.condition(right, branches, inside)
            }
            Some(
                Expression::Binary {
                    operator: Binary::Or,
                    left,
                    right,
                },
            ) => {
                let next = self.meeting(self.place_of(right))?;
                self.condition(left, Branches { holds, fails: next }, inside)?;
                self.land(next);
                self.condition(right, branches, inside)
            }
            Some(
                Expression::Binary {
                    operator,
                    left,
                    right,
                },
            ) if is_comparison(operator) => {
                self.foresee(operator, left, right, branches)?;
                let one = self.value(left, Want::ASKED, inside)?;
                let other = self.value(right, Want::ASKED, inside)?;
                self.compare(id, operator, one, other, branches)
            }
            Some(Expression::Comma { left, right }) => {
                self.value(left, Want::NOTHING, inside)?;
                self.condition(right, branches, inside)
            }
            Some(Expression::Cast { operand, .. }) => self.condition(operand, branches, inside),
            Some(
                Expression::Call {
                    function,
                    arguments,
                },
            ) if self.is_expected(function) => {
                match self.tree.operands(arguments).first() {
                    Some(first) => self.condition(*first, branches, inside),
                    None => Ok(()),
                }
            }
            _ => {
                self.lead_null(id, branches.holds)?;
                self.lead_zero(id, branches.fails)?;
                let value = self.value(id, Want::ASKED, inside)?;
                if self.is_known_kind(id) {
                    self.jump(branches.holds);
                    return Ok(());
                }
                let holds = self.unless_null_asked(id, branches.holds)?;
                self.ask_value(id, value, Branches { holds, ..branches })
            }
        }
    }

    /// Leads paths on which it is known what a call gives that is compared with a constant to where they go on then.
    fn foresee(
        &mut self,
        operator: Binary,
        left: ExpressionId,
        right: ExpressionId,
        branches: Branches,
    ) -> Result<(), Stop> {
        let Some(constant) = self.constant_in(right) else {
            return Ok(());
        };
        if constant == 0 && operator == Binary::NotEqual {
            self.lead_null(left, branches.holds)?;
        }
        if constant == 0 && operator == Binary::Equal {
            self.lead_null(left, branches.fails)?;
        }
        if compares(comparison_of(operator), 0, constant) {
            self.lead_zero(left, branches.holds)
        } else {
            self.lead_zero(left, branches.fails)
        }
    }

    /// A question that NULL fails: where it holds, its argument isn't NULL. Returns where paths go on then.
    fn unless_null_asked(&mut self, id: ExpressionId, holds: NodeId) -> Result<NodeId, Stop> {
        let Some(local) = self.asked_or_null(id) else {
            return Ok(holds);
        };
        let open = self.open;
        let place = self.place_of(id);
        let found = self.meeting(place)?;
        self.resume(found, Choice::Yes);
        let node = self.emit(Event::Null(local), place, None)?;
        self.resume(node, Choice::No);
        self.jump(holds);
        self.open = open;
        Ok(found)
    }

    /// Returns the variable that is the argument of a question which NULL fails, as `PyNumber_Check`.
    fn asked_or_null(&self, call: ExpressionId) -> Option<Local> {
        let Some(
            Expression::Call {
                function,
                arguments,
            },
        ) = self.tree.expression(call)
        else {
            return None;
        };
        let row = self.callee_of(function)?.row;
        if row.gives != Gives::Number || row.fails != Fails::Never {
            return None;
        }
        if row.takes.as_slice() != [Takes::BorrowedOrNull].as_slice() {
            return None;
        }
        let name = self.name_in(*self.tree.operands(arguments).first()?)?;
        match self.variable(name) {
            Some(variable) if variable.kind == Kind::Object => variable.local,
            _ => None,
        }
    }

    /// Returns whether a function gives its first argument, and says how often it isn't 0.
    fn is_expected(&self, function: ExpressionId) -> bool {
        match self.tree.expression(function) {
            Some(Expression::Name(name)) => is_expectation(self.symbols.text(name)),
            _ => false,
        }
    }

    /// Asks whether a value is neither 0 nor NULL.
    fn ask_value(
        &mut self,
        id: ExpressionId,
        value: Operand,
        branches: Branches,
    ) -> Result<(), Stop> {
        match value {
            Operand::Object(local) => self.ask_null(id, local, branches.swapped()),
            Operand::Counted(local) => {
                let test = Test {
                    comparison: Comparison::NotEqual,
                    constant: 0,
                };
                self.ask_sign(id, local, test, branches)
            }
            Operand::Plain => self.ask_freely(id, branches),
            Operand::Null | Operand::Number(0) => {
                self.jump(branches.fails);
                Ok(())
            }
            Operand::Number(_) | Operand::Singleton(_) | Operand::Address(_) => {
                self.jump(branches.holds);
                Ok(())
            }
        }
    }

    /// Asks whether a name has NULL.
    pub(crate) fn ask_null(
        &mut self,
        id: ExpressionId,
        local: Local,
        branches: Branches,
    ) -> Result<(), Stop> {
        let words = self.words_of(id)?;
        self.ask(Event::Null(local), self.place_of(id), Some(words), branches)
    }

    pub(crate) fn ask_sign(
        &mut self,
        id: ExpressionId,
        of: Local,
        test: Test,
        branches: Branches,
    ) -> Result<(), Stop> {
        let words = self.words_of(id)?;
        let event = Event::Sign { of, test };
        self.ask(event, self.place_of(id), Some(words), branches)
    }

    /// Asks for what is known by its words at most.
    pub(crate) fn ask_freely(&mut self, id: ExpressionId, branches: Branches) -> Result<(), Stop> {
        let fact = self.fact_of(id)?;
        self.ask_words(id, fact, branches)
    }

    pub(crate) fn ask_words(
        &mut self,
        id: ExpressionId,
        fact: Option<Fact>,
        branches: Branches,
    ) -> Result<(), Stop> {
        let words = self.words_of(id)?;
        let event = Event::Choice(fact);
        self.ask(event, self.place_of(id), Some(words), branches)
    }
}
