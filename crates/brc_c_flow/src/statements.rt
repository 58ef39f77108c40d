//! Statements.

use crate::building::Builder;
use crate::expressions::EXPRESSION_DEPTH;
use crate::names::{Kind, Variable};
use crate::operand::{Operand, Want};
use crate::purpose::ReturnedValue;
use crate::reasons::FlowReason;
use crate::stop::{Stop, unread};
use brc_c_store::{Event, Local, Source};
use brc_c_text::Place;
use brc_c_tree::{Declaration, ExpressionId, Known, List, NESTING_LIMIT, Statement, StatementId};

/// How deep statements may be nested: a block is a level, and so is what it is the body of.
pub(crate) const STATEMENT_DEPTH: usize = 2 * NESTING_LIMIT + 2;

impl<'a> Builder<'a> {
    #[cycle(statement)]
    pub(crate) fn statement(&mut self, id: StatementId, depth: usize) -> Result<(), Stop> {
        let place = self.statement_place(id);
        let Some(inside) = depth.checked_sub(1) else {
            return Err(unread(place, FlowReason::TooDeep));
        };
        let Some(statement) = self.tree.statement(id) else {
            return Ok(());
        };
        if !matches!(statement, Statement::If { .. }) {
            self.just_given = None;
        }
        match statement {
            Statement::Block(list) => self.block(list, inside),
            Statement::If { .. }
            | Statement::While { .. }
            | Statement::DoWhile { .. }
            | Statement::For { .. }
            | Statement::Switch { .. } => {
                self.dividing_statement(id, statement, place, inside)?;
                // Paths meet here.
                self.just_given = None;
                Ok(())
            }
            _ => self.leaf_statement(statement, place),
        }
    }

    /// Adds a statement at which paths divide.
    #[cycle(statement)]
    fn dividing_statement(
        &mut self,
        id: StatementId,
        statement: Statement,
        place: Place,
        depth: usize,
    ) -> Result<(), Stop> {
        match statement {
            Statement::While { condition, body } => {
                self.while_statement(condition, body, place, depth)
            }
            Statement::DoWhile { body, condition } => {
                self.do_statement(body, condition, place, depth)
            }
            Statement::For {
                first,
                condition,
                next,
                body,
            } => {
                if let Some(first) = first {
                    self.statement(first, depth)?;
                }
                self.for_statement(condition, next, body, place, depth)
            }
            Statement::Switch { value, body } => self.switch_statement(value, body, place, depth),
            _ => self.if_statement(id, depth),
        }
    }

    fn statement_place(&self, id: StatementId) -> Place {
        match self.tree.statement_place(id) {
            Some(place) => place,
            None => self.function.place,
        }
    }

    #[cycle(statement)]
    fn block(&mut self, list: List, depth: usize) -> Result<(), Stop> {
        let tree = self.tree;
        for statement in tree.body(list) {
            self.statement(*statement, depth)?;
        }
        Ok(())
    }

    /// Adds `if`, with all the `else if` after it.
    #[cycle(statement)]
    fn if_statement(&mut self, id: StatementId, depth: usize) -> Result<(), Stop> {
        let end = self.meeting(self.statement_place(id))?;
        let mut rest = Some(id);
        for _arm in 0..self.tree.statements().len() {
            let Some(next) = rest else {
                break;
            };
            let Some(
                Statement::If {
                    condition,
                    then,
                    otherwise,
                },
            ) = self.tree.statement(next)
            else {
                self.statement(next, depth)?;
                break;
            };
            let branches = self.branches(self.statement_place(next))?;
            self.condition(condition, branches, EXPRESSION_DEPTH)?;
            self.just_given = None;
            self.land(branches.holds);
            self.statement(then, depth)?;
            self.jump(end);
            self.land(branches.fails);
            rest = otherwise;
        }
        self.land(end);
        Ok(())
    }

    /// Adds a statement that has no other in it.
    fn leaf_statement(&mut self, statement: Statement, place: Place) -> Result<(), Stop> {
        match statement {
            Statement::Expression(value) => {
                self.value(value, Want::NOTHING, EXPRESSION_DEPTH)?;
                self.note_assigned(value);
                Ok(())
            }
            Statement::Declare(list) => self.declare(list),
            Statement::Case(value) => self.case(value, place),
            Statement::Default => self.default_case(place),
            Statement::Label(name) => self.place_label(name, place),
            Statement::Goto(name) => self.go_to(name, place),
            Statement::Break => {
                let to = self.breaks.last().copied();
                self.leave(to, place)
            }
            Statement::Continue => {
                let to = self.continues.last().copied();
                self.leave(to, place)
            }
            Statement::Return(value) => self.return_statement(value, place),
            Statement::Known { known, arguments } => self.known(known, arguments, place),
            _ => Ok(()),
        }
    }

    fn declare(&mut self, list: List) -> Result<(), Stop> {
        let tree = self.tree;
        for declared in tree.declarations(list) {
            if !declared.is_static {
                self.initialize(declared)?;
            }
        }
        self.note_declared(list);
        Ok(())
    }

    /// Adds a variable's first value.
    fn initialize(&mut self, declared: &Declaration) -> Result<(), Stop> {
        let Some(Variable { kind, local, .. }) = self.variable(declared.name) else {
            return Ok(());
        };
        self.forget(declared.name, declared.place)?;
        if kind == Kind::Array {
            return self.begin_elements(declared);
        }
        let want = match (kind, local) {
            (Kind::Object, Some(local)) => Want {
                is_object: true,
                is_asked: self.tested.contains(&declared.name),
                into: Some(local),
            },
            (_, Some(local)) => Want::ASKED.into(local),
            (_, None) => Want::NOTHING,
        };
        let Some(value) = declared.value else {
            return self.begin(want, declared.place);
        };
        let found = self.value(value, want, EXPRESSION_DEPTH)?;
        self.settle(value, found, want)?;
        self.settle_conditions(declared.name, value, declared.place)
    }

    /// Begins a variable without a value.
    fn begin(&mut self, want: Want, place: Place) -> Result<(), Stop> {
        match want.into {
            Some(local) if want.is_object => self.copy(local, Source::Nothing, place),
            Some(local) => self.copy_signs(local, Operand::Plain, place),
            None => Ok(()),
        }
    }

    fn known(&mut self, known: Known, arguments: List, place: Place) -> Result<(), Stop> {
        match known {
            Known::BeginCriticalSection | Known::BeginCriticalSection2 => {
                self.lock(arguments, place)
            }
            Known::EndCriticalSection | Known::EndCriticalSection2 => {
                self.plain_event(Event::Unlock, place)
            }
            Known::BeginAllowThreads | Known::UnblockThreads => {
                self.plain_event(Event::Detach, place)
            }
            Known::EndAllowThreads | Known::BlockThreads => self.plain_event(Event::Attach, place),
            Known::ReturnNone
            | Known::ReturnTrue
            | Known::ReturnFalse
            | Known::ReturnNotImplemented
            | Known::ReturnRichCompare
            | Known::ReturnNumber => {
                self.return_arguments(false, place)?;
                self.end_call(Event::ReturnPlain, ReturnedValue::Singleton, place)
            }
            Known::Unreachable => self.end(Event::Halt, place),
            // These do nothing with references.
            Known::Visit | Known::TrashcanBegin | Known::TrashcanEnd | Known::Head => Ok(()),
        }
    }

    fn plain_event(&mut self, event: Event, place: Place) -> Result<(), Stop> {
        self.has_objects = true;
        self.emit(event, place, None)?;
        Ok(())
    }

    /// Begins a critical section.
    fn lock(&mut self, arguments: List, place: Place) -> Result<(), Stop> {
        let tree = self.tree;
        let ids = tree.operands(arguments);
        let first = self.locked(ids.first().copied(), place)?;
        let second = self.locked(ids.get(1).copied(), place)?;
        self.plain_event(Event::Lock { first, second }, place)
    }

    fn locked(&mut self, id: Option<ExpressionId>, place: Place) -> Result<Option<Local>, Stop> {
        let Some(id) = id else {
            return Ok(None);
        };
        let value = self.value(id, Want::OBJECT, EXPRESSION_DEPTH)?;
        if let Operand::Object(local) = value {
            self.emit(Event::Use(local), place, None)?;
        }
        Ok(value.object())
    }
}
