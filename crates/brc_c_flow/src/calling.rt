//! Calls of functions of which something is known: by a table, or by their own bodies.

use crate::building::Builder;
use crate::callee::Callee;
use crate::names::Variable;
use crate::operand::{Operand, Site, Want};
use crate::passing::{Passing, passed};
use crate::results::Outcome;
use crate::stop::Stop;
use brc_c_graph::NodeId;
use brc_c_store::{Calling, Choice, Event, Signs};
use brc_c_table::{Fails, Gives, Takes};
use brc_c_text::Symbol;
use brc_c_tree::{Expression, ExpressionId};

impl<'a> Builder<'a> {
    /// Adds a call of a function of which something is known, and returns what it gives.
    pub(crate) fn known_call(
        &mut self,
        callee: Callee<'a>,
        ids: &[ExpressionId],
        operands: &[Operand],
        how: &[Passing],
        site: Site,
        want: Want,
    ) -> Result<Operand, Stop> {
        if callee.own.is_none() {
            return self.table_call(callee, ids, operands, how, site, want);
        }
        // A call without objects makes no function one that has something to judge.
        let has_objects = self.has_objects;
        let found = self.table_call(callee, ids, operands, how, site, want)?;
        if found.object().is_none() && !operands.iter().any(|operand| touches(*operand)) {
            self.has_objects = has_objects;
        }
        Ok(found)
    }

    /// Adds a call that does what a row says.
    fn table_call(
        &mut self,
        callee: Callee<'a>,
        ids: &[ExpressionId],
        operands: &[Operand],
        how: &[Passing],
        site: Site,
        want: Want,
    ) -> Result<Operand, Stop> {
        let row = callee.row;
        if row.gives == Gives::Free {
            return self.free(operands, site);
        }
        let exact = self.exact_passings(how)?;
        let how = if want.is_asked && row.fails != Fails::Never {
            exact.as_slice()
        } else {
            how
        };
        let failing = self.pass_arguments(how, ids, operands, site)?;
        self.assume_arguments(callee, operands, how, site)?;
        self.stow_elements(callee, ids, site)?;
        self.lose_borrowed(callee, ids, operands, how, site)?;
        if !is_any_given_or_lost(how) {
            self.run(callee, site)?;
        }
        self.forget_set(callee, operands, site)?;
        self.clear_fields(callee, operands, site)?;
        if row.name.as_slice() == b"Py_TYPE".as_slice() {
            // A heap type's instance owns a reference to its type: what is done with it isn't judged.
            return self.unknown(site.id, want);
        }
        let outcome = self.outcome_of(callee, operands, how, want)?;
        self.ways(callee, ids, operands, how, &outcome, failing, site)?;
        if self.gives_memory(site.id) {
            // It is a pointer, and not NULL.
            return Ok(Operand::Number(1));
        }
        Ok(outcome.value)
    }

    /// Adds the call itself, and what it leaves on each way after it. NULL among the arguments makes it fail, too.
    fn ways(
        &mut self,
        callee: Callee<'a>,
        ids: &[ExpressionId],
        operands: &[Operand],
        how: &[Passing],
        outcome: &Outcome,
        failing: Option<NodeId>,
        site: Site,
    ) -> Result<(), Stop> {
        let calling = outcome.calling;
        let event = Event::Call {
            gives: outcome.gives,
            into: outcome.into,
            calling,
        };
        let call = self.at_site(event, site)?;
        self.succeed(callee, operands, how, outcome, site)?;
        self.run_after(callee, how, site)?;
        if calling == Calling::Succeeds && failing.is_none() {
            return Ok(());
        }
        let end = self.meeting(site.place)?;
        self.jump(end);
        if calling != Calling::Succeeds {
            self.resume(call, Choice::No);
        }
        if let Some(node) = failing {
            self.land(node);
        }
        self.steal_on_failure(operands, how, site)?;
        self.run_after(callee, how, site)?;
        self.lose_unstolen(ids, operands, how, outcome, site)?;
        self.fail(operands, how, outcome, callee.failure(), site)?;
        if calling == Calling::MayMiss {
            self.jump(end);
            self.resume(call, Choice::Missing);
            self.steal_on_failure(operands, how, site)?;
            self.run_after(callee, how, site)?;
            self.fail(operands, how, outcome, Signs::ZERO, site)?;
        }
        self.land(end);
        Ok(())
    }

    /// Adds that other code runs in a call, or that a container changes. A function of the program may set anything.
    fn run(&mut self, callee: Callee<'a>, site: Site) -> Result<(), Stop> {
        let row = callee.row;
        if row.runs || (callee.own.is_some() && !self.is_idle(site.id)) {
            self.forget_memory(site.place)?;
        }
        if row.runs || sets_items(row.name.as_slice()) {
            self.at_site(Event::EndItems, site)?;
        }
        Ok(())
    }

    /// The same after what the call steals is given away: an item that is stolen is still there.
    fn run_after(&mut self, callee: Callee<'a>, how: &[Passing], site: Site) -> Result<(), Stop> {
        if is_any_given_or_lost(how) {
            self.run(callee, site)
        } else {
            Ok(())
        }
    }

    /// Adds that a function of the program may have set fields of its arguments which this one sets, too. A field that
    /// it only clears has what it had before, on some way: nothing is forgotten, if nobody can know which way it was.
    fn forget_set(
        &mut self,
        callee: Callee<'a>,
        operands: &[Operand],
        site: Site,
    ) -> Result<(), Stop> {
        if callee.own.is_none() {
            return Ok(());
        }
        let Some(called) = self.called_symbol(site.id) else {
            return Ok(());
        };
        let is_known = shows_way(callee, operands) || self.shares_field(called);
        let mut fields = Vec::new(self.alloc);
        for field in self.set_fields.iter() {
            let is_cleared = is_known && self.usage.clears(called, *field);
            if is_cleared || self.usage.sets(called, *field) {
                fields.push(*field)?;
            }
        }
        for field in fields.iter() {
            for operand in operands {
                if let Operand::Object(holder) = *operand {
                    let cell = self.field_cell(*field, holder)?;
                    self.forget_cell(cell, site.place)?;
                }
            }
        }
        Ok(())
    }

    /// Returns whether the function speaks of a field by which the one goes that it calls.
    fn shares_field(&self, called: Symbol) -> bool {
        for (expression, _) in self.tree.expressions() {
            if let Expression::Field { name, .. } = *expression {
                if self.usage.goes_by(called, name) {
                    return true;
                }
            }
        }
        false
    }

    /// Returns the name of the function or the field that is called.
    pub(crate) fn called_symbol(&self, call: ExpressionId) -> Option<Symbol> {
        match self.tree.expression(call)? {
            Expression::Call { function, .. } => Some(self.last_name(function)),
            _ => None,
        }
    }

    /// Returns whether what is called sets nothing but variables of its own.
    fn is_idle(&self, call: ExpressionId) -> bool {
        match self.called_symbol(call) {
            Some(name) => self.usage.is_idle(name),
            None => false,
        }
    }

    /// Adds that something is assumed of arguments by the function that is called, or of what it stores there.
    fn assume_arguments(
        &mut self,
        callee: Callee<'a>,
        operands: &[Operand],
        how: &[Passing],
        site: Site,
    ) -> Result<(), Stop> {
        for at in callee.assumed() {
            if let Some(Operand::Object(local)) = operands.get(*at) {
                self.at_site(Event::Assume(*local), site)?;
            }
        }
        if callee.own.is_none() {
            return Ok(());
        }
        for (at, operand) in operands.iter().enumerate() {
            if let (true, Operand::Address(local)) = (stores_unknown(passed(how, at)), *operand) {
                // It may give up what is there.
                self.at_site(Event::Assume(local), site)?;
                self.assume(site.words)?;
            }
        }
        Ok(())
    }

    /// Adds that an object's memory is given back. A deallocator's own argument is lent to it: nothing is counted.
    fn free(&mut self, operands: &[Operand], site: Site) -> Result<Operand, Stop> {
        if let Some(Operand::Object(local)) = operands.first() {
            if self.habits.has_cells {
                self.at_site(Event::FreeCells(*local), site)?;
            }
            let is_argument = self.variables.values().any(|variable: &Variable| {
                variable.is_parameter && variable.local == Some(*local)
            });
            let event = if is_argument || self.habits.is_deallocator {
                Event::HandOver(*local)
            } else {
                Event::Give(*local)
            };
            self.at_site(event, site)?;
        }
        Ok(Operand::Plain)
    }
}

/// Returns whether the function replaces an item, so that what was borrowed may end.
fn sets_items(name: &[u8]) -> bool {
    matches!(name, b"PyList_SetItem" | b"PyList_SET_ITEM")
}

/// Returns whether an argument is given away on each way after the call.
fn is_any_given_or_lost(how: &[Passing]) -> bool {
    for passing in how {
        if matches!(*passing, Passing::GivenOrLost) {
            return true;
        }
    }
    false
}

/// Returns whether what a call gives, or what it gets beside objects, may say which way the function goes.
fn shows_way(callee: Callee<'_>, operands: &[Operand]) -> bool {
    for operand in operands {
        if operand.object().is_none() {
            return true;
        }
    }
    callee.row.gives != Gives::Void
}

/// Returns whether a call with this argument is about an object.
fn touches(operand: Operand) -> bool {
    match operand {
        Operand::Object(_) | Operand::Address(_) | Operand::Singleton(_) => true,
        Operand::Plain | Operand::Null | Operand::Number(_) | Operand::Counted(_) => false,
    }
}

/// Returns whether a function isn't known to store an object where this argument points to, or stores one of which
/// nothing is known.
fn stores_unknown(passing: Passing) -> bool {
    match passing {
        Passing::Table(Takes::NoObject) => true,
        Passing::Own(out) => out.stores_unknown(),
        _ => false,
    }
}
