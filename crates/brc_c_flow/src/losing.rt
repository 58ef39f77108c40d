//! References that are lost in a call: it doesn't steal them, and nothing else can give them up.

use crate::building::Builder;
use crate::callee::Callee;
use crate::operand::{Operand, Site};
use crate::passing::{Passing, passed};
use crate::results::Outcome;
use crate::stop::Stop;
use brc_c_store::{Choice, Event, Local};
use brc_c_table::{Gives, Takes};
use brc_c_tree::{Expression, ExpressionId};

impl<'a> Builder<'a> {
    /// Adds that a call loses the references that it only borrows.
    pub(crate) fn lose_borrowed(
        &mut self,
        callee: Callee<'a>,
        ids: &[ExpressionId],
        operands: &[Operand],
        how: &[Passing],
        site: Site,
    ) -> Result<(), Stop> {
        for (at, (id, operand)) in ids.iter().zip(operands.iter()).enumerate() {
            if !is_given_back(callee, at) && is_borrowed(passed(how, at)) {
                self.lose_made(*id, *operand, site)?;
            }
        }
        Ok(())
    }

    /// Adds that a call that fails loses the references that it would have stolen: those without a name, and all of them
    /// if nobody asks whether it fails.
    pub(crate) fn lose_unstolen(
        &mut self,
        ids: &[ExpressionId],
        operands: &[Operand],
        how: &[Passing],
        outcome: &Outcome,
        site: Site,
    ) -> Result<(), Stop> {
        for (at, (id, operand)) in ids.iter().zip(operands.iter()).enumerate() {
            if let Passing::Table(Takes::StolenOnSuccess | Takes::KeptOnSuccess) = passed(how, at) {
                if outcome.is_asked {
                    self.lose_made(*id, *operand, site)?;
                } else if let Some(local) = self.argument_local(*operand)? {
                    self.lose(local, site)?;
                }
            }
        }
        Ok(())
    }

    fn lose_made(&mut self, id: ExpressionId, operand: Operand, site: Site) -> Result<(), Stop> {
        match operand {
            Operand::Object(local) if self.is_made(id) => self.lose(local, site),
            _ => Ok(()),
        }
    }

    /// Adds that what a name has is lost. Paths go on without it, so that other faults are found below.
    fn lose(&mut self, local: Local, site: Site) -> Result<(), Stop> {
        let choice = self.emit(Event::Choice(None), site.place, None)?;
        self.at_site(Event::Lose(local), site)?;
        let end = self.meeting(site.place)?;
        self.jump(end);
        self.resume(choice, Choice::No);
        self.at_site(Event::HandOver(local), site)?;
        self.land(end);
        Ok(())
    }

    /// Returns whether an expression is a call that gives a new reference.
    fn is_made(&self, id: ExpressionId) -> bool {
        match self.tree.expression(self.without_casts(id)) {
            Some(Expression::Call { function, .. }) => match self.callee_of(function) {
                Some(callee) => callee.row.gives == Gives::New,
                None => false,
            },
            _ => false,
        }
    }
}

/// Returns whether a call gives this argument as its result.
fn is_given_back(callee: Callee<'_>, at: usize) -> bool {
    match callee.row.gives {
        Gives::Same { argument } => usize::from(argument) == at,
        _ => false,
    }
}

fn is_borrowed(passing: Passing) -> bool {
    matches!(
        passing,
        Passing::Table(
            Takes::Borrowed
                | Takes::BorrowedOrNull
                | Takes::BorrowedOrFails
                | Takes::RestBorrowed
                | Takes::Kept
        )
    )
}
