//! What a call of the table gives, and what it leaves on each way after it.

use crate::arguments::container_of;
use crate::assumed::ASSUMED;
use crate::building::Builder;
use crate::callee::Callee;
use crate::leaving::left_by;
use crate::operand::{Operand, Site, Want};
use crate::own::OwnOut;
use crate::passing::{Passing, passed};
use crate::stop::Stop;
use brc_c_store::{Calling, Choice, Event, Gives, Local, Signs, Source};
use brc_c_table::{Fails, Gives as Given, Takes};

/// What a call gives, and the name that it goes into.
#[derive(Clone, Copy)]
pub(crate) struct Outcome {
    pub(crate) gives: Gives,
    pub(crate) into: Option<Local>,
    pub(crate) calling: Calling,
    /// Whether the function has a body in the program: it may store an object where nothing says so.
    pub(crate) is_own: bool,
    /// Whether anybody asks for what it gives.
    pub(crate) is_asked: bool,
    /// What the call's expression has afterwards.
    pub(crate) value: Operand,
}

impl<'a> Builder<'a> {
    /// Returns what a call gives.
    pub(crate) fn outcome_of(
        &mut self,
        callee: Callee<'a>,
        operands: &[Operand],
        how: &[Passing],
        want: Want,
    ) -> Result<Outcome, Stop> {
        let row = callee.row;
        let mut outcome = Outcome {
            gives: Gives::Nothing,
            into: None,
            calling: calling_of(row.fails),
            is_own: callee.own.is_some(),
            is_asked: want.is_asked || want.into.is_some(),
            value: Operand::Plain,
        };
        match gives_of(callee, operands) {
            Some(gives) => {
                let into = self.destination(want)?;
                outcome.gives = gives;
                outcome.into = Some(into);
                outcome.value = Operand::Object(into);
                // A borrowed result of which nobody asks whether it is NULL is taken for certain.
                if is_borrowed(gives) && !want.is_asked {
                    outcome.calling = Calling::Succeeds;
                }
            }
            None => outcome.value = self.number_of(callee, operands, want)?,
        }
        if outcome.into.is_none() {
            self.give_first_out(row.fails, operands, how, &mut outcome);
        }
        Ok(outcome)
    }

    /// The first object that a call stores is what it gives, if it gives nothing else.
    fn give_first_out(
        &self,
        fails: Fails,
        operands: &[Operand],
        how: &[Passing],
        outcome: &mut Outcome,
    ) {
        for (at, operand) in operands.iter().enumerate() {
            let Operand::Address(local) = *operand else {
                continue;
            };
            match passed(how, at) {
                Passing::Table(Takes::InOut) => {}
                // If there is no exception, all that `PyErr_Fetch` sets is NULL. A function that never asks has one.
                Passing::Table(Takes::Out) if fails == Fails::Never => {
                    outcome.calling = if self.is_asked(local) {
                        Calling::MayFail
                    } else {
                        Calling::Succeeds
                    };
                }
                Passing::Table(Takes::Out) => {}
                Passing::Own(out) if self.is_first(out, local, operands) => {
                    if let Some(gives) = left_by(out.success.object, operands) {
                        outcome.gives = gives;
                        outcome.into = Some(local);
                    }
                    return;
                }
                _ => continue,
            }
            outcome.gives = MADE;
            outcome.into = Some(local);
            return;
        }
    }

    /// Returns whether each success stores an object in a variable of the function.
    fn is_first(&self, out: OwnOut, local: Local, operands: &[Operand]) -> bool {
        out.is_sure()
            && out.success_for(operands) == out.success
            && self.passed_cell(local).is_none()
    }

    /// Returns whether the function asks whether a variable has NULL.
    fn is_asked(&self, local: Local) -> bool {
        for name in self.tested.iter() {
            if self.local_of(*name) == Some(local) {
                return true;
            }
        }
        false
    }

    /// Returns what a call has that makes no object: a number, if it matters.
    fn number_of(
        &mut self,
        callee: Callee<'a>,
        operands: &[Operand],
        want: Want,
    ) -> Result<Operand, Stop> {
        match callee.row.gives {
            Given::Null => Ok(Operand::Null),
            Given::Same { argument } => Ok(operand_at(operands, argument)),
            Given::Number if callee.has_signs() => match want.into {
                Some(local) if !want.is_object => Ok(Operand::Counted(local)),
                _ if want.is_asked => Ok(Operand::Counted(self.unnamed()?)),
                _ => Ok(Operand::Plain),
            },
            _ => Ok(Operand::Plain),
        }
    }

    /// Adds what a call leaves that succeeds.
    pub(crate) fn succeed(
        &mut self,
        callee: Callee<'a>,
        operands: &[Operand],
        how: &[Passing],
        outcome: &Outcome,
        site: Site,
    ) -> Result<(), Stop> {
        let container = container_of(operands);
        let lender = self.lender_of(container);
        for (at, operand) in operands.iter().enumerate() {
            match (passed(how, at), *operand) {
                (Passing::Lent { is_optional }, Operand::Address(to)) => {
                    self.lend(to, lender, is_optional, site)?;
                }
                (Passing::Converted, Operand::Address(to)) => {
                    self.lend(to, lender, true, site)?;
                    self.at_site(Event::Assume(to), site)?;
                }
                (Passing::Own(out), Operand::Address(local)) => {
                    if outcome.into != Some(local) {
                        let left = out.success_for(operands);
                        self.leave_at(out, left, local, operands, site)?;
                    }
                }
                (Passing::GivenOrLost, _) => self.give_argument(*operand, container, site)?,
                (Passing::Table(takes), _) => {
                    self.succeed_with(takes, *operand, container, outcome, site)?;
                }
                _ => {}
            }
        }
        self.set_number(outcome, callee.success(), site)
    }

    fn lend(
        &mut self,
        to: Local,
        lender: Option<Local>,
        is_optional: bool,
        site: Site,
    ) -> Result<(), Stop> {
        let event = Event::Lend {
            to,
            lender,
            is_optional,
        };
        self.at_site(event, site)?;
        Ok(())
    }

    /// Adds what a call that succeeds does with an argument.
    fn succeed_with(
        &mut self,
        takes: Takes,
        operand: Operand,
        container: Option<Local>,
        outcome: &Outcome,
        site: Site,
    ) -> Result<(), Stop> {
        match (takes, operand) {
            (Takes::Out | Takes::InOut, Operand::Address(local)) => {
                if outcome.into != Some(local) {
                    self.store_out(MADE, local, site)?;
                }
                Ok(())
            }
            (Takes::InOutOrNull, Operand::Address(local)) => {
                self.store_or_null(MADE, local, site)
            }
            (Takes::OutBorrowed, Operand::Address(local)) => {
                let gives = match container {
                    Some(container) => Gives::Item(container),
                    None => Gives::Lent,
                };
                self.store_out(gives, local, site)
            }
            (Takes::NoObject, Operand::Address(local)) if outcome.is_own => {
                self.store_or_null(ASSUMED, local, site)
            }
            (Takes::StolenOnSuccess, _) => self.give_argument(operand, None, site),
            (Takes::KeptOnSuccess, _) => self.give_argument(operand, container, site),
            _ => Ok(()),
        }
    }

    /// Adds what a call leaves that fails, or that finds nothing.
    pub(crate) fn fail(
        &mut self,
        operands: &[Operand],
        how: &[Passing],
        outcome: &Outcome,
        signs: Signs,
        site: Site,
    ) -> Result<(), Stop> {
        if let Operand::Object(local) = outcome.value {
            if outcome.into == Some(local) {
                self.copy(local, Source::Null, site.place)?;
            }
        }
        for (at, operand) in operands.iter().enumerate() {
            match (passed(how, at), *operand) {
                (
                    Passing::Table(Takes::Out | Takes::InOut | Takes::InOutOrNull),
                    Operand::Address(local),
                ) => self.copy(local, Source::Null, site.place)?,
                (Passing::Table(Takes::NoObject), Operand::Address(local)) if outcome.is_own => {
                    self.copy(local, Source::Null, site.place)?;
                }
                (Passing::Own(out), Operand::Address(local)) => {
                    self.leave_at(out, out.failure, local, operands, site)?;
                }
                _ => {}
            }
        }
        self.set_number(outcome, signs, site)
    }

    /// Gives away what a call steals that fails.
    pub(crate) fn steal_on_failure(
        &mut self,
        operands: &[Operand],
        how: &[Passing],
        site: Site,
    ) -> Result<(), Stop> {
        for (at, operand) in operands.iter().enumerate() {
            if let Passing::Table(Takes::StolenOnFailure) | Passing::GivenOrLost = passed(how, at) {
                self.give_argument(*operand, None, site)?;
            }
        }
        Ok(())
    }

    fn set_number(&mut self, outcome: &Outcome, signs: Signs, site: Site) -> Result<(), Stop> {
        match outcome.value {
            Operand::Counted(local) => self.copy(local, Source::Number(signs), site.place),
            _ => Ok(()),
        }
    }

    /// Stores an object where an argument points to, or NULL.
    pub(crate) fn store_or_null(
        &mut self,
        gives: Gives,
        local: Local,
        site: Site,
    ) -> Result<(), Stop> {
        let event = Event::Call {
            gives,
            into: Some(local),
            calling: Calling::MayFail,
        };
        let call = self.at_site(event, site)?;
        let end = self.meeting(site.place)?;
        self.jump(end);
        self.resume(call, Choice::No);
        self.copy(local, Source::Null, site.place)?;
        self.land(end);
        Ok(())
    }

    /// Stores an object where an argument points to.
    pub(crate) fn store_out(&mut self, gives: Gives, local: Local, site: Site) -> Result<(), Stop> {
        let event = Event::Call {
            gives,
            into: Some(local),
            calling: Calling::Succeeds,
        };
        self.at_site(event, site)?;
        Ok(())
    }
}

/// What a call makes.
pub(crate) const MADE: Gives = Gives::New {
    is_fresh: true,
    is_assumed: false,
};

/// Returns whose the object is that a call gives, if it gives one.
fn gives_of(callee: Callee<'_>, operands: &[Operand]) -> Option<Gives> {
    match callee.row.gives {
        Given::New => Some(callee.made()),
        Given::Item { argument } => match operand_at(operands, argument) {
            Operand::Object(local) => Some(Gives::Item(local)),
            _ => Some(Gives::Lent),
        },
        Given::Part { argument } => match operand_at(operands, argument) {
            Operand::Object(local) => Some(Gives::Part(local)),
            _ => Some(Gives::Lent),
        },
        Given::Lent => Some(Gives::Lent),
        Given::Same { argument } => match operand_at(operands, argument) {
            Operand::Object(local) => Some(Gives::Same(local)),
            _ => None,
        },
        _ => None,
    }
}

fn operand_at(operands: &[Operand], argument: u8) -> Operand {
    match operands.get(usize::from(argument)) {
        Some(operand) => *operand,
        None => Operand::Plain,
    }
}

fn is_borrowed(gives: Gives) -> bool {
    matches!(gives, Gives::Item(_) | Gives::Part(_) | Gives::Lent)
}

fn calling_of(fails: Fails) -> Calling {
    match fails {
        Fails::Never => Calling::Succeeds,
        Fails::Missing => Calling::MayMiss,
        _ => Calling::MayFail,
    }
}
