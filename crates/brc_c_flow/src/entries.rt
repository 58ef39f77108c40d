//! What the caller passes, and which of its references it has again afterwards.

use crate::building::Builder;
use crate::purpose::Purpose;
use crate::stop::Stop;
use brc_c_store::{Calling, Event, Gives, Local, Source};
use brc_c_table::Takes;
use brc_c_text::Place;

/// A name that keeps what the caller has passed, whatever is assigned to the parameter.
#[derive(Clone, Copy)]
pub(crate) struct KeptArgument {
    /// The number of the parameter, from 0.
    pub(crate) number: usize,
    pub(crate) takes: Takes,
    pub(crate) local: Local,
}

impl<'a> Builder<'a> {
    /// Adds what a parameter of objects has at the entry: what the caller lends, or NULL. If some exit steals it, the
    /// function has a reference of its own.
    pub(crate) fn begin_parameter(&mut self, number: usize, to: Local) -> Result<(), Stop> {
        let place = self.function.place;
        if is_stolen(self.takes_of(number)) {
            let event = Event::Call {
                gives: Gives::New {
                    is_fresh: false,
                    is_assumed: false,
                },
                into: Some(to),
                calling: Calling::Succeeds,
            };
            self.emit(event, place, None)?;
            return Ok(());
        }
        self.copy(to, Source::Null, place)?;
        let event = Event::Lend {
            to,
            lender: None,
            is_optional: true,
        };
        self.emit(event, place, None)?;
        Ok(())
    }

    /// Returns how the function itself takes an argument, as its own row says.
    fn takes_of(&self, number: usize) -> Takes {
        let Purpose::Verdict(Some(own)) = self.purpose else {
            return Takes::NoObject;
        };
        match own.row.takes.as_slice().get(number) {
            Some(takes) => *takes,
            None => Takes::NoObject,
        }
    }

    /// Gives what the caller has passed a name that nothing else is assigned to, if it matters at the ends.
    pub(crate) fn keep_parameter(&mut self, number: usize, from: Local) -> Result<(), Stop> {
        let takes = self.takes_of(number);
        let is_kept = match self.purpose {
            Purpose::Row { is_helper } => is_helper,
            Purpose::Verdict(_) => {
                matches!(takes, Takes::StolenOnSuccess | Takes::StolenOnFailure)
            }
        };
        if !is_kept {
            return Ok(());
        }
        let local = self.unnamed()?;
        self.copy(local, Source::Local(from), self.function.place)?;
        self.kept.push(KeptArgument {
            number,
            takes,
            local,
        })?;
        Ok(())
    }

    /// Returns whether exits give something back: arguments that others steal, or what is where arguments point to.
    pub(crate) fn hands_back(&self) -> bool {
        matches!(self.purpose, Purpose::Verdict(_))
            && (!self.kept.is_empty() || !self.outs.is_empty())
    }

    /// Adds that the caller has those arguments back that an exit doesn't steal, and what is where arguments point to.
    pub(crate) fn return_arguments(&mut self, fails: bool, place: Place) -> Result<(), Stop> {
        for at in 0..self.kept.len() {
            if let Some(local) = self.callers(at, fails) {
                self.emit(Event::Use(local), place, None)?;
                self.emit(Event::HandOver(local), place, None)?;
            }
        }
        self.return_outs(fails, place)
    }

    /// Returns the name of an argument whose reference is the caller's after an exit.
    fn callers(&self, at: usize, fails: bool) -> Option<Local> {
        let kept = self.kept.get(at)?;
        let is_callers = match kept.takes {
            Takes::StolenOnSuccess => fails,
            Takes::StolenOnFailure => !fails,
            _ => false,
        };
        if is_callers { Some(kept.local) } else { None }
    }
}

fn is_stolen(takes: Takes) -> bool {
    matches!(
        takes,
        Takes::Stolen | Takes::StolenOnSuccess | Takes::StolenOnFailure
    )
}
