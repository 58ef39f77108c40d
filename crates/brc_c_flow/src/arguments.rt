//! What a call of the table does with its arguments before it has a result.

use crate::building::{Branches, Builder};
use crate::operand::{Operand, Site};
use crate::passing::{Passing, passed};
use crate::stop::Stop;
use brc_c_graph::NodeId;
use brc_c_store::{Choice, Event, Local, Source};
use brc_c_table::Takes;
use brc_c_tree::ExpressionId;

impl<'a> Builder<'a> {
    /// Adds what is done with the arguments before the call has a result. Returns the node to which paths go where
    /// NULL makes the call fail.
    pub(crate) fn pass_arguments(
        &mut self,
        how: &[Passing],
        ids: &[ExpressionId],
        operands: &[Operand],
        site: Site,
    ) -> Result<Option<NodeId>, Stop> {
        for (at, operand) in operands.iter().enumerate() {
            self.use_argument(passed(how, at), *operand, site)?;
        }
        self.give_variables(how, ids, operands, site)?;
        let mut failure = None;
        for (at, (id, operand)) in ids.iter().zip(operands.iter()).enumerate() {
            if let (true, Passing::Table(takes)) = (
                fails_for_null(passed(how, at)),
                passed(how, at),
            ) {
                failure = self.pass_or_fail(takes, *id, *operand, failure, site)?;
            }
        }
        self.give_arguments(how, ids, operands, site)?;
        self.keep_arguments(how, operands, site)?;
        Ok(failure)
    }

    /// Passes an argument of which NULL makes the call fail. What the call steals it steals whether it fails or not.
    fn pass_or_fail(
        &mut self,
        takes: Takes,
        id: ExpressionId,
        operand: Operand,
        failure: Option<NodeId>,
        site: Site,
    ) -> Result<Option<NodeId>, Stop> {
        if takes != Takes::StolenOrFails {
            let failure = self.fail_for_null(id, operand, failure, site)?;
            if takes == Takes::BorrowedOrFails {
                self.use_argument(Passing::Table(Takes::Borrowed), operand, site)?;
            }
            return Ok(failure);
        }
        let failure = self.give_on_failure(operand, failure, site)?;
        let failure = self.fail_for_null(id, operand, failure, site)?;
        self.give_argument(operand, None, site)?;
        Ok(failure)
    }

    /// Gives an argument away on the paths on which an argument before it has made the call fail. Returns where they
    /// go on.
    fn give_on_failure(
        &mut self,
        operand: Operand,
        failure: Option<NodeId>,
        site: Site,
    ) -> Result<Option<NodeId>, Stop> {
        let Some(node) = failure else {
            return Ok(None);
        };
        let open = self.open;
        self.resume(node, Choice::Yes);
        self.give_argument(operand, None, site)?;
        let end = self.meeting(site.place)?;
        self.jump(end);
        self.open = open;
        Ok(Some(end))
    }

    /// Adds that what variables have is given away which the call replaces, also if it fails for NULL.
    fn give_variables(
        &mut self,
        how: &[Passing],
        ids: &[ExpressionId],
        operands: &[Operand],
        site: Site,
    ) -> Result<(), Stop> {
        for (at, (id, operand)) in ids.iter().zip(operands.iter()).enumerate() {
            if let Passing::Table(Takes::InOut | Takes::InOutOrNull) = passed(how, at) {
                self.give_variable(*id, *operand, site)?;
            }
        }
        Ok(())
    }

    /// Adds that arguments are given away, or are where the call stores something.
    fn give_arguments(
        &mut self,
        how: &[Passing],
        ids: &[ExpressionId],
        operands: &[Operand],
        site: Site,
    ) -> Result<(), Stop> {
        let container = container_of(operands);
        for (at, (id, operand)) in ids.iter().zip(operands.iter()).enumerate() {
            match passed(how, at) {
                Passing::Table(Takes::Stolen) => {
                    self.give_argument(*operand, None, site)?;
                }
                Passing::Table(Takes::StolenAndKept) => {
                    self.give_argument(*operand, container, site)?;
                }
                Passing::Table(Takes::Out | Takes::OutBorrowed)
                | Passing::Lent { .. }
                | Passing::Converted => self.assume_place(*id, *operand)?,
                _ => {}
            }
        }
        Ok(())
    }

    /// Adds that the first argument makes references of its own to others.
    fn keep_arguments(
        &mut self,
        how: &[Passing],
        operands: &[Operand],
        site: Site,
    ) -> Result<(), Stop> {
        let Some(container) = container_of(operands) else {
            return Ok(());
        };
        for (at, operand) in operands.iter().enumerate() {
            if let (Passing::Table(Takes::Kept), Operand::Object(local)) = (
                passed(how, at),
                *operand,
            ) {
                self.at_site(Event::Keep { local, container }, site)?;
            }
        }
        Ok(())
    }

    pub(crate) fn at_site(&mut self, event: Event, site: Site) -> Result<NodeId, Stop> {
        self.has_objects = true;
        self.emit(event, site.place, Some(site.words))
    }

    /// Uses a borrowed argument.
    fn use_argument(&mut self, passing: Passing, operand: Operand, site: Site) -> Result<(), Stop> {
        let may_be_null = match passing {
            Passing::Table(Takes::Borrowed | Takes::Kept) => false,
            Passing::Table(Takes::BorrowedOrNull | Takes::RestBorrowed) => true,
            Passing::Table(Takes::RestFormatted) if operand.object().is_some() => false,
            _ => return Ok(()),
        };
        match operand {
            Operand::Object(local) if may_be_null => self.at_site(Event::UseOrNull(local), site)?,
            Operand::Object(local) => self.at_site(Event::Use(local), site)?,
            _ if operand.is_null() && !may_be_null => {
                let none = self.unnamed()?;
                self.copy(none, Source::Null, site.place)?;
                self.at_site(Event::Use(none), site)?
            }
            _ => return Ok(()),
        };
        Ok(())
    }

    /// Leads paths on which the argument is NULL to the call's failure.
    fn fail_for_null(
        &mut self,
        id: ExpressionId,
        operand: Operand,
        failure: Option<NodeId>,
        site: Site,
    ) -> Result<Option<NodeId>, Stop> {
        let is_object = operand.object().is_some();
        if !is_object && !operand.is_null() {
            return Ok(failure);
        }
        let holds = match failure {
            Some(node) => node,
            None => self.meeting(site.place)?,
        };
        match operand {
            Operand::Object(local) => {
                let fails = self.meeting(site.place)?;
                self.ask_null(id, local, Branches { holds, fails })?;
                self.land(fails);
            }
            _ => self.jump(holds),
        }
        Ok(Some(holds))
    }

    /// Gives an argument away: to a container, if there is one.
    pub(crate) fn give_argument(
        &mut self,
        operand: Operand,
        container: Option<Local>,
        site: Site,
    ) -> Result<(), Stop> {
        let Some(local) = self.argument_local(operand)? else {
            return Ok(());
        };
        let event = match container {
            Some(container) => Event::GiveTo { local, container },
            None => Event::Give(local),
        };
        self.at_site(event, site)?;
        Ok(())
    }

    /// Returns the name that has an argument's object.
    pub(crate) fn argument_local(&mut self, operand: Operand) -> Result<Option<Local>, Stop> {
        match operand {
            Operand::Object(local) => Ok(Some(local)),
            Operand::Singleton(singleton) => self.singleton_local(singleton),
            _ => Ok(None),
        }
    }

    /// Gives away what a variable has whose address is passed.
    fn give_variable(
        &mut self,
        id: ExpressionId,
        operand: Operand,
        site: Site,
    ) -> Result<(), Stop> {
        match operand {
            Operand::Address(local) => {
                self.at_site(Event::Give(local), site)?;
                Ok(())
            }
            _ => self.assume_place(id, operand),
        }
    }

    /// Notes that a call stores an object where it isn't followed, as in a field.
    fn assume_place(&mut self, id: ExpressionId, operand: Operand) -> Result<(), Stop> {
        if let Operand::Plain = operand {
            let words = self.words_of(id)?;
            self.assume(words)?;
        }
        Ok(())
    }
}

/// Returns the name that has the first argument.
pub(crate) fn container_of(operands: &[Operand]) -> Option<Local> {
    match operands.first() {
        Some(first) => first.object(),
        None => None,
    }
}

fn fails_for_null(passing: Passing) -> bool {
    matches!(
        passing,
        Passing::Table(Takes::KeptOnSuccess | Takes::BorrowedOrFails | Takes::StolenOrFails)
    )
}
