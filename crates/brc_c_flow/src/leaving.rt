//! What a call of a function of the program leaves where its arguments point to, and in their fields.

use crate::assumed::ASSUMED;
use crate::building::Builder;
use crate::callee::Callee;
use crate::operand::{Operand, Site};
use crate::own::{Left, LeftObject, OwnOut};
use crate::results::MADE;
use crate::stop::Stop;
use brc_c_store::{Calling, Choice, Event, Gives, Local, Source};
use brc_c_text::Symbol;
use brc_c_tree::Expression;

impl<'a> Builder<'a> {
    /// Adds what an exit of a function leaves in a variable whose address is passed.
    pub(crate) fn leave_at(
        &mut self,
        out: OwnOut,
        left: Left,
        local: Local,
        operands: &[Operand],
        site: Site,
    ) -> Result<(), Stop> {
        if left.object == LeftObject::None && !left.is_null {
            if out.is_replaced && left.is_freed() {
                self.give_passed(local, site)?;
            }
            return Ok(());
        }
        if !left.is_same {
            return self.leave_other(out, left, local, operands, site);
        }
        let branches = self.branches(site.place)?;
        self.ask(Event::Choice(None), site.place, None, branches)?;
        self.land(branches.holds);
        self.leave_other(out, left, local, operands, site)?;
        self.land(branches.fails);
        Ok(())
    }

    /// Adds that there is something else in the variable than before.
    fn leave_other(
        &mut self,
        out: OwnOut,
        left: Left,
        local: Local,
        operands: &[Operand],
        site: Site,
    ) -> Result<(), Stop> {
        if out.is_replaced {
            self.give_passed(local, site)?;
        }
        match left_by(left.object, operands) {
            None => self.copy(local, Source::Null, site.place)?,
            Some(gives) if left.is_null => self.store_or_miss(gives, local, site)?,
            Some(gives) => self.store_out(gives, local, site)?,
        }
        if let Some(cell) = self.passed_cell(local) {
            self.at_site(
                Event::Put {
                    cell,
                    from: Some(local),
                },
                site,
            )?;
        }
        Ok(())
    }

    /// Gives up what is where an argument points to. If that is a cell, it is read first.
    fn give_passed(&mut self, local: Local, site: Site) -> Result<(), Stop> {
        if let Some(cell) = self.passed_cell(local) {
            self.at_site(Event::Read { cell, to: local }, site)?;
        }
        self.at_site(Event::Give(local), site)?;
        Ok(())
    }

    /// Stores an object, or NULL, since the function finds nothing.
    fn store_or_miss(&mut self, gives: Gives, local: Local, site: Site) -> Result<(), Stop> {
        let event = Event::Call {
            gives,
            into: Some(local),
            calling: Calling::MayMiss,
        };
        let call = self.at_site(event, site)?;
        let end = self.meeting(site.place)?;
        self.jump(end);
        self.resume(call, Choice::Missing);
        self.copy(local, Source::Null, site.place)?;
        self.land(end);
        Ok(())
    }

    /// Adds that the fields of arguments are NULL which the function leaves so, as far as this one speaks of them.
    pub(crate) fn clear_fields(
        &mut self,
        callee: Callee<'a>,
        operands: &[Operand],
        site: Site,
    ) -> Result<(), Stop> {
        let Some(own) = callee.own else {
            return Ok(());
        };
        for null in own.nulls.iter() {
            if let Some(Operand::Object(holder)) = operands.get(null.argument).copied() {
                if self.speaks_of_field(null.field) {
                    if let Some(cell) = self.field_cell(null.field, holder)? {
                        self.at_site(Event::ForgetCell(cell), site)?;
                        self.at_site(Event::Put { cell, from: None }, site)?;
                    }
                }
            }
        }
        Ok(())
    }

    /// Returns whether the function reads or sets a field of this name, or asks for it at its ends.
    fn speaks_of_field(&self, field: Symbol) -> bool {
        for asked in self.asked_fields.iter() {
            if asked.null.field == field {
                return true;
            }
        }
        for (expression, _) in self.tree.expressions() {
            if let Expression::Field { name, .. } = *expression {
                if name == field {
                    return true;
                }
            }
        }
        false
    }
}

/// Returns whose an object is that a function leaves, if it leaves one.
pub(crate) fn left_by(object: LeftObject, operands: &[Operand]) -> Option<Gives> {
    match object {
        LeftObject::None => None,
        LeftObject::New => Some(MADE),
        LeftObject::Unknown => Some(ASSUMED),
        LeftObject::Borrowed(from) => match container_at(operands, from) {
            Some(container) => Some(Gives::Item(container)),
            None => Some(Gives::Lent),
        },
    }
}

fn container_at(operands: &[Operand], number: Option<usize>) -> Option<Local> {
    operands.get(number?)?.object()
}
