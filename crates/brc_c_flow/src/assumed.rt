//! Calls of functions that the table doesn't have: they are assumed to follow the manual's general rule.

use crate::building::Builder;
use crate::operand::{Operand, Site, Want};
use crate::stop::Stop;
use brc_c_store::{Calling, Choice, Event, Gives, Source};

impl<'a> Builder<'a> {
    /// Adds a call of a function of which nothing is known. It borrows its arguments, and gives a new reference or
    /// NULL if an object is wanted. If no object is passed or wanted, it is no event.
    pub(crate) fn assumed_call(
        &mut self,
        name: &[u8],
        operands: &[Operand],
        site: Site,
        want: Want,
    ) -> Result<Operand, Stop> {
        let gives = self.assumed_object(site, want);
        let touches = operands.iter().any(|operand| matches!(
            operand,
            Operand::Object(_) | Operand::Address(_)
        ));
        if is_of_c(name) || (!gives && !touches) {
            return if want.is_object {
                self.unknown(site.id, want)
            } else {
                Ok(Operand::Plain)
            };
        }
        self.borrow_assumed(operands, site)?;
        if gives {
            return self.give_assumed(operands, site, want);
        }
        let event = Event::Call {
            gives: Gives::Nothing,
            into: None,
            calling: Calling::Succeeds,
        };
        self.at_site(event, site)?;
        self.set_assumed(operands, site)?;
        if want.is_object {
            return self.unknown(site.id, want);
        }
        Ok(Operand::Plain)
    }

    /// Adds that a call borrows its arguments, and runs other code.
    fn borrow_assumed(&mut self, operands: &[Operand], site: Site) -> Result<(), Stop> {
        self.assume(site.words)?;
        for operand in operands {
            match *operand {
                Operand::Object(local) => {
                    self.at_site(Event::UseOrNull(local), site)?;
                    self.at_site(Event::Assume(local), site)?;
                }
                // It may give up what is there.
                Operand::Address(local) => {
                    self.at_site(Event::Assume(local), site)?;
                }
                _ => {}
            }
        }
        self.forget_memory(site.place)?;
        self.at_site(Event::EndItems, site)?;
        Ok(())
    }

    /// Returns whether a call gives an object: by its type, or since one is wanted where nothing declares a type.
    fn assumed_object(&self, site: Site, want: Want) -> bool {
        match self.typed.get(site.id.index()) {
            Some(Some(found)) => {
                let is_void = self.symbols.text(found.symbol) == b"void".as_slice();
                self.types.is_object(self.symbols, *found)
                    || (is_void && found.stars > 0 && want.is_object)
            }
            _ => want.is_object,
        }
    }

    /// Adds that a call gives a new reference or NULL.
    fn give_assumed(
        &mut self,
        operands: &[Operand],
        site: Site,
        want: Want,
    ) -> Result<Operand, Stop> {
        let into = self.destination(want)?;
        let event = Event::Call {
            gives: ASSUMED,
            into: Some(into),
            calling: Calling::MayFail,
        };
        let call = self.at_site(event, site)?;
        self.set_assumed(operands, site)?;
        let end = self.meeting(site.place)?;
        self.jump(end);
        self.resume(call, Choice::No);
        self.copy(into, Source::Null, site.place)?;
        for operand in operands {
            if let Operand::Address(local) = *operand {
                self.copy(local, Source::Null, site.place)?;
            }
        }
        self.land(end);
        Ok(Operand::Object(into))
    }

    /// Adds that each variable whose address is passed has a new reference or NULL.
    fn set_assumed(&mut self, operands: &[Operand], site: Site) -> Result<(), Stop> {
        for operand in operands {
            if let Operand::Address(local) = *operand {
                self.store_or_null(ASSUMED, local, site)?;
            }
        }
        Ok(())
    }
}

/// What such a call makes.
pub(crate) const ASSUMED: Gives = Gives::New {
    is_fresh: false,
    is_assumed: true,
};

/// Returns whether a function of C's library has this name, which neither takes nor gives objects.
fn is_of_c(name: &[u8]) -> bool {
    matches!(
        name,
        b"malloc"
            | b"calloc"
            | b"realloc"
            | b"free"
            | b"strdup"
            | b"memset"
            | b"memcpy"
            | b"memmove"
            | b"memcmp"
            | b"memchr"
            | b"strlen"
            | b"strcmp"
            | b"strncmp"
            | b"strcpy"
            | b"strncpy"
            | b"printf"
            | b"fprintf"
            | b"sprintf"
            | b"snprintf"
            | b"vsnprintf"
            | b"PyOS_snprintf"
            | b"qsort"
            | b"va_arg"
    )
}
