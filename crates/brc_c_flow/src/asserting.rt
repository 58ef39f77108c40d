//! Assertions: where one doesn't hold, the process ends.

use crate::building::Builder;
use crate::operand::Operand;
use crate::stop::Stop;
use brc_c_store::Event;
use brc_c_tree::{Expression, ExpressionId};

impl<'a> Builder<'a> {
    /// Returns whether a call with these arguments is an assertion: by its name, unless a function has it.
    pub(crate) fn is_assertion(&self, function: ExpressionId, ids: &[ExpressionId]) -> bool {
        let Some(Expression::Name(name)) = self.tree.expression(function) else {
            return false;
        };
        let text = self.symbols.text(name);
        if text == b"assert".as_slice() {
            return true;
        }
        let [only] = ids else {
            return false;
        };
        seems_assertion(text)
            && !self.traits_of(*only).has_effect
            && self.callee_of(function).is_none()
            && self.variable(name).is_none()
            && self.types.result_of(name).is_none()
    }

    /// Adds an assertion: where it doesn't hold, the process ends. One that calls something isn't looked into.
    #[cycle(expression)]
    pub(crate) fn assertion(
        &mut self,
        ids: &[ExpressionId],
        depth: usize,
    ) -> Result<Operand, Stop> {
        let Some(first) = ids.first() else {
            return Ok(Operand::Plain);
        };
        if self.traits_of(*first).has_effect {
            return Ok(Operand::Plain);
        }
        let place = self.place_of(*first);
        let branches = self.branches(place)?;
        self.condition(*first, branches, depth)?;
        self.land(branches.fails);
        self.end(Event::Halt, place)?;
        self.land(branches.holds);
        Ok(Operand::Plain)
    }
}

/// Parts of the names of assertions that don't hold where their argument does.
const DENIALS: [&[u8]; 5] = [b"null", b"false", b"not", b"zero", b"fail"];

/// Returns whether a macro of this name seems to be an assertion of its argument.
fn seems_assertion(name: &[u8]) -> bool {
    for denial in DENIALS.iter() {
        if has_word(name, denial) {
            return false;
        }
    }
    has_word(name, b"assert")
}

/// Returns whether a text has this word of small letters, in letters of any case.
pub(crate) fn has_word(text: &[u8], word: &[u8]) -> bool {
    let mut rest = text;
    for _byte in 0..text.len() {
        if begins_with_word(rest, word) {
            return true;
        }
        let [_, others @ ..] = rest else {
            return false;
        };
        rest = others;
    }
    false
}

fn begins_with_word(text: &[u8], word: &[u8]) -> bool {
    if text.len() < word.len() {
        return false;
    }
    for (byte, wanted) in text.iter().zip(word.iter()) {
        if byte.to_ascii_lowercase() != *wanted {
            return false;
        }
    }
    true
}
