use crate::expanding::{Expander, Reading, USE_LIMIT};
use brc_c_text::Punctuator;
use std::alloc::{AllocError, Global};

/// The arguments of a macro's use.
#[derive(Drop)]
pub(crate) struct Arguments {
    all: Vec<Reading>,
    /// Where each argument ends among all.
    ends: Vec<usize>,
}

impl Arguments {
    pub(crate) fn new(alloc: Global) -> Arguments {
        Arguments {
            all: Vec::new(alloc),
            ends: Vec::new(alloc),
        }
    }

    /// Returns the lexemes of an argument. One that the use doesn't have is empty.
    pub(crate) fn get(&self, index: usize) -> &[Reading] {
        let start = match index.checked_sub(1) {
            Some(before) => self.ends.get(before).copied(),
            None => Some(0),
        };
        match (start, self.ends.get(index)) {
            (Some(start), Some(end)) => self.all.get(start..*end).unwrap_or(&[]),
            _ => &[],
        }
    }

    fn end_one(&mut self) -> Result<(), AllocError> {
        self.ends.push(self.all.len())?;
        Ok(())
    }
}

impl<'a> Expander<'a> {
    /// Takes the arguments of a macro with this many parameters, from their opening parenthesis to the closing one. If
    /// there is none, or there are too many arguments, nothing is taken. The last parameter of a variadic one has all
    /// that are left, with the commas between them.
    pub(crate) fn arguments(
        &mut self,
        parameters: usize,
        is_variadic: bool,
    ) -> Result<Option<Arguments>, AllocError> {
        let mark = self.mark();
        let mut found = Arguments::new(self.alloc);
        let mut taken = Vec::new(self.alloc);
        let mut depth: usize = 0;
        for _turn in 0..USE_LIMIT {
            let Some(next) = self.take() else {
                break;
            };
            taken.push(next)?;
            if next.lexeme.is(Punctuator::LeftParen) {
                depth = depth.saturating_add(1);
                if depth == 1 {
                    continue;
                }
            } else if next.lexeme.is(Punctuator::RightParen) {
                depth = depth.saturating_sub(1);
                if depth == 0 {
                    found.end_one()?;
                    if found.ends.len() > parameters.max(1) {
                        break;
                    }
                    return Ok(Some(found));
                }
            } else if depth == 1
                && next.lexeme.is(Punctuator::Comma)
                && !(is_variadic && found.ends.len().saturating_add(1) >= parameters)
            {
                found.end_one()?;
                continue;
            }
            found.all.push(next)?;
        }
        self.go_back(mark, taken.as_slice())?;
        Ok(None)
    }
}
