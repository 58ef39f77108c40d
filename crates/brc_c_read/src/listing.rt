//! The items of a source: where each declaration and each function begins and ends.

use crate::braces::closing;
use crate::heads::names_end;
use brc_c_text::{Keyword, Lexeme, LexemeKind, Punctuator};
use std::alloc::{AllocError, Global};

/// How many declarations may come after a head of the style of K&R.
const DECLARED_LIMIT: usize = 64;

/// Where an item is among the lexemes.
#[derive(Clone, Copy)]
pub(crate) enum Item {
    /// What ends with a semicolon, before which `end` is. Its first braces, if it has any, enclose what is between
    /// `open` and `close`.
    Declaration {
        start: usize,
        end: usize,
        braces: Option<(usize, usize)>,
    },
    /// A head, and what is there from the first brace to the place after the last one.
    Function {
        start: usize,
        open: usize,
        end: usize,
    },
}

/// The items so far.
#[derive(Drop)]
struct Listing {
    items: Vec<Item>,
    /// Where the next one begins, and its first braces.
    start: usize,
    braces: Option<(usize, usize)>,
}

/// Returns the items in their order.
pub(crate) fn items_of(alloc: Global, lexemes: &[Lexeme]) -> Result<Vec<Item>, AllocError> {
    let closing = closing(alloc, lexemes)?;
    let mut listing = Listing {
        items: Vec::new(alloc),
        start: 0,
        braces: None,
    };
    let mut skip_to = 0;
    for (at, lexeme) in lexemes.iter().enumerate() {
        if at < skip_to {
            continue;
        }
        if lexeme.is(Punctuator::Semicolon) {
            listing.end_declaration(at)?;
        } else if lexeme.is(Punctuator::LeftBrace) {
            let end = end_of(closing.as_slice(), at, lexemes.len());
            skip_to = listing.pass_braces(lexemes, at, end)?;
        } else if lexeme.is(Punctuator::RightBrace) {
            listing.begin(at.saturating_add(1));
        }
    }
    Ok(listing.items)
}

impl Listing {
    fn begin(&mut self, start: usize) {
        self.start = start;
        self.braces = None;
    }

    fn end_declaration(&mut self, at: usize) -> Result<(), AllocError> {
        self.items.push(Item::Declaration {
            start: self.start,
            end: at,
            braces: self.braces,
        })?;
        self.begin(at.saturating_add(1));
        Ok(())
    }

    /// Passes a brace and what it encloses, unless that is declarations. Returns the place to go on from.
    fn pass_braces(
        &mut self,
        lexemes: &[Lexeme],
        open: usize,
        end: usize,
    ) -> Result<usize, AllocError> {
        let start = self.start;
        let head = lexemes.get(start..open).unwrap_or(&[]);
        if is_linkage(head) {
            let inside = open.saturating_add(1);
            self.begin(inside);
            return Ok(inside);
        }
        if is_head(head) {
            self.items.push(Item::Function { start, open, end })?;
            self.begin(end);
        } else if head.is_empty() {
            if let Some(start) = self.take_declared_head(lexemes) {
                self.items.push(Item::Function { start, open, end })?;
            }
            self.begin(end);
        } else if self.braces.is_none() {
            // The first braces count: those of a struct come before those of a value.
            self.braces = Some((open, end));
        }
        Ok(end)
    }

    /// Takes back the declarations before a brace that begin with a head of the style of K&R, and returns where it
    /// begins.
    fn take_declared_head(&mut self, lexemes: &[Lexeme]) -> Option<usize> {
        let mut next = self.start;
        let mut left = self.items.len();
        for _turn in 0..DECLARED_LIMIT {
            left = left.checked_sub(1)?;
            let Some(
                Item::Declaration {
                    start,
                    end,
                    braces: None,
                },
            ) = self.items.get(left).copied()
            else {
                return None;
            };
            if end.checked_add(1)? != next {
                return None;
            }
            if names_end(lexemes.get(start..end)?).is_some() {
                self.items.truncate(left);
                return Some(start);
            }
            next = start;
        }
        None
    }
}

/// Returns the place after what the brace at `open` encloses.
fn end_of(closing: &[Option<usize>], open: usize, last: usize) -> usize {
    match closing.get(open) {
        Some(Some(close)) => close.saturating_add(1),
        _ => last,
    }
}

fn is_linkage(head: &[Lexeme]) -> bool {
    match head {
        [first, second] => {
            first.kind == LexemeKind::Keyword(Keyword::Extern) && second.kind == LexemeKind::Text
        }
        _ => false,
    }
}

/// Returns whether braces after these lexemes are the body of a function.
fn is_head(head: &[Lexeme]) -> bool {
    let Some(last) = without_names(head).last() else {
        return false;
    };
    for lexeme in head {
        if lexeme.is(Punctuator::Equal) {
            return false;
        }
    }
    last.is(Punctuator::RightParen)
}

/// Returns a head without the names at its end, which are macros for attributes.
pub(crate) fn without_names(head: &[Lexeme]) -> &[Lexeme] {
    let mut end = head.len();
    for lexeme in head.iter().rev() {
        if lexeme.kind != LexemeKind::Name {
            break;
        }
        end = end.saturating_sub(1);
    }
    head.get(..end).unwrap_or(&[])
}
