//! The source that is read, and the headers that are open inside it.

use brc_c_text::Lexeme;
use std::alloc::{AllocError, Global};

/// How many headers are read of a source, each time that it includes one.
pub const INCLUDE_LIMIT: usize = 1024;

/// How deep headers may include one another.
pub const DEPTH_LIMIT: usize = 64;

/// A source that is being read.
#[derive(Drop)]
struct Open {
    lexemes: Vec<Lexeme>,
    /// The number of the source.
    number: usize,
    /// Where its next line begins.
    at: usize,
    /// How many conditions were open when it began.
    depth: usize,
}

/// The sources that are open, the innermost last.
#[derive(Drop)]
pub(crate) struct Sources {
    open: Vec<Open>,
    /// How many headers were begun.
    begun: usize,
}

/// What comes next.
#[derive(Clone, Copy)]
pub(crate) enum Next {
    /// A line, by its first lexeme and the one after its last.
    Line(usize, usize),
    /// The end of a source, in which this many conditions were open at its beginning.
    End(usize),
}

impl Sources {
    pub(crate) fn new(
        alloc: Global,
        lexemes: Vec<Lexeme>,
        number: usize,
    ) -> Result<Sources, AllocError> {
        let mut sources = Sources {
            open: Vec::new(alloc),
            begun: 0,
        };
        sources.push(lexemes, number, 0)?;
        Ok(sources)
    }

    /// Returns whether another header may be begun.
    pub(crate) fn has_room(&self) -> bool {
        self.begun < INCLUDE_LIMIT && self.open.len() < DEPTH_LIMIT
    }

    pub(crate) fn begin(
        &mut self,
        lexemes: Vec<Lexeme>,
        number: usize,
        depth: usize,
    ) -> Result<(), AllocError> {
        self.begun = self.begun.saturating_add(1);
        self.push(lexemes, number, depth)
    }

    fn push(
        &mut self,
        lexemes: Vec<Lexeme>,
        number: usize,
        depth: usize,
    ) -> Result<(), AllocError> {
        self.open.push(Open {
            lexemes,
            number,
            at: 0,
            depth,
        })?;
        Ok(())
    }

    /// Returns the number of the innermost source.
    pub(crate) fn number(&self) -> usize {
        match self.open.last() {
            Some(open) => open.number,
            None => 0,
        }
    }

    /// Passes the next line of the innermost source, or the source's end.
    pub(crate) fn next(&mut self) -> Option<Next> {
        let open = self.open.last_mut()?;
        let start = open.at;
        if start >= open.lexemes.len() {
            let depth = open.depth;
            let _ = self.open.pop();
            return Some(Next::End(depth));
        }
        let mut end = open.lexemes.len();
        for at in start.saturating_add(1)..open.lexemes.len() {
            if open.lexemes[at].begins_line {
                end = at;
                break;
            }
        }
        open.at = end;
        Some(Next::Line(start, end))
    }

    /// Returns the lexemes of a line of the innermost source.
    pub(crate) fn line(&self, start: usize, end: usize) -> &[Lexeme] {
        match self.open.last() {
            Some(open) => open.lexemes.get(start..end).unwrap_or(&[]),
            None => &[],
        }
    }
}
