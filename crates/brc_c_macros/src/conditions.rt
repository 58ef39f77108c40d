use brc_c_text::{Place, Symbol};
use std::alloc::{AllocError, Global};

/// Lines that are left out because nothing defines a name that `#if` asks for.
#[derive(Clone, Copy)]
pub struct Lost {
    pub name: Symbol,
    /// The number of the source, and the lines of the directives before and after those lines.
    pub source: usize,
    pub first: u32,
    pub last: u32,
}

/// An `#if` that isn't closed yet.
#[derive(Clone, Copy)]
struct Open {
    /// Whether the lines around it are read.
    is_outer_read: bool,
    /// Whether its lines were read, in this branch or in an earlier one.
    was_read: bool,
    /// Whether the lines of its present branch are read.
    is_read: bool,
    /// The name without a definition that keeps its present branch from being read.
    missing: Option<Symbol>,
    /// Where its present branch begins.
    place: Place,
}

/// What the condition of a branch says.
#[derive(Clone, Copy)]
pub(crate) struct Verdict {
    pub(crate) holds: bool,
    /// The name without a definition on which that rests.
    pub(crate) missing: Option<Symbol>,
}

/// The conditions that are open, and what was left out for want of a name.
#[derive(Drop)]
pub(crate) struct Conditions {
    open: Vec<Open>,
    lost: Vec<Lost>,
}

impl Conditions {
    pub(crate) fn new(alloc: Global) -> Conditions {
        Conditions {
            open: Vec::new(alloc),
            lost: Vec::new(alloc),
        }
    }

    /// Returns what was left out for want of a name.
    pub(crate) fn into_lost(self) -> Vec<Lost> {
        let Conditions { open: _, lost } = self;
        lost
    }

    /// Returns whether lines are read.
    pub(crate) fn is_read(&self) -> bool {
        match self.open.last() {
            Some(open) => open.is_read,
            None => true,
        }
    }

    /// Returns whether the condition of an `#elif` decides anything.
    pub(crate) fn asks_next(&self) -> bool {
        match self.open.last() {
            Some(open) => open.is_outer_read && !open.was_read,
            None => false,
        }
    }

    pub(crate) fn depth(&self) -> usize {
        self.open.len()
    }

    pub(crate) fn begin(&mut self, verdict: Verdict, place: Place) -> Result<(), AllocError> {
        let is_outer_read = self.is_read();
        let is_read = is_outer_read && verdict.holds;
        self.open.push(Open {
            is_outer_read,
            was_read: is_read,
            is_read,
            missing: verdict.missing,
            place,
        })?;
        Ok(())
    }

    /// Begins the branch of an `#elif` or `#else`, whose condition says this.
    pub(crate) fn next(&mut self, verdict: Verdict, place: Place) -> Result<(), AllocError> {
        let Some(open) = self.open.pop() else {
            return Ok(());
        };
        self.end_branch(&open, place)?;
        let is_read = open.is_outer_read && !open.was_read && verdict.holds;
        // The branch after an `#ifndef` that holds is left out for want of its name.
        let missing = if open.was_read {
            open.missing
        } else {
            verdict.missing
        };
        self.open.push(Open {
            is_outer_read: open.is_outer_read,
            was_read: open.was_read || is_read,
            is_read,
            missing,
            place,
        })?;
        Ok(())
    }

    pub(crate) fn end(&mut self, place: Place) -> Result<(), AllocError> {
        match self.open.pop() {
            Some(open) => self.end_branch(&open, place),
            None => Ok(()),
        }
    }

    /// Closes what a source has left open beyond this depth.
    pub(crate) fn end_beyond(&mut self, depth: usize, place: Place) -> Result<(), AllocError> {
        for _turn in depth..self.open.len() {
            self.end(place)?;
        }
        Ok(())
    }

    /// Notes a branch that was left out for want of a name.
    fn end_branch(&mut self, open: &Open, place: Place) -> Result<(), AllocError> {
        if open.is_read || !open.is_outer_read {
            return Ok(());
        }
        if let Some(name) = open.missing {
            self.lost.push(Lost {
                name,
                source: place.source,
                first: open.place.line,
                last: place.line,
            })?;
        }
        Ok(())
    }
}
