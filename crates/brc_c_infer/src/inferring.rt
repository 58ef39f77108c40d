//! The rows of all functions of a program, in rounds.

use crate::calls::Calls;
use crate::concluding::conclude;
use crate::file::{File, Files, Numbered};
use crate::helpers::helpers_of;
use crate::names::Names;
use crate::numbering::number_functions;
use crate::order::callees_first;
use crate::own::Own;
use crate::rows::are_same;
use crate::rule::row_by_rule;
use brc_c_flow::OwnRow;
use brc_c_table::Tables;
use brc_c_text::Symbols;
use brc_c_tree::Body;
use std::alloc::{AllocError, Global};

/// How often the functions of a recursion are taken.
const MOST_ROUNDS: usize = 4;

/// The rows as far as they are found.
#[derive(Drop)]
struct Work<'a> {
    files: Files<'a>,
    names: Names,
    numbered: Vec<Numbered>,
    helpers: Vec<bool>,
    calls: Calls,
    /// Of each function whether its row matters to others, or to the verdict on itself.
    needed: Vec<bool>,
    rows: Vec<Option<OwnRow>>,
    /// How many rows were made before that of a function was, and before it changed.
    made: Vec<usize>,
    changed: Vec<usize>,
    turn: usize,
}

/// Returns what the functions of a program do with references. Returns an error only if memory is refused.
pub fn infer(
    alloc: Global,
    symbols: &Symbols,
    tables: &Tables,
    files: &[File<'_>],
) -> Result<Own, AllocError> {
    let files = Files {
        alloc,
        symbols,
        tables,
        files,
    };
    let mut work = Work::new(files)?;
    let order = callees_first(alloc, &work.calls)?;
    for _round in 0..MOST_ROUNDS {
        if !work.round(order.as_slice())? {
            break;
        }
    }
    work.end()
}

impl<'a> Work<'a> {
    fn new(files: Files<'a>) -> Result<Work<'a>, AllocError> {
        let alloc = files.alloc;
        let mut names = Names::new(alloc);
        let numbered = number_functions(&files, &mut names)?;
        let helpers = helpers_of(&files, &names, numbered.as_slice())?;
        let calls = Calls::of(&files, &names, numbered.as_slice())?;
        let needed = calls.needed(alloc, helpers.as_slice())?;
        let mut work = Work {
            files,
            names,
            numbered,
            helpers,
            calls,
            needed,
            rows: Vec::new(alloc),
            made: Vec::new(alloc),
            changed: Vec::new(alloc),
            turn: 1,
        };
        work.begin()?;
        Ok(work)
    }

    /// Gives each function that is read the row of the general rule.
    fn begin(&mut self) -> Result<(), AllocError> {
        for number in 0..self.numbered.len() {
            let row = self.first_row(number)?;
            self.rows.push(row)?;
            self.made.push(0)?;
            self.changed.push(1)?;
        }
        Ok(())
    }

    fn first_row(&self, number: usize) -> Result<Option<OwnRow>, AllocError> {
        let Some(numbered) = self.numbered.get(number).copied() else {
            return Ok(None);
        };
        match self.files.function(numbered) {
            Some((file, function)) => match &function.body {
                Body::Read(_, _) => Ok(Some(row_by_rule(&self.files, file, function)?)),
                Body::NotRead(_) => Ok(None),
            },
            None => Ok(None),
        }
    }

    /// Makes the rows anew that rest on others which changed since. Returns whether there was one.
    fn round(&mut self, order: &[usize]) -> Result<bool, AllocError> {
        let mut is_changed = false;
        for number in order {
            if self.is_stale(*number) {
                is_changed = true;
                self.make_row(*number)?;
            }
        }
        Ok(is_changed)
    }

    /// Returns whether a function has no row of its own, or one that rests on others which changed since. By the row of
    /// a function that nobody calls it is judged as by the general rule.
    fn is_stale(&self, number: usize) -> bool {
        if !self.needed.get(number).copied().unwrap_or(true) {
            return false;
        }
        let made = self.made.get(number).copied().unwrap_or(0);
        for callee in self.calls.callees(number) {
            if self.changed.get(*callee).copied().unwrap_or(0) > made {
                return true;
            }
        }
        made == 0
    }

    fn make_row(&mut self, number: usize) -> Result<(), AllocError> {
        self.turn = self.turn.saturating_add(1);
        let row = self.concluded(number)?;
        let turn = self.turn;
        if let Some(made) = self.made.get_mut(number) {
            *made = turn;
        }
        if let Some(old) = self.rows.get_mut(number) {
            if !are_same(old, &row) {
                *old = row;
                // A recursion of one function makes its row anew.
                if let Some(changed) = self.changed.get_mut(number) {
                    *changed = turn.saturating_add(1);
                }
                self.turn = turn.saturating_add(1);
            }
        }
        Ok(())
    }

    fn concluded(&self, number: usize) -> Result<Option<OwnRow>, AllocError> {
        let Some(numbered) = self.numbered.get(number).copied() else {
            return Ok(None);
        };
        let Some((file, function)) = self.files.function(numbered) else {
            return Ok(None);
        };
        let own = self.names.in_file(numbered.file, self.rows.as_slice());
        let is_helper = self.helpers.get(number).copied().unwrap_or(false);
        conclude(&self.files, file, own, function, is_helper)
    }

    /// Forgets the rows that still change.
    fn end(self) -> Result<Own, AllocError> {
        let mut unsettled = Vec::new(self.files.alloc);
        for number in 0..self.rows.len() {
            unsettled.push(self.is_stale(number))?;
        }
        let Work { names, rows, .. } = self;
        let mut rows = rows;
        for (number, is_unsettled) in unsettled.iter().enumerate() {
            if *is_unsettled {
                if let Some(row) = rows.get_mut(number) {
                    *row = None;
                }
            }
        }
        Ok(Own {
            names,
            rows,
            unsettled,
        })
    }
}
