//! The bars of a picture: the objects that its steps touch.

use crate::life::{Life, Lives, touched_row, turn_of};
use crate::note::{Left, Note, found_by, left_by};
use brc_effect::rows::block_of;
use brc_model::{Duty, Layout};
use brc_trace::Entry;
use brc_world::Event;
use std::alloc::{AllocError, Global};

/// The bar of an object.
#[derive(Drop)]
pub struct Bar {
    pub row: u32,
    /// The thread that owns the object until its counts are merged.
    pub owner: u32,
    /// Its first line.
    pub first: u32,
    /// The first line below it.
    pub end: u32,
    /// Which column it is in, from 0, or `None` if there are too many beside it.
    pub column: Option<u32>,
    pub bands: Vec<Band>,
    pub notes: Vec<Note>,
    /// The counts with which the picture begins, as far as a step has found them.
    local: Option<Left>,
    shared: Option<Left>,
    life: Life,
    since: u32,
}

/// Some lines in which an object has one state.
#[derive(Clone, Copy)]
pub struct Band {
    pub life: Life,
    pub first: u32,
    pub end: u32,
}

impl Bar {
    /// Returns the bar of an object that the entry's step, in this line, is the first to touch. The object is as old as
    /// the picture, unless the step is of its birth.
    fn new(alloc: Global, row: u32, line: u32, entry: &Entry, before: &Lives) -> Bar {
        let (first, life) = if is_birth(&entry.sight.event) {
            (line, Life::Unborn)
        } else {
            (0, before.of(row))
        };
        Bar {
            row,
            owner: owner_of(entry.sight.layout, row),
            first,
            end: first,
            column: None,
            bands: Vec::new(alloc),
            notes: Vec::new(alloc),
            local: None,
            shared: None,
            life,
            since: first,
        }
    }

    /// Remembers the count that a step has found, if the picture's steps before it haven't accessed this one. An object
    /// that is born in the picture begins without counts.
    fn found(&mut self, count: Left) {
        if self.first != 0 {
            return;
        }
        match count {
            Left::Local { .. } if self.local.is_none() => self.local = Some(count),
            Left::Shared { .. } if self.shared.is_none() => self.shared = Some(count),
            _ => {}
        }
    }

    /// Notes the counts with which the picture begins. Its first line is that of a box's words, so no step has a note
    /// there; the first step may have one in the line below it.
    fn note_first(&mut self) -> Result<(), AllocError> {
        if let Some(left) = self.local {
            self.notes.push(Note { line: 0, left })?;
        }
        if self.notes.as_slice().iter().any(|note| note.line == 1) {
            return Ok(());
        }
        if let Some(left) = self.shared {
            self.notes.push(Note { line: 1, left })?;
        }
        Ok(())
    }

    /// From this line on the object has this state.
    fn turn(&mut self, line: u32, life: Life) -> Result<(), AllocError> {
        self.finish(line)?;
        self.life = life;
        self.since = line;
        Ok(())
    }

    /// Ends the band of the object's state above this line.
    fn finish(&mut self, line: u32) -> Result<(), AllocError> {
        if self.since < line {
            let band = Band {
                life: self.life,
                first: self.since,
                end: line,
            };
            self.bands.push(band)?;
        }
        self.end = line;
        Ok(())
    }
}

fn is_birth(event: &Event) -> bool {
    match event {
        Event::Does { duty, .. } => matches!(
            *duty,
            Duty::BirthKind { .. } | Duty::BirthField { .. } | Duty::BirthLocal { .. }
        ),
        Event::Silent | Event::Calls(_) => false,
    }
}

/// Returns the thread in whose block the row is.
fn owner_of(layout: Layout, row: u32) -> u32 {
    if layout.rows == 0 {
        return 0;
    }
    block_of(layout, row)
}

/// The bars, as they grow by the steps.
#[derive(Drop)]
pub struct Bars {
    bars: Vec<Bar>,
}

impl Bars {
    pub fn new(alloc: Global) -> Bars {
        Bars {
            bars: Vec::new(alloc),
        }
    }

    /// Shows what the entry's step, in this line, does with objects.
    pub fn add(
        &mut self,
        alloc: Global,
        line: u32,
        entry: &Entry,
        before: &Lives,
    ) -> Result<(), AllocError> {
        let event = &entry.sight.event;
        if let Some(row) = touched_row(event) {
            self.want(alloc, row, line, entry, before)?;
        }
        if let Some((row, count)) = found_by(event) {
            self.found(row, count);
        }
        if let Some((row, left)) = left_by(entry.thread, event) {
            self.note(row, Note { line, left })?;
        }
        if let Some((row, life)) = turn_of(entry.sight.exit, event) {
            self.turn(row, line, life)?;
        }
        Ok(())
    }

    /// Sees that the row has a bar.
    fn want(
        &mut self,
        alloc: Global,
        row: u32,
        line: u32,
        entry: &Entry,
        before: &Lives,
    ) -> Result<(), AllocError> {
        for bar in &self.bars {
            if bar.row == row {
                return Ok(());
            }
        }
        self.bars.push(Bar::new(alloc, row, line, entry, before))?;
        Ok(())
    }

    fn found(&mut self, row: u32, count: Left) {
        for bar in self.bars.as_mut_slice().iter_mut() {
            if bar.row == row {
                bar.found(count);
            }
        }
    }

    fn note(&mut self, row: u32, note: Note) -> Result<(), AllocError> {
        for bar in self.bars.as_mut_slice().iter_mut() {
            if bar.row == row {
                bar.notes.push(note)?;
            }
        }
        Ok(())
    }

    fn turn(&mut self, row: u32, line: u32, life: Life) -> Result<(), AllocError> {
        for bar in self.bars.as_mut_slice().iter_mut() {
            if bar.row == row {
                bar.turn(line, life)?;
            }
        }
        Ok(())
    }

    /// Returns the bars, which end at the picture's end. That of a closed object ends with the line in which it is
    /// closed.
    pub fn into_bars(self, lines: u32) -> Result<Vec<Bar>, AllocError> {
        let Bars { mut bars } = self;
        for bar in bars.as_mut_slice().iter_mut() {
            let end = if bar.life == Life::Closed {
                bar.since.saturating_add(1)
            } else {
                lines
            };
            bar.finish(end)?;
            bar.note_first()?;
        }
        Ok(bars)
    }
}
