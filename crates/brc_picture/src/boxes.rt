//! The boxes of a picture: the parts of the threads' work.

use crate::lane::{Lane, widen};
use brc_lang::{Function, Instr};
use brc_trace::{Doing, Entry, part_text};
use brc_world::Part;
use std::alloc::{AllocError, Global};

/// A part of a thread's work, or a piece of one, without a step of another thread in it.
#[derive(Drop)]
pub struct PartBox {
    pub thread: u8,
    /// Its first line, which has the words.
    pub first: u32,
    /// The first line below it.
    pub end: u32,
    pub part: Part,
    pub words: Vec<u8>,
    /// Whether it is an instruction that ends its call.
    ends: bool,
    /// How many calls of the thread are open at an instruction.
    pub depth: u64,
    /// The last line of the same part's piece above it, if other threads have taken steps in between.
    pub goes_on_from: Option<u32>,
}

impl PartBox {
    /// Whether the step of the entry, of the same thread, goes on with this part. What begins after the end of a call
    /// is another part.
    fn goes_on(&self, entry: &Entry) -> bool {
        entry.doing.part == self.part && !(self.ends && entry.sight.begins.is_some())
    }
}

/// The boxes, as they grow by the steps.
#[derive(Drop)]
pub struct Boxes {
    boxes: Vec<PartBox>,
    /// How many lines there are.
    pub lines: u32,
}

impl Boxes {
    pub fn new(alloc: Global) -> Boxes {
        Boxes {
            boxes: Vec::new(alloc),
            lines: 0,
        }
    }

    /// Adds the entry's line, and before it the line of a new box, if the entry needs one. Returns the entry's line.
    pub fn add(
        &mut self,
        alloc: Global,
        functions: &[Function],
        lanes: &mut [Lane],
        entry: &Entry,
    ) -> Result<u32, AllocError> {
        if !self.is_in_last(entry) {
            let above = self.end_of_same(entry);
            let words = part_text(alloc, functions, entry.sight.function, entry.doing.part)?;
            let deeper = depth_of(entry.doing).saturating_sub(1).saturating_mul(2) as usize;
            widen(lanes, entry.thread, words.len().saturating_add(deeper));
            let first = self.lines;
            self.lines = first.saturating_add(1);
            self.boxes.push(PartBox {
                thread: entry.thread,
                first,
                end: first.saturating_add(1),
                part: entry.doing.part,
                words,
                ends: ends_call(functions, entry.sight.function, entry.doing.part),
                depth: depth_of(entry.doing),
                goes_on_from: above,
            })?;
        }
        let line = self.lines;
        self.lines = self.lines.saturating_add(1);
        let end = self.lines;
        if let Some(last) = self.boxes.last_mut() {
            last.end = end;
        }
        Ok(line)
    }

    /// Returns the boxes.
    pub fn into_boxes(self) -> Vec<PartBox> {
        let Boxes { boxes, lines: _ } = self;
        boxes
    }

    /// Whether the entry's step belongs to the part of the last box.
    fn is_in_last(&self, entry: &Entry) -> bool {
        match self.boxes.as_slice().last() {
            Some(last) => last.thread == entry.thread && last.goes_on(entry),
            None => false,
        }
    }

    /// Returns where the last box of the thread ends, if the entry's step belongs to its part.
    fn end_of_same(&self, entry: &Entry) -> Option<u32> {
        let mut end = None;
        for other in self.boxes.as_slice() {
            if other.thread == entry.thread {
                end = if other.goes_on(entry) {
                    Some(other.end)
                } else {
                    None
                };
            }
        }
        end
    }
}

/// Returns how many calls are open at an instruction, and 1 outside of instructions.
fn depth_of(doing: Doing) -> u64 {
    match doing.part {
        Part::Instruction { .. } => doing.depth,
        Part::Claim { .. } | Part::Stop | Part::Exit(_) => 1,
    }
}

/// Whether the part is an instruction of the function with the number, and ends the call.
fn ends_call(functions: &[Function], number: usize, part: Part) -> bool {
    let Part::Instruction { at } = part else {
        return false;
    };
    match functions.get(number) {
        Some(function) => matches!(
            function.code.as_slice().get(at),
            Some(Instr::Ret { .. } | Instr::Fail)
        ),
        None => false,
    }
}
