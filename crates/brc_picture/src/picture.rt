//! A picture: what it shows, and where.

use crate::arrow::{Arrow, Arrows};
use crate::bar::{Bar, Bars};
use crate::boxes::{Boxes, PartBox};
use crate::columns::place_bars;
use crate::lane::{Lane, lanes_of, widen};
use crate::life::touched_row;
use crate::seen::Seen;
use crate::shapes::digits_of;
use crate::tracks::place_arrows;
use brc_lang::Function;
use brc_trace::{Entry, Fate, Outcome, Rule, life_outcome, reference_outcome, rule_at};
use brc_world::Event;
use std::alloc::{AllocError, Global};

/// What goes wrong at the end of a run.
#[derive(Clone, Copy)]
pub enum Wrong<'a> {
    /// The thread's last step: for this reason. `row` is the object that it touches.
    Step {
        thread: u8,
        row: Option<u32>,
        reason: &'a [u8],
    },
    /// The row's object is lost: for this reason.
    Lost {
        row: u32,
        reason: &'a [u8],
    },
}

impl Wrong<'_> {
    /// Returns the reason.
    pub fn reason(&self) -> &[u8] {
        match self {
            Wrong::Step { reason, .. } | Wrong::Lost { reason, .. } => reason.trim_ascii_end(),
        }
    }

    /// Returns the row of the object that is touched or lost.
    pub fn row(&self) -> Option<u32> {
        match self {
            Wrong::Step { row, .. } => *row,
            Wrong::Lost { row, .. } => Some(*row),
        }
    }
}

/// The picture of a run's last steps. A line is a place from the top, counted from 0.
#[derive(Drop)]
pub struct Picture {
    pub lanes: Vec<Lane>,
    pub boxes: Vec<PartBox>,
    pub steps: Vec<StepLine>,
    pub bars: Vec<Bar>,
    pub arrows: Vec<Arrow>,
    pub lines: u32,
    /// How many columns the bars have.
    pub columns: u32,
    /// How many steps the run had before these.
    pub gone: u64,
}

/// The line of a step.
#[derive(Clone, Copy)]
pub struct StepLine {
    pub line: u32,
    /// The step's number in the schedule.
    pub number: u64,
    pub thread: u8,
    pub rule: Rule,
    /// What becomes of a reference of the thread.
    pub reference: Option<Outcome>,
    /// What becomes of an object's life.
    pub life: Option<Outcome>,
    /// The object whose word the step accesses.
    pub row: Option<u32>,
}

/// Returns the picture of what was seen of a run of these functions.
pub fn picture_of(
    alloc: Global,
    functions: &[Function],
    seen: &Seen,
) -> Result<Picture, AllocError> {
    let entries = seen.recent.in_order(alloc)?;
    let mut lanes = lanes_of(alloc, entries.as_slice())?;
    let mut boxes = Boxes::new(alloc);
    let mut bars = Bars::new(alloc);
    let mut arrows = Arrows::new(alloc);
    let mut steps = Vec::new(alloc);
    for entry in entries.as_slice() {
        let line = boxes.add(alloc, functions, lanes.as_mut_slice(), entry)?;
        bars.add(alloc, line, entry, &seen.recent.before)?;
        arrows.add(line, entry)?;
        let step = step_line(line, entry);
        widen(lanes.as_mut_slice(), entry.thread, characters(&step));
        steps.push(step)?;
    }
    let lines = boxes.lines;
    let mut bars = bars.into_bars(lines)?;
    let columns = place_bars(bars.as_mut_slice());
    let mut arrows = arrows.into_arrows();
    place_arrows(lanes.as_mut_slice(), arrows.as_mut_slice());
    Ok(Picture {
        lanes,
        boxes: boxes.into_boxes(),
        steps,
        bars,
        arrows,
        lines,
        columns,
        gone: seen.recent.gone,
    })
}

fn step_line(line: u32, entry: &Entry) -> StepLine {
    let sight = &entry.sight;
    let (reference, life) = outcomes(entry);
    StepLine {
        line,
        number: entry.number,
        thread: entry.thread,
        rule: rule_at(entry.thread, sight.running, sight.event),
        reference,
        life,
        row: touched_row(&sight.event),
    }
}

/// Returns what becomes of a reference and of an object's life, as far as the bars don't show it.
fn outcomes(entry: &Entry) -> (Option<Outcome>, Option<Outcome>) {
    match &entry.sight.event {
        Event::Silent | Event::Calls(_) => (None, None),
        Event::Does {
            duty,
            found,
            left,
            ..
        } => (
            told(reference_outcome(duty, *found)),
            told(life_outcome(entry.sight.exit, duty, *found, *left)),
        ),
    }
}

fn told(outcome: Option<Outcome>) -> Option<Outcome> {
    match outcome {
        Some(Outcome { row: 0, .. }) => None,
        Some(
            Outcome {
                fate: Fate::Closed,
                ..
            },
        ) => None,
        other => other,
    }
}

/// Returns how many characters the step's line has at most.
fn characters(step: &StepLine) -> usize {
    let indent: usize = 3;
    indent
        .saturating_add(step.rule.name().len())
        .saturating_add(outcome_characters(step.reference))
        .saturating_add(outcome_characters(step.life))
}

/// Returns how many characters the outcome has behind two spaces.
fn outcome_characters(outcome: Option<Outcome>) -> usize {
    match outcome {
        Some(outcome) => {
            let digits = digits_of(u64::from(outcome.row)).max(3);
            outcome
                .fate
                .text()
                .len()
                .saturating_add(digits)
                .saturating_add(5)
        }
        None => 0,
    }
}
