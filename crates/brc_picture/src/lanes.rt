//! The lanes, with the boxes and the steps in them.

use crate::bar::Bar;
use crate::boxes::PartBox;
use crate::lane::Lane;
use crate::picture::{Picture, StepLine};
use crate::place::{
    Across, DEEPER, LEFT, PAD, TOP, characters_in, column_at, height_of, lane_of, middle_of,
    text_of, top_of,
};
use crate::shapes::{close_text, open_text, write_cut_text, write_rect};
use crate::style::thread_class;
use brc_lang::write_bytes;
use brc_trace::Outcome;
use std::io;
use std::io::Write;

/// By how much a step is indented.
const INDENT: u64 = 14;

/// By how much a box is higher than the next one's top.
const GAP: u64 = 2;

/// Writes the name of the thread above its lane.
pub fn write_head<W: Write>(lanes: &[Lane], lane: &Lane, out: &mut W) -> io::Result<()> {
    let Across { left, .. } = lane_of(lanes, lane.thread);
    let base = TOP - 12;
    let class = thread_class(u32::from(lane.thread));
    write!(
        out,
        "<text x=\"{left}\" y=\"{base}\" class=\"head {class}\">"
    )?;
    write_thread(u32::from(lane.thread), out)?;
    close_text(out)
}

/// Writes `main`, or the worker's number.
pub fn write_thread<W: Write>(thread: u32, out: &mut W) -> io::Result<()> {
    if thread == 0 {
        write_bytes(b"main", out)
    } else {
        write!(out, "worker {thread}")
    }
}

/// Writes the line that leads from a step to its object's bar.
pub fn write_guide<W: Write>(picture: &Picture, step: &StepLine, out: &mut W) -> io::Result<()> {
    let Some(row) = step.row else {
        return Ok(());
    };
    let lanes = picture.lanes.as_slice();
    for bar in picture.bars.as_slice() {
        if bar.row == row {
            write_guide_to(lanes, bar, step, out)?;
        }
    }
    Ok(())
}

fn write_guide_to<W: Write>(
    lanes: &[Lane],
    bar: &Bar,
    step: &StepLine,
    out: &mut W,
) -> io::Result<()> {
    let Some(column) = bar.column else {
        return Ok(());
    };
    let from = lane_of(lanes, step.thread).right();
    let to = column_at(lanes, column);
    let middle = middle_of(step.line);
    let class = thread_class(u32::from(step.thread));
    write!(
        out,
        "<path d=\"M{from} {middle}H{to}\" class=\"guide {class}\"/>\n"
    )
}

/// Writes a box with its words. If it goes on with a part after other threads' steps, the box of these is dashed.
pub fn write_box<W: Write>(lanes: &[Lane], part: &PartBox, out: &mut W) -> io::Result<()> {
    let across = lane_of(lanes, part.thread);
    let class = thread_class(u32::from(part.thread));
    if let Some(above) = part.goes_on_from {
        let Across { left, width } = across;
        let top = top_of(above).saturating_sub(GAP);
        let height = height_of(above, part.first).saturating_add(GAP);
        write!(
            out,
            "<rect x=\"{left}\" y=\"{top}\" width=\"{width}\" height=\"{height}\" class=\"gap {class}\"/>\n"
        )?;
    }
    let height = height_of(part.first, part.end).saturating_sub(GAP);
    write_rect(across, top_of(part.first), height, class, out)?;
    let deeper = DEEPER.saturating_mul(part.depth.saturating_sub(1));
    let left = across.left.saturating_add(PAD).saturating_add(deeper);
    let class = if part.goes_on_from.is_some() {
        "part again"
    } else {
        "part"
    };
    write_cut_text(
        left,
        text_of(part.first),
        class,
        part.words.as_slice(),
        characters_in(across.width.saturating_sub(deeper)),
        out,
    )
}

/// Writes the step's number, its rule, and what becomes of references and lives.
pub fn write_step<W: Write>(lanes: &[Lane], step: &StepLine, out: &mut W) -> io::Result<()> {
    let base = text_of(step.line);
    open_text(LEFT - 10, base, "number", out)?;
    let number = step.number;
    write!(out, "{number}")?;
    close_text(out)?;
    let left = lane_of(lanes, step.thread)
        .left
        .saturating_add(PAD + INDENT);
    open_text(left, base, "rule", out)?;
    write_bytes(step.rule.name().as_bytes(), out)?;
    write_outcome(step.reference, out)?;
    write_outcome(step.life, out)?;
    close_text(out)
}

fn write_outcome<W: Write>(outcome: Option<Outcome>, out: &mut W) -> io::Result<()> {
    let Some(outcome) = outcome else {
        return Ok(());
    };
    let row = outcome.row;
    let text = outcome.fate.text();
    write!(
        out,
        "<tspan dx=\"9\" class=\"outcome\">row {row}{text}</tspan>"
    )
}
