//! What is drawn over lanes and bars: the references that move, and what goes wrong.

use crate::arrow::Arrow;
use crate::bar::Bar;
use crate::lane::Lane;
use crate::picture::{Picture, Wrong};
use crate::place::{
    Across, BAR, LINE, column_at, coming_of, height_of, lane_of, leaving_of, reason_across, top_of,
    track_at,
};
use crate::reason::{reason_height, write_reason};
use crate::shapes::{close_text, write_rect};
use crate::tracks::left_of;
use std::io;
use std::io::Write;

/// How far before a corner an arrow begins to bend.
const BEND: u64 = 4;

/// What is between an arrow's head and its lane.
const TIP: u64 = 2;

/// What is between the side of a lane and a row's number.
const SIDE: u64 = 3;

/// The least row whose number is written small, so that it has room before a step's words.
const LONG_ROW: u64 = 1000;

/// Writes the arrow from the nearer side of the one lane, down in its track, to the nearer side of the other lane, with
/// the row's number at its beginning, inside the lane. No word is in its way: its two lines have none in other lanes.
pub fn write_arrow<W: Write>(lanes: &[Lane], arrow: &Arrow, out: &mut W) -> io::Result<()> {
    let Some(track) = arrow.track else {
        return Ok(());
    };
    let down = track_at(lanes, left_of(lanes, arrow), track);
    let from = lane_of(lanes, arrow.from.thread);
    let to = lane_of(lanes, arrow.to.thread);
    if arrow.is_to_the_right() {
        let course = Course {
            begins: from.right(),
            bends: down.saturating_sub(BEND),
            down,
            bent: down.saturating_add(BEND),
            ends: to.left.saturating_sub(TIP),
        };
        write_course(arrow, course, out)?;
        write_row(arrow, from.right().saturating_sub(SIDE), " end", out)
    } else {
        let course = Course {
            begins: from.left,
            bends: down.saturating_add(BEND),
            down,
            bent: down.saturating_sub(BEND),
            ends: to.right().saturating_add(TIP),
        };
        write_course(arrow, course, out)?;
        write_row(arrow, from.left.saturating_add(SIDE), "", out)
    }
}

/// Where an arrow begins, bends down, runs down, has bent to the other lane, and ends.
#[derive(Clone, Copy)]
struct Course {
    begins: u64,
    bends: u64,
    down: u64,
    bent: u64,
    ends: u64,
}

fn write_course<W: Write>(arrow: &Arrow, course: Course, out: &mut W) -> io::Result<()> {
    let Course {
        begins,
        bends,
        down,
        bent,
        ends,
    } = course;
    let high = leaving_of(arrow.from.line);
    let low = coming_of(arrow.to.line);
    let (below, above) = (high.saturating_add(BEND), low.saturating_sub(BEND));
    write!(
        out,
        "<path d=\"M{begins} {high}H{bends}Q{down} {high} {down} {below}V{above}Q{down} {low} {bent} {low}H{ends}\" \
class=\"moves\" marker-end=\"url(#tip)\"/>\n"
    )
}

/// Writes the number of the row whose reference moves.
fn write_row<W: Write>(arrow: &Arrow, left: u64, side: &str, out: &mut W) -> io::Result<()> {
    let base = leaving_of(arrow.from.line);
    let size = if arrow.row < LONG_ROW { "" } else { " tiny" };
    let row = arrow.row;
    write!(
        out,
        "<text x=\"{left}\" y=\"{base}\" class=\"moved{side}{size}\">{row}"
    )?;
    close_text(out)
}

/// Writes why something is wrong, below the last line, and marks its object.
pub fn write_wrong<W: Write>(picture: &Picture, wrong: Wrong<'_>, out: &mut W) -> io::Result<()> {
    let across = reason_across(picture);
    let height = reason_height(wrong.reason(), across.width);
    write_rect(across, top_of(picture.lines), height, "wrong", out)?;
    write_reason(wrong.reason(), across.width, picture.lines, out)?;
    match wrong {
        Wrong::Step { thread, .. } => mark_step(picture, thread, out)?,
        Wrong::Lost { .. } => {}
    }
    match wrong.row() {
        Some(row) => mark_bar(picture, row, out),
        None => Ok(()),
    }
}

/// Writes a frame around the last step, if the thread has taken it.
fn mark_step<W: Write>(picture: &Picture, thread: u8, out: &mut W) -> io::Result<()> {
    match picture.steps.as_slice().last() {
        Some(step) if step.thread == thread => {
            let across = lane_of(picture.lanes.as_slice(), thread);
            write_rect(across, top_of(step.line), LINE, "frame", out)
        }
        _ => Ok(()),
    }
}

/// Writes a frame around the row's bar, down to the reason.
fn mark_bar<W: Write>(picture: &Picture, row: u32, out: &mut W) -> io::Result<()> {
    for bar in picture.bars.as_slice() {
        if bar.row == row {
            frame_bar(picture, bar, out)?;
        }
    }
    Ok(())
}

fn frame_bar<W: Write>(picture: &Picture, bar: &Bar, out: &mut W) -> io::Result<()> {
    let Some(column) = bar.column else {
        return Ok(());
    };
    let across = Across {
        left: column_at(picture.lanes.as_slice(), column),
        width: BAR,
    };
    let height = height_of(bar.first, picture.lines);
    write_rect(across, top_of(bar.first), height, "frame", out)
}
