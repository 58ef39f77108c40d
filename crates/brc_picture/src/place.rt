//! Where the parts of a picture are, in pixels.

use crate::lane::Lane;
use crate::picture::Picture;

/// The height of a line.
pub const LINE: u64 = 17;

/// The height of what is above the first line.
pub const TOP: u64 = 68;

/// The height of what is below the last line, but for the legend.
pub const BOTTOM: u64 = 12;

/// The width of what is left of the first lane: the steps' numbers.
pub const LEFT: u64 = 62;

/// The least width between two lanes.
const BETWEEN: u64 = 18;

/// The width between a lane and the nearest track of arrows, which has room for an arrow's head.
const HEAD: u64 = 11;

/// The width between two tracks.
const TRACK: u64 = 9;

/// The width that a character takes at most.
pub const CHARACTER: u64 = 7;

/// What is free in a lane on each side of its text.
pub const PAD: u64 = 7;

/// By how much the words of a called function are indented more than those of its caller: by two characters.
pub const DEEPER: u64 = 2 * CHARACTER;

/// The width of a column of bars.
pub const COLUMN: u64 = 92;

/// The width of a bar.
pub const BAR: u64 = 80;

/// The least width of a picture, which the legend needs.
const LEAST: u64 = 700;

/// A part of the width.
#[derive(Clone, Copy)]
pub struct Across {
    pub left: u64,
    pub width: u64,
}

impl Across {
    pub fn right(self) -> u64 {
        self.left.saturating_add(self.width)
    }
}

/// Returns the top of the line.
pub fn top_of(line: u32) -> u64 {
    TOP + LINE * u64::from(line)
}

/// Returns where the text of the line stands.
pub fn text_of(line: u32) -> u64 {
    TOP + 12 + LINE * u64::from(line)
}

/// Returns the middle of the line.
pub fn middle_of(line: u32) -> u64 {
    TOP + 8 + LINE * u64::from(line)
}

/// Returns where an arrow that begins in the line leaves its lane.
pub fn leaving_of(line: u32) -> u64 {
    TOP + 12 + LINE * u64::from(line)
}

/// Returns where an arrow that ends in the line comes to its lane. It may meet neither one that begins there nor the
/// line to the step's object.
pub fn coming_of(line: u32) -> u64 {
    TOP + 4 + LINE * u64::from(line)
}

/// Returns the height of the lines from `first` on, up to the one before `end`.
pub fn height_of(first: u32, end: u32) -> u64 {
    LINE * u64::from(end.saturating_sub(first))
}

/// Returns how many characters a line of this width has.
pub fn characters_in(width: u64) -> usize {
    (width.saturating_sub(2 * PAD) / CHARACTER) as usize
}

fn width_of(lane: &Lane) -> u64 {
    CHARACTER
        .saturating_mul(lane.width as u64)
        .saturating_add(2 * PAD)
}

/// Returns the width between the lane and the next one, which has room for the tracks there.
fn between(lane: &Lane) -> u64 {
    let tracks = u64::from(lane.tracks.saturating_sub(1));
    BETWEEN.max(TRACK.saturating_mul(tracks).saturating_add(2 * HEAD))
}

/// Returns where the track right of the thread's lane is.
pub fn track_at(lanes: &[Lane], thread: u8, track: u32) -> u64 {
    lane_of(lanes, thread)
        .right()
        .saturating_add(HEAD + TRACK * u64::from(track))
}

/// Returns the thread's lane.
pub fn lane_of(lanes: &[Lane], thread: u8) -> Across {
    let mut left = LEFT;
    for lane in lanes {
        let width = width_of(lane);
        if lane.thread == thread {
            return Across { left, width };
        }
        left = left.saturating_add(width).saturating_add(between(lane));
    }
    Across { left, width: 0 }
}

/// Returns where the lanes end.
pub fn lanes_end(lanes: &[Lane]) -> u64 {
    // No thread has this number.
    lane_of(lanes, u8::MAX).left
}

/// Returns the left of the column of bars.
pub fn column_at(lanes: &[Lane], column: u32) -> u64 {
    let bars = COLUMN * u64::from(column);
    lanes_end(lanes).saturating_add(bars)
}

/// Returns the picture's width.
pub fn whole_width(picture: &Picture) -> u64 {
    let bars_end = column_at(picture.lanes.as_slice(), picture.columns);
    bars_end.saturating_add(8).max(LEAST)
}

/// Returns where the words are that say what is wrong.
pub fn reason_across(picture: &Picture) -> Across {
    Across {
        left: LEFT,
        width: whole_width(picture).saturating_sub(LEFT + 2 * PAD),
    }
}

/// Returns the top of what is below the last line.
pub fn below(picture: &Picture) -> u64 {
    top_of(picture.lines).saturating_add(BOTTOM)
}
