//! The tracks in which the arrows run down, between two lanes. Arrows beside each other have tracks of their own.

use crate::arrow::Arrow;
use crate::lane::Lane;

/// The most tracks between two lanes. Arrows for which none of them is free share the last one.
const MOST_TRACKS: u32 = 12;

/// Gives each arrow the first free track beside the lane in which it begins, and each lane the number of the tracks
/// right of it.
pub fn place_arrows(lanes: &mut [Lane], arrows: &mut [Arrow]) {
    for at in 0..arrows.len() {
        let found = match arrows.get(at) {
            Some(arrow) => Some(*arrow),
            None => None,
        };
        if let Some(arrow) = found {
            let thread = left_of(lanes, &arrow);
            let track = free_track(lanes, arrows, thread, &arrow);
            make_room(lanes, thread, track);
            if let Some(arrow) = arrows.get_mut(at) {
                arrow.track = Some(track);
            }
        }
    }
}

/// Returns the thread whose lane is left of the arrow's track: its own first lane, or the one left of that.
pub fn left_of(lanes: &[Lane], arrow: &Arrow) -> u8 {
    if arrow.is_to_the_right() {
        return arrow.from.thread;
    }
    let mut left = 0;
    for lane in lanes {
        if lane.thread < arrow.from.thread {
            left = lane.thread;
        }
    }
    left
}

/// Returns the first track right of the thread's lane that no arrow beside this one has.
fn free_track(lanes: &[Lane], arrows: &[Arrow], thread: u8, arrow: &Arrow) -> u32 {
    for track in 0..MOST_TRACKS {
        if is_free(lanes, arrows, thread, track, arrow) {
            return track;
        }
    }
    MOST_TRACKS - 1
}

fn is_free(lanes: &[Lane], arrows: &[Arrow], thread: u8, track: u32, arrow: &Arrow) -> bool {
    for other in arrows {
        if is_taken(lanes, thread, track, other, arrow) {
            return false;
        }
    }
    true
}

/// Whether the other arrow is in the track right of the thread's lane, and has a line in common with this one.
fn is_taken(lanes: &[Lane], thread: u8, track: u32, other: &Arrow, arrow: &Arrow) -> bool {
    other.track == Some(track)
        && left_of(lanes, other) == thread
        && other.from.line <= arrow.to.line
        && arrow.from.line <= other.to.line
}

/// Sees that there is this track right of the thread's lane.
fn make_room(lanes: &mut [Lane], thread: u8, track: u32) {
    for lane in lanes.iter_mut() {
        if lane.thread == thread {
            lane.tracks = lane.tracks.max(track.saturating_add(1));
        }
    }
}
