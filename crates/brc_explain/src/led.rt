//! Where the instructions of a function lead, whatever its variables hold.

use brc_check::{Exit, target_of};
use brc_lang::Instr;
use std::alloc::{AllocError, Global};

/// Returns the points to which the exits of instructions lead, one after another, from the first one. No path reaches
/// another.
pub fn points_led_to(alloc: Global, code: &[Instr]) -> Result<Vec<usize>, AllocError> {
    let mut points: Vec<usize> = Vec::new(alloc);
    points.push(0)?;
    for turn in 0..code.len() {
        let Some(at) = point_at(points.as_slice(), turn) else {
            break;
        };
        for exit in [Exit::Success, Exit::Fault] {
            if let Some(next) = next_point(code, at, exit) {
                if !points.contains(&next) {
                    points.push(next)?;
                }
            }
        }
    }
    Ok(points)
}

/// Returns the point found at this turn, or `None` if fewer are found.
pub fn point_at(points: &[usize], turn: usize) -> Option<usize> {
    let point = points.get(turn)?;
    Some(*point)
}

/// Returns the point to which the instruction at the point leads by this exit.
fn next_point(code: &[Instr], at: usize, exit: Exit) -> Option<usize> {
    let instr = code.get(at)?;
    let next = target_of(*instr, exit, at)?;
    if next < code.len() { Some(next) } else { None }
}
