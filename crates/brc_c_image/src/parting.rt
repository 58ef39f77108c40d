//! Which blocks a text has, where one text can't have them all.

use crate::laying::{Laid, lay};
use crate::layout::{Layout, Part};
use std::alloc::{AllocError, Global};

/// How many instructions a function of a module has at most.
pub(crate) const MOST_INSTRUCTIONS: usize = 256;

/// How many instructions a text has at most that has a part of the blocks. A fault may take some more.
const MOST_OF_A_PART: usize = 224;

/// Returns parts that together have all blocks, or `None` if a block is too large for a text. One part has them all, if
/// its text isn't too long; a fault needs room in it.
pub(crate) fn parts_of(
    alloc: Global,
    layout: &Layout,
    is_at_fault: bool,
) -> Result<Option<Vec<Part>>, AllocError> {
    let mut parts = Vec::new(alloc);
    let count = layout.order.len();
    let whole = Part {
        first: 0,
        end: count,
    };
    let most = if is_at_fault {
        MOST_OF_A_PART
    } else {
        MOST_INSTRUCTIONS
    };
    if fits(alloc, layout, whole, most)? {
        parts.push(whole)?;
        return Ok(Some(parts));
    }
    let mut first = 0;
    for _ in 0..count {
        if first >= count {
            break;
        }
        match part_from(alloc, layout, first)? {
            Some(part) => {
                parts.push(part)?;
                first = part.end;
            }
            None => return Ok(None),
        }
    }
    Ok(Some(parts))
}

/// Returns a part that begins at a place.
fn part_from(alloc: Global, layout: &Layout, first: usize) -> Result<Option<Part>, AllocError> {
    let left = layout.order.len().saturating_sub(first);
    let mut length = left.min(MOST_OF_A_PART);
    for _ in 0..MOST_OF_A_PART {
        if length == 0 {
            break;
        }
        let part = Part {
            first,
            end: first.saturating_add(length),
        };
        if fits(alloc, layout, part, MOST_OF_A_PART)? {
            return Ok(Some(part));
        }
        length = length.saturating_sub((length / 4).max(1));
    }
    Ok(None)
}

fn fits(alloc: Global, layout: &Layout, part: Part, most: usize) -> Result<bool, AllocError> {
    let parted = Layout {
        blocks: layout.blocks,
        order: layout.order,
        places: layout.places,
        shown: None,
        part,
    };
    let mut laid = Laid::new(alloc, layout.blocks.len())?;
    lay(alloc, &parted, &mut laid)?;
    Ok(laid.lines.len() <= most)
}

/// Returns the part that has the block at a place.
pub(crate) fn part_with(parts: &[Part], place: usize) -> Option<Part> {
    parts.iter().find(|part| part.has(place)).copied()
}
