//! The order of the blocks in a text: reverse postorder, in which a block comes before those to which it leads, unless
//! a path goes back to them.

use crate::blocks::Blocks;
use std::alloc::{AllocError, Global};

/// A block of which some exits were taken already.
#[derive(Clone, Copy)]
struct Open {
    block: usize,
    taken: u8,
}

/// Returns the numbers of the blocks to which paths lead from the entry, in order.
pub(crate) fn order_of(alloc: Global, blocks: &Blocks) -> Result<Vec<usize>, AllocError> {
    let mut seen = Vec::new(alloc);
    for _ in 0..blocks.len() {
        seen.push(false)?;
    }
    let mut open = Vec::new(alloc);
    let mut order = Vec::new(alloc);
    enter(Some(0), &mut seen, &mut open)?;
    for _ in 0..blocks.len().saturating_mul(3).saturating_add(1) {
        let Some(top) = open.pop() else {
            break;
        };
        take_exit(blocks, top, &mut seen, &mut open, &mut order)?;
    }
    order.reverse();
    Ok(order)
}

/// The block to which a path falls through is entered last, and so comes next in the order.
fn take_exit(
    blocks: &Blocks,
    top: Open,
    seen: &mut Vec<bool>,
    open: &mut Vec<Open>,
    order: &mut Vec<usize>,
) -> Result<(), AllocError> {
    let Some(block) = blocks.get(top.block) else {
        return Ok(());
    };
    match top.taken {
        0 => {
            open.push(Open { taken: 1, ..top })?;
            enter(block.other, seen, open)
        }
        1 => {
            open.push(Open { taken: 2, ..top })?;
            enter(block.next, seen, open)
        }
        _ => {
            order.push(top.block)?;
            Ok(())
        }
    }
}

fn enter(
    block: Option<usize>,
    seen: &mut Vec<bool>,
    open: &mut Vec<Open>,
) -> Result<(), AllocError> {
    let Some(block) = block else {
        return Ok(());
    };
    if let Some(is_seen) = seen.get_mut(block) {
        if !*is_seen {
            *is_seen = true;
            open.push(Open { block, taken: 0 })?;
        }
    }
    Ok(())
}

/// Returns the place of each block in the order, by its number.
pub(crate) fn places_of(
    alloc: Global,
    blocks: &Blocks,
    order: &[usize],
) -> Result<Vec<usize>, AllocError> {
    let mut places = Vec::new(alloc);
    for _ in 0..blocks.len() {
        places.push(0)?;
    }
    for (place, number) in order.iter().enumerate() {
        if let Some(known) = places.get_mut(*number) {
            *known = place;
        }
    }
    Ok(places)
}
