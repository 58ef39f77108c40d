//! The first path to a block.

use crate::blocks::Blocks;
use brc_c_paths::Step;
use std::alloc::{AllocError, Global};

/// Returns the steps of the first path to a block.
pub(crate) fn path_to(
    alloc: Global,
    blocks: &Blocks,
    number: usize,
) -> Result<Vec<Step>, AllocError> {
    let mut path = Vec::new(alloc);
    let mut at = number;
    for _ in 0..blocks.len() {
        let Some((before, step)) = step_before(blocks, at) else {
            break;
        };
        if let Some(step) = step {
            path.push(step)?;
        }
        at = before;
    }
    path.reverse();
    Ok(path)
}

/// Returns the block before a block on its first path, and the step from there.
fn step_before(blocks: &Blocks, at: usize) -> Option<(usize, Option<Step>)> {
    let origin = blocks.get(at)?.origin?;
    let before = blocks.get(origin.block)?;
    let step = match origin.choice {
        Some(choice) => Some(Step {
            node: before.node,
            choice,
        }),
        None => None,
    };
    Some((origin.block, step))
}
