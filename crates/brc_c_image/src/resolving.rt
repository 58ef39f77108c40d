//! Blocks for which nothing is written are passed by.

use crate::block::{Block, Branch};
use crate::blocks::Blocks;

/// Leads each block past those for which nothing is written. A question whose answers lead to the same block isn't
/// asked.
pub(crate) fn pass_by(blocks: &mut Blocks) {
    for number in (0..blocks.len()).rev() {
        shorten(blocks, number);
    }
    for number in 0..blocks.len() {
        stop_circle(blocks, number);
    }
    for number in 0..blocks.len() {
        shorten(blocks, number);
    }
}

/// Returns the first block from here on for which something is written, or `None` if a path goes round for ever.
fn written_from(blocks: &Blocks, number: usize) -> Option<usize> {
    let mut at = number;
    for _ in 0..=blocks.len() {
        match blocks.get(at)?.passes_to() {
            None => return Some(at),
            Some(next) => at = next,
        }
    }
    None
}

fn lead(blocks: &Blocks, to: Option<usize>) -> Option<usize> {
    let to = to?;
    match written_from(blocks, to) {
        Some(written) => Some(written),
        None => Some(to),
    }
}

fn shorten(blocks: &mut Blocks, number: usize) {
    let Some(block) = blocks.get(number) else {
        return;
    };
    let next = lead(blocks, block.next);
    let other = lead(blocks, block.other);
    let is_idle = block.branch == Branch::Ask && next == other;
    blocks.set(
        number,
        Block {
            next,
            other: if is_idle { None } else { other },
            branch: if is_idle {
                Branch::Nothing
            } else {
                block.branch
            },
            ..block
        },
    );
}

/// A path that goes round for ever without an instruction gives up.
fn stop_circle(blocks: &mut Blocks, number: usize) {
    if written_from(blocks, number).is_some() {
        return;
    }
    if let Some(block) = blocks.get(number) {
        blocks.set(
            number,
            Block {
                next: None,
                ..block
            },
        );
    }
}
