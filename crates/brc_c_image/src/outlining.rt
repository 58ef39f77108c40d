//! What a text is to show: a point for each of its blocks, in the state of the block's store, and where paths go on
//! from there. Nothing of it comes from the lines but where each block begins.

use crate::beginning::roots_of;
use crate::block::{Block, Held};
use crate::laying::Laid;
use crate::layout::Layout;
use crate::state::state_of;
use brc_c_outline::{Broken, Outline, Point};
use std::alloc::{AllocError, Global};

/// The blocks of a text that are points of its outline.
#[derive(Drop)]
pub(crate) struct Numbers {
    /// The point of each block, by the block's number.
    of_blocks: Vec<Option<usize>>,
    /// The blocks, by the numbers of their points.
    pub(crate) blocks: Vec<usize>,
    /// The number of the first of these points.
    pub(crate) first: usize,
}

impl Numbers {
    fn add(&mut self, block: usize) -> Result<(), AllocError> {
        let number = self.first.saturating_add(self.blocks.len());
        if let Some(found) = self.of_blocks.get_mut(block) {
            *found = Some(number);
            self.blocks.push(block)?;
        }
        Ok(())
    }

    /// Returns the point of a block.
    pub(crate) fn of(&self, block: usize) -> Option<usize> {
        self.of_blocks.get(block).copied()?
    }
}

/// Returns the outline of a text.
pub(crate) fn outline_of(
    alloc: Global,
    layout: &Layout,
    laid: &Laid,
    numbers: &Numbers,
) -> Result<Outline, AllocError> {
    let mut points = Vec::new(alloc);
    if layout.part.first > 0 {
        points.push(beginning(alloc, layout, numbers)?)?;
    }
    for number in numbers.blocks.iter() {
        if let Some(block) = layout.blocks.get(*number) {
            points.push(point_of(alloc, layout, laid, numbers, *number, &block)?)?;
        }
    }
    Ok(Outline { points })
}

/// Returns the point at which a text begins that has only a part of the blocks.
fn beginning(alloc: Global, layout: &Layout, numbers: &Numbers) -> Result<Point, AllocError> {
    let mut ways = Vec::new(alloc);
    for number in roots_of(alloc, layout)?.iter() {
        add_way(layout, numbers, Some(*number), &mut ways)?;
    }
    Ok(Point {
        start: 0,
        state: state_of(&Held::NOTHING),
        broken: None,
        ways,
    })
}

/// Returns which blocks are points: those of the text for which something is written, and each to which paths leave it
/// by lines of their own. A fork belongs to the block whose ways it asks for.
pub(crate) fn numbers_of(
    alloc: Global,
    layout: &Layout,
    laid: &Laid,
) -> Result<Numbers, AllocError> {
    let mut numbers = Numbers {
        of_blocks: Vec::with_capacity(alloc, layout.blocks.len())?,
        blocks: Vec::new(alloc),
        first: if layout.part.first > 0 { 1 } else { 0 },
    };
    for _ in 0..layout.blocks.len() {
        numbers.of_blocks.push(None)?;
    }
    let forks = forks_of(alloc, layout)?;
    for (place, number) in layout.order.iter().enumerate() {
        let is_fork = forks.get(*number).copied().unwrap_or(false);
        if layout.part.has(place) && !is_fork && written_from(layout, *number) == *number {
            numbers.add(*number)?;
        }
    }
    for (number, detour) in laid.detours.iter().enumerate() {
        if detour.is_some() && !layout.has(number) {
            numbers.add(number)?;
        }
    }
    Ok(numbers)
}

/// Returns the block whose lines a path comes to at a block: the text may have some for which nothing is written.
fn written_from(layout: &Layout, number: usize) -> usize {
    let mut at = number;
    for _ in 0..layout.blocks.len() {
        match next_of_silent(layout, at) {
            Some(next) => at = next,
            None => return at,
        }
    }
    number
}

fn next_of_silent(layout: &Layout, number: usize) -> Option<usize> {
    let next = layout.blocks.get(number)?.passes_to()?;
    if layout.has(next) { Some(next) } else { None }
}

/// Returns which blocks are forks of blocks of the text.
fn forks_of(alloc: Global, layout: &Layout) -> Result<Vec<bool>, AllocError> {
    let mut forks = Vec::with_capacity(alloc, layout.blocks.len())?;
    for _ in 0..layout.blocks.len() {
        forks.push(false)?;
    }
    for (place, number) in layout.order.iter().enumerate() {
        if layout.part.has(place) {
            if let Some(fork) = fork_of(layout, *number) {
                if let Some(found) = forks.get_mut(fork) {
                    *found = true;
                }
            }
        }
    }
    Ok(forks)
}

/// Returns the fork of a block, if the text has one.
fn fork_of(layout: &Layout, number: usize) -> Option<usize> {
    let other = layout.blocks.get(number)?.other?;
    let is_fork = layout.blocks.get(other)?.is_fork;
    if is_fork && layout.has(other) {
        Some(other)
    } else {
        None
    }
}

fn point_of(
    alloc: Global,
    layout: &Layout,
    laid: &Laid,
    numbers: &Numbers,
    number: usize,
    block: &Block,
) -> Result<Point, AllocError> {
    let is_here = layout.has(number);
    let start = if is_here {
        laid.starts.get(number).copied().unwrap_or(0)
    } else {
        laid.detours
            .get(number)
            .copied()
            .unwrap_or(None)
            .unwrap_or(0)
    };
    let mut ways = Vec::new(alloc);
    if is_here {
        add_ways(layout, numbers, number, block, &mut ways)?;
    }
    Ok(Point {
        start,
        state: state_of(&block.held),
        broken: broken_at(layout, laid, number, block),
        ways,
    })
}

/// Returns the rule that a block breaks, if the text shows it.
fn broken_at(layout: &Layout, laid: &Laid, number: usize, block: &Block) -> Option<Broken> {
    let broken = block.broken?;
    if layout.shown == Some(number) {
        Some(Broken {
            code: broken.code,
            at: laid.at,
        })
    } else {
        None
    }
}

/// Adds where paths go on from a block. Where the text doesn't have the next block, they give up.
fn add_ways(
    layout: &Layout,
    numbers: &Numbers,
    number: usize,
    block: &Block,
    ways: &mut Vec<usize>,
) -> Result<(), AllocError> {
    add_next(layout, numbers, block, ways)?;
    match fork_of(layout, number) {
        Some(fork) => match layout.blocks.get(fork) {
            Some(fork) => {
                add_next(layout, numbers, &fork, ways)?;
                add_way(layout, numbers, fork.other, ways)
            }
            None => Ok(()),
        },
        None => add_way(layout, numbers, block.other, ways),
    }
}

fn add_next(
    layout: &Layout,
    numbers: &Numbers,
    block: &Block,
    ways: &mut Vec<usize>,
) -> Result<(), AllocError> {
    match block.next {
        Some(next) => {
            if layout.has(next) {
                add_way(layout, numbers, Some(next), ways)
            } else {
                Ok(())
            }
        }
        None => Ok(()),
    }
}

fn add_way(
    layout: &Layout,
    numbers: &Numbers,
    to: Option<usize>,
    ways: &mut Vec<usize>,
) -> Result<(), AllocError> {
    let Some(to) = to else {
        return Ok(());
    };
    let block = if layout.has(to) {
        written_from(layout, to)
    } else {
        to
    };
    if let Some(point) = numbers.of(block) {
        ways.push(point)?;
    }
    Ok(())
}
