//! The lines of a text, block after block.

use crate::beginning::begin_at;
use crate::block::{Block, Branch};
use crate::layout::Layout;
use crate::line::{LOCK, Line, Target};
use crate::tails::write_tail;
use std::alloc::{AllocError, Global};

/// The lines of a text.
#[derive(Drop)]
pub(crate) struct Laid {
    pub(crate) lines: Vec<Line>,
    /// The first line of each block, by the block's number.
    pub(crate) starts: Vec<usize>,
    /// The line from which a path goes back to a block, by the block's number.
    pub(crate) detours: Vec<Option<usize>>,
    /// The blocks to which a path goes back by a detour.
    wanted: Vec<usize>,
    /// The line that is at fault.
    pub(crate) at: usize,
}

impl Laid {
    /// Returns the text without lines, of this many blocks.
    pub(crate) fn new(alloc: Global, count: usize) -> Result<Laid, AllocError> {
        let mut laid = Laid {
            lines: Vec::new(alloc),
            starts: Vec::new(alloc),
            detours: Vec::new(alloc),
            wanted: Vec::new(alloc),
            at: 0,
        };
        for _ in 0..count {
            laid.starts.push(0)?;
            laid.detours.push(None)?;
        }
        Ok(laid)
    }
}

/// Writes the blocks of a text.
pub(crate) fn lay(alloc: Global, layout: &Layout, laid: &mut Laid) -> Result<(), AllocError> {
    let last = layout.last();
    begin_at(alloc, layout, laid)?;
    for (place, number) in layout.order.iter().enumerate() {
        if layout.part.has(place) && last != Some(*number) {
            lay_block(layout, place, *number, laid)?;
        }
    }
    for turn in 0..laid.wanted.len() {
        lay_detour(layout, turn, laid)?;
    }
    match last {
        Some(number) => lay_block(layout, layout.order.len(), number, laid),
        None => Ok(()),
    }
}

fn lay_block(
    layout: &Layout,
    place: usize,
    number: usize,
    laid: &mut Laid,
) -> Result<(), AllocError> {
    let start = laid.lines.len();
    if let Some(known) = laid.starts.get_mut(number) {
        *known = start;
    }
    let Some(block) = layout.blocks.get(number) else {
        return Ok(());
    };
    if let Some(broken) = block.broken {
        if layout.shown != Some(number) {
            return write_tail(&block.held, &mut laid.lines);
        }
        laid.at = start.saturating_add(broken.at);
    }
    for at in block.first..block.end {
        if let Some(line) = layout.blocks.lines.get(at) {
            laid.lines.push(*line)?;
        }
    }
    if block.is_end {
        return Ok(());
    }
    lay_branch(layout, place, &block, laid)?;
    lay_next(layout, place, &block, laid)
}

fn lay_branch(
    layout: &Layout,
    place: usize,
    block: &Block,
    laid: &mut Laid,
) -> Result<(), AllocError> {
    let Some(other) = block.other else {
        return Ok(());
    };
    let otherwise = target(layout, place, other, laid)?;
    match block.branch {
        Branch::Nothing => {}
        Branch::Ask => laid.lines.push(Line::Ask(otherwise))?,
        Branch::Fetch(register) => laid.lines.push(Line::Fetch {
            to: register.number(),
            otherwise,
        })?,
        Branch::Make(register) => laid.lines.push(Line::Make {
            to: register.number(),
            otherwise,
        })?,
        Branch::Borrow(register) => laid.lines.push(Line::Borrow {
            to: register.number(),
            list: LOCK,
            otherwise,
        })?,
    }
    Ok(())
}

/// Returns where a line leads whose path goes on at a block: no line but `again` leads to one above.
fn target(layout: &Layout, place: usize, to: usize, laid: &mut Laid) -> Result<Target, AllocError> {
    if layout.place(to) > place && layout.has(to) {
        return Ok(Target::Block(to));
    }
    if !laid.wanted.contains(&to) {
        laid.wanted.push(to)?;
    }
    Ok(Target::Detour(to))
}

fn lay_next(
    layout: &Layout,
    place: usize,
    block: &Block,
    laid: &mut Laid,
) -> Result<(), AllocError> {
    let Some(next) = block.next else {
        return write_tail(&block.held, &mut laid.lines);
    };
    if layout.place(next) <= place || !layout.has(next) {
        return lay_jump(layout, next, laid);
    }
    let below = layout.order.get(place.saturating_add(1)).copied();
    if below != Some(next) || layout.last() == Some(next) {
        laid.lines.push(Line::Goto(Target::Block(next)))?;
    }
    Ok(())
}

/// Writes a jump to a block above. The checker also walks past an `again`, with what the block above holds. Where the
/// text doesn't have the block, paths give up.
fn lay_jump(layout: &Layout, to: usize, laid: &mut Laid) -> Result<(), AllocError> {
    if layout.has(to) {
        laid.lines.push(Line::Again(to))?;
    }
    match layout.blocks.get(to) {
        Some(block) => write_tail(&block.held, &mut laid.lines),
        None => Ok(()),
    }
}

fn lay_detour(layout: &Layout, turn: usize, laid: &mut Laid) -> Result<(), AllocError> {
    let Some(to) = laid.wanted.get(turn).copied() else {
        return Ok(());
    };
    let start = laid.lines.len();
    if let Some(known) = laid.detours.get_mut(to) {
        *known = Some(start);
    }
    lay_jump(layout, to, laid)
}
