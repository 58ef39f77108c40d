//! The first lines of a text that doesn't begin at the function's entry: they make what the state has at a block.

use crate::block::Held;
use crate::laying::Laid;
use crate::layout::Layout;
use crate::line::{LENT, LOCK, Line, Target};
use brc_c_paths::MOST_REGISTERS;
use std::alloc::{AllocError, Global};

/// Writes the lines that lead to each block to which no other block of the text leads. The entry needs none.
pub(crate) fn begin_at(alloc: Global, layout: &Layout, laid: &mut Laid) -> Result<(), AllocError> {
    if layout.part.first == 0 {
        return Ok(());
    }
    let roots = roots_of(alloc, layout)?;
    let mut left = roots.len();
    for number in roots.iter() {
        left = left.saturating_sub(1);
        if let Some(block) = layout.blocks.get(*number) {
            begin_one(alloc, &block.held, *number, left > 0, laid)?;
        }
    }
    Ok(())
}

/// Returns the blocks of the text to which no block above them leads.
pub(crate) fn roots_of(alloc: Global, layout: &Layout) -> Result<Vec<usize>, AllocError> {
    let mut entered = Vec::with_capacity(alloc, layout.blocks.len())?;
    for _ in 0..layout.blocks.len() {
        entered.push(false)?;
    }
    let mut roots = Vec::new(alloc);
    for (place, number) in layout.order.iter().enumerate() {
        if layout.part.has(place) {
            if !entered.get(*number).copied().unwrap_or(false) {
                roots.push(*number)?;
            }
            if let Some(block) = layout.blocks.get(*number) {
                enter(block.next, &mut entered);
                enter(block.other, &mut entered);
            }
        }
    }
    Ok(roots)
}

fn enter(number: Option<usize>, entered: &mut Vec<bool>) {
    if let Some(number) = number {
        if let Some(found) = entered.get_mut(number) {
            *found = true;
        }
    }
}

/// Writes the lines that lead to a block. If other blocks are entered after it, the first line lets paths pass to them.
fn begin_one(
    alloc: Global,
    held: &Held,
    number: usize,
    has_others: bool,
    laid: &mut Laid,
) -> Result<(), AllocError> {
    let start = laid.lines.len();
    let made = made_of(alloc, held)?;
    let ahead = if has_others {
        start.saturating_add(1)
    } else {
        start
    };
    let tail = ahead.saturating_add(made.len()).saturating_add(1);
    let has_items = !held.items.is_empty();
    if has_others {
        // The tail behind a borrowed item has two lines.
        let next = if has_items {
            tail.saturating_add(2)
        } else {
            tail
        };
        laid.lines.push(Line::Ask(Target::Line(next)))?;
    }
    for line in made.iter() {
        laid.lines.push(with_tail(*line, tail))?;
    }
    laid.lines.push(Line::Goto(Target::Block(number)))?;
    if has_items {
        laid.lines.push(Line::Unlock)?;
        laid.lines.push(Line::Fail)?;
    }
    Ok(())
}

/// Returns the lines that make what a state has.
fn made_of(alloc: Global, held: &Held) -> Result<Vec<Line>, AllocError> {
    let mut made = Vec::new(alloc);
    if held.is_locked {
        made.push(Line::Lock)?;
    }
    let mut next = held.items.first();
    for _ in 0..MOST_REGISTERS {
        let Some(register) = next else {
            break;
        };
        made.push(Line::Borrow {
            to: register.number(),
            list: LOCK,
            otherwise: Target::Below,
        })?;
        next = held.items.behind(register);
    }
    let mut next = held.owned.first();
    for _ in 0..MOST_REGISTERS {
        let Some(register) = next else {
            break;
        };
        made.push(Line::Newref {
            to: register.number(),
            from: LENT,
        })?;
        next = held.owned.behind(register);
    }
    Ok(made)
}

/// Returns the line with the tail to which a path goes that finds no item.
fn with_tail(line: Line, tail: usize) -> Line {
    match line {
        Line::Borrow { to, list, .. } => Line::Borrow {
            to,
            list,
            otherwise: Target::Line(tail),
        },
        other => other,
    }
}
