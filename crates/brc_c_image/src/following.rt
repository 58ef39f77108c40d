//! Where paths go on after an event.

use crate::block::{Block, Branch, Origin};
use crate::blocks::{Blocks, Source};
use crate::changes::Changes;
use crate::emitting::write_event;
use crate::image::Size;
use crate::points::{Found, Waiting};
use brc_c_graph::Node;
use brc_c_paths::{MOST_SECTIONS, arrive};
use brc_c_store::{Choice, Event, Next, Store, after};
use std::alloc::AllocError;

/// A way after an event.
#[derive(Clone, Copy)]
enum Way {
    Never,
    TooMany,
    To { found: Found, changes: Changes },
}

/// Where paths go on, the first way first.
#[derive(Clone, Copy)]
struct Exits {
    changes: Changes,
    first: Option<usize>,
    second: Option<usize>,
    third: Option<usize>,
}

impl Exits {
    fn with(self, block: usize, changes: Changes) -> Exits {
        if self.first.is_none() {
            Exits {
                first: Some(block),
                changes,
                ..self
            }
        } else if self.second.is_none() {
            Exits {
                second: Some(block),
                ..self
            }
        } else {
            Exits {
                third: Some(block),
                ..self
            }
        }
    }
}

/// Returns the ways after an event, first the one that the text follows below it.
fn choices(event: Event) -> [Choice; 3] {
    match event {
        Event::Null(_) => [Choice::No, Choice::Yes, Choice::Missing],
        _ => [Choice::Yes, Choice::No, Choice::Missing],
    }
}

/// Follows the event of a block on each way, and writes its lines.
pub(crate) fn follow(
    source: &Source,
    blocks: &mut Blocks,
    waiting: &Waiting,
    node: &Node,
) -> Result<Option<Size>, AllocError> {
    let mut exits = Exits {
        changes: Changes::NONE,
        first: None,
        second: None,
        third: None,
    };
    for choice in choices(node.event) {
        match follow_way(source, blocks, waiting, node, choice)? {
            Way::Never => {}
            Way::TooMany => return Ok(Some(Size::References)),
            Way::To { found, changes } => {
                blocks.set_way(waiting, choice, found);
                exits = exits.with(found.block, changes);
            }
        }
    }
    write_exits(source, blocks, waiting, node.event, exits)?;
    Ok(None)
}

fn follow_way(
    source: &Source,
    blocks: &mut Blocks,
    waiting: &Waiting,
    node: &Node,
    choice: Choice,
) -> Result<Way, AllocError> {
    let Some(to) = node.ways.way(choice) else {
        return Ok(Way::Never);
    };
    match after(source.rules, node.event, choice, &waiting.store)? {
        Next::Never => Ok(Way::Never),
        Next::TooMany => Ok(Way::TooMany),
        Next::Store(store) => {
            // A loop that opens one in each pass has no end.
            if store.sections.len() > MOST_SECTIONS {
                blocks.is_cut = true;
                return Ok(Way::Never);
            }
            let changes = Changes::between(source.rules, node.event, &waiting.store, &store);
            let origin = Origin {
                block: waiting.block,
                choice: Some(choice),
            };
            let store = arrive(
                source.alloc,
                source.graph,
                source.live,
                node.event,
                &waiting.store,
                to,
                store,
            )?;
            let found = blocks.add_point(source.rules, to, store, origin, Some(waiting))?;
            Ok(Way::To { found, changes })
        }
    }
}

/// Writes the lines of a block, and notes where paths go on.
fn write_exits(
    source: &Source,
    blocks: &mut Blocks,
    waiting: &Waiting,
    event: Event,
    exits: Exits,
) -> Result<(), AllocError> {
    let first = blocks.lines.len();
    let has_others = exits.second.is_some();
    let branch = write_event(
        source.rules,
        event,
        &waiting.store,
        &exits.changes,
        has_others,
        &mut blocks.lines,
    )?;
    let end = blocks.lines.len();
    let Some(block) = blocks.get(waiting.block) else {
        return Ok(());
    };
    let other = other_exit(blocks, &block, branch, exits)?;
    blocks.set(
        waiting.block,
        Block {
            first,
            end,
            branch,
            next: exits.first,
            other,
            ..block
        },
    );
    Ok(())
}

/// Returns the block of the second exit of a branch. It asks if there are two more ways, and gives up if there is none.
fn other_exit(
    blocks: &mut Blocks,
    block: &Block,
    branch: Branch,
    exits: Exits,
) -> Result<Option<usize>, AllocError> {
    if branch == Branch::Nothing {
        return Ok(None);
    }
    let fork = Block {
        is_fork: true,
        branch: if exits.third.is_some() {
            Branch::Ask
        } else {
            Branch::Nothing
        },
        next: exits.second,
        other: exits.third,
        ..Block::new(block.node, block.origin, block.held)
    };
    Ok(Some(blocks.add(fork)?))
}
