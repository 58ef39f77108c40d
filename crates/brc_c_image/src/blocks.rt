//! The search for all nodes of a graph in all stores in which a path reaches them. It goes breadth first, so that the
//! first path to a block is a short one.

use crate::arrivals::Arrival;
use crate::block::{Block, Break, Held, Origin};
use crate::breaking::write_break;
use crate::emitting::{write_emptying, write_return};
use crate::following::follow;
use crate::hashing::hash_of;
use crate::image::Size;
use crate::line::Line;
use crate::points::{Found, Points, Waiting, arrival_of};
use crate::taking::{gives_again, take_lent};
use brc_c_graph::{Graph, Node, NodeId};
use brc_c_paths::{Liveness, Point};
use brc_c_store::{Choice, Event, Local, RegisterSet, Rules, Store, faults, left_by};
use brc_lang::CheckCode;
use std::alloc::{AllocError, Global};
use std::mem;

/// How many blocks may have lines.
const MOST_BLOCKS: usize = 2048;

/// How many blocks there may be, with those for which nothing is written.
const MOST_POINTS: usize = 16_384;

/// How much there may be to do for all of them.
const MOST_WORK: usize = 16_777_216;

/// What a search knows from the beginning on.
#[derive(Clone, Copy)]
pub(crate) struct Source<'a> {
    pub(crate) alloc: Global,
    pub(crate) rules: Rules,
    pub(crate) graph: &'a Graph,
    pub(crate) live: &'a Liveness,
    /// Whether a path goes on where it gives something up a second time.
    pub(crate) goes_on: bool,
}

/// The blocks of a function. The first one is the function's entry.
#[derive(Drop)]
pub(crate) struct Blocks {
    blocks: Vec<Block>,
    pub(crate) lines: Vec<Line>,
    points: Points,
    /// Whether a path was followed no further, since it has opened too many critical sections.
    pub(crate) is_cut: bool,
}

impl Blocks {
    pub(crate) fn new(alloc: Global) -> Blocks {
        Blocks {
            blocks: Vec::new(alloc),
            lines: Vec::new(alloc),
            points: Points::new(alloc),
            is_cut: false,
        }
    }

    pub(crate) fn len(&self) -> usize {
        self.blocks.len()
    }

    pub(crate) fn get(&self, number: usize) -> Option<Block> {
        self.blocks.get(number).copied()
    }

    pub(crate) fn set(&mut self, number: usize, block: Block) {
        if let Some(old) = self.blocks.get_mut(number) {
            *old = block;
        }
    }

    /// Adds a block that is no node's.
    pub(crate) fn add(&mut self, block: Block) -> Result<usize, AllocError> {
        let number = self.blocks.len();
        self.blocks.push(block)?;
        Ok(number)
    }

    /// Returns the point of a node in a normal store. A new one has to wait. One point may be taken.
    pub(crate) fn add_point(
        &mut self,
        rules: Rules,
        node: NodeId,
        store: Store,
        origin: Origin,
        taken: Option<&Waiting>,
    ) -> Result<Found, AllocError> {
        let hash = hash_of(node, &store);
        if let Some(found) = self.points.find(node, &store, hash, taken) {
            return Ok(found);
        }
        let held = Held::of(rules, &store);
        let number = self.points.len();
        let block = self.add(Block {
            point: Some(number),
            ..Block::new(node, Some(origin), held)
        })?;
        self.points.add(node, store, hash, block)
    }

    /// Notes to which point a choice leads from one that is followed.
    pub(crate) fn set_way(&mut self, from: &Waiting, choice: Choice, to: Found) {
        self.points.set_way(from.number, choice, to.number);
    }

    /// Takes the points, in the order in which they were found.
    pub(crate) fn take_points(&mut self, alloc: Global) -> Vec<Point> {
        mem::replace(&mut self.points, Points::new(alloc)).into_points()
    }

    /// Returns the points at which paths return.
    pub(crate) fn into_arrivals(
        self,
        alloc: Global,
        graph: &Graph,
    ) -> Result<Vec<Arrival>, AllocError> {
        let Blocks { points, .. } = self;
        let mut arrivals = Vec::new(alloc);
        for point in points.into_points() {
            if is_return(graph, point.node) {
                arrivals.push(arrival_of(point))?;
            }
        }
        Ok(arrivals)
    }
}

fn is_return(graph: &Graph, node: NodeId) -> bool {
    match graph.node(node) {
        Some(node) => matches!(node.event, Event::Return(_) | Event::ReturnPlain),
        None => false,
    }
}

/// Returns how much there is to do for a store: each of its entries is held against the others.
fn work_of(store: &Store) -> usize {
    let objects = store.objects.len().saturating_add(store.cells.len());
    let entries = objects.saturating_add(store.values.len());
    entries.saturating_mul(entries)
}

/// Finds all blocks. Returns what there is too much of, if anything.
pub(crate) fn explore(source: &Source, blocks: &mut Blocks) -> Result<Option<Size>, AllocError> {
    begin(source, blocks)?;
    let mut written: usize = 0;
    let mut work: usize = 0;
    for _ in 0..MOST_POINTS {
        let Some(waiting) = blocks.points.take(source.alloc) else {
            return Ok(None);
        };
        if let Some(size) = build(source, blocks, &waiting)? {
            return Ok(Some(size));
        }
        if is_written(blocks.get(waiting.block)) {
            written = written.saturating_add(1);
        }
        work = work.saturating_add(work_of(&waiting.store));
        if written > MOST_BLOCKS || work > MOST_WORK {
            return Ok(Some(Size::Blocks));
        }
        blocks.points.put_back(waiting);
    }
    Ok(Some(Size::Blocks))
}

fn is_written(block: Option<Block>) -> bool {
    match block {
        Some(block) => block.passes_to().is_none(),
        None => false,
    }
}

/// By the rules of a global lock it is locked at the entry.
fn begin(source: &Source, blocks: &mut Blocks) -> Result<(), AllocError> {
    let rules = source.rules;
    let store = Store::new(source.alloc);
    let mut entry = Block::new(NodeId::ENTRY, None, Held::NOTHING);
    if rules == Rules::GlobalLock {
        blocks.lines.push(Line::Lock)?;
    }
    entry.end = blocks.lines.len();
    let number = blocks.add(entry)?;
    let origin = Origin {
        block: number,
        choice: None,
    };
    entry.next = Some(
        blocks
            .add_point(rules, NodeId::ENTRY, store, origin, None)?
            .block,
    );
    blocks.set(number, entry);
    Ok(())
}

/// Writes the lines of a block, and finds those to which paths go on.
fn build(
    source: &Source,
    blocks: &mut Blocks,
    waiting: &Waiting,
) -> Result<Option<Size>, AllocError> {
    if !waiting.store.stale.is_empty() {
        empty_registers(source.rules, blocks, waiting)?;
        return Ok(None);
    }
    let Some(node) = source.graph.node(waiting.node) else {
        return Ok(None);
    };
    if let Some(code) = faults(source.rules, node.event, &waiting.store) {
        match take_lent(source.graph, node.event, code, &waiting.store)? {
            Some(taken) => {
                let first = blocks.lines.len();
                go_on_in(source.rules, blocks, waiting, taken, first)?;
            }
            None if source.goes_on && gives_again(node.event, code, &waiting.store) => {
                let event = Event::Pass;
                return follow(source, blocks, waiting, &Node { event, ..node });
            }
            None => break_rule(source.rules, blocks, waiting, node.event, code)?,
        }
        return Ok(None);
    }
    match node.event {
        Event::Return(_) | Event::ReturnPlain => {
            end_call(source.rules, blocks, waiting, node.event)?;
            Ok(None)
        }
        _ => follow(source, blocks, waiting, &node),
    }
}

/// Empties the registers of forgotten items. The event comes afterwards.
fn empty_registers(rules: Rules, blocks: &mut Blocks, waiting: &Waiting) -> Result<(), AllocError> {
    let first = blocks.lines.len();
    write_emptying(waiting.store.stale, &mut blocks.lines)?;
    let mut store = waiting.store.clone()?;
    store.stale = RegisterSet::EMPTY;
    go_on_in(rules, blocks, waiting, store, first)
}

/// Leads a block, whose lines begin here, to the same node in another store.
fn go_on_in(
    rules: Rules,
    blocks: &mut Blocks,
    waiting: &Waiting,
    store: Store,
    first: usize,
) -> Result<(), AllocError> {
    let end = blocks.lines.len();
    let origin = Origin {
        block: waiting.block,
        choice: None,
    };
    let next = blocks.add_point(rules, waiting.node, store, origin, Some(waiting))?;
    blocks.points.set_emptied(waiting.number, next.number);
    if let Some(block) = blocks.get(waiting.block) {
        blocks.set(
            waiting.block,
            Block {
                first,
                end,
                next: Some(next.block),
                ..block
            },
        );
    }
    Ok(())
}

fn break_rule(
    rules: Rules,
    blocks: &mut Blocks,
    waiting: &Waiting,
    event: Event,
    code: CheckCode,
) -> Result<(), AllocError> {
    let first = blocks.lines.len();
    let at = write_break(rules, event, code, &waiting.store, &mut blocks.lines)?;
    let end = blocks.lines.len();
    if let Some(block) = blocks.get(waiting.block) {
        blocks.set(
            waiting.block,
            Block {
                first,
                end,
                is_end: true,
                broken: Some(Break {
                    code,
                    at,
                    left: left_names(event, code, &waiting.store),
                }),
                ..block
            },
        );
    }
    Ok(())
}

/// Returns the names whose references are left at an end.
fn left_names(event: Event, code: CheckCode, store: &Store) -> u64 {
    let mut names = 0;
    if code != CheckCode::LeftOwned {
        return names;
    }
    if let Event::Lose(local) = event {
        return bit_of(local);
    }
    let returned = match event {
        Event::Return(local) => Some(local),
        _ => None,
    };
    for named in store.values.iter() {
        if let Some(id) = named.value.object() {
            if left_by(store, returned, id) {
                names |= bit_of(named.local);
            }
        }
    }
    names
}

fn bit_of(local: Local) -> u64 {
    1u64.wrapping_shl((local.0 % 64) as u32)
}

fn end_call(
    rules: Rules,
    blocks: &mut Blocks,
    waiting: &Waiting,
    event: Event,
) -> Result<(), AllocError> {
    let returned = match event {
        Event::Return(local) => Some(local),
        _ => None,
    };
    let first = blocks.lines.len();
    write_return(rules, returned, &waiting.store, &mut blocks.lines)?;
    let end = blocks.lines.len();
    if let Some(block) = blocks.get(waiting.block) {
        blocks.set(
            waiting.block,
            Block {
                first,
                end,
                is_end: true,
                ..block
            },
        );
    }
    Ok(())
}
