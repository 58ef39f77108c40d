//! From a graph to texts.

ghost use Rattle.std.specs.Prelude.{IfOk};
ghost use Rattle.brc_c_image.specs.Images.{IsImageOf};

use crate::blocks::{Blocks, Source, explore};
use crate::checking::checked;
use crate::labels::{Labels, labels_of};
use crate::laying::{Laid, lay};
use crate::layout::{Layout, Part};
use crate::naming::name_of;
use crate::order::{order_of, places_of};
use crate::outlining::{numbers_of, outline_of};
use crate::parting::{MOST_INSTRUCTIONS, part_with, parts_of};
use crate::path::path_to;
use crate::resolving::pass_by;
use crate::writing::text_of;
use brc_c_graph::{Graph, NodeId};
use brc_c_outline::Outline;
use brc_c_paths::{Fault, Liveness};
use brc_c_store::Rules;
use brc_lang::CheckCode;
use std::alloc::{AllocError, Global};

/// The text of a module.
#[derive(Drop)]
pub struct Text {
    pub bytes: Vec<u8>,
    /// The number of the instruction that is at fault, from 0. Without a fault it has no meaning.
    pub at: usize,
    /// What the text is to show, by the nodes in their stores and not by the lines.
    pub outline: Outline,
    /// Whether it has all nodes in all stores, and not a part of them.
    pub is_whole: bool,
    pub(crate) labels: Labels,
}

/// What a function has too much of to be judged.
#[derive(Clone, Copy)]
pub enum Size {
    /// More than 256 instructions where nothing can be left out.
    Instructions,
    /// More than 2,048 nodes in stores for which something is written, or more than 8 critical sections at once.
    Blocks,
    /// More than 12 references at once.
    References,
}

/// The modules whose verdicts are the function's.
#[derive(Drop)]
pub enum Image {
    TooLarge(Size),
    /// No path breaks a rule. Each text has a part of the blocks: it makes what the state has where it begins, and
    /// gives that up where it ends.
    Right(Vec<Text>),
    /// Each rule that is broken at a node, and for each a text in which only the paths to that node report something.
    Wrong(Vec<Fault>, Vec<Text>),
    /// The search hasn't found just the paths of the graph. That is an error of this program.
    Unmatched,
}

/// Returns the modules of a function of C. The name may be any. What an image says of the paths of the graph is checked
/// point by point.
pub fn image_of(
    alloc: Global,
    rules: Rules,
    graph: &Graph,
    name: &[u8],
) -> Result<Image, AllocError>
    ensures { IfOk result (IsImageOf rules graph.now) }
{
    let live = Liveness::of(alloc, graph)?;
    let mut blocks = Blocks::new(alloc);
    let source = Source {
        alloc,
        rules,
        graph,
        live: &live,
        goes_on: false,
    };
    if let Some(size) = explore(&source, &mut blocks)? {
        return Ok(Image::TooLarge(size));
    }
    let points = blocks.take_points(alloc);
    pass_by(&mut blocks);
    let image = image_in(alloc, &blocks, name)?;
    checked(alloc, rules, graph, &live, points.as_slice(), image)
}

fn image_in(alloc: Global, blocks: &Blocks, name: &[u8]) -> Result<Image, AllocError> {
    let name = name_of(alloc, name)?;
    let order = order_of(alloc, blocks)?;
    let places = places_of(alloc, blocks, order.as_slice())?;
    let layout = Layout {
        blocks,
        order: order.as_slice(),
        places: places.as_slice(),
        shown: None,
        part: Part {
            first: 0,
            end: order.len(),
        },
    };
    let broken = broken_blocks(alloc, blocks)?;
    if broken.is_empty() && blocks.is_cut {
        return Ok(Image::TooLarge(Size::Blocks));
    }
    let Some(parts) = parts_of(alloc, &layout, !broken.is_empty())? else {
        return Ok(Image::TooLarge(Size::Instructions));
    };
    if broken.is_empty() {
        return right_image(alloc, name.as_str(), &layout, parts.as_slice());
    }
    wrong_image(
        alloc,
        name.as_str(),
        &layout,
        parts.as_slice(),
        broken.as_slice(),
    )
}

fn right_image(
    alloc: Global,
    name: &str,
    layout: &Layout,
    parts: &[Part],
) -> Result<Image, AllocError> {
    let mut texts = Vec::new(alloc);
    for part in parts {
        match text_in(alloc, name, layout, None, *part)? {
            Some(text) => texts.push(text)?,
            None => return Ok(Image::TooLarge(Size::Instructions)),
        }
    }
    Ok(Image::Right(texts))
}

fn wrong_image(
    alloc: Global,
    name: &str,
    layout: &Layout,
    parts: &[Part],
    broken: &[usize],
) -> Result<Image, AllocError> {
    let mut faults = Vec::new(alloc);
    let mut texts = Vec::new(alloc);
    for number in broken {
        let text = match part_with(parts, layout.place(*number)) {
            Some(part) => text_in(alloc, name, layout, Some(*number), part)?,
            None => None,
        };
        let Some(text) = text else {
            return Ok(Image::TooLarge(Size::Instructions));
        };
        if let Some((code, node)) = fault_at(layout.blocks, *number) {
            let path = path_to(alloc, layout.blocks, *number)?;
            faults.push(Fault { code, node, path })?;
            texts.push(text)?;
        }
    }
    Ok(Image::Wrong(faults, texts))
}

fn fault_at(blocks: &Blocks, number: usize) -> Option<(CheckCode, NodeId)> {
    let block = blocks.get(number)?;
    let broken = block.broken?;
    Some((broken.code, block.node))
}

/// Returns the blocks whose events break a rule: the first one for each code at a node, and each that leaves a
/// reference which those before it don't.
fn broken_blocks(alloc: Global, blocks: &Blocks) -> Result<Vec<usize>, AllocError> {
    let mut broken: Vec<usize> = Vec::new(alloc);
    for number in 0..blocks.len() {
        if let Some(fault) = fault_at(blocks, number) {
            let is_known = match left_before(blocks, broken.as_slice(), fault) {
                Some(left) => left_at(blocks, number) & !left == 0,
                None => false,
            };
            if !is_known {
                broken.push(number)?;
            }
        }
    }
    Ok(broken)
}

fn left_at(blocks: &Blocks, number: usize) -> u64 {
    match blocks.get(number) {
        Some(block) => match block.broken {
            Some(broken) => broken.left,
            None => 0,
        },
        None => 0,
    }
}

/// Returns the names whose references are left in blocks with this fault, or `None` if there is no such block.
fn left_before(blocks: &Blocks, broken: &[usize], fault: (CheckCode, NodeId)) -> Option<u64> {
    let mut left = None;
    for known in broken {
        if fault_at(blocks, *known) == Some(fault) {
            left = Some(left.unwrap_or(0) | left_at(blocks, *known));
        }
    }
    left
}

/// Returns a text of a part that shows the fault of a block, if it is to show one, unless it has too many instructions.
fn text_in(
    alloc: Global,
    name: &str,
    layout: &Layout,
    shown: Option<usize>,
    part: Part,
) -> Result<Option<Text>, AllocError> {
    let parted = Layout {
        blocks: layout.blocks,
        order: layout.order,
        places: layout.places,
        shown,
        part,
    };
    let mut laid = Laid::new(alloc, layout.blocks.len())?;
    lay(alloc, &parted, &mut laid)?;
    if laid.lines.len() > MOST_INSTRUCTIONS {
        return Ok(None);
    }
    let text = text_of(alloc, name, &laid)?;
    let numbers = numbers_of(alloc, &parted, &laid)?;
    let outline = outline_of(alloc, &parted, &laid, &numbers)?;
    let labels = labels_of(alloc, &parted, &numbers)?;
    let at = laid.at;
    Ok(Some(Text {
        bytes: text.into_bytes(),
        at,
        outline,
        is_whole: part.first == 0 && part.end == layout.order.len(),
        labels,
    }))
}
