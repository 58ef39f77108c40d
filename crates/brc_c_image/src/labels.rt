//! Which point of an outline is which point of the search.

use crate::layout::Layout;
use crate::outlining::Numbers;
use std::alloc::{AllocError, Global};

/// The search's points as those of an outline.
#[derive(Drop)]
pub(crate) struct Labels {
    /// The search's point that each point of the outline is. The one where a further part begins is none.
    pub(crate) points: Vec<Option<usize>>,
    /// The outline's point to which paths go from each point of the search, or at which they are there.
    pub(crate) places: Vec<Option<usize>>,
}

/// Returns the labels of the points of a text's outline.
pub(crate) fn labels_of(
    alloc: Global,
    layout: &Layout,
    numbers: &Numbers,
) -> Result<Labels, AllocError> {
    let mut labels = Labels {
        points: Vec::new(alloc),
        places: Vec::with_capacity(alloc, layout.blocks.len())?,
    };
    for _ in 0..numbers.first {
        labels.points.push(None)?;
    }
    for block in numbers.blocks.iter() {
        labels.points.push(point_of(layout, *block))?;
    }
    // The blocks of points are in the order of the points.
    for block in 0..layout.blocks.len() {
        if point_of(layout, block).is_some() {
            labels.places.push(place_of(layout, numbers, block))?;
        }
    }
    Ok(labels)
}

/// Returns the search's point that a block is.
fn point_of(layout: &Layout, block: usize) -> Option<usize> {
    layout.blocks.get(block)?.point
}

/// Returns the outline's point to which paths go from a block.
fn place_of(layout: &Layout, numbers: &Numbers, block: usize) -> Option<usize> {
    let mut at = block;
    for _ in 0..layout.blocks.len() {
        if let Some(place) = numbers.of(at) {
            return Some(place);
        }
        at = layout.blocks.get(at)?.passes_to()?;
    }
    None
}
