use crate::blocks::Blocks;
use brc_lang::CheckCode;

/// Blocks that follow each other in the order, by their places: those from the first one up to the end.
#[derive(Clone, Copy)]
pub(crate) struct Part {
    pub(crate) first: usize,
    pub(crate) end: usize,
}

impl Part {
    pub(crate) fn has(self, place: usize) -> bool {
        place >= self.first && place < self.end
    }
}

/// The blocks in their order, and which of them a text has.
#[derive(Clone, Copy)]
pub(crate) struct Layout<'a> {
    pub(crate) blocks: &'a Blocks,
    pub(crate) order: &'a [usize],
    /// The place of each block in the order.
    pub(crate) places: &'a [usize],
    /// The block whose fault the text shows. At every other fault paths give up.
    pub(crate) shown: Option<usize>,
    /// The blocks of the text. Where a path leaves them it gives up.
    pub(crate) part: Part,
}

impl Layout<'_> {
    /// Returns the block that has to be the last of the text, since it runs off the end.
    pub(crate) fn last(&self) -> Option<usize> {
        let number = self.shown?;
        let broken = self.blocks.get(number)?.broken?;
        if broken.code == CheckCode::RunsOff {
            Some(number)
        } else {
            None
        }
    }

    pub(crate) fn place(&self, number: usize) -> usize {
        self.places.get(number).copied().unwrap_or(0)
    }

    /// Returns whether the text has a block.
    pub(crate) fn has(&self, number: usize) -> bool {
        self.part.has(self.place(number))
    }
}
