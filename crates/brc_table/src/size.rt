//! How many words a table has.

ghost use Rattle.std.specs.Prelude.{◌≡◌};
ghost use Rattle.brc_model.specs.Layout.{mark_words_of};
ghost use Rattle.brc_table.specs.Places.{tiles, word_count};

use crate::place::{FRONT, LINE, TILE};
use brc_effect::rows::{block_size, row_count};
use brc_model::Layout;
use brc_word::MARKS_OF_WORD;

/// Returns the number of tiles. The last one may have fewer rows than eight.
pub(crate) fn tile_count(layout: Layout) -> usize
    ensures { result ≡ tiles layout }
{
    (row_count(layout) + (LINE - 1)) / LINE
}

/// Returns the number of all words.
pub(crate) fn word_count(layout: Layout) -> usize
    ensures { result ≡ word_count layout }
{
    FRONT + TILE * tile_count(layout) + usize::from(layout.cells) * row_count(layout)
}

/// Returns the number of mark words of the thread's block.
pub(crate) fn mark_words_of(layout: Layout, thread: u8) -> u32
    ensures { result ≡ mark_words_of layout thread }
{
    (block_size(layout, thread) + (MARKS_OF_WORD - 1)) / MARKS_OF_WORD
}
