//! How many mark words a hand looks at.

ghost use Rattle.std.specs.Prelude.{◌≡◌};
ghost use Rattle.brc_queue.specs.Scans.{words_used};

use brc_word::MARKS_OF_WORD;

/// Returns the number of mark words that have marks of the first `rows` rows of a block.
pub(crate) fn words_used(rows: u32) -> u32
    ensures { result ≡ words_used rows }
{
    rows.div_ceil(MARKS_OF_WORD)
}
