//! Mark words. Each has the marks of 64 rows of one thread, so that one load looks at all of them.

ghost use Rattle.std.specs.Prelude.{◌≡◌, ◌<◌, ◌^◌, ℕ, bit_and};
ghost use Rattle.brc_word.specs.Words.{first_marks, lowest_mark, mark_at, mark_mask, marks_of_word, other_marks, unmarked_word};

/// The marks of a mark word.
pub const MARKS_OF_WORD: u32 = 64;

/// Returns the mark in the bit: 1 if it is set, else 0.
#[inline(always)]
pub fn mark_at(word: u64, bit: u32) -> u64
    requires bit { bit < marks_of_word }
    ensures { result ≡ mark_at word bit }
{
    (word >> bit) & 1
}

/// Returns the mask of one bit: an or with it sets that mark.
#[inline(always)]
pub fn mark_mask(bit: u32) -> u64
    requires bit { bit < marks_of_word }
    ensures { result ≡ mark_mask bit }
{
    1 << bit
}

/// Returns the mask of all other bits: an and with it takes that mark.
#[inline(always)]
pub fn other_marks(bit: u32) -> u64
    requires bit { bit < marks_of_word }
    ensures mask { result ≡ other_marks bit }
    ensures takes { (word : ℕ) → word < 2 ^ 64 → bit_and word result ≡ unmarked_word word bit }
{
    !(1 << bit)
}

/// Returns the word once the mark in the bit is taken.
#[inline(always)]
pub fn without_mark(word: u64, bit: u32) -> u64
    requires bit { bit < marks_of_word }
    ensures { result ≡ unmarked_word word bit }
{
    word & !(1 << bit)
}

/// Returns the lowest bit whose mark is set.
#[inline(always)]
pub fn lowest_mark(word: u64) -> u32
    requires some { 0 < word }
    ensures lowest { result ≡ lowest_mark word }
    ensures bit { result < marks_of_word }
{
    word.trailing_zeros()
}

/// Returns the marks of the first `rows` rows of the word.
#[inline(always)]
pub fn first_marks(word: u64, rows: u32) -> u64
    ensures { result ≡ first_marks word rows }
{
    if rows < MARKS_OF_WORD {
        word & ((1 << rows) - 1)
    } else {
        word
    }
}
