//! The blocks of a layout: which thread a row belongs to, and where its mark is.

ghost use Rattle.std.specs.Prelude.{◌≡◌, ◌<◌, ◌*◌, ◌+◌, ◌/◌, ◌^◌};
ghost use Rattle.brc_word.specs.Words.{lowest_mark, marks_of_word};
ghost use Rattle.brc_model.specs.Duties.{found_row, mark_place};
ghost use Rattle.brc_model.specs.Layout.{block_of, index_of, mark_bit, worker_rows};

use crate::rows::{FRONT_ROWS, row_at, worker_rows};
use brc_model::{Address, Layout};
use brc_word::{MARKS_OF_WORD, lowest_mark};
use std::marker::Model;

/// A layout, with what finds a row's block without a division. A division takes several times as long, and a thread
/// finds a block between two atomic steps, where nothing else can go on meanwhile.
#[derive(Clone, Copy, Debug)]
pub struct Blocks {
    layout: Layout,
    /// 2^40 divided by the rows of a worker, rounded down, and one more.
    reciprocal: u64,
}

impl Model for Blocks {
    ghost use Rattle.std.specs.Prelude.{◌≡◌, ◌+◌, ◌/◌, ◌^◌, ◌<◌};
    ghost use Rattle.std.proofs.Common.{sym};
    ghost use Rattle.brc_model.specs.declared.layout.Layout.{Layout};

    ghost Value = { Layout };

    ghost view = { λ b. b.layout };

    ghost invariant = { λ b. (0 < b.layout.rows) × (b.reciprocal ≡ 2 ^ 40 / b.layout.rows + 1)
        × (b.layout.workers < 2 ^ 8) × (b.layout.rows < 2 ^ 16) };

    ghost inverse = { λ layout. record { layout = layout; reciprocal = 2 ^ 40 / layout.rows + 1 } };

    ghost inverse_ok = { λ b is i. record b { reciprocal = sym is.1 i } };
}

impl Blocks {
    /// Returns the blocks of the layout, whose workers have a row at least.
    pub fn new(layout: Layout) -> Blocks
        requires rows { 0 < layout.rows }
        ensures { result ≡ layout }
    {
        Blocks {
            layout,
            reciprocal: (1 << 40) / u64::from(layout.rows) + 1,
        }
    }

    /// Returns the layout.
    #[inline(always)]
    pub fn layout(self) -> Layout
        ensures { result ≡ self }
    {
        self.layout
    }

    /// Returns how many workers have all their rows before the workers' row with the number `back`: `back` divided by
    /// the rows of a worker.
    #[inline(always)]
    fn worker_of(self, back: u32) -> u32
        requires there { back < worker_rows self }
        ensures { result ≡ back / self.rows }
    {
        ((u64::from(back) * self.reciprocal) >> 40) as u32
    }

    /// Returns the thread whose block has the row, and the row's index in the block.
    ///
    /// It isn't `#[inline(always)]`: that would put it six times into each step, for duties of marks alone.
    #[inline]
    pub fn locate(self, row: u32) -> (u32, u32)
        ensures block { result.0 ≡ block_of self row }
        ensures index { result.1 ≡ index_of self (block_of self row) row }
    {
        let all = worker_rows(self.layout);
        if FRONT_ROWS <= row && row < FRONT_ROWS + all {
            let back = row - FRONT_ROWS;
            let worker = self.worker_of(back);
            (worker + 1, back - worker * u32::from(self.layout.rows))
        } else if row < FRONT_ROWS {
            (0, row)
        } else {
            (0, row - all)
        }
    }

    /// Returns the thread whose block has the row.
    #[inline(always)]
    pub fn block_of(self, row: u32) -> u32
        ensures { result ≡ block_of self row }
    {
        self.locate(row).0
    }

    /// Returns the address of the mark word in which the row's mark is.
    #[inline(always)]
    pub fn mark_place(self, row: u32) -> Address
        ensures { result ≡ mark_place self row }
    {
        let (thread, index) = self.locate(row);
        Address::Marks {
            thread,
            word: index / MARKS_OF_WORD,
        }
    }

    /// Returns which bit of that word is the row's mark.
    #[inline(always)]
    pub fn mark_bit(self, row: u32) -> u32
        ensures bit { result ≡ mark_bit self row }
        ensures low { result < marks_of_word }
    {
        self.locate(row).1 % MARKS_OF_WORD
    }

    /// Returns the row of the lowest of the marks that the thread has found in its mark word.
    #[inline(always)]
    pub fn found_row(self, number: u8, word: u32, marks: u64) -> u32
        requires some { 0 < marks }
        requires low { marks_of_word * word + lowest_mark marks < 2 ^ 31 }
        ensures { result ≡ found_row self number word marks }
    {
        row_at(
            self.layout,
            number,
            MARKS_OF_WORD * word + lowest_mark(marks),
        )
    }
}
