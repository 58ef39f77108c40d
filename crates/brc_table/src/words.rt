//! The words of all objects.

ghost use Rattle.std.specs.Prelude.{◌≡◌, ◌+◌, [], IfOk};
ghost use Rattle.brc_word.specs.Words.{mark_at};
ghost use Rattle.brc_model.specs.Layout.{block_size, first_immortal_list, mark_bit, mark_words};
ghost use Rattle.brc_model.specs.Counting.{IsPlainLayout};
ghost use Rattle.brc_model.specs.FirstRows.{HasLines};
ghost use Rattle.brc_table.specs.Views.{main_view};
ghost use Rattle.brc_table.specs.Hands.{IsOf, CarriesNothing, plan_of};
ghost use Rattle.brc_table.specs.Homes.{HoldsFirstWords};
ghost use Rattle.brc_table.specs.Places.{word_count, FewFirstRows};

use crate::carried::{nothing_carried, spares_of};
use crate::contention::Contention;
use crate::first_words::first_words;
use crate::hand::Hand;
use crate::place::Cells;
use crate::plan::Plan;
use crate::rule::Counting;
use crate::size::mark_words_of;
use crate::view::View;
use atomic_table::Table;
use brc_effect::Blocks;
use brc_effect::rows::{block_size, immortal_list, row_count};
use brc_lang::Sequence;
use brc_model::{Layout, hands_begin};
use brc_word::mark_at;
use std::alloc::{AllocError, Global};
use std::cell::Cell;
use std::marker::Model;
use std::snapshot::Snapshot;

/// The words of all objects, in one table that threads share.
#[derive(Drop)]
pub struct Words<T: Drop> {
    pub(crate) table: Table<Option<T>, View, Plan, Counting, Global>,
    pub(crate) blocks: Blocks,
    pub(crate) cells: Cells,
}

impl<T: Drop> Model for Words<T> {
    ghost use Rattle.std.specs.Prelude.{◌≡◌};
    ghost use Rattle.brc_model.specs.Counting.{IsPlainLayout};
    ghost use Rattle.brc_model.specs.FirstRows.{HasLines};
    ghost use Rattle.brc_table.specs.Hands.{TableState};
    ghost use Rattle.brc_table.specs.Places.{word_count};

    ghost Value = { TableState };

    ghost view = { λ w. record {
      table = w.table.shared.table_id;
      layout = w.table.shared.key.layout;
      lines = w.table.shared.key.lines;
    } };

    ghost invariant = { λ w. (w.blocks ≡ w.table.shared.key.layout)
        × (w.table.shared.table_id.words ≡ word_count w.table.shared.key.layout)
        × IsPlainLayout w.table.shared.key.layout × (w.cells ≡ w.table.shared.key.layout)
        × HasLines w.table.shared.key.lines w.table.shared.key.layout };
}

impl<T: Drop> Words<T> {
    /// Returns the words of a table with this layout, whose immortal lists have these lines, and main's hand, or
    /// `AllocError` if memory is refused. Main holds the only reference to the root. `first` says which words the table
    /// has at first, cells too: as long as main's hand is the only one and has made no step.
    pub fn new(
        alloc: Global,
        layout: Layout,
        lines: &Sequence<Sequence<u32>>,
    ) -> Result<(Words<T>, Hand<T>), AllocError>
        requires plain { IsPlainLayout layout }
        requires lines { HasLines lines.now layout }
        ensures layout { IfOk result (λ made. made.0.layout ≡ layout) }
        ensures lines { IfOk result (λ made. made.0.lines ≡ lines.now) }
        ensures table { IfOk result (λ made. IsOf made.0 made.1) }
        ensures view { IfOk result (λ made. made.1.view ≡ main_view layout) }
        ensures none { IfOk result (λ made. CarriesNothing made.1) }
        ensures no_field { IfOk result (λ made. made.1.fields ≡ []) }
        ensures first { IfOk result (λ made. HoldsFirstWords T (plan_of made.0) made.1.view) }
    {
        hands_begin();
        let words = first_words(alloc, layout, lines.as_slice())?;
        let spares = spares_of(alloc, layout.workers)?;
        let carried = nothing_carried(alloc)?;
        let fields = row_count(layout);
        let plan = Plan {
            layout,
            lines: Snapshot::of(lines),
        };
        let (table, seat) = Table::vacant(alloc, words.as_slice(), fields, &plan)?;
        let main = Hand {
            seat,
            thread: 0,
            running: true,
            head: 0,
            used: block_size(layout, 0),
            spares,
            carried,
            contention: Cell::new(Contention::NONE),
        };
        let words = Words {
            table,
            blocks: Blocks::new(layout),
            cells: Cells::of(layout),
        };
        Ok((words, main))
    }

    /// Returns how many rows the thread's block has. Main's are those that are there from the start.
    pub fn block_size(&self, thread: u8) -> u32
        ensures { result ≡ block_size self.now.layout thread }
    {
        self.layout_is_plain();
        block_size(self.blocks.layout(), thread)
    }

    /// Returns how many mark words there are: those of main's block and of each worker's, without the unused words
    /// between the blocks. With 4 workers of 1024 rows each it is 65, and with 4 workers of 130 rows each it is 13.
    pub fn mark_words(&self) -> usize
        ensures { result ≡ mark_words self.now.layout }
    {
        self.layout_is_plain();
        let layout = self.blocks.layout();
        let of_workers = u32::from(layout.workers) * mark_words_of(layout, 1);
        (mark_words_of(layout, 0) + of_workers) as usize
    }

    /// Returns the row's mark in its mark word, which was found: 1 if the mark is set, else 0.
    #[inline(always)]
    pub fn mark(&self, row: u32, found: u64) -> u64
        ensures { result ≡ mark_at found (mark_bit self.now.layout row) }
    {
        mark_at(found, self.blocks.mark_bit(row))
    }

    /// Returns the row of the static list with this number, from 0.
    pub fn static_list(&self, number: u8) -> u32
        ensures { result ≡ first_immortal_list self.now.layout + number }
    {
        self.layout_is_plain();
        immortal_list(self.blocks.layout(), number)
    }

    /// Returns how many workers there are.
    pub fn workers(&self) -> u8
        ensures { result ≡ self.now.layout.workers }
    {
        self.blocks.layout().workers
    }

    /// States that the table has 1 to 32 workers with 1 to 1024 rows each.
    pub fn layout_is_plain(&self)
        ensures { IsPlainLayout self.now.layout }
    {
        let _opened = self.blocks;
    }

    /// States that the table has the rows of its immortal lists and of the numbers in their cells.
    pub fn lines_are_there(&self)
        ensures { HasLines self.now.lines self.now.layout }
    {
        let _opened = self.blocks;
    }

    /// States that the rows that are there from the start are few: at most 16 immortal lists of at most 64 numbers.
    pub fn first_rows_are_few(&self)
        ensures { FewFirstRows self.now.layout }
    {
        self.layout_is_plain();
        self.lines_are_there();
    }

    /// States that the table has as many words as its size asks for.
    pub(crate) fn words_are_there(&self)
        ensures { self.now.table.words ≡ word_count self.now.layout }
    {
        let _opened = self.blocks;
    }
}
