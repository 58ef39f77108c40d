//! A table that no thread shares any more.

ghost use Rattle.std.specs.Prelude.{◌≡◌, ◌<◌, ◌≤◌, Some, option_copied, slice_get};
ghost use Rattle.brc_model.specs.Layout.{row_count};
ghost use Rattle.brc_model.specs.Counting.{IsPlainLayout};
ghost use Rattle.brc_model.specs.FirstRows.{HasLines};
ghost use Rattle.brc_table.specs.Hands.{IsOf};
ghost use Rattle.brc_table.specs.Ending.{EndsWith, kind_at, gate_at, cell_at, field_at};
ghost use Rattle.brc_table.specs.Homes.{resources};
ghost use Rattle.brc_table.specs.Places.{FewFirstRows};

use crate::hand::Hand;
use crate::place::{Cells, GATE, KIND, in_line};
use crate::words::Words;
use atomic_table::Closed as ClosedTable;
use brc_effect::rows::row_count;
use brc_model::{Layout, items_are_there};
use std::alloc::Global;
use std::marker::Model;
use std::snapshot::Snapshot;

/// A table that no thread shares any more: its last words, and what is left in its fields.
pub struct Closed<T: Drop> {
    table: ClosedTable<Option<T>, Global>,
    layout: Layout,
    cells: Cells,
    /// Which table it was. It takes no memory.
    of: Snapshot<Words<T>>,
}

impl<T: Drop> Model for Closed<T> {
    ghost use Rattle.std.specs.Prelude.{◌≡◌};
    ghost use Rattle.std.specs.Slots.{slots_items, slots_len, IsFull};
    ghost use Rattle.brc_model.specs.Counting.{IsPlainLayout};
    ghost use Rattle.brc_model.specs.FirstRows.{HasLines};
    ghost use Rattle.brc_model.specs.Layout.{row_count};
    ghost use Rattle.brc_table.specs.Places.{word_count};
    ghost use Rattle.brc_table.specs.Ending.{ClosedTable, CellsNameRows, resources_in};

    ghost Value = { ClosedTable T };

    ghost view = { λ c. record {
      state = record {
        table = c.of.value.table;
        layout = c.layout;
        lines = c.of.value.lines;
        words = slots_items c.table.words;
        fields = resources_in (slots_items c.table.slots);
      };
      fields = slots_items c.table.slots;
    } };

    ghost invariant = { λ c. IsFull c.table.words × IsFull c.table.slots
        × (slots_len c.table.words ≡ word_count c.layout) × IsPlainLayout c.layout
        × CellsNameRows c.layout (slots_items c.table.words)
        × (slots_len c.table.slots ≡ row_count c.layout) × (c.cells ≡ c.layout)
        × HasLines c.of.value.lines c.layout };
}

impl<T: Drop> Words<T> {
    /// Closes the table, with a hand of it. Its words no longer change.
    pub fn close(self, hand: Hand<T>) -> Closed<T>
        requires table { IsOf self hand }
        ensures table { result.state.table ≡ self.table }
        ensures layout { result.state.layout ≡ self.layout }
        ensures lines { result.state.lines ≡ self.lines }
        ensures ends { EndsWith hand.view result.state }
    {
        items_are_there();
        let of = Snapshot::of(&self);
        let Hand {
            seat,
            thread: _,
            running: _,
            head: _,
            used: _,
            spares,
            carried,
            contention: _,
        } = hand;
        drop(spares);
        drop(carried);
        let Words {
            table,
            blocks,
            cells,
        } = self;
        Closed {
            table: table.close_with(seat),
            layout: blocks.layout(),
            cells,
            of,
        }
    }
}

impl<T: Drop> Closed<T> {
    /// Returns the table's size.
    pub fn layout(&self) -> Layout
        ensures { result ≡ self.now.state.layout }
    {
        self.layout
    }

    /// Returns the number of rows.
    pub fn rows(&self) -> u32
        ensures { result ≡ row_count self.now.state.layout }
    {
        row_count(self.layout) as u32
    }

    /// States that the table has 1 to 32 workers with 1 to 1024 rows each.
    pub fn layout_is_plain(&self)
        ensures { IsPlainLayout self.now.state.layout }
    {
        let _opened = self.layout;
    }

    /// States that the table has the rows of its immortal lists and of the numbers in their cells.
    pub fn lines_are_there(&self)
        ensures { HasLines self.now.state.lines self.now.state.layout }
    {
        let _opened = self.layout;
    }

    /// States that the rows that are there from the start are few: at most 16 immortal lists of at most 64 numbers.
    pub fn first_rows_are_few(&self)
        ensures { FewFirstRows self.now.state.layout }
    {
        self.layout_is_plain();
        self.lines_are_there();
    }

    /// Returns the kind word of a row: 0 if no object was born there.
    pub fn kind_word(&self, row: u32) -> u64
        requires there { row < row_count self.now.state.layout }
        ensures { result ≡ kind_at self.now.state.words row }
    {
        self.table.word(in_line(KIND, row))
    }

    /// Returns the gate of a row, which says whether its object is closed.
    pub fn gate_word(&self, row: u32) -> u64
        requires there { row < row_count self.now.state.layout }
        ensures { result ≡ gate_at self.now.state.words row }
    {
        self.table.word(in_line(GATE, row))
    }

    /// Returns what a cell has: a row plus 1, or 0.
    pub fn cell_word(&self, row: u32, cell: u32) -> u64
        requires there { row < row_count self.now.state.layout }
        requires cell { cell < self.now.state.layout.cells }
        ensures word { result ≡ cell_at self.now.state.layout self.now.state.words row cell }
        ensures names { result ≤ row_count self.now.state.layout }
    {
        self.table.word(self.cells.place(row, cell))
    }

    /// Returns the resource in the row's field, or `None` if the field is empty.
    pub fn field(&self, row: u32) -> Option<&T>
        requires there { row < row_count self.now.state.layout }
        ensures own { slice_get self.now.fields row ≡ Some (option_copied result) }
        ensures counted { resources result ≡ field_at self.now.state.fields row }
    {
        self.table.slots.get(row as usize).as_ref()
    }
}

impl<T: Drop> Drop for Closed<T> {
    fn drop(self) {
        let Closed {
            mut table,
            layout: _,
            cells: _,
            of: _,
        } = self;
        let mut i = 0;
        while i < table.slot_count() {
            drop(table.take(i));
            i += 1;
        }
        table.free();
    }
}
