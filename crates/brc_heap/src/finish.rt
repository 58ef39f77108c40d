//! The end of a heap: once every thread is gone, it says what was closed, and what is left.

ghost use Rattle.std.specs.Prelude.{◌≡◌, ◌<◌, IfOk, IfErr, Some, option_copied, slice_get, All};
ghost use Rattle.brc_model.specs.Kinds.{kind_of_word};
ghost use Rattle.brc_model.specs.Layout.{row_count, is_immortal_row};
ghost use Rattle.brc_table.specs.Hands.{IsOf};
ghost use Rattle.brc_table.specs.Ending.{kind_at, field_at};
ghost use Rattle.brc_table.specs.Homes.{resources};
ghost use Rattle.brc_table.specs.Joining.{RowsAreUsed};
ghost use Rattle.brc_heap.specs.Ends.{was_born, is_closed, item_at, HasEnded, FoundRunning, ClosedBy};

use crate::heap::Heap;
use brc_effect::kinds::kind_of_word;
use brc_effect::rows::is_immortal_row;
use brc_lang::Kind;
use brc_table::{
    Closed, Hand, fields_end_in_every_table, first_kinds_stay, joined_hands_are_gone,
    rows_end_in_every_table, seen_ends_are_so,
};
use brc_word::closed;
use brc_word::values::{EMPTY, LEAVING, RUNNING};
use std::marker::Model;

/// H3: a thread that was started, main or a worker, isn't gone. Let it leave, and finish then. The heap and the hand
/// come back as they were.
#[derive(Drop)]
pub struct StillRunning<T: Drop> {
    /// The heap, as it was.
    pub heap: Heap<T>,
    /// Main's hand.
    pub main: Hand<T>,
}

/// What is left of a heap.
#[derive(Drop)]
pub struct Final<T: Drop> {
    closed: Closed<T>,
}

impl<T: Drop> Model for Final<T> {
    ghost use Rattle.brc_table.specs.Ending.{ClosedTable};

    ghost Value = { ClosedTable T };

    ghost view = { λ f. f.closed };
}

impl<T: Drop> Heap<T> {
    /// Ends the heap, with main's hand: asks each thread's word in turn, by rising number. No worker's hand is needed.
    /// Of the rows of a worker whose hand was joined, exactly those that the worker has used are born.
    ///
    /// # Errors
    ///
    /// H3 if a thread that was started isn't gone. The heap and the hand come back.
    pub fn finish(self, main: Hand<T>) -> Result<Final<T>, StillRunning<T>>
        requires table { IsOf self main }
        requires main { main.view.thread ≡ 0 }
        ensures table { IfOk result (λ end. end.state.table ≡ self.table) }
        ensures layout { IfOk result (λ end. end.state.layout ≡ self.layout) }
        ensures lines { IfOk result (λ end. end.state.lines ≡ self.lines) }
        ensures ended { IfOk result (λ end. HasEnded end.state) }
        ensures closed { IfOk result (λ end. ClosedBy main.view end.state) }
        ensures joined { IfOk result (λ end. All (RowsAreUsed end.state.layout end.state.words) main.view.joined) }
        ensures back { IfErr result (λ back. IsOf back.heap back.main × (back.heap ≡ self)) }
        ensures running { IfErr result (λ back. FoundRunning main.view back.main.view) }
        ensures kept { IfErr result (λ back. (back.main.carried ≡ main.carried) × (back.main.fields ≡ main.fields)) }
    {
        // Of the closed table: which rows are closed, what the fields hold, that each thread that main has seen gone is
        // gone, which rows of joined workers are born, and that no first kind word has changed.
        rows_end_in_every_table();
        fields_end_in_every_table();
        seen_ends_are_so();
        joined_hands_are_gone();
        first_kinds_stay();
        let mut main = main;
        let workers = self.words().workers();
        self.words().layout_is_plain();
        let mut thread = 0;
        while thread <= workers {
            let word = self.words().thread_peek(&mut main, thread);
            if word == RUNNING || word == LEAVING {
                return Err(StillRunning { heap: self, main });
            }
            thread += 1;
        }
        let Heap { words } = self;
        Ok(Final {
            closed: words.close(main),
        })
    }
}

impl<T: Drop> Final<T> {
    /// Returns the number of rows. Those from 2 on are the workers', block by block. After them come those of the
    /// static lists, and of the numbers in their cells.
    pub fn rows(&self) -> u32
        ensures { result ≡ row_count self.now.state.layout }
    {
        self.closed.rows()
    }

    /// Returns whether the row's object is immortal: it is none, or a static list. Its references aren't counted, and
    /// it is never closed.
    pub fn is_immortal(&self, row: u32) -> bool
        ensures { result ≡ is_immortal_row self.now.state.layout row }
    {
        is_immortal_row(self.closed.layout(), row)
    }

    /// Returns whether an object was born in the row, or was there from the start.
    pub fn born(&self, row: u32) -> bool
        requires there { row < row_count self.now.state.layout }
        ensures { result ≡ was_born self.now.state row }
    {
        self.closed.kind_word(row) > 0
    }

    /// Returns the kind of the row's object, or `Any` if none was born there.
    pub fn kind(&self, row: u32) -> Kind
        requires there { row < row_count self.now.state.layout }
        ensures { result ≡ kind_of_word (kind_at self.now.state.words row) }
    {
        kind_of_word(self.closed.kind_word(row))
    }

    /// Returns whether the row's object is closed. An object that a cell of an open list names isn't: a number that is
    /// still in the cell of a static list stays open.
    pub fn closed(&self, row: u32) -> bool
        requires there { row < row_count self.now.state.layout }
        ensures { result ≡ is_closed self.now.state row }
    {
        self.closed.gate_word(row) == closed()
    }

    /// Returns what a cell of the row has: the row of an object, or `None` if the cell is empty. A cell beyond those
    /// that a list may have is empty.
    pub fn cell(&self, row: u32, cell: u32) -> Option<u32>
        requires there { row < row_count self.now.state.layout }
        ensures { result ≡ item_at self.now.state row cell }
    {
        self.closed.layout_is_plain();
        self.closed.lines_are_there();
        if cell >= u32::from(self.closed.layout().cells) {
            return None;
        }
        let word = self.closed.cell_word(row, cell);
        if word == EMPTY {
            None
        } else {
            Some((word - 1) as u32)
        }
    }

    /// Returns the resource in the field of the row: that of the row's own file or socket, if it isn't closed.
    pub fn slot(&self, row: u32) -> Option<&T>
        requires there { row < row_count self.now.state.layout }
        ensures own { slice_get self.now.fields row ≡ Some (option_copied result) }
        ensures counted { resources result ≡ field_at self.now.state.fields row }
    {
        self.closed.field(row)
    }
}
