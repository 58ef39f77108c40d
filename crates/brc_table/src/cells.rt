//! The steps of a hand on the cells of the list that it has locked, or is to finalise (Python/C API manual, List
//! Objects).

ghost use Rattle.std.specs.Prelude.{◌≡◌, ◌<◌, ◌≤◌, ℕ, Some, length};
ghost use Rattle.brc_model.specs.Layout.{row_count};
ghost use Rattle.brc_table.specs.Views.{view_after, loading_cell};
ghost use Rattle.brc_table.specs.KnownWords.{KnowsCell, known_cell};
ghost use Rattle.brc_table.specs.Swaps.{swapped, MayPut, MaySwap};
ghost use Rattle.brc_table.specs.Hands.{most_references, IsOf, IsRunning, MayLoad, MayChange, HasNoWork, HasNoRetain, KeepsButView};

use crate::hand::Hand;
use crate::rule::{Swap, Swapped};
use crate::words::Words;
use brc_model::{
    Duty, accounts_are_there, cell_loads_begin, cells_are_swapped, chains_are_there,
    immortals_are_free, items_are_there, work_is_put_aside,
};
use std::marker::Brand;

impl<T: Drop> Words<T> {
    /// Loads a cell of the list that the hand has locked, or is to finalise as the first of its dying chain. Returns
    /// what is there: a row plus 1, or 0 if the cell is empty. Since the hand locked or chained the list, no other
    /// thread has changed the cell.
    #[inline(always)]
    pub fn cell_load(&self, hand: &mut Hand<T>, row: u32, cell: u32) -> u64
        requires table { IsOf self.now hand.old }
        requires running { IsRunning hand.old.view }
        requires idle { HasNoWork hand.old.view row }
        requires loads { MayLoad hand.old.view row }
        requires knows { KnowsCell hand.old.view row cell }
        ensures kept { KeepsButView hand.old hand.new }
        ensures view { hand.new.view ≡ view_after (loading_cell hand.old.view row cell) result }
        ensures there { result ≤ row_count hand.old.view.layout }
        ensures stays { (word : ℕ) → known_cell row cell hand.old.view ≡ Some word → result ≡ word }
    {
        work_is_put_aside();
        cell_loads_begin();
        immortals_are_free();
        hand.rows_are_there();
        self.step_from::<Brand>(hand, &Duty::CellLoad { row, cell })
    }

    /// Swaps a cell of the list that the hand has locked, or is to finalise as the first of its dying chain, for
    /// `item`, a row plus 1, or 0 for an empty cell. The hand's reference to the new item goes into the cell. Returns
    /// what was there, also a row plus 1 or 0: the reference to it is the hand's from then on. Since the hand locked or
    /// chained the list, no other thread has changed the cell.
    pub fn cell_swap(&self, hand: &mut Hand<T>, row: u32, cell: u32, item: u64) -> u64
        requires table { IsOf self.now hand.old }
        requires running { IsRunning hand.old.view }
        requires changes { MayChange hand.old.view row }
        requires knows { KnowsCell hand.old.view row cell }
        requires retains { HasNoRetain hand.old.view }
        requires puts { MayPut hand.old.view item }
        requires few { length hand.old.view.references < most_references }
        ensures kept { KeepsButView hand.old hand.new }
        ensures view { hand.new.view ≡ swapped hand.old.view row cell item result }
        ensures there { result ≤ row_count hand.old.view.layout }
        ensures stays { (word : ℕ) → known_cell row cell hand.old.view ≡ Some word → result ≡ word }
    {
        hand.rows_are_there();
        self.swap_item::<Brand>(hand, row, cell, item)
    }

    /// Swaps a cell of the list that the hand has locked. A reference of the hand goes in, and what the cell held is
    /// the hand's from then on.
    fn swap_item<B: Swap>(&self, hand: &mut Hand<T>, row: u32, cell: u32, item: u64) -> u64
        requires table { IsOf self.now hand.old }
        requires list { row ≡ B.list }
        requires index { cell ≡ B.cell }
        requires item { item ≡ B.item }
        requires cell { cell < self.now.layout.cells }
        requires there { row < row_count self.now.layout }
        requires may { MaySwap hand.old.view row cell item }
        ensures kept { KeepsButView hand.old hand.new }
        ensures view { hand.new.view ≡ swapped hand.old.view row cell item result }
        ensures there { result ≤ row_count hand.old.view.layout }
        ensures stays { (seen : ℕ) → known_cell row cell hand.old.view ≡ Some seen → result ≡ seen }
    {
        work_is_put_aside();
        immortals_are_free();
        accounts_are_there();
        chains_are_there();
        items_are_there();
        cells_are_swapped();
        let index = self.cells.place(row, cell);
        self.table
            .shared
            .swap::<Swapped<B>>(&mut hand.seat, index, item)
    }
}
