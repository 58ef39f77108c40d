//! `borrow`, `fetch`, `set` and `put`, which use a cell of the list that the worker has locked.

ghost use Rattle.std.specs.Prelude.{◌≡◌, ◌<◌, suc, Some, length, []};
ghost use Rattle.brc_lang.specs.declared.module.Instr.TheVariants as instructions;
ghost use Rattle.brc_table.specs.Hands.{IsOf, HoldsOne, most_references};
ghost use Rattle.brc_table.specs.KnownWords.{KnowsCell};
ghost use Rattle.brc_table.specs.Swaps.{MayPut};
ghost use Rattle.brc_work.specs.Acts.{Acts, HasLess};
ghost use Rattle.brc_work.specs.Fits.{Rests, MayDo, HasDone};
ghost use Rattle.brc_work.specs.Performs.{Performs, MakesSwap};
ghost use Rattle.brc_work.specs.Totals.{Asked};

use crate::totals::Totals;
use crate::variables::{Variables, name, row_in};
use crate::worker::Worker;
use brc_heap::Hand;
use brc_host::Host;
use brc_lang::Variable;
use brc_list::Lists;
use brc_model::Exit;
use std::sync::Wait;

impl<'h, T: Drop> Worker<'h, T> {
    /// `borrow`: borrows an item of a list (`PyList_GetItem`).
    pub(crate) fn borrow(
        &self,
        rows: &mut Variables,
        hand: &mut Hand<T>,
        to: Variable,
        list: Variable,
        index: u8,
        otherwise: u8,
    ) -> Exit
        requires may { MayDo self.now (instructions.Borrow to list index otherwise) rows.old hand.old }
        ensures of { IsOf self.now hand.new }
        ensures done { HasDone (instructions.Borrow to list index otherwise) result rows.old hand.old rows.new
            hand.new }
        ensures made { Performs [] (instructions.Borrow to list index otherwise) result rows.old hand.old.view
            rows.new hand.new.view }
    {
        let lists = Lists::new(self.heap);
        let row = row_in(rows, list);
        let cell = u32::from(index);
        if cell >= lists.size(hand, row) {
            name(rows, to, None);
            return Exit::Fault;
        }
        let found = lists.item(hand, row, cell);
        match found {
            Some(item) => {
                name(rows, to, Some(item));
                Exit::Success
            }
            None => {
                name(rows, to, None);
                Exit::Fault
            }
        }
    }

    /// `fetch`: makes a reference to an item of a list (`PyList_GetItemRef`).
    pub(crate) fn fetch(
        &self,
        rows: &mut Variables,
        hand: &mut Hand<T>,
        to: Variable,
        list: Variable,
        index: u8,
        otherwise: u8,
    ) -> Exit
        requires may { MayDo self.now (instructions.Fetch to list index otherwise) rows.old hand.old }
        ensures of { IsOf self.now hand.new }
        ensures done { HasDone (instructions.Fetch to list index otherwise) result rows.old hand.old rows.new hand.new }
        ensures made { Performs [] (instructions.Fetch to list index otherwise) result rows.old hand.old.view
            rows.new hand.new.view }
    {
        let lists = Lists::new(self.heap);
        let row = row_in(rows, list);
        let cell = u32::from(index);
        if cell >= lists.size(hand, row) {
            name(rows, to, None);
            return Exit::Fault;
        }
        let found = lists.item(hand, row, cell);
        match found {
            Some(item) => {
                self.heap.retain(hand, item);
                name(rows, to, Some(item));
                Exit::Success
            }
            None => {
                name(rows, to, None);
                Exit::Fault
            }
        }
    }

    /// `set`: moves a variable's reference into a cell, and gives up the item that was there (`PyList_SetItem`). If the
    /// list has no such cell, the variable's reference is given up all the same.
    pub(crate) fn set<R: Wait, H: Host<Res = T>>(
        &self,
        rt: &R,
        rows: &mut Variables,
        hand: &mut Hand<T>,
        host: &mut H,
        totals: &mut Totals,
        list: Variable,
        index: u8,
        from: Variable,
        otherwise: u8,
    ) -> Exit
        requires may { MayDo self.now (instructions.Set list index from otherwise) rows.old hand.old }
        ensures of { IsOf self.now hand.new }
        ensures done { HasDone (instructions.Set list index from otherwise) result rows.old hand.old rows.new hand.new }
        ensures asked { Asked H.answers H.counts host.old host.new totals.old totals.new
            (λ calls. Performs calls (instructions.Set list index from otherwise) result rows.old hand.old.view
            rows.new hand.new.view) }
    {
        let row = row_in(rows, list);
        let cell = u32::from(index);
        if cell >= Lists::new(self.heap).size(hand, row) {
            self.give_up(rt, rows, hand, host, totals, from);
            return Exit::Fault;
        }
        let item = row_in(rows, from);
        name(rows, from, None);
        self.exchange(rt, hand, host, totals, row, cell, item);
        Exit::Success
    }

    /// `put`: stores a new reference to a variable's object in a cell, and gives up the item that was there (as
    /// `PyDict_SetItem` does).
    pub(crate) fn put<R: Wait, H: Host<Res = T>>(
        &self,
        rt: &R,
        rows: &Variables,
        hand: &mut Hand<T>,
        host: &mut H,
        totals: &mut Totals,
        list: Variable,
        index: u8,
        from: Variable,
        otherwise: u8,
    ) -> Exit
        requires may { MayDo self.now (instructions.Put list index from otherwise) rows.now hand.old }
        ensures of { IsOf self.now hand.new }
        ensures done { HasDone (instructions.Put list index from otherwise) result rows.now hand.old rows.now hand.new }
        ensures asked { Asked H.answers H.counts host.old host.new totals.old totals.new
            (λ calls. Performs calls (instructions.Put list index from otherwise) result rows.now hand.old.view
            rows.now hand.new.view) }
    {
        let row = row_in(rows, list);
        let cell = u32::from(index);
        if cell >= Lists::new(self.heap).size(hand, row) {
            return Exit::Fault;
        }
        let item = row_in(rows, from);
        self.heap.retain(hand, item);
        self.exchange(rt, hand, host, totals, row, cell, item);
        Exit::Success
    }

    /// Puts a reference of the hand into a cell of the list that it has locked, gives up the one that was there, and
    /// finalises what dies.
    fn exchange<R: Wait, H: Host<Res = T>>(
        &self,
        rt: &R,
        hand: &mut Hand<T>,
        host: &mut H,
        totals: &mut Totals,
        row: u32,
        cell: u32,
        item: u32,
    )
        requires of { IsOf self.now hand.old }
        requires rests { Rests hand.old }
        requires held { HoldsOne hand.old.view row }
        requires locked { hand.old.view.actor.locked ≡ Some row }
        requires knows { KnowsCell hand.old.view row cell }
        requires puts { MayPut hand.old.view (suc item) }
        requires few { length hand.old.view.references < most_references }
        ensures of { IsOf self.now hand.new }
        ensures acts { Acts hand.old hand.new }
        ensures less { HasLess item hand.old hand.new }
        ensures asked { Asked H.answers H.counts host.old host.new totals.old totals.new
            (λ calls. MakesSwap calls row cell item hand.old.view hand.new.view) }
    {
        let found = Lists::new(self.heap).swap_item(hand, row, cell, Some(item));
        match found {
            Some(old) => self.release(rt, hand, host, totals, old),
            None => {}
        }
    }
}
