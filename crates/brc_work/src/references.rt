//! `none`, `take`, `newref`, `move` and `drop`, which make references, hand them on and give them up.

ghost use Rattle.std.specs.Prelude.{◌≡◌, ◌+◌, ◌<◌, []};
ghost use Rattle.brc_lang.specs.declared.module.Instr.TheVariants as instructions;
ghost use Rattle.brc_model.specs.Layout.{first_immortal_list};
ghost use Rattle.brc_model.specs.declared.state.Exit.TheVariants.{Success};
ghost use Rattle.brc_model.specs.declared.state.Slot.TheVariants.{Empty};
ghost use Rattle.brc_model.specs.SlotStates.{put};
ghost use Rattle.brc_table.specs.Hands.{IsOf, HoldsOne, KeepsLock};
ghost use Rattle.brc_work.specs.Acts.{ActsElsewhere, HasLess};
ghost use Rattle.brc_work.specs.Changes.{CanGive, IsIn, ChangesTo};
ghost use Rattle.brc_work.specs.Fits.{Rests, MayDo, HasDone};
ghost use Rattle.brc_work.specs.Performs.{Performs, GivesUp, MakesRelease};
ghost use Rattle.brc_work.specs.Totals.{Asked};

use crate::totals::Totals;
use crate::variables::{Variables, name, row_in};
use crate::worker::Worker;
use brc_effect::rows::NONE_ROW;
use brc_free::Finaliser;
use brc_heap::Hand;
use brc_host::Host;
use brc_lang::Variable;
use std::sync::Wait;

impl<'h, T: Drop> Worker<'h, T> {
    /// `none`: owns a reference to none.
    pub(crate) fn none(&self, rows: &mut Variables, hand: &Hand<T>, to: Variable)
        requires may { MayDo self.now (instructions.NoneObject to) rows.old hand.now }
        ensures done { HasDone (instructions.NoneObject to) Success rows.old hand.now rows.new hand.now }
        ensures made { Performs [] (instructions.NoneObject to) Success rows.old hand.now.view rows.new hand.now.view }
    {
        name(rows, to, Some(NONE_ROW));
    }

    /// `take`: owns a reference to a static list, which is immortal: nothing is counted.
    pub(crate) fn take(&self, rows: &mut Variables, hand: &Hand<T>, to: Variable, list: u8)
        requires may { MayDo self.now (instructions.Take to list) rows.old hand.now }
        requires there { list < self.now.layout.immortal_lists }
        ensures done { HasDone (instructions.Take to list) Success rows.old hand.now rows.new hand.now }
        ensures made { Performs [] (instructions.Take to list) Success rows.old hand.now.view rows.new hand.now.view }
    {
        let row = self.static_list(list);
        name(rows, to, Some(row));
    }

    /// Returns the row of the static list with this number.
    fn static_list(&self, list: u8) -> u32
        ensures { result ≡ first_immortal_list self.now.layout + list }
    {
        self.heap.words().static_list(list)
    }

    /// `newref`: makes a reference to an object that a variable owns or borrows.
    pub(crate) fn newref(
        &self,
        rows: &mut Variables,
        hand: &mut Hand<T>,
        to: Variable,
        from: Variable,
    )
        requires may { MayDo self.now (instructions.Newref to from) rows.old hand.old }
        ensures of { IsOf self.now hand.new }
        ensures done { HasDone (instructions.Newref to from) Success rows.old hand.old rows.new hand.new }
        ensures made { Performs [] (instructions.Newref to from) Success rows.old hand.old.view rows.new hand.new.view }
    {
        let row = row_in(rows, from);
        self.heap.retain(hand, row);
        name(rows, to, Some(row));
    }

    /// `move`: hands a reference on to another variable.
    pub(crate) fn hand_on(&self, rows: &mut Variables, hand: &Hand<T>, to: Variable, from: Variable)
        requires may { MayDo self.now (instructions.Move to from) rows.old hand.now }
        ensures done { HasDone (instructions.Move to from) Success rows.old hand.now rows.new hand.now }
        ensures made { Performs [] (instructions.Move to from) Success rows.old hand.now.view rows.new hand.now.view }
    {
        let row = row_in(rows, from);
        name(rows, from, None);
        name(rows, to, Some(row));
    }

    /// Gives up the reference of a variable, and finalises what dies. So do `drop` and `ret`, and `set` where the list
    /// has no such cell.
    pub(crate) fn give_up<R: Wait, H: Host<Res = T>>(
        &self,
        rt: &R,
        rows: &mut Variables,
        hand: &mut Hand<T>,
        host: &mut H,
        totals: &mut Totals,
        from: Variable,
    )
        requires fits { IsIn self.now (λ s. CanGive s from) rows.old hand.old }
        ensures of { IsOf self.now hand.new }
        ensures goes { ChangesTo (λ s. CanGive s from) (λ s. put s from Empty) rows.old hand.old rows.new hand.new }
        ensures asked { Asked H.answers H.counts host.old host.new totals.old totals.new
            (λ calls. GivesUp calls from rows.old hand.old.view rows.new hand.new.view) }
    {
        let row = row_in(rows, from);
        name(rows, from, None);
        self.release(rt, hand, host, totals, row);
    }

    /// Gives up a reference to an object, and finalises what dies.
    pub(crate) fn release<R: Wait, H: Host<Res = T>>(
        &self,
        rt: &R,
        hand: &mut Hand<T>,
        host: &mut H,
        totals: &mut Totals,
        row: u32,
    )
        requires of { IsOf self.now hand.old }
        requires rests { Rests hand.old }
        requires held { HoldsOne hand.old.view row }
        requires keeps { KeepsLock hand.old.view row }
        ensures of { IsOf self.now hand.new }
        ensures acts { ActsElsewhere hand.old hand.new }
        ensures less { HasLess row hand.old hand.new }
        ensures asked { Asked H.answers H.counts host.old host.new totals.old totals.new
            (λ calls. MakesRelease calls row hand.old.view hand.new.view) }
    {
        let finaliser = Finaliser::new(self.heap, self.queue);
        finaliser.release(rt, hand, row);
        let failed = finaliser.settle(rt, hand, host);
        totals.count_close_faults(failed);
    }
}
