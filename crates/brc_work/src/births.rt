//! `num` and `list`, which make objects.

ghost use Rattle.std.specs.Prelude.{◌≡◌, true, []};
ghost use Rattle.brc_lang.specs.declared.module.Instr.TheVariants as instructions;
ghost use Rattle.brc_model.specs.declared.state.Slot.TheVariants.{Owned};
ghost use Rattle.brc_model.specs.Duties.{resources_of};
ghost use Rattle.brc_model.specs.Machine.{has_room};
ghost use Rattle.brc_model.specs.SlotStates.{put};
ghost use Rattle.std.specs.Prelude.{◌≤◌};
ghost use Rattle.brc_table.specs.Hands.{IsOf};
ghost use Rattle.brc_table.specs.Homes.{resources};
ghost use Rattle.brc_heap.specs.Calls.{IsBornWith, kind_word};
ghost use Rattle.brc_work.specs.Changes.{CanFill, IsIn, ChangesTo};
ghost use Rattle.brc_work.specs.Fits.{MayDo, HasDone};
ghost use Rattle.brc_work.specs.Performs.{Performs, MakesBirth};

use crate::variables::{Variables, name};
use crate::worker::Worker;
use brc_heap::Hand;
use brc_lang::{Kind, Variable};
use brc_model::Exit;

impl<'h, T: Drop> Worker<'h, T> {
    /// `num`: makes a number.
    pub(crate) fn num(
        &self,
        rows: &mut Variables,
        hand: &mut Hand<T>,
        to: Variable,
        value: u32,
        otherwise: u8,
    ) -> Exit
        requires may { MayDo self.now (instructions.Num to value otherwise) rows.old hand.old }
        ensures of { IsOf self.now hand.new }
        ensures done { HasDone (instructions.Num to value otherwise) result rows.old hand.old rows.new hand.new }
        ensures made { Performs [] (instructions.Num to value otherwise) result rows.old hand.old.view rows.new
            hand.new.view }
    {
        if !self.heap.room(hand) {
            name(rows, to, None);
            return Exit::Fault;
        }
        self.bear(rows, hand, to, Kind::Num, value, None);
        Exit::Success
    }

    /// `list`: makes a list of empty cells.
    pub(crate) fn list(
        &self,
        rows: &mut Variables,
        hand: &mut Hand<T>,
        to: Variable,
        cells: u8,
        otherwise: u8,
    ) -> Exit
        requires may { MayDo self.now (instructions.List to cells otherwise) rows.old hand.old }
        requires few { cells ≤ self.now.layout.cells }
        ensures of { IsOf self.now hand.new }
        ensures done { HasDone (instructions.List to cells otherwise) result rows.old hand.old rows.new hand.new }
        ensures made { Performs [] (instructions.List to cells otherwise) result rows.old hand.old.view rows.new
            hand.new.view }
    {
        if !self.heap.room(hand) {
            name(rows, to, None);
            return Exit::Fault;
        }
        self.bear(rows, hand, to, Kind::List, u32::from(cells), None);
        Exit::Success
    }

    /// Gives birth to an object, to which the variable owns the only reference.
    pub(crate) fn bear(
        &self,
        rows: &mut Variables,
        hand: &mut Hand<T>,
        to: Variable,
        kind: Kind,
        arg: u32,
        resource: Option<T>,
    )
        requires fits { IsIn self.now (λ s. CanFill s to) rows.old hand.old }
        requires room { has_room hand.old.view.layout hand.old.view.thread hand.old.view.actor.used ≡ true }
        requires kind { IsBornWith hand.old.view.layout.cells kind arg }
        requires resource { resources resource ≡ resources_of (kind_word kind arg) }
        ensures of { IsOf self.now hand.new }
        ensures goes { ChangesTo (λ s. CanFill s to) (λ s. put s to (Owned kind)) rows.old hand.old rows.new hand.new }
        ensures made { MakesBirth to (kind_word kind arg) rows.old hand.old.view rows.new hand.new.view }
    {
        let row = self.heap.birth(hand, kind, arg, resource);
        name(rows, to, Some(row));
    }
}
