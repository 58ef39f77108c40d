//! `as`, which asks for an object's kind.

ghost use Rattle.std.specs.Prelude.{◌≡◌, []};
ghost use Rattle.brc_lang.specs.declared.module.Instr.TheVariants as instructions;
ghost use Rattle.brc_table.specs.Hands.{IsOf};
ghost use Rattle.brc_work.specs.Fits.{MayDo, HasDone};
ghost use Rattle.brc_work.specs.Performs.{Performs};

use crate::variables::{Variables, row_in};
use crate::worker::Worker;
use brc_effect::kinds::same_kind;
use brc_heap::Hand;
use brc_lang::{Kind, Variable};
use brc_model::Exit;

impl<'h, T: Drop> Worker<'h, T> {
    /// `as`: asks whether an object is of the kind.
    pub(crate) fn is_of_kind(
        &self,
        rows: &Variables,
        hand: &mut Hand<T>,
        from: Variable,
        kind: Kind,
        otherwise: u8,
    ) -> Exit
        requires may { MayDo self.now (instructions.As from kind otherwise) rows.now hand.old }
        ensures of { IsOf self.now hand.new }
        ensures done { HasDone (instructions.As from kind otherwise) result rows.now hand.old rows.now hand.new }
        ensures made { Performs [] (instructions.As from kind otherwise) result rows.now hand.old.view rows.now
            hand.new.view }
    {
        let row = row_in(rows, from);
        if same_kind(self.heap.kind_of(hand, row), kind) {
            Exit::Success
        } else {
            Exit::Fault
        }
    }
}
