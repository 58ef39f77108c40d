//! `lock` and `unlock`, which begin and end the critical section of an object.

ghost use Rattle.std.specs.Prelude.{◌≡◌, ◌⊎◌, Some, None, true, false, ℕ, []};
ghost use Rattle.brc_lang.specs.declared.module.Instr.TheVariants as instructions;
ghost use Rattle.brc_model.specs.declared.state.Exit.TheVariants.{Success};
ghost use Rattle.brc_table.specs.Hands.{IsOf};
ghost use Rattle.brc_work.specs.Fits.{MayDo, HasDone, IsStill};
ghost use Rattle.brc_work.specs.Stopping.{Unlocks};
ghost use Rattle.brc_work.specs.Performs.{Performs, Waits};

use crate::variables::{Variables, row_in};
use crate::worker::Worker;
use brc_free::Waits;
use brc_heap::Hand;
use brc_lang::Variable;
use brc_list::Lists;
use std::sync::Wait;

impl<'h, T: Drop> Worker<'h, T> {
    /// `lock`: locks an object, once no other thread has locked it.
    pub(crate) fn lock<R: Wait>(
        &self,
        rt: &R,
        rows: &Variables,
        hand: &mut Hand<T>,
        object: Variable,
    )
        requires may { MayDo self.now (instructions.Lock object) rows.now hand.old }
        ensures of { IsOf self.now hand.new }
        ensures done { HasDone (instructions.Lock object) Success rows.now hand.old rows.now hand.new }
        ensures made { Performs [] (instructions.Lock object) Success rows.now hand.old.view rows.now hand.new.view }
    {
        for _ in rt.forever() {
            if self.tries_lock(rows, hand, object) {
                return;
            }
            // The thread that has the lock may need this processor.
            self.queue.wait();
        }
        unreachable!()
    }

    /// Tries once to lock an object. Returns whether it is locked.
    fn tries_lock(&self, rows: &Variables, hand: &mut Hand<T>, object: Variable) -> bool
        requires may { MayDo self.now (instructions.Lock object) rows.now hand.old }
        ensures of { IsOf self.now hand.new }
        ensures done { result ≡ true → HasDone (instructions.Lock object) Success rows.now hand.old rows.now hand.new }
        ensures again { result ≡ false → MayDo self.now (instructions.Lock object) rows.now hand.new }
        ensures nothing { result ≡ false → IsStill (instructions.Lock object) rows.now hand.old hand.new }
        ensures made { result ≡ true
            → Performs [] (instructions.Lock object) Success rows.now hand.old.view rows.now hand.new.view }
        ensures waited { result ≡ false → Waits (instructions.Lock object) rows.now hand.old.view hand.new.view }
    {
        let row = row_in(rows, object);
        Lists::new(self.heap).try_lock(hand, row)
    }

    /// `unlock`: unlocks an object.
    pub(crate) fn unlock(&self, rows: &Variables, hand: &mut Hand<T>, object: Variable)
        requires may { MayDo self.now (instructions.Unlock object) rows.now hand.old }
        ensures of { IsOf self.now hand.new }
        ensures done { HasDone (instructions.Unlock object) Success rows.now hand.old rows.now hand.new }
        ensures made { Performs [] (instructions.Unlock object) Success rows.now hand.old.view rows.now hand.new.view }
        ensures unlocks { Unlocks object rows.now hand.old.view hand.new.view }
    {
        let row = row_in(rows, object);
        Lists::new(self.heap).unlock(hand, row);
    }
}
