//! A worker that stops between two instructions of a call.

ghost use Rattle.std.specs.Prelude.{◌≡◌, ℕ, None};
ghost use Rattle.brc_model.specs.declared.state.Slot.TheVariants.{Empty};
ghost use Rattle.brc_model.specs.declared.state.State.{State};
ghost use Rattle.brc_model.specs.SlotStates.{is_owned, put};
ghost use Rattle.brc_table.specs.Hands.{IsOf};
ghost use Rattle.brc_work.specs.Calls.{HasReturned};
ghost use Rattle.brc_work.specs.Changes.{CanGive, IsIn};
ghost use Rattle.brc_work.specs.Fits.{Base, Fits};
ghost use Rattle.brc_work.specs.Stopping.{unchained, IsGivingUp, GoesChained, Loosens, MakesStop, MakesReleases, OwnsAsMuch};

use crate::variables::{Variables, name, row_in};
use crate::worker::Worker;
use brc_free::Finaliser;
use brc_heap::Hand;
use brc_lang::Variable;
use brc_model::{Slot, State};
use std::sync::Wait;

fn is_owned(var: Slot) -> bool
    ensures { result ≡ is_owned var }
{
    matches!(var, Slot::Owned(_))
}

impl<'h, T: Drop> Worker<'h, T> {
    /// Gives up what the innermost call holds, which is stopped at a point with this state. It unlocks first, because
    /// another worker may wait for the lock; then it gives up the references of the variables that own one, by rising
    /// number. What variables borrow isn't the call's own. What dies goes to the hand's dying chain: the calls further
    /// out come first, and then the worker settles.
    pub(crate) fn stop<R: Wait>(
        &self,
        rt: &R,
        state: &State,
        rows: &mut Variables,
        hand: &mut Hand<T>,
    )
        requires fits { IsIn self.now (λ s. s ≡ state.now) rows.old hand.old }
        ensures of { IsOf self.now hand.new }
        ensures returned { (base : Base) → Fits base state.now rows.old hand.old
            → HasReturned base (unchained hand.new) }
        ensures made { MakesStop state.now rows.old hand.old.view hand.new.view }
    {
        if let Some(object) = state.locked {
            self.unlock(rows, hand, object);
        }
        self.give_up_owned(rt, state, rows, hand);
    }

    /// Gives up the references of a call's variables that own one in the state, by rising number. Nothing is locked.
    pub(crate) fn give_up_owned<R: Wait>(
        &self,
        rt: &R,
        state: &State,
        rows: &mut Variables,
        hand: &mut Hand<T>,
    )
        requires fits { IsGivingUp self.now (OwnsAsMuch state.now) rows.old hand.old }
        ensures of { IsOf self.now hand.new }
        ensures returned { (base : Base) (s : State) → Fits base s rows.old (unchained hand.old)
            → OwnsAsMuch state.now s → HasReturned base (unchained hand.new) }
        ensures made { MakesReleases state.now rows.old hand.old.view hand.new.view }
    {
        for number in 0..Variable::COUNT {
            if is_owned(state.slots[number]) {
                self.loosen(rt, rows, hand, Variable::new(number as u8));
            }
        }
    }

    /// Gives up the reference of a variable. An object that dies by it goes to the hand's dying chain.
    fn loosen<R: Wait>(&self, rt: &R, rows: &mut Variables, hand: &mut Hand<T>, from: Variable)
        requires fits { IsGivingUp self.now (λ s. CanGive s from) rows.old hand.old }
        ensures of { IsOf self.now hand.new }
        ensures goes { GoesChained (λ s. CanGive s from) (λ s. put s from Empty) rows.old hand.old rows.new hand.new }
        ensures made { Loosens from rows.old hand.old.view rows.new hand.new.view }
    {
        let finaliser = Finaliser::new(self.heap, self.queue);
        let row = row_in(rows, from);
        name(rows, from, None);
        finaliser.release(rt, hand, row);
    }
}
