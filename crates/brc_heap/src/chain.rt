//! An object without a reference goes to the head of its hand's dying chain.

ghost use Rattle.std.specs.Prelude.{◌≡◌, ◌≢◌, List, ◌∷◌};
ghost use Rattle.brc_word.specs.Words.{free_word};
ghost use Rattle.brc_model.specs.declared.actor.Status.TheVariants.{Gone};
ghost use Rattle.brc_model.specs.declared.duty.Duty.{Duty};
ghost use Rattle.brc_model.specs.declared.duty.Duty.TheVariants.{Die};
ghost use Rattle.brc_table.specs.declared.view.View.{View};
ghost use Rattle.brc_table.specs.Views.{view_after};
ghost use Rattle.brc_table.specs.Hands.{IsOf, KeepsButView};
ghost use Rattle.brc_heap.specs.Steps.{HasStepped};

use crate::heap::Heap;
use brc_model::Duty;
use brc_table::Hand;

impl<T: Drop> Heap<T> {
    /// Does the next duty, after which others may come: chains the dying object.
    #[inline(always)]
    pub(crate) fn chain(&self, hand: &mut Hand<T>, row: u32)
        requires table { IsOf self.now hand.old }
        requires alive { hand.old.view.actor.status ≢ Gone }
        requires next { (rest : List Duty) × (hand.old.view.actor.agenda ≡ Die row ∷ rest) }
        ensures kept { KeepsButView hand.old hand.new }
        ensures view { hand.new.view ≡ view_after hand.old.view free_word }
        ensures stepped { (v : View) (rest : List Duty) → HasStepped v (Die row ∷ rest) hand.old.view
            → HasStepped v rest hand.new.view }
    {
        hand.rows_are_there();
        // `Chained`: a plain store, because no other thread has a reference by which it could lock the object.
        self.words().step(hand, Duty::Die { row });
    }
}
