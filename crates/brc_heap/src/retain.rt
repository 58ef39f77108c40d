//! Retaining an object.

ghost use Rattle.std.specs.Prelude.{◌≡◌, ◌<◌, [], length, ℕ};
ghost use Rattle.brc_model.specs.Layout.{block_of};
ghost use Rattle.brc_model.specs.Within.{OwnerFits};
ghost use Rattle.brc_table.specs.Views.{with_reference};
ghost use Rattle.brc_table.specs.Hands.{IsOf, IsRunning, MayUse, HasNoWork, most_references, KeepsButView};
ghost use Rattle.brc_heap.specs.Calls.{retained, RetainsOwn, Leaves};

use crate::heap::Heap;
use brc_model::{Duty, Holding};
use brc_table::Hand;
use brc_word::{LocalChoice, retain_choice};

impl<T: Drop> Heap<T> {
    /// Makes a new reference to an object to which the hand holds one already, or which it borrows from the list that
    /// it has locked (`Py_INCREF`). From then on the hand has a reference of its own, which outlasts the lock.
    ///
    /// The owner counts in the local word, and any other thread in the shared word. An immortal object isn't counted.
    pub fn retain(&self, hand: &mut Hand<T>, row: u32)
        requires table { IsOf self.now hand.old }
        requires running { IsRunning hand.old.view }
        requires usable { MayUse hand.old.view row }
        requires idle { HasNoWork hand.old.view row }
        requires few { length hand.old.view.references < most_references }
        ensures table { IsOf self.now hand.new }
        ensures carried { hand.new.carried ≡ hand.old.carried }
        ensures fields { hand.new.fields ≡ hand.old.fields }
        ensures events { (word : ℕ) × (found : ℕ) × OwnerFits hand.old.view.layout row word
            × (hand.new.view ≡ retained hand.old.view row word found) }
        ensures own { block_of hand.old.view.layout row ≡ hand.old.view.thread → (word : ℕ) × (found : ℕ)
            × (hand.new.view ≡ retained hand.old.view row word found)
            × RetainsOwn row word found hand.old.view hand.new.view }
        ensures left { Leaves row [] hand.old.view hand.new.view }
        ensures head { hand.new.view.actor.head ≡ hand.old.view.actor.head }
        ensures references { hand.new.view.references
            ≡ with_reference hand.old.view.layout row hand.old.view.references }
    {
        self.retain_steps(hand, row);
    }

    /// Makes the steps of `retain`.
    fn retain_steps(&self, hand: &mut Hand<T>, row: u32)
        requires table { IsOf self.now hand.old }
        requires running { IsRunning hand.old.view }
        requires usable { MayUse hand.old.view row }
        requires idle { HasNoWork hand.old.view row }
        requires few { length hand.old.view.references < most_references }
        ensures kept { KeepsButView hand.old hand.new }
        ensures events { (word : ℕ) × (found : ℕ) × OwnerFits hand.old.view.layout row word
            × (hand.new.view ≡ retained hand.old.view row word found) }
    {
        let words = self.words();
        let holding = Holding::AsCaller;
        // `RetainsImmortal`, `OwnerRetains`, `FullOwnerRetains`, `OtherRetains`: who owns the object decides.
        let word = words.retain_load(hand, row);
        match retain_choice(word, hand.thread(), hand.is_running()) {
            LocalChoice::Skip => {}
            // `LocalRaised` (PEP 703, Biased Reference Counting: the owner counts without atomic operations): a plain
            // store, because only the running owner writes the word.
            LocalChoice::Store(_) => {
                words.step(hand, Duty::RetainStore { row, holding, word });
            }
            // `SharedRaised`: an addition, because other threads count there at the same time.
            LocalChoice::Share => {
                words.step(hand, Duty::RetainAdd { row, holding });
            }
        }
    }
}
