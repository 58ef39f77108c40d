//! How a hand puts an object into its owner's queue while other duties are pending.

ghost use Rattle.std.specs.Prelude.{◌≡◌, ◌≢◌, ℕ};
ghost use Rattle.brc_model.specs.declared.actor.Status.TheVariants.{Gone};
ghost use Rattle.brc_table.specs.Hands.{TableState, IsOf, KeepsButView};
ghost use Rattle.brc_heap.specs.Tries.{MarksNext};
ghost use Rattle.brc_heap.specs.Marks.{posted, look_answer, mark_found};

use brc_effect::outcomes::Looked;
use brc_table::Hand;

/// What puts objects into their owners' queues, for a hand that deallocates others meanwhile. `T` is the resource of a
/// file or a socket.
pub trait Marker<T> {
    // The heap whose objects it puts there.
    ghost heap: { Self → TableState };

    /// Does the next duties, after which others may come: sets the row's mark, which puts the object into its owner's
    /// queue, and looks after it. An owner that runs will find the mark. If the owner is leaving or gone, its exit may
    /// have scanned the mark before it was set: the hand then takes the mark back, and merges the object if the mark
    /// was still set.
    fn post(&self, hand: &mut Hand<T>, row: u32) -> Looked
        requires table { IsOf (heap self.now) hand.old }
        requires alive { hand.old.view.actor.status ≢ Gone }
        requires duty { MarksNext row hand.old.view.actor.agenda }
        ensures kept { KeepsButView hand.old hand.new }
        ensures events { (before : ℕ) × (said : ℕ) × (found : ℕ)
            × (result ≡ look_answer said (mark_found hand.old.view row found))
            × (hand.new.view ≡ posted hand.old.view before said found) };
}
