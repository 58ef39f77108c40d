//! Main joins the hands that workers leave.

ghost use Rattle.std.specs.Prelude.{◌≡◌, ℕ, ◌<◌, [], vec_len, slice_index_or};
ghost use Rattle.brc_model.specs.declared.actor.Status.TheVariants.{Gone};
ghost use Rattle.brc_table.specs.Hands.{IsOf};
ghost use Rattle.brc_table.specs.Views.{HasJoined};
ghost use Rattle.brc_work.specs.Mains.{JoinsMore};

use crate::ran::Ran;
use brc_heap::{Hand, Heap};

/// Joins the hands of workers that are gone: main keeps of each that its thread is gone, and how many rows it has used.
pub fn join_hands<T: Drop>(heap: &Heap<T>, main: &mut Hand<T>, gone: Vec<(Hand<T>, Ran)>)
    requires of { IsOf heap.now main.old }
    requires gone { (k : ℕ) (w : _) → k < vec_len gone → let hand = (slice_index_or gone.items k w).0 in
        IsOf heap.now hand × (hand.view.actor.status ≡ Gone) × (hand.fields ≡ []) }
    ensures of { IsOf heap.now main.new }
    ensures carried { main.new.carried ≡ main.old.carried }
    ensures fields { main.new.fields ≡ main.old.fields }
    ensures more { JoinsMore main.old.view main.new.view }
    ensures each { (k : ℕ) (w : _) → k < vec_len gone → let hand = (slice_index_or gone.items k w).0 in
        HasJoined main.new.view (record { thread = hand.view.thread; used = hand.view.actor.used }) }
{
    for left in gone {
        let (hand, _) = left;
        heap.words().join(main, hand);
    }
}
