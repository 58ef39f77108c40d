//! Hands that retain and release the root.

ghost use Rattle.std.specs.Prelude.{◌≡◌, [], ◌∷◌, OnSome};
ghost use Rattle.brc_model.specs.declared.duty.Reason.TheVariants.{Own};
ghost use Rattle.brc_model.specs.declared.duty.Duty.TheVariants.{SharedLoad};
ghost use Rattle.brc_model.specs.Layout.{root_row};
ghost use Rattle.brc_table.specs.Views.{work_about, without_reference};
ghost use Rattle.brc_table.specs.Hands.{IsOf, IsRunning, HoldsOne, KeepsLock, HasNoWork};
ghost use Rattle.brc_table.specs.Calls.{CanAct};
ghost use Rattle.brc_heap.specs.Calls.{Leaves, shared_left};
ghost use Rattle.brc_heap_tests.specs.Ready.{IsReady};

use brc_heap::{Hand, Heap, LocalRelease, SharedRelease};

/// The row of none, which is immortal.
pub const NONE: u32 = 0;

/// The row of the root, which main owns.
pub const ROOT: u32 = 1;

/// More tries than a release through the shared word takes.
const TRIES: u32 = 100_000_000;

/// Tries to release the root through its shared word, until no other thread changes the word in between.
pub fn release_shared(heap: &Heap<u32>, hand: &mut Hand<u32>) -> SharedRelease
    requires table { IsOf heap.now hand.old }
    requires acts { CanAct hand.old.view }
    requires duty { work_about root_row hand.old.view ≡ SharedLoad root_row Own ∷ [] }
    ensures table { IsOf heap.now hand.new }
    ensures left { Leaves root_row (shared_left root_row Own result) hand.old.view hand.new.view }
    ensures references { hand.new.view.references ≡ hand.old.view.references }
{
    let mut ended = heap.try_release_shared(hand, ROOT);
    for _ in 0..TRIES {
        match ended {
            SharedRelease::Again => ended = heap.try_release_shared(hand, ROOT),
            _ => break,
        }
    }
    ended
}

/// Releases the root. Returns how its local release ended, or `None` if no reference is left, or something is left to
/// do.
#[tactic(auto, using(crate::proofs::Readiness::both_leave, crate::proofs::Readiness::still_acts))]
fn release(heap: &Heap<u32>, hand: &mut Hand<u32>) -> Option<LocalRelease>
    requires table { IsOf heap.now hand.old }
    requires running { IsRunning hand.old.view }
    requires held { HoldsOne hand.old.view root_row }
    requires keeps { KeepsLock hand.old.view root_row }
    requires idle { HasNoWork hand.old.view root_row }
    ensures table { IsOf heap.now hand.new }
    ensures left { OnSome result (Leaves root_row [] hand.old.view hand.new.view) }
    ensures references { hand.new.view.references
        ≡ without_reference hand.old.view.layout root_row hand.old.view.references }
{
    match heap.release_local(hand, ROOT) {
        LocalRelease::Kept => Some(LocalRelease::Kept),
        LocalRelease::Share => match release_shared(heap, hand) {
            SharedRelease::Kept => Some(LocalRelease::Share),
            _ => None,
        },
        _ => None,
    }
}

/// Retains the root and releases it again. Returns how its local release ended, or `None` if no reference is left, or
/// something is left to do. The hand then holds what it held before.
pub fn retain_and_release(heap: &Heap<u32>, hand: &mut Hand<u32>) -> Option<LocalRelease>
    requires ready { IsReady heap.now hand.old }
    ensures ready { OnSome result (IsReady heap.now hand.new) }
    ensures left { OnSome result (Leaves root_row [] hand.old.view hand.new.view) }
    ensures references { hand.new.view.references ≡ hand.old.view.references }
{
    heap.retain(hand, ROOT);
    release(heap, hand)
}
