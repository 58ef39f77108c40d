//! Pairs of a retain and a release, and births.

ghost use Rattle.std.specs.Prelude.{◌≡◌, ◌<◌, [], ◌∷◌, true};
ghost use Rattle.brc_model.specs.declared.duty.Reason.TheVariants.{Own};
ghost use Rattle.brc_model.specs.declared.duty.Duty.TheVariants.{SharedLoad};
ghost use Rattle.brc_table.specs.Views.{work_about, without_reference};
ghost use Rattle.brc_table.specs.Hands.{IsOf, IsRunning, HoldsOne, HasNoWork};
ghost use Rattle.brc_table.specs.Calls.{CanAct};
ghost use Rattle.brc_heap.specs.Calls.{Leaves};
ghost use Rattle.brc_bench.specs.Ready.{IsReady};

use brc_heap::{Hand, Heap, LocalRelease, SharedRelease};
use brc_host::FakeResource;
use brc_lang::Kind;

/// More tries than a release through the shared word takes.
const TRIES: u32 = 1_000_000_000;

/// Retains and releases an object `times` times. Returns how often a reference was left, which is always.
pub fn pairs(heap: &Heap<FakeResource>, hand: &mut Hand<FakeResource>, row: u32, times: u32) -> u32
    requires ready { IsReady heap.now hand.old row }
    ensures { result ≡ times → IsReady heap.now hand.new row }
{
    let mut kept = 0;
    for _ in 0..times {
        if !pair(heap, hand, row) {
            break;
        }
        kept += 1;
    }
    kept
}

/// Retains and releases an object. Returns whether a reference was left, and nothing to do.
fn pair(heap: &Heap<FakeResource>, hand: &mut Hand<FakeResource>, row: u32) -> bool
    requires ready { IsReady heap.now hand.old row }
    ensures { result ≡ true → IsReady heap.now hand.new row }
{
    heap.retain(hand, row);
    match heap.release_local(hand, row) {
        LocalRelease::Kept => true,
        LocalRelease::Share => release_shared(heap, hand, row),
        _ => false,
    }
}

/// Releases an object through its shared word, until no other thread changes the word in between. Returns whether a
/// reference was left, and nothing to do.
fn release_shared(heap: &Heap<FakeResource>, hand: &mut Hand<FakeResource>, row: u32) -> bool
    requires table { IsOf heap.now hand.old }
    requires acts { CanAct hand.old.view }
    requires duty { work_about row hand.old.view ≡ SharedLoad row Own ∷ [] }
    ensures table { IsOf heap.now hand.new }
    ensures left { result ≡ true → Leaves row [] hand.old.view hand.new.view }
    ensures references { hand.new.view.references ≡ hand.old.view.references }
{
    for _ in 0..TRIES {
        match heap.try_release_shared(hand, row) {
            SharedRelease::Again => {}
            SharedRelease::Kept => return true,
            _ => return false,
        }
    }
    false
}

/// Gives birth to numbers while there is room. Returns how many.
pub fn births(heap: &Heap<FakeResource>, hand: &mut Hand<FakeResource>, most: u32) -> u32
    requires table { IsOf heap.now hand.old }
    requires running { IsRunning hand.old.view }
{
    let mut made = 0;
    for number in 0..most {
        if !heap.room(hand) {
            break;
        }
        heap.birth(hand, Kind::Num, number, None);
        made += 1;
    }
    made
}
