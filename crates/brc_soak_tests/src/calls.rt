//! Single calls of a worker, each with its ledger: what the hand holds afterwards is what the ledger counts.

ghost use Rattle.std.specs.Prelude.{◌≡◌, ◌<◌, ◌≤◌, ◌+◌, ◌^◌, true, None, Some, [], ◌∷◌, if◌then◌else◌};
ghost use Rattle.brc_model.specs.Duties.{resources_of};
ghost use Rattle.brc_model.specs.Layout.{root_row, IsCounted};
ghost use Rattle.brc_model.specs.Limits.{text_cells};
ghost use Rattle.brc_heap.specs.Calls.{IsBornWith, kind_word};
ghost use Rattle.brc_table.specs.Hands.{IsOf};
ghost use Rattle.brc_table.specs.Homes.{resources};
ghost use Rattle.brc_fixtures.specs.Resting.{IsAtRest};
ghost use Rattle.brc_soak_tests.specs.Ledgers.{Tells, counted};

use crate::ledger::Ledger;
use crate::posts::Posts;
use brc_free::Finaliser;
use brc_heap::{Hand, Heap, ROOT};
use brc_host::{FakeHost, FakeResource};
use brc_lang::Kind;
use brc_queue::Queue;
use std::sync::Wait;

/// Gives birth to an object, if there is room. Returns its row.
#[tactic(auto, using(brc_fixtures::proofs::Resting::rests_after_birth, crate::proofs::Counting::tells_more, crate::proofs::Counting::tells_whole, brc_fixtures::proofs::PlainModules::born_in_more))]
pub fn bears(
    heap: &Heap<FakeResource>,
    hand: &mut Hand<FakeResource>,
    ledger: &mut Ledger,
    kind: Kind,
    arg: u32,
    resource: Option<FakeResource>,
) -> Option<u32>
    requires resting { IsAtRest heap.now hand.old None }
    requires tells { Tells ledger.old hand.old.view.references }
    requires few { ledger.old.total + 1 < 2 ^ 32 }
    requires kind { IsBornWith text_cells kind arg }
    requires resource { resources resource ≡ resources_of (kind_word kind arg) }
    ensures resting { IsAtRest heap.now hand.new None }
    ensures tells { Tells ledger.new hand.new.view.references }
{
    heap.words().layout_is_plain();
    if !heap.room(hand) {
        return None;
    }
    let row = heap.birth(hand, kind, arg, resource);
    ledger.more(row);
    Some(row)
}

/// Retains an object, if the hand holds it. Returns whether it did.
#[tactic(auto, using(brc_fixtures::proofs::Resting::rests_after_call, brc_fixtures::proofs::Resting::some_counted, brc_fixtures::proofs::Resting::lists_one_more, crate::proofs::Counting::tells_more, crate::proofs::Counting::tells_whole, crate::proofs::Counting::tells_held))]
pub fn retains(
    heap: &Heap<FakeResource>,
    hand: &mut Hand<FakeResource>,
    ledger: &mut Ledger,
    row: u32,
) -> bool
    requires resting { IsAtRest heap.now hand.old None }
    requires tells { Tells ledger.old hand.old.view.references }
    requires few { ledger.old.total + 1 < 2 ^ 32 }
    ensures resting { IsAtRest heap.now hand.new None }
    ensures tells { Tells ledger.new hand.new.view.references }
{
    if row == 0 || ledger.count(row) == 0 {
        return false;
    }
    heap.retain(hand, row);
    ledger.more(row);
    true
}

/// Gives up a reference to an object, if the hand holds it, and finalises what dies. Returns how many closes have
/// failed, or `None` if the hand doesn't hold it.
#[tactic(auto, using(brc_fixtures::proofs::Resting::some_counted, crate::proofs::Counting::tells_whole, crate::proofs::Counting::tells_held))]
pub fn gives_up<R: Wait>(
    rt: &R,
    heap: &Heap<FakeResource>,
    posts: &Posts<'_>,
    hand: &mut Hand<FakeResource>,
    ledger: &mut Ledger,
    host: &mut FakeHost<'_>,
    row: u32,
) -> Option<u64>
    requires posts { posts.now ≡ heap.now }
    requires resting { IsAtRest heap.now hand.old None }
    requires tells { Tells ledger.old hand.old.view.references }
    ensures resting { IsAtRest heap.now hand.new None }
    ensures tells { Tells ledger.new hand.new.view.references }
{
    if row == 0 || ledger.count(row) == 0 {
        return None;
    }
    ledger.less(row);
    let finaliser = Finaliser::new(heap, posts);
    finaliser.release(rt, hand, row);
    Some(finaliser.settle(rt, hand, host))
}

/// Looks through the hand's own queue, if its dying chain is empty. Returns how many closes have failed, or `None` if
/// the chain isn't empty.
pub fn merges<R: Wait>(
    rt: &R,
    heap: &Heap<FakeResource>,
    hand: &mut Hand<FakeResource>,
    ledger: &Ledger,
    host: &mut FakeHost<'_>,
) -> Option<u64>
    requires resting { IsAtRest heap.now hand.old None }
    requires tells { Tells ledger.now hand.old.view.references }
    ensures resting { IsAtRest heap.now hand.new None }
    ensures tells { Tells ledger.now hand.new.view.references }
{
    if hand.head() != 0 {
        return None;
    }
    Some(Queue::new(heap).merge_pending(rt, hand, host))
}

/// Leaves, if the hand's dying chain is empty and it holds one reference, to the root. Returns how many closes have
/// failed, or `None` if there is more.
#[tactic(auto, using(crate::proofs::Counting::tells_root))]
pub fn leaves<R: Wait>(
    rt: &R,
    heap: &Heap<FakeResource>,
    hand: &mut Hand<FakeResource>,
    ledger: &Ledger,
    host: &mut FakeHost<'_>,
) -> Option<u64>
    requires resting { IsAtRest heap.now hand.old None }
    requires tells { Tells ledger.now hand.old.view.references }
    ensures table { IsOf heap.now hand.new }
    ensures thread { hand.new.view.thread ≡ hand.old.view.thread }
{
    if hand.head() != 0 || ledger.total() != 1 || ledger.count(ROOT) == 0 {
        return None;
    }
    Some(Queue::new(heap).leave(rt, hand, host))
}
