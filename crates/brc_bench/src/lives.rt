//! Whole lives: a hand gives birth to a number, gives its only reference up, and finalises it.

ghost use Rattle.std.specs.Prelude.{◌≤◌};
ghost use Rattle.brc_table.specs.Views.{holds};
ghost use Rattle.brc_bench.specs.Swaps.{IsAtRest};

use brc_free::Finaliser;
use brc_heap::{Hand, Heap};
use brc_host::{FakeHost, FakeResource};
use brc_lang::Kind;
use brc_queue::Queue;
use std::sync::Wait;

/// Gives up a reference to an object, and finalises what dies. Returns whether an object died.
fn gives_up<R: Wait>(
    rt: &R,
    heap: &Heap<FakeResource>,
    hand: &mut Hand<FakeResource>,
    host: &mut FakeHost<'_>,
    row: u32,
) -> bool
    requires resting { IsAtRest heap.now hand.old }
    requires held { 1 ≤ holds hand.old.view row }
    ensures resting { IsAtRest heap.now hand.new }
{
    let queue = Queue::new(heap);
    let finaliser = Finaliser::new(heap, &queue);
    finaliser.release(rt, hand, row);
    let dies = hand.head() != 0;
    finaliser.settle(rt, hand, host);
    dies
}

/// Makes lives while there is room. Returns how many.
#[tactic(auto, using(crate::proofs::FirstSwaps::rests_after_birth, crate::proofs::AtRest::holds_first))]
pub fn lives<R: Wait>(
    rt: &R,
    heap: &Heap<FakeResource>,
    hand: &mut Hand<FakeResource>,
    most: u32,
) -> u32
    requires resting { IsAtRest heap.now hand.old }
{
    let mut host = FakeHost::new(&[]);
    let mut made = 0;
    for value in 0..most {
        if !heap.room(hand) {
            break;
        }
        let row = heap.birth(hand, Kind::Num, value, None);
        if !gives_up(rt, heap, hand, &mut host, row) {
            break;
        }
        made += 1;
    }
    made
}
