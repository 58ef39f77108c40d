//! Locked swaps: a hand locks a list, swaps an item of it, and unlocks it.

ghost use Rattle.std.specs.Prelude.{◌≡◌, ℕ, List, true};
ghost use Rattle.brc_bench.specs.Swaps.{IsReadyToSwap, HoldsBeside};

use brc_heap::Hand;
use brc_host::FakeResource;
use brc_list::Lists;

/// More tries than a lock takes.
const TRIES: u32 = 1_000_000_000;

/// The cell whose item is swapped.
pub const CELL: u32 = 0;

/// Makes `times` locked swaps. The hand then holds what the last one took out. Returns how many it made, which is
/// always all of them.
pub fn locked_swaps(
    lists: &Lists<'_, FakeResource>,
    hand: &mut Hand<FakeResource>,
    row: u32,
    held: &mut Option<u32>,
    times: u32,
) -> u32
    requires ready { IsReadyToSwap lists.now hand.old row CELL held.old }
    ensures { result ≡ times → IsReadyToSwap lists.now hand.new row CELL held.new }
{
    let mut made = 0;
    for _ in 0..times {
        if !locked_swap(lists, hand, row, held) {
            break;
        }
        made += 1;
    }
    made
}

/// Locks the list, in as many tries as it takes, puts what the hand holds into the cell, and unlocks the list. The hand
/// then holds what was there. Returns whether it got the lock.
pub fn locked_swap(
    lists: &Lists<'_, FakeResource>,
    hand: &mut Hand<FakeResource>,
    row: u32,
    held: &mut Option<u32>,
) -> bool
    requires ready { IsReadyToSwap lists.now hand.old row CELL held.old }
    ensures ready { result ≡ true → IsReadyToSwap lists.now hand.new row CELL held.new }
    ensures holds { result ≡ true → (others : List ℕ) → HoldsBeside hand.old row held.old others
        → HoldsBeside hand.new row held.new others }
{
    for _ in 0..TRIES {
        if lists.try_lock(hand, row) {
            *held = lists.swap_item(hand, row, CELL, *held);
            lists.unlock(hand, row);
            return true;
        }
    }
    false
}
