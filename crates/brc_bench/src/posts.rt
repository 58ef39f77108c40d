//! Objects that their owner merges: a worker gives birth to numbers and hands them over, another worker gives them up
//! and posts them, and the first one merges them.

ghost use Rattle.std.specs.Prelude.{◌≡◌, ◌≤◌, ◌<◌, ◌+◌, ℕ, List, true, [], ◌∷◌, ◌++◌, All, count_by, ◌==◌, length, IfOk, OnOk, IfSome, OnSome};
ghost use Rattle.brc_model.specs.Layout.{root_row, IsCounted};
ghost use Rattle.brc_table.specs.Views.{holds, without_one};
ghost use Rattle.brc_bench.specs.Swaps.{IsAtRest, HoldsBeside};

use crate::heaps::ROWS_EACH;
use crate::swaps::{CELL, locked_swap};
use crate::work::ROOT;
use anyhow::{Result, bail};
use brc_heap::{Hand, Heap, LocalRelease, Looked, SharedRelease};
use brc_host::FakeResource;
use brc_lang::Kind;
use brc_list::Lists;
use brc_queue::Queue;
use std::collections::VecDeque;

/// Swaps the cell of the root for the item that the hand holds, or for none, under the root's lock. The hand then holds
/// what was there. Returns whether the swap was made.
fn at_root(heap: &Heap<FakeResource>, hand: &mut Hand<FakeResource>, held: &mut Option<u32>) -> bool
    requires resting { IsAtRest heap.now hand.old }
    requires holds { (others : List ℕ) × HoldsBeside hand.old root_row held.old others }
    requires counted { IsCounted heap.now.layout root_row }
    ensures resting { result ≡ true → IsAtRest heap.now hand.new }
    ensures holds { result ≡ true → (others : List ℕ) → HoldsBeside hand.old root_row held.old others
        → HoldsBeside hand.new root_row held.new others }
{
    let lists = Lists::new(heap);
    if lists.size(hand, ROOT) <= CELL {
        return false;
    }
    locked_swap(&lists, hand, ROOT, held)
}

/// Gives up a reference to another worker's object, and puts the object into its owner's queue. Returns whether the
/// owner has to merge it.
#[tactic(auto, using(crate::proofs::AtRest::rests_after_posting, crate::proofs::AtRest::lists_one_less))]
fn posts(heap: &Heap<FakeResource>, hand: &mut Hand<FakeResource>, row: u32) -> bool
    requires resting { IsAtRest heap.now hand.old }
    requires counted { IsCounted heap.now.layout row }
    requires held { 1 ≤ holds hand.old.view row }
    ensures resting { result ≡ true → IsAtRest heap.now hand.new }
    ensures references { result ≡ true
        → hand.new.view.references ≡ without_one row hand.old.view.references }
{
    let LocalRelease::Share = heap.release_local(hand, row) else {
        return false;
    };
    let SharedRelease::Queued = heap.try_release_shared(hand, row) else {
        return false;
    };
    match Queue::new(heap).post(hand, row) {
        Looked::Left => true,
        Looked::Claimed => false,
    }
}

/// Posts the object of the hand's latest reference at once, or puts its row before the rows of those that are to be
/// posted.
#[tactic(auto, using(crate::proofs::AtRest::holds_first, crate::proofs::AtRest::without_first))]
fn posts_or_keeps(
    heap: &Heap<FakeResource>,
    hand: &mut Hand<FakeResource>,
    rows: &mut VecDeque<u32>,
    row: u32,
    at_once: bool,
) -> Result<()>
    requires resting { IsAtRest heap.now hand.old }
    requires holds { hand.old.view.references ≡ row ∷ rows.old.items ++ root_row ∷ [] }
    requires first { IsCounted heap.now.layout row }
    requires counted { All (λ x. IsCounted heap.now.layout x) rows.old.items }
    ensures resting { OnOk result (IsAtRest heap.now hand.new) }
    ensures holds { OnOk result (hand.new.view.references ≡ rows.new.items ++ root_row ∷ []) }
    ensures counted { OnOk result (All (λ x. IsCounted heap.now.layout x) rows.new.items) }
    ensures few { OnOk result (length rows.new.items ≤ length rows.old.items + 1) }
{
    if !at_once {
        rows.push_front(row)?;
        return Ok(());
    }
    if !posts(heap, hand, row) {
        bail!("a number wasn't posted");
    }
    Ok(())
}

/// While the owner has room, it gives birth to numbers and hands them to the other worker, which posts each at once, or
/// keeps it. Adds the rows of those that are kept, the newest first. Returns how many numbers were born.
pub fn hands_over(
    heap: &Heap<FakeResource>,
    owner: &mut Hand<FakeResource>,
    other: &mut Hand<FakeResource>,
    rows: &mut VecDeque<u32>,
    most: u32,
    at_once: bool,
) -> Result<u32>
    requires owner { IsAtRest heap.now owner.old }
    requires owns { owner.old.view.references ≡ root_row ∷ [] }
    requires other { IsAtRest heap.now other.old }
    requires holds { other.old.view.references ≡ root_row ∷ [] }
    requires empty { rows.old.items ≡ [] }
    ensures owner { OnOk result (IsAtRest heap.now owner.new) }
    ensures other { OnOk result (IsAtRest heap.now other.new) }
    ensures holds { OnOk result (other.new.view.references ≡ rows.new.items ++ root_row ∷ []) }
    ensures counted { OnOk result (All (λ row. IsCounted heap.now.layout row) rows.new.items) }
{
    heap.words().layout_is_plain();
    let mut made = 0;
    for value in 0..most.min(u32::from(ROWS_EACH)) {
        if !heap.room(owner) {
            break;
        }
        let item = heap.birth(owner, Kind::Num, value, None);
        let mut given = Some(item);
        if !at_root(heap, owner, &mut given) {
            bail!("the root can't be locked");
        }
        let None = given else {
            bail!("the root's cell isn't empty");
        };
        let mut taken = None;
        if !at_root(heap, other, &mut taken) {
            bail!("the root can't be locked");
        }
        let Some(row) = taken else {
            bail!("the root's cell is empty");
        };
        if row != item {
            bail!("another object was handed over");
        }
        posts_or_keeps(heap, other, rows, row, at_once)?;
        made += 1;
    }
    Ok(made)
}

/// Posts each object of the rows.
pub fn posts_each(
    heap: &Heap<FakeResource>,
    hand: &mut Hand<FakeResource>,
    rows: &mut VecDeque<u32>,
) -> Result<()>
    requires resting { IsAtRest heap.now hand.old }
    requires holds { hand.old.view.references ≡ rows.old.items ++ root_row ∷ [] }
    requires counted { All (λ row. IsCounted heap.now.layout row) rows.old.items }
{
    while let Some(row) = rows.pop_front() {
        if !posts(heap, hand, row) {
            bail!("a number wasn't posted");
        }
    }
    Ok(())
}
