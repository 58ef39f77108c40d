//! The memory in which a hand keeps what it carries between two tries of a merge, and what main keeps of it for the
//! hands that it gives out.

ghost use Rattle.std.specs.Prelude.{◌≡◌, ◌-◌, ◌<◌, ◌≤◌, ℕ, IfOk, None, false, length, replicate, slice_get, slice_set};
ghost use Rattle.brc_model.specs.Limits.{block_limit};
ghost use Rattle.brc_model.specs.Layout.{row_count};
ghost use Rattle.brc_table.specs.Hands.{IsOf, carried_of, carried_place};
ghost use Rattle.brc_table.specs.Spares.{is_spent, is_spent_for};

use crate::hand::Hand;
use crate::words::Words;
use std::alloc::{AllocError, Global};

/// A bound of the rows of each block: of a worker's, and of main's.
const BLOCK: usize = 2 + 16 + 1024;

/// The local counts that a hand carries, by the row's index in its block.
///
/// They have memory of their own, so that a hand stays small: it is moved from call to call and from thread to thread.
pub(crate) type Carried = Box<[Option<u32>; BLOCK]>;

/// The memory of a hand that main hasn't given out yet.
#[derive(Drop)]
pub(crate) struct Spare {
    pub(crate) carried: Carried,
    pub(crate) ghost nothing: { carried.value ≡ replicate block_limit None },
}

/// Returns memory in which nothing is carried.
pub(crate) fn nothing_carried(alloc: Global) -> Result<Carried, AllocError>
    ensures { IfOk result (λ counts. counts.value ≡ replicate block_limit None) }
{
    Ok(Box::new(alloc, [None; BLOCK])?)
}

/// Returns a spare for each worker.
pub(crate) fn spares_of(alloc: Global, workers: u8) -> Result<Vec<Option<Spare>>, AllocError>
    ensures count { IfOk result (λ spares. length spares.items ≡ workers) }
    ensures left { IfOk result (λ spares. (worker : ℕ) → is_spent (slice_get spares.items worker) ≡ false) }
{
    let mut spares = Vec::with_capacity(alloc, usize::from(workers))?;
    for _ in 0..workers {
        let carried = nothing_carried(alloc)?;
        spares.push(Some(Spare { carried }))?;
    }
    Ok(spares)
}

/// Returns whether the thread's spare is spent.
pub(crate) fn is_spent(spares: &[Option<Spare>], thread: u8) -> bool
    ensures { result ≡ is_spent_for spares.now thread }
{
    // The first spare is the first worker's.
    let place = usize::from(thread);
    place > 0 && place <= spares.len() && spares[place - 1].is_none()
}

/// Takes the worker's spare, which is then spent.
pub(crate) fn take_spare(spares: &mut Vec<Option<Spare>>, worker: u8) -> Spare
    requires worker { 0 < worker }
    requires there { worker ≤ length spares.old.items }
    requires left { is_spent_for spares.old.items worker ≡ false }
    ensures { spares.new.items ≡ slice_set spares.old.items (worker - 1) None }
{
    match spares[usize::from(worker) - 1].take() {
        Some(spare) => spare,
        None => unreachable!(),
    }
}

impl<T: Drop> Words<T> {
    /// Returns the local count that the hand carries from the row, if it has begun a merge of it.
    pub fn carried(&self, hand: &Hand<T>, row: u32) -> Option<u32>
        requires table { IsOf self.now hand.now }
        requires there { row < row_count self.now.layout }
        ensures { result ≡ carried_of hand.now row }
    {
        self.layout_is_plain();
        let (_, index) = self.blocks.locate(row);
        hand.carried[index as usize]
    }

    /// Remembers what the hand carries from the row, or that it carries nothing.
    pub fn remember(&self, hand: &mut Hand<T>, row: u32, carried: Option<u32>)
        requires table { IsOf self.now hand.old }
        requires there { row < row_count self.now.layout }
        ensures carried { hand.new.carried
            ≡ slice_set hand.old.carried (carried_place hand.old.view.layout row) carried }
        ensures row { carried_of hand.new row ≡ carried }
        ensures same { (hand.new.table ≡ hand.old.table) × (hand.new.view ≡ hand.old.view)
            × (hand.new.fields ≡ hand.old.fields) }
    {
        self.layout_is_plain();
        let (_, index) = self.blocks.locate(row);
        hand.carried[index as usize] = carried;
    }
}
