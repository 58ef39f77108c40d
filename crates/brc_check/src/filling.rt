//! The entries of a function while they are inferred.

ghost use Rattle.std.specs.Prelude.{◌≡◌, ◌<◌, ◌≤◌, ◌-◌, ◌∷◌, length, replicate, IfOk, IsTrue, MatchOption, None, Some};
ghost use Rattle.brc_check.specs.Filling.{entry_at, first_filling, settled, IsInOrder, IsFoundAt};

use crate::entries::entry_at;
use brc_lang::Sequence;
use brc_model::State;
use std::alloc::{AllocError, Global};

/// The entries that are known, and the points that have one in the order in which they were found.
#[derive(Drop)]
pub struct Filling {
    pub entries: Sequence<Option<State>>,
    pub order: Sequence<usize>,
}

/// Returns the entries of `count` points before any exit is followed: only that of the first point is known.
fn first_entries(
    alloc: Global,
    entry: &State,
    count: usize,
) -> Result<Sequence<Option<State>>, AllocError>
    requires { 0 < count }
    ensures { IfOk result (λ entries. entries ≡ Some entry.now ∷ replicate (count - 1) None) }
{
    let mut entries = Sequence::new(alloc);
    entries.push(Some(*entry))?;
    for _at in 1..count {
        entries.push(None)?;
    }
    Ok(entries)
}

/// Returns what is known of a function of `count` instructions at first: the first point is found, in the state in
/// which the function begins.
pub fn first_filling(alloc: Global, entry: &State, count: usize) -> Result<Filling, AllocError>
    requires { 0 < count }
    ensures { IfOk result (λ filling. filling ≡ first_filling entry.now count) }
{
    let entries = first_entries(alloc, entry, count)?;
    let mut order = Sequence::new(alloc);
    order.push(0)?;
    Ok(Filling { entries, order })
}

/// Returns the point found at this turn and its entry, or `None` if fewer points are found.
pub fn found_at(filling: &Filling, turn: usize) -> Option<(usize, State)>
    requires { IsInOrder filling.now }
    ensures { MatchOption result (length filling.now.order ≤ turn)
        (λ found. IsFoundAt filling.now turn found.0 found.1) }
{
    if turn >= filling.order.len() {
        return None;
    }
    let at = filling.order.as_slice()[turn];
    let state = entry_at(filling.entries.as_slice(), at)?;
    Some((at, state))
}

/// Makes the state the entry of a point that has none yet: the point is found. Returns whether it is.
pub fn settle(filling: &mut Filling, at: usize, state: State) -> Result<bool, AllocError>
    requires { at < length filling.old.entries }
    ensures settled { IfOk result (λ found. filling.new ≡ settled filling.old at state) }
    ensures entry { IfOk result (λ found. IsTrue found → entry_at filling.new.entries at ≡ Some state) }
{
    if filling.entries.as_slice()[at].is_some() {
        return Ok(false);
    }
    filling.order.push(at)?;
    filling.entries.set(at, Some(state));
    Ok(true)
}
