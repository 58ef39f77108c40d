//! What an instruction about a list's items refuses. Only the thread that has locked the list may read or change them.

ghost use Rattle.std.specs.Prelude.{◌≡◌};
ghost use Rattle.brc_model.specs.SlotStates.{lowest};

use crate::variables::{is_list, is_locked, var};
use brc_lang::{CheckCode, Instr, Variable};
use brc_model::{Slot, State};

/// Returns the lowest code that `borrow` or `fetch` reports in the state.
pub fn item_refusal(state: &State, to: Variable, list: Variable) -> Option<CheckCode>
    ensures borrow { result ≡ lowest (Instr.Borrow to list 0 0) state.now }
    ensures fetch { result ≡ lowest (Instr.Fetch to list 0 0) state.now }
{
    let source = var(state, list);
    if let Slot::Empty = source {
        return Some(CheckCode::EmptyUsed);
    }
    if !is_list(source) {
        return Some(CheckCode::WrongKind);
    }
    if let Slot::Owned(_) = var(state, to) {
        return Some(CheckCode::StillOwns);
    }
    if !is_locked(state, list) {
        return Some(CheckCode::NotLocked);
    }
    is_locked(state, to).then_some(CheckCode::LockedChanged)
}

/// Returns the lowest code that `put` reports in the state.
pub fn put_refusal(state: &State, list: Variable, from: Variable) -> Option<CheckCode>
    ensures { result ≡ lowest (Instr.Put list 0 from 0) state.now }
{
    let changed = var(state, list);
    if var(state, from) == Slot::Empty || changed == Slot::Empty {
        return Some(CheckCode::EmptyUsed);
    }
    if !is_list(changed) {
        return Some(CheckCode::WrongKind);
    }
    (!is_locked(state, list)).then_some(CheckCode::NotLocked)
}

/// Returns the lowest code that `set` reports in the state.
pub fn set_refusal(state: &State, list: Variable, from: Variable) -> Option<CheckCode>
    ensures { result ≡ lowest (Instr.Set list 0 from 0) state.now }
{
    let given = var(state, from);
    let changed = var(state, list);
    if given == Slot::Empty || changed == Slot::Empty {
        return Some(CheckCode::EmptyUsed);
    }
    if !is_list(changed) {
        return Some(CheckCode::WrongKind);
    }
    if let Slot::Caller(_) | Slot::Locked(_) = given {
        return Some(CheckCode::NotOwned);
    }
    if !is_locked(state, list) {
        return Some(CheckCode::NotLocked);
    }
    is_locked(state, from).then_some(CheckCode::LockedChanged)
}
