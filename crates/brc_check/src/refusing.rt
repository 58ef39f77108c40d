//! What an instruction about references or kinds, or an end of the call, refuses.

ghost use Rattle.std.specs.Prelude.{◌≡◌};
ghost use Rattle.brc_model.specs.SlotStates.{lowest};

use crate::variables::{any_owned, is_locked, kind_of, may_be, put, var};
use brc_lang::{CheckCode, Instr, Kind, Variable};
use brc_model::{Slot, State};

/// Returns the lowest code that `none`, `take`, `num`, `list`, `open` or `connect` reports in the state.
pub fn into_refusal(state: &State, to: Variable) -> Option<CheckCode>
    ensures { result ≡ lowest (Instr.NoneObject to) state.now }
{
    if let Slot::Owned(_) = var(state, to) {
        return Some(CheckCode::StillOwns);
    }
    is_locked(state, to).then_some(CheckCode::LockedChanged)
}

pub fn newref_refusal(state: &State, to: Variable, from: Variable) -> Option<CheckCode>
    ensures { result ≡ lowest (Instr.Newref to from) state.now }
{
    if let Slot::Empty = var(state, from) {
        return Some(CheckCode::EmptyUsed);
    }
    into_refusal(state, to)
}

pub fn move_refusal(state: &State, to: Variable, from: Variable) -> Option<CheckCode>
    ensures { result ≡ lowest (Instr.Move to from) state.now }
{
    let source = var(state, from);
    if let Slot::Empty = source {
        return Some(CheckCode::EmptyUsed);
    }
    if let Slot::Caller(_) | Slot::Locked(_) = source {
        return Some(CheckCode::NotOwned);
    }
    if let Some(code) = into_refusal(state, to) {
        return Some(code);
    }
    is_locked(state, from).then_some(CheckCode::LockedChanged)
}

pub fn drop_refusal(state: &State, from: Variable) -> Option<CheckCode>
    ensures { result ≡ lowest (Instr.Drop from) state.now }
{
    match var(state, from) {
        Slot::Empty => Some(CheckCode::EmptyUsed),
        Slot::Caller(_) | Slot::Locked(_) => Some(CheckCode::NotOwned),
        Slot::Owned(_) => is_locked(state, from).then_some(CheckCode::LockedChanged),
    }
}

pub fn as_refusal(state: &State, from: Variable, kind: Kind) -> Option<CheckCode>
    ensures { result ≡ lowest (Instr.As from kind 0) state.now }
{
    let source = var(state, from);
    if let Slot::Empty = source {
        return Some(CheckCode::EmptyUsed);
    }
    (!may_be(kind_of(source), kind)).then_some(CheckCode::WrongKind)
}

pub fn ret_refusal(state: &State, from: Variable) -> Option<CheckCode>
    ensures { result ≡ lowest (Instr.Ret from) state.now }
{
    match var(state, from) {
        Slot::Empty => return Some(CheckCode::EmptyUsed),
        Slot::Caller(_) | Slot::Locked(_) => return Some(CheckCode::NotOwned),
        Slot::Owned(_) => (),
    }
    let mut given_up = *state;
    put(&mut given_up, from, Slot::Empty);
    fail_refusal(&given_up)
}

/// Returns the lowest code that the end of a call reports in the state.
pub fn fail_refusal(state: &State) -> Option<CheckCode>
    ensures { result ≡ lowest Instr.Fail state.now }
{
    if any_owned(&state.slots) {
        return Some(CheckCode::LeftOwned);
    }
    state.locked.is_some().then_some(CheckCode::LeftLocked)
}
