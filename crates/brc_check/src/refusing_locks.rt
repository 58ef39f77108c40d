//! What an instruction about a lock refuses.

ghost use Rattle.std.specs.Prelude.{◌≡◌};
ghost use Rattle.brc_model.specs.SlotStates.{lowest};

use crate::variables::{is_lockable, is_locked, kind_of, var};
use brc_lang::{CheckCode, Instr, Variable};
use brc_model::{Slot, State};

pub fn lock_refusal(state: &State, object: Variable) -> Option<CheckCode>
    ensures { result ≡ lowest (Instr.Lock object) state.now }
{
    let named = var(state, object);
    if let Slot::Empty = named {
        return Some(CheckCode::EmptyUsed);
    }
    if !is_lockable(kind_of(named)) {
        return Some(CheckCode::WrongKind);
    }
    state.locked.is_some().then_some(CheckCode::SecondLock)
}

pub fn unlock_refusal(state: &State, object: Variable) -> Option<CheckCode>
    ensures { result ≡ lowest (Instr.Unlock object) state.now }
{
    if let Slot::Empty = var(state, object) {
        return Some(CheckCode::EmptyUsed);
    }
    (!is_locked(state, object)).then_some(CheckCode::NotLocked)
}
