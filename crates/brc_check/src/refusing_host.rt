//! What an instruction that uses a file or a socket refuses. Only the thread that has locked it may read or write it.

ghost use Rattle.std.specs.Prelude.{◌≡◌};
ghost use Rattle.brc_model.specs.SlotStates.{lowest};

use crate::variables::{has_resource, is_locked, is_num, var};
use brc_lang::{CheckCode, Instr, Variable};
use brc_model::{Slot, State};

/// Returns the lowest code that `read` reports in the state.
pub fn read_refusal(state: &State, to: Variable, file: Variable) -> Option<CheckCode>
    ensures { result ≡ lowest (Instr.Read to file 0 0) state.now }
{
    let source = var(state, file);
    if let Slot::Empty = source {
        return Some(CheckCode::EmptyUsed);
    }
    if !has_resource(source) {
        return Some(CheckCode::WrongKind);
    }
    if let Slot::Owned(_) = var(state, to) {
        return Some(CheckCode::StillOwns);
    }
    if !is_locked(state, file) {
        return Some(CheckCode::NotLocked);
    }
    is_locked(state, to).then_some(CheckCode::LockedChanged)
}

/// Returns the lowest code that `write` reports in the state.
pub fn write_refusal(state: &State, file: Variable, number: Variable) -> Option<CheckCode>
    ensures { result ≡ lowest (Instr.Write file number 0) state.now }
{
    let written = var(state, file);
    let given = var(state, number);
    if written == Slot::Empty || given == Slot::Empty {
        return Some(CheckCode::EmptyUsed);
    }
    if !has_resource(written) || !is_num(given) {
        return Some(CheckCode::WrongKind);
    }
    (!is_locked(state, file)).then_some(CheckCode::NotLocked)
}
