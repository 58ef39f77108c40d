//! The variable at fault.

use crate::differing::first_differing;
use crate::empty::empty_variable;
use crate::operand_roles::roles_of;
use crate::refused::Shown;
use crate::walking::reached;
use crate::why::{given_one, left_one, misfit_of};
use brc_check::{CheckCode, Path, Refused, State};
use brc_lang::{Function, Instr, Variable};

/// Returns the variable that is at fault, or the first one in which two paths differ.
pub fn variable_of(shown: &Shown<'_>, refused: &Refused) -> Option<Variable> {
    match &shown.path {
        Path::Reports(exits) => {
            let taken = exits.as_slice();
            let before = &taken[..taken.len().saturating_sub(1)];
            let (at, state) = reached(shown.function, before)?;
            let instr = instruction_at(shown.function, at)?;
            variable_in(instr, &state, refused.code)
        }
        Path::Differ(exits, others) => {
            let (_, first) = reached(shown.function, exits.as_slice())?;
            let (_, second) = reached(shown.function, others.as_slice())?;
            first_differing(&first, &second)
        }
    }
}

/// Returns the instruction at the point, if the function has one there.
pub fn instruction_at(function: &Function, at: usize) -> Option<Instr> {
    let instr = function.code.as_slice().get(at)?;
    Some(*instr)
}

/// Returns the variable for which the instruction reports the code in the state.
fn variable_in(instr: Instr, state: &State, reported: CheckCode) -> Option<Variable> {
    match reported {
        CheckCode::EmptyUsed => empty_variable(instr, state),
        CheckCode::WrongKind => match misfit_of(instr, state) {
            Some(misfit) => Some(misfit.variable),
            None => None,
        },
        CheckCode::NotOwned => given_one(instr, state),
        CheckCode::StillOwns => roles_of(instr).filled,
        CheckCode::LeftOwned => left_one(instr, state),
        CheckCode::LeftLocked | CheckCode::SecondLock | CheckCode::LockedChanged => state.locked,
        CheckCode::NotLocked => roles_of(instr).object,
        CheckCode::StatesDiffer | CheckCode::RunsOff | CheckCode::NoMemory => None,
    }
}
