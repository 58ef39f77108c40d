//! One instruction: the code that it reports in a state, the state that it leaves, and the point to which it leads.

ghost use Rattle.std.specs.Prelude.{◌≡◌, ◌+◌, ◌<◌, ◌^◌};
ghost use Rattle.brc_model.specs.SlotStates.{lowest, after, target};

use crate::refusing::{
    as_refusal, drop_refusal, fail_refusal, into_refusal, move_refusal, newref_refusal, ret_refusal,
};
use crate::refusing_calls::call_refusal;
use crate::refusing_host::{read_refusal, write_refusal};
use crate::refusing_items::{item_refusal, put_refusal, set_refusal};
use crate::refusing_locks::{lock_refusal, unlock_refusal};
use crate::variables::{forget_items, forget_stolen, kind_of, put, var, with_kind};
use brc_lang::{CheckCode, Instr, Kind};
use brc_model::{Exit, Slot, State};

/// Returns the lowest code that the instruction reports in the state, or `None`.
pub fn refusal(instr: Instr, state: &State) -> Option<CheckCode>
    ensures { result ≡ lowest instr state.now }
{
    match instr {
        Instr::Num { to, .. }
        | Instr::List { to, .. }
        | Instr::NoneObject { to }
        | Instr::Take { to, .. }
        | Instr::Open { to, .. }
        | Instr::Connect { to, .. } => into_refusal(state, to),
        Instr::Newref { to, from } => newref_refusal(state, to, from),
        Instr::Move { to, from } => move_refusal(state, to, from),
        Instr::Drop { from } => drop_refusal(state, from),
        Instr::Lock { object } => lock_refusal(state, object),
        Instr::Unlock { object } => unlock_refusal(state, object),
        Instr::Borrow { to, list, .. } | Instr::Fetch { to, list, .. } => {
            item_refusal(state, to, list)
        }
        Instr::Set { list, from, .. } => set_refusal(state, list, from),
        Instr::Put { list, from, .. } => put_refusal(state, list, from),
        Instr::Read { to, file, .. } => read_refusal(state, to, file),
        Instr::Write { file, number, .. } => write_refusal(state, file, number),
        Instr::As { from, kind, .. } => as_refusal(state, from, kind),
        Instr::Call { to, arguments, .. } => call_refusal(state, to, arguments.as_slice()),
        Instr::Goto { .. } | Instr::Again { .. } => None,
        Instr::Ret { from } => ret_refusal(state, from),
        Instr::Fail => fail_refusal(state),
    }
}

/// Returns what the exit leaves in the variable that the instruction fills: a fault leaves nothing.
fn filled(var: Slot, exit: Exit) -> Slot
    ensures success { exit ≡ Exit.Success → result ≡ var }
    ensures fault { exit ≡ Exit.Fault → result ≡ Slot.Empty }
{
    match exit {
        Exit::Success => var,
        Exit::Fault => Slot::Empty,
    }
}

/// Changes the state as an exit of the instruction does.
pub fn apply(instr: Instr, exit: Exit, state: &mut State)
    ensures { state.new ≡ after instr exit state.old }
{
    match instr {
        Instr::Num { to, .. } | Instr::Read { to, .. } => {
            put(state, to, filled(Slot::Owned(Kind::Num), exit));
        }
        Instr::List { to, .. } => put(state, to, filled(Slot::Owned(Kind::List), exit)),
        Instr::Open { to, .. } => put(state, to, filled(Slot::Owned(Kind::File), exit)),
        Instr::Connect { to, .. } => put(state, to, filled(Slot::Owned(Kind::Sock), exit)),
        Instr::NoneObject { to } => put(state, to, Slot::Owned(Kind::None)),
        Instr::Take { to, .. } => put(state, to, Slot::Owned(Kind::List)),
        Instr::Newref { to, from } => {
            let kind = kind_of(var(state, from));
            put(state, to, Slot::Owned(kind));
        }
        Instr::Move { to, from } => {
            let handed = Slot::Owned(kind_of(var(state, from)));
            put(state, from, Slot::Empty);
            put(state, to, handed);
        }
        Instr::Drop { from } => put(state, from, Slot::Empty),
        Instr::Lock { object } => state.locked = Some(object),
        Instr::Unlock { .. } => {
            forget_items(state);
            state.locked = None;
        }
        Instr::Borrow { to, .. } => put(state, to, filled(Slot::Locked(Kind::Any), exit)),
        Instr::Fetch { to, .. } => put(state, to, filled(Slot::Owned(Kind::Any), exit)),
        // `PyList_SetItem` steals the reference, also if the index is out of range.
        Instr::Set { from, .. } => {
            put(state, from, Slot::Empty);
            forget_items(state);
        }
        Instr::Put { .. } => forget_items(state),
        Instr::As { from, kind, .. } => {
            if let Exit::Success = exit {
                let asked = with_kind(var(state, from), kind);
                put(state, from, asked);
            }
        }
        // The arguments are stolen on both exits: the function called has given them up before it fails.
        Instr::Call { to, arguments, .. } => {
            let returned = Slot::Owned(Kind::Any);
            forget_stolen(state, arguments.as_slice());
            put(state, to, filled(returned, exit));
        }
        Instr::Write { .. }
        | Instr::Goto { .. }
        | Instr::Again { .. }
        | Instr::Ret { .. }
        | Instr::Fail => (),
    }
}

/// Returns the point to which an exit of the instruction leads, or `None` if it ends the call.
pub fn target_of(instr: Instr, exit: Exit, at: usize) -> Option<usize>
    requires { at + 1 < 2 ^ 64 }
    ensures { result ≡ target instr exit at }
{
    match instr {
        Instr::Num { otherwise, .. }
        | Instr::List { otherwise, .. }
        | Instr::Borrow { otherwise, .. }
        | Instr::Fetch { otherwise, .. }
        | Instr::Set { otherwise, .. }
        | Instr::Put { otherwise, .. }
        | Instr::Open { otherwise, .. }
        | Instr::Connect { otherwise, .. }
        | Instr::Read { otherwise, .. }
        | Instr::Write { otherwise, .. }
        | Instr::As { otherwise, .. }
        | Instr::Call { otherwise, .. } => Some(match exit {
            Exit::Success => at + 1,
            Exit::Fault => otherwise as usize,
        }),
        Instr::NoneObject { .. }
        | Instr::Take { .. }
        | Instr::Newref { .. }
        | Instr::Move { .. }
        | Instr::Drop { .. }
        | Instr::Lock { .. }
        | Instr::Unlock { .. } => Some(at + 1),
        Instr::Goto { target } => Some(target as usize),
        // A path may go back any number of times: the limit bounds the calls, and not the paths.
        Instr::Again { target, .. } => Some(match exit {
            Exit::Success => at + 1,
            Exit::Fault => target as usize,
        }),
        Instr::Ret { .. } | Instr::Fail => None,
    }
}
