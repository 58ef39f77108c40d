//! What a thread without duties does next, by the model's definitions.

ghost use Rattle.std.specs.Prelude.{◌≡◌, IfOk};
ghost use Rattle.brc_model.specs.Dispatch.{dispatch};
ghost use Rattle.brc_model.specs.Threads.{number_in};
ghost use Rattle.brc_plain.specs.Acts.{act_in};
ghost use Rattle.brc_plain.specs.Heres.{dispatched, dispatched_inside};
ghost use Rattle.brc_plain.specs.Places.{place_in};

use crate::act::{Act, Rest};
use crate::dispatch::calls::{call, fail, return_object};
use crate::dispatch::files::{ask_host, granted, read, read_inside, write, write_inside};
use crate::dispatch::items::{
    borrow, borrow_inside, fetch, fetch_inside, lock, put, put_inside, set, set_inside, unlock,
};
use crate::dispatch::references::{
    again, ask_kind, birth, give_up, go, hand_on, name_again, name_none, take_list,
};
use crate::here::{Here, does};
use crate::place::{Context, Place};
use crate::refused::Refused;
use brc_effect::rows::ROOT;
use brc_lang::Instr;
use brc_machine::variables::entry_variables;
use brc_model::{Duty, Holding, Layout, Stage};
use brc_word::kind_word;
use brc_word::values::{FILE, LIST, NUM, SOCK};
use std::alloc::Global;

mod calls;
mod files;
mod items;
mod references;

/// Returns what the thread does at the instruction.
fn instruction(here: &Here, instr: Instr) -> Result<Act, Refused>
    ensures { IfOk result (λ act. act_in act ≡ dispatched here.now instr) }
{
    match instr {
        Instr::Num {
            to,
            value,
            otherwise,
        } => birth(here, to, kind_word(NUM, value), otherwise),
        Instr::List {
            to,
            cells,
            otherwise,
        } => birth(here, to, kind_word(LIST, u32::from(cells)), otherwise),
        Instr::NoneObject { to } => name_none(here, to),
        Instr::Take { to, list } => take_list(here, to, list),
        Instr::Newref { to, from } => name_again(here, to, from),
        Instr::Move { to, from } => hand_on(here, to, from),
        Instr::Drop { from } => give_up(here, from),
        Instr::Lock { object } => lock(here, object),
        Instr::Unlock { object } => unlock(here, object),
        Instr::Borrow {
            to,
            list,
            index,
            otherwise,
        } => borrow(here, to, list, index, otherwise),
        Instr::Fetch {
            to,
            list,
            index,
            otherwise,
        } => fetch(here, to, list, index, otherwise),
        Instr::Set {
            list,
            index,
            from,
            otherwise,
        } => set(here, list, index, from, otherwise),
        Instr::Put {
            list,
            index,
            from,
            otherwise,
        } => put(here, list, index, from, otherwise),
        Instr::Open { to, otherwise, .. } => ask_host(here, to, otherwise),
        Instr::Connect { to, otherwise, .. } => ask_host(here, to, otherwise),
        Instr::Read {
            to,
            file,
            most,
            otherwise,
        } => read(here, to, file, most, otherwise),
        Instr::Write {
            file,
            number,
            otherwise,
        } => write(here, file, number, otherwise),
        Instr::As {
            from,
            kind,
            otherwise,
        } => ask_kind(here, from, kind, otherwise),
        Instr::Call {
            to,
            callee,
            arguments,
            otherwise,
        } => call(here, to, callee, arguments.as_slice(), otherwise),
        Instr::Goto { target } => go(here, target),
        Instr::Again { target, times } => again(here, target, times),
        Instr::Ret { from } => match here.row_of(from) {
            Some(row) => return_object(here, from, row),
            None => Ok(Act::Stuck),
        },
        Instr::Fail => fail(here),
    }
}

/// Returns what the thread does inside the instruction, at the stage.
fn inside(here: &Here, stage: Stage, instr: Instr) -> Result<Act, Refused>
    ensures { IfOk result (λ act. act_in act ≡ dispatched_inside here.now stage instr) }
{
    match instr {
        Instr::Borrow {
            to,
            list,
            index,
            otherwise,
        } => borrow_inside(here, stage, to, list, index, otherwise),
        Instr::Fetch {
            to,
            list,
            index,
            otherwise,
        } => fetch_inside(here, stage, to, list, index, otherwise),
        Instr::Set {
            list,
            index,
            from,
            otherwise,
        } => set_inside(here, stage, list, index, from, otherwise),
        Instr::Put {
            list,
            index,
            from,
            otherwise,
        } => put_inside(here, stage, list, index, from, otherwise),
        Instr::Open { to, .. } => match stage {
            Stage::Granted => granted(here, to, kind_word(FILE, 0)),
            _ => Ok(Act::Stuck),
        },
        Instr::Connect { to, .. } => match stage {
            Stage::Granted => granted(here, to, kind_word(SOCK, 0)),
            _ => Ok(Act::Stuck),
        },
        Instr::Read {
            to,
            file,
            most,
            otherwise,
        } => read_inside(here, stage, to, file, most, otherwise),
        Instr::Write {
            file,
            number,
            otherwise,
        } => write_inside(here, stage, file, number, otherwise),
        _ => Ok(Act::Stuck),
    }
}

/// Returns the number of the function that the innermost call runs, where the thread calls `first` from outside.
pub fn number_in(first: usize, place: &Place) -> usize
    ensures { result ≡ number_in first (place_in place.now) }
{
    match place {
        Place::InCall { context, .. } | Place::Inside { context, .. } => {
            match context.outer.as_slice() {
                [] => first,
                [nearest, ..] => usize::from(nearest.callee),
            }
        }
        Place::Idle { .. } | Place::Exiting => first,
    }
}

/// Returns what a thread at the place does, whose innermost call runs this code, and which has used `used` rows of its
/// block.
pub fn dispatch(
    alloc: Global,
    layout: Layout,
    thread: u8,
    used: u32,
    code: &[Instr],
    place: &Place,
) -> Result<Act, Refused>
    ensures { IfOk result (λ act. act_in act ≡ dispatch layout thread used code.now (place_in place.now)) }
{
    match place {
        Place::Exiting => Ok(Act::Stuck),
        Place::Idle { left } => {
            if *left == 0 {
                let duty = Duty::ReleaseLoad {
                    row: ROOT,
                    holding: Holding::AsCaller,
                };
                let rest = Rest::SettleAndLeave { rows: used };
                return Ok(does(duty, rest, Place::Exiting));
            }
            let Some(instr) = code.get(0) else {
                return Ok(Act::Stuck);
            };
            let context = Context::first(alloc, *left - 1);
            let variables = entry_variables();
            let here = Here {
                alloc,
                layout,
                thread,
                used,
                before: place,
                context: &context,
                at: 0,
                variables: &variables,
            };
            instruction(&here, *instr)
        }
        Place::InCall {
            context,
            at,
            variables,
        } => {
            let Some(instr) = code.get(*at) else {
                return Ok(Act::Stuck);
            };
            let here = Here {
                alloc,
                layout,
                thread,
                used,
                before: place,
                context,
                at: *at,
                variables,
            };
            instruction(&here, *instr)
        }
        Place::Inside {
            context,
            at,
            variables,
            stage,
        } => {
            let Some(instr) = code.get(*at) else {
                return Ok(Act::Stuck);
            };
            let here = Here {
                alloc,
                layout,
                thread,
                used,
                before: place,
                context,
                at: *at,
                variables,
            };
            inside(&here, *stage, *instr)
        }
    }
}
