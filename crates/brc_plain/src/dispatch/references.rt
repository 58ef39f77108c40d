//! The instructions that make, hand on or give up a reference, and those that lead elsewhere.

ghost use Rattle.std.specs.Prelude.{◌≡◌, IfOk};
ghost use Rattle.brc_lang.specs.declared.module.Instr.TheVariants as instructions;
ghost use Rattle.brc_model.specs.Actions.{birth_action};
ghost use Rattle.brc_plain.specs.Acts.{act_in};
ghost use Rattle.brc_plain.specs.Heres.{dispatched};
ghost use Rattle.brc_plain.specs.Places.{context_in};

use crate::act::{Act, AfterDuty, Rest};
use crate::bag::{Holder, Move};
use crate::here::{Here, does, moves, next_of, silent};
use crate::place::Place;
use crate::refused::Refused;
use brc_effect::rows::{NONE_ROW, immortal_list};
use brc_lang::{Kind, Variable};
use brc_model::Duty;

/// Makes an object of the kind word in the variable.
pub fn birth(here: &Here, to: Variable, word: u64, otherwise: u8) -> Result<Act, Refused>
    ensures { IfOk result (λ act. act_in act ≡ birth_action here.now.layout here.now.thread here.now.used
        (context_in here.now.context.now) here.now.at here.now.variables.now to word otherwise) }
{
    if !here.has_room() {
        return Ok(silent(here.alloc, here.missed(otherwise, to)?));
    }
    let row = here.next_row()?;
    let duty = Duty::BirthKind {
        row,
        holding: here.holding(to)?,
        word,
    };
    let place = here.next(here.naming(to, Some(row)))?;
    Ok(does(duty, Rest::Nothing, place))
}

/// Dispatches `none`.
pub fn name_none(here: &Here, to: Variable) -> Result<Act, Refused>
    ensures { IfOk result (λ act. act_in act ≡ dispatched here.now (instructions.NoneObject to)) }
{
    let gained = here.reference(here.holding(to)?, NONE_ROW);
    let place = here.next(here.naming(to, Some(NONE_ROW)))?;
    moves(here.alloc, Move::Gain(gained), place)
}

/// Dispatches `take`.
pub fn take_list(here: &Here, to: Variable, list: u8) -> Result<Act, Refused>
    ensures { IfOk result (λ act. act_in act ≡ dispatched here.now (instructions.Take to list)) }
{
    let row = immortal_list(here.layout, list);
    let gained = here.reference(here.holding(to)?, row);
    let place = here.next(here.naming(to, Some(row)))?;
    moves(here.alloc, Move::Gain(gained), place)
}

/// Dispatches `newref`.
pub fn name_again(here: &Here, to: Variable, from: Variable) -> Result<Act, Refused>
    ensures { IfOk result (λ act. act_in act ≡ dispatched here.now (instructions.Newref to from)) }
{
    let Some(row) = here.row_of(from) else {
        return Ok(Act::Stuck);
    };
    let duty = Duty::RetainLoad {
        row,
        holding: here.holding(to)?,
    };
    let place = here.next(here.naming(to, Some(row)))?;
    Ok(does(duty, Rest::Nothing, place))
}

/// Dispatches `move`.
pub fn hand_on(here: &Here, to: Variable, from: Variable) -> Result<Act, Refused>
    ensures { IfOk result (λ act. act_in act ≡ dispatched here.now (instructions.Move to from)) }
{
    let Some(row) = here.row_of(from) else {
        return Ok(Act::Stuck);
    };
    let mut variables = here.naming(from, None);
    variables[usize::from(to.number())] = Some(row);
    let passed = Move::PassOn {
        reference: here.reference(here.holding(from)?, row),
        holder: Holder::ByThread {
            thread: here.thread,
            holding: here.holding(to)?,
        },
    };
    let place = here.next(variables)?;
    moves(here.alloc, passed, place)
}

/// Dispatches `drop`.
pub fn give_up(here: &Here, from: Variable) -> Result<Act, Refused>
    ensures { IfOk result (λ act. act_in act ≡ dispatched here.now (instructions.Drop from)) }
{
    let Some(row) = here.row_of(from) else {
        return Ok(Act::Stuck);
    };
    let duty = Duty::ReleaseLoad {
        row,
        holding: here.holding(from)?,
    };
    let place = here.next(here.naming(from, None))?;
    Ok(does(duty, Rest::Settle, place))
}

/// Dispatches `as`.
pub fn ask_kind(here: &Here, from: Variable, kind: Kind, otherwise: u8) -> Result<Act, Refused>
    ensures { IfOk result (λ act. act_in act ≡ dispatched here.now (instructions.As from kind otherwise)) }
{
    let Some(row) = here.row_of(from) else {
        return Ok(Act::Stuck);
    };
    Ok(Act::Does {
        duty: Duty::KindLoad { row },
        rest: Rest::Nothing,
        after: AfterDuty::ByKind {
            context: here.context.copy(here.alloc)?,
            kind,
            same: next_of(here.at)?,
            other: usize::from(otherwise),
            variables: *here.variables,
        },
    })
}

/// Dispatches `goto`.
pub fn go(here: &Here, target: u8) -> Result<Act, Refused>
    ensures { IfOk result (λ act. act_in act ≡ dispatched here.now (instructions.Goto target)) }
{
    Ok(silent(
        here.alloc,
        here.in_call(usize::from(target), *here.variables)?,
    ))
}

/// Dispatches `again`.
pub fn again(here: &Here, target: u8, times: u16) -> Result<Act, Refused>
    ensures { IfOk result (λ act. act_in act ≡ dispatched here.now (instructions.Again target times)) }
{
    let turns = here.context.turns_at(here.at);
    if turns >= times {
        return Ok(silent(here.alloc, here.next(*here.variables)?));
    }
    let mut context = here.context.copy(here.alloc)?;
    context.set_turns(here.at, turns + 1);
    let place = Place::InCall {
        context,
        at: usize::from(target),
        variables: *here.variables,
    };
    Ok(silent(here.alloc, place))
}
