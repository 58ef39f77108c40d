//! The instructions that ask the host for a resource, or use one.

ghost use Rattle.std.specs.Prelude.{◌≡◌, IfOk};
ghost use Rattle.brc_lang.specs.declared.module.Instr.TheVariants as instructions;
ghost use Rattle.brc_model.specs.declared.actor.Place.TheVariants.{Inside};
ghost use Rattle.brc_model.specs.declared.actor.Stage.TheVariants.{Called};
ghost use Rattle.brc_model.specs.Action.{Calls};
ghost use Rattle.brc_model.specs.Threads.{row_of};
ghost use Rattle.brc_model.specs.Actions.{grant_action, granted_birth, lend_action, return_action};
ghost use Rattle.brc_plain.specs.Acts.{act_in};
ghost use Rattle.brc_plain.specs.Heres.{dispatched, dispatched_inside};
ghost use Rattle.brc_plain.specs.Places.{context_in, place_in};

use crate::act::{Act, AfterCall, Rest};
use crate::here::{Here, does, silent};
use crate::place::Place;
use crate::refused::Refused;
use brc_lang::Variable;
use brc_model::{Duty, Exit, Stage};
use brc_word::kind_word;
use brc_word::values::NUM;

/// Asks the host for a resource, to make an object of it in the variable.
pub fn ask_host(here: &Here, to: Variable, otherwise: u8) -> Result<Act, Refused>
    ensures { IfOk result (λ act. act_in act ≡ grant_action here.now.layout here.now.thread here.now.used
        (context_in here.now.context.now) here.now.at here.now.variables.now to otherwise) }
{
    if !here.has_room() {
        return Ok(silent(here.alloc, here.missed(otherwise, to)?));
    }
    Ok(Act::Calls {
        row: None,
        after: AfterCall::ByExit {
            success: here.inside(Stage::Granted)?,
            fault: here.missed(otherwise, to)?,
        },
    })
}

/// Makes the object for which the thread has room.
pub fn granted(here: &Here, to: Variable, word: u64) -> Result<Act, Refused>
    ensures { IfOk result (λ act. act_in act ≡ granted_birth here.now.layout here.now.thread here.now.used
        (context_in here.now.context.now) here.now.at here.now.variables.now to word) }
{
    let row = here.next_row()?;
    let duty = Duty::BirthKind {
        row,
        holding: here.holding(to)?,
        word,
    };
    let place = here.next(here.naming(to, Some(row)))?;
    Ok(does(duty, Rest::Nothing, place))
}

/// Lends the resource of the file or socket in the variable to a call of the host.
fn lend(here: &Here, file: Variable) -> Result<Act, Refused>
    ensures { IfOk result (λ act. act_in act
        ≡ lend_action (context_in here.now.context.now) here.now.at here.now.variables.now file) }
{
    let Some(row) = here.row_of(file) else {
        return Ok(Act::Stuck);
    };
    let place = here.inside(Stage::Lent)?;
    Ok(does(Duty::LendField { row }, Rest::Nothing, place))
}

/// Puts the resource of the file or socket in the variable back.
fn put_back(here: &Here, file: Variable, place: Place) -> Act
    ensures { act_in result ≡ return_action here.now.variables.now file (place_in place) }
{
    let Some(row) = here.row_of(file) else {
        return Act::Stuck;
    };
    does(Duty::ReturnField { row }, Rest::Nothing, place)
}

/// Calls the host, which uses the resource of the file or socket in the variable.
fn use_resource(here: &Here, file: Variable) -> Result<Act, Refused>
    ensures { IfOk result (λ act. act_in act ≡ Calls (row_of here.now.variables.now file)
        (λ exit. Inside (context_in here.now.context.now) here.now.at here.now.variables.now (Called exit))) }
{
    Ok(Act::Calls {
        row: here.row_of(file),
        after: AfterCall::Kept {
            context: here.context.copy(here.alloc)?,
            at: here.at,
            variables: *here.variables,
        },
    })
}

/// Dispatches `read`.
pub fn read(
    here: &Here,
    to: Variable,
    file: Variable,
    most: u16,
    otherwise: u8,
) -> Result<Act, Refused>
    ensures { IfOk result (λ act. act_in act ≡ dispatched here.now (instructions.Read to file most otherwise)) }
{
    if !here.has_room() {
        return Ok(silent(here.alloc, here.missed(otherwise, to)?));
    }
    lend(here, file)
}

/// Dispatches `write`: the load of the number's kind word.
pub fn write(here: &Here, file: Variable, number: Variable, otherwise: u8) -> Result<Act, Refused>
    ensures { IfOk result (λ act. act_in act ≡ dispatched here.now (instructions.Write file number otherwise)) }
{
    let Some(row) = here.row_of(number) else {
        return Ok(Act::Stuck);
    };
    let place = here.inside(Stage::Loaded)?;
    Ok(does(Duty::KindLoad { row }, Rest::Nothing, place))
}

/// Goes on inside `read`.
pub fn read_inside(
    here: &Here,
    stage: Stage,
    to: Variable,
    file: Variable,
    most: u16,
    otherwise: u8,
) -> Result<Act, Refused>
    ensures { IfOk result (λ act. act_in act
        ≡ dispatched_inside here.now stage (instructions.Read to file most otherwise)) }
{
    match stage {
        Stage::Lent => use_resource(here, file),
        Stage::Called { exit } => {
            let place = match exit {
                Exit::Success => here.inside(Stage::Granted)?,
                Exit::Fault => here.missed(otherwise, to)?,
            };
            Ok(put_back(here, file, place))
        }
        Stage::Granted => granted(here, to, kind_word(NUM, 0)),
        _ => Ok(Act::Stuck),
    }
}

/// Goes on inside `write`.
pub fn write_inside(
    here: &Here,
    stage: Stage,
    file: Variable,
    number: Variable,
    otherwise: u8,
) -> Result<Act, Refused>
    ensures { IfOk result (λ act. act_in act
        ≡ dispatched_inside here.now stage (instructions.Write file number otherwise)) }
{
    match stage {
        Stage::Loaded => lend(here, file),
        Stage::Lent => use_resource(here, file),
        Stage::Called { exit } => {
            let place = match exit {
                Exit::Success => here.next(*here.variables)?,
                Exit::Fault => here.in_call(usize::from(otherwise), *here.variables)?,
            };
            Ok(put_back(here, file, place))
        }
        _ => Ok(Act::Stuck),
    }
}
