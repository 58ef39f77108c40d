//! The instructions that begin and end a call of a function.

ghost use Rattle.std.specs.Prelude.{◌≡◌, ◌<◌, ◌∷◌, ◌++◌, map, replicate, IfOk, OnOk};
ghost use Rattle.brc_lang.specs.Limits.{variable_count};
ghost use Rattle.brc_model.specs.declared.actor.Place.TheVariants as places;
ghost use Rattle.brc_model.specs.Actions.{call_action, depth_of, fail_action, handed_row, handed_rows, ret_action, waiting_context};
ghost use Rattle.brc_model.specs.Threads.{row_of};
ghost use Rattle.brc_plain.specs.Acts.{act_in};
ghost use Rattle.brc_plain.specs.Bags.{move_in};
ghost use Rattle.brc_plain.specs.Places.{context_in, place_in};
ghost use Rattle.brc_machine.specs.OpenCalls.{open_of};

use crate::act::{Act, Rest};
use crate::bag::{Holder, Move};
use crate::here::{Here, does, holding_at, moves, next_of, silent};
use crate::place::{Context, Place};
use crate::refused::Refused;
use brc_lang::{Argument, Passing, Variable};
use brc_machine::OpenCall;
use brc_machine::variables::{Variables, all_named, kept_rows, passed_variables};
use brc_model::{Duty, Holding};

/// Dispatches `call`. What the call steals is the function's from then on.
pub fn call(
    here: &Here,
    to: Variable,
    callee: u8,
    arguments: &[Argument],
    otherwise: u8,
) -> Result<Act, Refused>
    ensures { IfOk result (λ act. act_in act ≡ call_action here.now.thread (context_in here.now.context.now)
        here.now.at here.now.variables.now to callee arguments.now otherwise) }
{
    if !all_named(here.variables, arguments) {
        return Ok(Act::Stuck);
    }
    let moves = hand_over(here, arguments)?;
    // A call knows that there is an instruction behind its own.
    next_of(here.at)?;
    let waiting = OpenCall {
        callee,
        at: here.at,
        variables: kept_rows(here.variables, arguments, to),
        turns: here.context.turns,
        to,
        otherwise,
    };
    let place = Place::InCall {
        context: context_of(here, waiting)?,
        at: 0,
        variables: passed_variables(here.variables, arguments),
    };
    Ok(Act::Silent { moves, place })
}

/// Returns the context of a call that this one, which waits for it, has made.
fn context_of(here: &Here, waiting: OpenCall) -> Result<Context, Refused>
    ensures { IfOk result (λ context. context_in context ≡ record {
      left = here.now.context.now.left;
      turns = replicate 256 0;
      outer = open_of waiting ∷ (context_in here.now.context.now).outer;
    }) }
{
    let mut outer = vec![in here.alloc; waiting]?;
    outer.extend_from_slice(here.context.outer.as_slice())?;
    Ok(Context {
        left: here.context.left,
        turns: [0; 256],
        outer,
    })
}

/// Returns the moves of the references that a call with these arguments steals.
fn hand_over(here: &Here, arguments: &[Argument]) -> Result<Vec<Move>, Refused>
    ensures { IfOk result (λ moves. map move_in moves.items ≡ handed_rows here.now.thread
        (depth_of (context_in here.now.context.now)) here.now.variables.now 1 arguments.now) }
{
    let mut moves = Vec::new(here.alloc);
    let mut to = 1u8;
    for argument in arguments {
        if usize::from(to) >= Variable::COUNT {
            return Err(Refused::OutOfBounds);
        }
        hand_argument(here, argument, to, &mut moves)?;
        to += 1;
    }
    Ok(moves)
}

/// Adds the move of the argument's reference to the variable `to` of the function called, if the call steals it.
fn hand_argument(
    here: &Here,
    argument: &Argument,
    to: u8,
    moves: &mut Vec<Move>,
) -> Result<(), Refused>
    requires { to < variable_count }
    ensures { OnOk result (map move_in moves.new.items ≡ map move_in moves.old.items ++ handed_row here.now.thread
        (depth_of (context_in here.now.context.now)) to argument.now
        (row_of here.now.variables.now argument.now.from)) }
{
    let Some(row) = here.row_of(argument.from) else {
        return Ok(());
    };
    if let Passing::Borrow = argument.parameter.passing {
        return Ok(());
    }
    let holding = here.holding(argument.from)?;
    let next = holding_at(next_of(here.depth())?, Variable::new(to))?;
    moves.push(Move::PassOn {
        reference: here.reference(holding, row),
        holder: Holder::ByThread {
            thread: here.thread,
            holding: next,
        },
    })?;
    Ok(())
}

/// Dispatches `ret`. The call that has made this one owns what it returns; the caller of one from outside releases it.
pub fn return_object(here: &Here, from: Variable, row: u32) -> Result<Act, Refused>
    ensures { IfOk result (λ act. act_in act ≡ ret_action here.now.thread here.now.context.now.left from row
        (context_in here.now.context.now).outer) }
{
    match here.context.outer.as_slice() {
        [] => {
            let duty = Duty::ReleaseLoad {
                row,
                holding: Holding::ByVariable {
                    depth: 0,
                    variable: from,
                },
            };
            let place = Place::Idle {
                left: here.context.left,
            };
            Ok(does(duty, Rest::Settle, place))
        }
        [waiting, behind @ ..] => return_to(here, from, row, waiting, behind),
    }
}

/// Hands what a call returns to the call that has made it, around which these are open.
#[tactic(auto, using(crate::proofs::Around::outer_length))]
fn return_to(
    here: &Here,
    from: Variable,
    row: u32,
    waiting: &OpenCall,
    behind: &[OpenCall],
) -> Result<Act, Refused>
    ensures { IfOk result (λ act. act_in act ≡ ret_action here.now.thread here.now.context.now.left from row
        (open_of waiting.now ∷ map open_of behind.now)) }
{
    let depth = behind.len();
    let passed = Move::PassOn {
        reference: here.reference(holding_at(next_of(depth)?, from)?, row),
        holder: Holder::ByThread {
            thread: here.thread,
            holding: holding_at(depth, waiting.to)?,
        },
    };
    let mut variables = waiting.variables;
    variables[usize::from(waiting.to.number())] = Some(row);
    let place = go_on(here, waiting, behind, waiting.at + 1, variables)?;
    moves(here.alloc, passed, place)
}

/// Dispatches `fail`. The call that has made this one goes on where a fault of it leads.
pub fn fail(here: &Here) -> Result<Act, Refused>
    ensures { IfOk result (λ act. act_in act ≡ fail_action here.now.context.now.left
        (context_in here.now.context.now).outer) }
{
    match here.context.outer.as_slice() {
        [] => {
            let place = Place::Idle {
                left: here.context.left,
            };
            Ok(silent(here.alloc, place))
        }
        [waiting, behind @ ..] => {
            let otherwise = usize::from(waiting.otherwise);
            let place = go_on(here, waiting, behind, otherwise, waiting.variables)?;
            Ok(silent(here.alloc, place))
        }
    }
}

/// Returns the place before the instruction `at` of the call that has waited for this one.
fn go_on(
    here: &Here,
    waiting: &OpenCall,
    behind: &[OpenCall],
    at: usize,
    variables: Variables,
) -> Result<Place, Refused>
    ensures { IfOk result (λ place. place_in place ≡ places.InCall
        (waiting_context here.now.context.now.left (open_of waiting.now) (map open_of behind.now)) at variables) }
{
    Ok(Place::InCall {
        context: Context {
            left: here.context.left,
            turns: waiting.turns,
            outer: Vec::from_slice(here.alloc, behind)?,
        },
        at,
        variables,
    })
}
