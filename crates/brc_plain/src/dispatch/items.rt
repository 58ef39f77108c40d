//! The instructions that lock an object or use a cell of a list.

ghost use Rattle.std.specs.Prelude.{◌≡◌, IfOk};
ghost use Rattle.brc_lang.specs.declared.module.Instr.TheVariants as instructions;
ghost use Rattle.brc_plain.specs.Acts.{act_in};
ghost use Rattle.brc_plain.specs.Heres.{dispatched, dispatched_inside};

use crate::act::{Act, AfterDuty, Rest};
use crate::here::{Here, does, next_of};
use crate::refused::Refused;
use brc_lang::Variable;
use brc_model::{Duty, Holding, Stage};

/// Dispatches `lock`.
pub fn lock(here: &Here, object: Variable) -> Result<Act, Refused>
    ensures { IfOk result (λ act. act_in act ≡ dispatched here.now (instructions.Lock object)) }
{
    let Some(row) = here.row_of(object) else {
        return Ok(Act::Stuck);
    };
    Ok(Act::Does {
        duty: Duty::LockGate { row },
        rest: Rest::Nothing,
        after: AfterDuty::IfFree {
            free: here.next(*here.variables)?,
            taken: here.before.copy(here.alloc)?,
        },
    })
}

/// Dispatches `unlock`.
pub fn unlock(here: &Here, object: Variable) -> Result<Act, Refused>
    ensures { IfOk result (λ act. act_in act ≡ dispatched here.now (instructions.Unlock object)) }
{
    let Some(row) = here.row_of(object) else {
        return Ok(Act::Stuck);
    };
    let place = here.next(*here.variables)?;
    Ok(does(Duty::UnlockGate { row }, Rest::Nothing, place))
}

/// Dispatches `borrow`: the load of the list's kind word, which says whether it has the cell.
pub fn borrow(
    here: &Here,
    to: Variable,
    list: Variable,
    index: u8,
    otherwise: u8,
) -> Result<Act, Refused>
    ensures { IfOk result (λ act. act_in act ≡ dispatched here.now (instructions.Borrow to list index otherwise)) }
{
    let Some(row) = here.row_of(list) else {
        return Ok(Act::Stuck);
    };
    Ok(Act::Does {
        duty: Duty::KindLoad { row },
        rest: Rest::Nothing,
        after: AfterDuty::ByRange {
            index,
            inside: here.inside(Stage::InRange)?,
            outside: here.missed(otherwise, to)?,
        },
    })
}

/// Dispatches `fetch`, as `borrow`.
pub fn fetch(
    here: &Here,
    to: Variable,
    list: Variable,
    index: u8,
    otherwise: u8,
) -> Result<Act, Refused>
    ensures { IfOk result (λ act. act_in act ≡ dispatched here.now (instructions.Fetch to list index otherwise)) }
{
    let Some(row) = here.row_of(list) else {
        return Ok(Act::Stuck);
    };
    Ok(Act::Does {
        duty: Duty::KindLoad { row },
        rest: Rest::Nothing,
        after: AfterDuty::ByRange {
            index,
            inside: here.inside(Stage::InRange)?,
            outside: here.missed(otherwise, to)?,
        },
    })
}

/// Dispatches `set`.
pub fn set(
    here: &Here,
    list: Variable,
    index: u8,
    from: Variable,
    otherwise: u8,
) -> Result<Act, Refused>
    ensures { IfOk result (λ act. act_in act ≡ dispatched here.now (instructions.Set list index from otherwise)) }
{
    let Some(row) = here.row_of(list) else {
        return Ok(Act::Stuck);
    };
    Ok(Act::Does {
        duty: Duty::KindLoad { row },
        rest: Rest::Nothing,
        after: AfterDuty::ByRange {
            index,
            inside: here.inside(Stage::InRange)?,
            outside: here.inside(Stage::OutOfRange)?,
        },
    })
}

/// Dispatches `put`.
pub fn put(
    here: &Here,
    list: Variable,
    index: u8,
    from: Variable,
    otherwise: u8,
) -> Result<Act, Refused>
    ensures { IfOk result (λ act. act_in act ≡ dispatched here.now (instructions.Put list index from otherwise)) }
{
    let Some(row) = here.row_of(list) else {
        return Ok(Act::Stuck);
    };
    Ok(Act::Does {
        duty: Duty::KindLoad { row },
        rest: Rest::Nothing,
        after: AfterDuty::ByRange {
            index,
            inside: here.inside(Stage::InRange)?,
            outside: here.in_call(usize::from(otherwise), *here.variables)?,
        },
    })
}

/// Goes on inside `borrow`: the load of the cell.
pub fn borrow_inside(
    here: &Here,
    stage: Stage,
    to: Variable,
    list: Variable,
    index: u8,
    otherwise: u8,
) -> Result<Act, Refused>
    ensures { IfOk result (λ act. act_in act
        ≡ dispatched_inside here.now stage (instructions.Borrow to list index otherwise)) }
{
    let Stage::InRange = stage else {
        return Ok(Act::Stuck);
    };
    let Some(row) = here.row_of(list) else {
        return Ok(Act::Stuck);
    };
    Ok(Act::Does {
        duty: Duty::CellLoad {
            row,
            cell: u32::from(index),
        },
        rest: Rest::Nothing,
        after: AfterDuty::Borrows {
            empty: here.missed(otherwise, to)?,
            context: here.context.copy(here.alloc)?,
            at: next_of(here.at)?,
            variables: *here.variables,
            to,
        },
    })
}

/// Goes on inside `fetch`: the load of the cell, and then the retain of its item.
pub fn fetch_inside(
    here: &Here,
    stage: Stage,
    to: Variable,
    list: Variable,
    index: u8,
    otherwise: u8,
) -> Result<Act, Refused>
    ensures { IfOk result (λ act. act_in act
        ≡ dispatched_inside here.now stage (instructions.Fetch to list index otherwise)) }
{
    match stage {
        Stage::InRange => {
            let Some(row) = here.row_of(list) else {
                return Ok(Act::Stuck);
            };
            Ok(Act::Does {
                duty: Duty::CellLoad {
                    row,
                    cell: u32::from(index),
                },
                rest: Rest::Nothing,
                after: AfterDuty::Fetches {
                    empty: here.missed(otherwise, to)?,
                    context: here.context.copy(here.alloc)?,
                    at: here.at,
                    variables: *here.variables,
                },
            })
        }
        Stage::Found { row } => {
            let duty = Duty::RetainLoad {
                row,
                holding: here.holding(to)?,
            };
            let place = here.next(here.naming(to, Some(row)))?;
            Ok(does(duty, Rest::Nothing, place))
        }
        _ => Ok(Act::Stuck),
    }
}

/// Goes on inside `set`: the swap of the cell, or the release of the reference that there is no cell for.
pub fn set_inside(
    here: &Here,
    stage: Stage,
    list: Variable,
    index: u8,
    from: Variable,
    otherwise: u8,
) -> Result<Act, Refused>
    ensures { IfOk result (λ act. act_in act
        ≡ dispatched_inside here.now stage (instructions.Set list index from otherwise)) }
{
    match stage {
        Stage::InRange => {
            let Some(row) = here.row_of(list) else {
                return Ok(Act::Stuck);
            };
            let Some(item) = here.row_of(from) else {
                return Ok(Act::Stuck);
            };
            let duty = Duty::CellSwap {
                row,
                cell: u32::from(index),
                item,
                holding: here.holding(from)?,
            };
            let place = here.next(here.naming(from, None))?;
            Ok(does(duty, Rest::Settle, place))
        }
        Stage::OutOfRange => {
            let Some(row) = here.row_of(from) else {
                return Ok(Act::Stuck);
            };
            let duty = Duty::ReleaseLoad {
                row,
                holding: here.holding(from)?,
            };
            let place = here.missed(otherwise, from)?;
            Ok(does(duty, Rest::Settle, place))
        }
        _ => Ok(Act::Stuck),
    }
}

/// Goes on inside `put`: the retain of the item, and then the swap of the cell.
pub fn put_inside(
    here: &Here,
    stage: Stage,
    list: Variable,
    index: u8,
    from: Variable,
    otherwise: u8,
) -> Result<Act, Refused>
    ensures { IfOk result (λ act. act_in act
        ≡ dispatched_inside here.now stage (instructions.Put list index from otherwise)) }
{
    match stage {
        Stage::InRange => {
            let Some(item) = here.row_of(from) else {
                return Ok(Act::Stuck);
            };
            let duty = Duty::RetainLoad {
                row: item,
                holding: Holding::InFlight,
            };
            let place = here.inside(Stage::Retained)?;
            Ok(does(duty, Rest::Nothing, place))
        }
        Stage::Retained => {
            let Some(row) = here.row_of(list) else {
                return Ok(Act::Stuck);
            };
            let Some(item) = here.row_of(from) else {
                return Ok(Act::Stuck);
            };
            let duty = Duty::CellSwap {
                row,
                cell: u32::from(index),
                item,
                holding: Holding::InFlight,
            };
            let place = here.next(*here.variables)?;
            Ok(does(duty, Rest::Settle, place))
        }
        _ => Ok(Act::Stuck),
    }
}
