//! Which references move at a step on a word.

ghost use Rattle.std.specs.Prelude.{◌≡◌, ◌++◌, map, IfOk, OnOk};
ghost use Rattle.brc_model.specs.AbstractState.{ByCell, ByThread};
ghost use Rattle.brc_model.specs.Moves.{gain, lose, put_in_flight, reference_effects, take_out};
ghost use Rattle.brc_plain.specs.Bags.{move_in, reference_in};
ghost use Rattle.brc_machine.specs.Storage.{word_in};

use crate::bag::{Holder, Move, Reference};
use crate::refused::Refused;
use brc_effect::kinds::kind_of_word;
use brc_machine::Memory;
use brc_model::{Address, Duty, Holding, Reason};
use brc_word::is_immortal;
use std::alloc::Global;

fn by_thread(thread: u8, holding: Holding, object: u32) -> Reference
    ensures { reference_in result ≡ record { holder = ByThread thread holding; object = object } }
{
    Reference {
        holder: Holder::ByThread { thread, holding },
        object,
    }
}

fn by_cell(list: u32, cell: u32, object: u32) -> Reference
    ensures { reference_in result ≡ record { holder = ByCell list cell; object = object } }
{
    Reference {
        holder: Holder::ByCell { list, cell },
        object,
    }
}

/// The reference of the holder is in flight from then on.
fn put_in_flight(
    moves: &mut Vec<Move>,
    thread: u8,
    holding: &Holding,
    row: u32,
) -> Result<(), Refused>
    ensures { OnOk result (map move_in moves.new.items
        ≡ map move_in moves.old.items ++ put_in_flight thread holding.now row) }
{
    match holding {
        Holding::InFlight => {}
        Holding::ByVariable { .. } | Holding::AsCaller => moves.push(Move::PassOn {
            reference: by_thread(thread, *holding, row),
            holder: Holder::ByThread {
                thread,
                holding: Holding::InFlight,
            },
        })?,
    }
    Ok(())
}

fn gain(moves: &mut Vec<Move>, thread: u8, holding: Holding, row: u32) -> Result<(), Refused>
    ensures { OnOk result (map move_in moves.new.items ≡ map move_in moves.old.items ++ gain thread holding row) }
{
    moves.push(Move::Gain(by_thread(thread, holding, row)))?;
    Ok(())
}

fn lose(moves: &mut Vec<Move>, thread: u8, row: u32) -> Result<(), Refused>
    ensures { OnOk result (map move_in moves.new.items ≡ map move_in moves.old.items ++ lose thread row) }
{
    moves.push(Move::Lose(by_thread(thread, Holding::InFlight, row)))?;
    Ok(())
}

/// What an emptied cell held is in flight from then on.
fn take_out(
    moves: &mut Vec<Move>,
    thread: u8,
    list: u32,
    cell: u32,
    found: u64,
) -> Result<(), Refused>
    ensures { OnOk result (map move_in moves.new.items
        ≡ map move_in moves.old.items ++ take_out thread list cell found) }
{
    if found != 0 {
        if found > 1 << 32 {
            return Err(Refused::OutOfBounds);
        }
        let object = (found - 1) as u32;
        moves.push(Move::PassOn {
            reference: by_cell(list, cell, object),
            holder: Holder::ByThread {
                thread,
                holding: Holding::InFlight,
            },
        })?;
    }
    Ok(())
}

/// Returns the moves that the thread's duty makes, which found the word.
pub fn reference_effects(
    alloc: Global,
    memory: &Memory,
    thread: u8,
    duty: Duty,
    found: u64,
) -> Result<Vec<Move>, Refused>
    ensures { IfOk result (λ moves. map move_in moves.items
        ≡ reference_effects (word_in memory.now) thread duty found) }
{
    let mut moves = Vec::new(alloc);
    match duty {
        Duty::RetainLoad { row, holding } => {
            if is_immortal(found) {
                gain(&mut moves, thread, holding, row)?;
            }
        }
        Duty::RetainStore { row, holding, .. } | Duty::RetainAdd { row, holding } => {
            gain(&mut moves, thread, holding, row)?;
        }
        Duty::ReleaseLoad { row, holding } => {
            put_in_flight(&mut moves, thread, &holding, row)?;
            if is_immortal(found) {
                lose(&mut moves, thread, row)?;
            }
        }
        Duty::ReleaseStore { row, .. } => lose(&mut moves, thread, row)?,
        Duty::SharedExchange { row, reason, word } => {
            if let Reason::Own = reason {
                if found == word {
                    lose(&mut moves, thread, row)?;
                }
            }
        }
        Duty::SettleCell { row, cell, .. } => take_out(&mut moves, thread, row, cell, found)?,
        Duty::SettleEnd { row } => moves.push(Move::Finalise(row))?,
        Duty::BirthLocal { row, holding } => moves.push(Move::Born {
            reference: by_thread(thread, holding, row),
            kind: kind_of_word(memory.read(Address::KindOf { row })),
        })?,
        Duty::CellSwap {
            row,
            cell,
            item,
            holding,
        } => {
            moves.push(Move::PassOn {
                reference: by_thread(thread, holding, item),
                holder: Holder::ByCell { list: row, cell },
            })?;
            take_out(&mut moves, thread, row, cell, found)?;
        }
        _ => {}
    }
    Ok(moves)
}
