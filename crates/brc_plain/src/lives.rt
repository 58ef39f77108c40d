//! The lives of rows.

ghost use Rattle.std.specs.Prelude.{◌≡◌, OnOk};
ghost use Rattle.brc_model.specs.BadDuties.{is_freed_for, touched_row};
ghost use Rattle.brc_model.specs.Machine.{born_row, dies_next, ended_row, life_by, with_life};
ghost use Rattle.brc_effect.specs.Effects.{duties_of};
ghost use Rattle.brc_plain.specs.Lives.{life_at, life_in};

use crate::refused::Refused;
use brc_effect::Next;
use brc_model::{Address, Duty};

/// The life of a row's object.
#[derive(Clone, Copy)]
pub enum Life {
    Unborn,
    Live,
    /// The thread deallocates it.
    Dying { thread: u8 },
    Closed,
}

/// Returns the life of the row's object.
pub fn life_at(lives: &[Life], row: u32) -> Life
    ensures { life_in result ≡ life_at lives.now row }
{
    match lives.get(row as usize) {
        Some(life) => *life,
        None => Life::Unborn,
    }
}

/// Returns a number by which the life differs from others.
pub fn number_of(life: Life) -> u64 {
    match life {
        Life::Unborn => 0,
        Life::Live => 1,
        Life::Closed => 2,
        Life::Dying { thread } => 3 + u64::from(thread),
    }
}

/// Returns whether the object is freed for the thread: it is closed, or another thread deallocates it.
pub fn is_freed_for(thread: u8, life: Life) -> bool
    ensures { result ≡ is_freed_for thread (life_in life) }
{
    match life {
        Life::Unborn | Life::Live => false,
        Life::Dying { thread: by } => by != thread,
        Life::Closed => true,
    }
}

/// Gives the row the life, if there is a row.
fn set_life(lives: &mut [Life], row: Option<u32>, life: Life) -> Result<(), Refused>
    ensures { OnOk result (life_at lives.new ≡ with_life (life_at lives.old) row (life_in life)) }
{
    if let Some(row) = row {
        let row = row as usize;
        if row >= lives.len() {
            return Err(Refused::OutOfBounds);
        }
        lives[row] = life;
    }
    Ok(())
}

/// Returns the row that dies by a step after which these duties follow, if there is one.
fn dies_next(next: Next) -> Option<u32>
    ensures { result ≡ dies_next (duties_of next) }
{
    match next {
        Next::Nothing | Next::Release { .. } => None,
        Next::One(first) | Next::Two(first, _) | Next::Three(first, _, _) => match first {
            Duty::Die { row } => Some(row),
            _ => None,
        },
    }
}

fn ended_row(duty: Duty) -> Option<u32>
    ensures { result ≡ ended_row duty }
{
    match duty {
        Duty::SettleEnd { row } => Some(row),
        _ => None,
    }
}

fn born_row(duty: Duty) -> Option<u32>
    ensures { result ≡ born_row duty }
{
    match duty {
        Duty::BirthLocal { row, .. } => Some(row),
        _ => None,
    }
}

/// Changes the lives as the thread's duty does, after which these duties follow.
pub fn live_on(lives: &mut [Life], thread: u8, duty: &Duty, next: Next) -> Result<(), Refused>
    ensures { OnOk result (life_at lives.new ≡ life_by (life_at lives.old) thread duty.now (duties_of next)) }
{
    set_life(lives, dies_next(next), Life::Dying { thread })?;
    set_life(lives, ended_row(*duty), Life::Closed)?;
    set_life(lives, born_row(*duty), Life::Live)?;
    Ok(())
}

/// Returns the row of the object that an access touches, if it is part of one.
pub fn touched_row(address: Address) -> Option<u32>
    ensures { result ≡ touched_row address }
{
    match address {
        Address::Local { row }
        | Address::Shared { row }
        | Address::Gate { row }
        | Address::KindOf { row }
        | Address::Cell { row, .. }
        | Address::Field { row }
        | Address::Resource { row } => Some(row),
        Address::Marks { .. } | Address::ThreadWord { .. } => None,
    }
}
