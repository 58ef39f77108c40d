//! The instructions that show a rule that an event breaks.

use crate::emitting::write_return;
use crate::line::{LENT, Line, Target, UNLOCKED};
use brc_c_store::{Base, Event, Local, Rules, Store};
use brc_lang::CheckCode;
use std::alloc::AllocError;

/// Appends the lines of an event that breaks a rule, and returns the place of the line that shows it, from the first
/// of them. No line is reached below that one.
pub(crate) fn write_break(
    rules: Rules,
    event: Event,
    code: CheckCode,
    store: &Store,
    lines: &mut Vec<Line>,
) -> Result<usize, AllocError> {
    let first = lines.len();
    match code {
        CheckCode::EmptyUsed => write_empty_used(store, lines)?,
        CheckCode::NotOwned => write_not_owned(rules, event, store, lines)?,
        CheckCode::StillOwns => write_lost(event, store, lines)?,
        CheckCode::LeftOwned | CheckCode::LeftLocked => match event {
            Event::Lose(_) => write_end(rules, store, lines)?,
            _ => write_return(rules, returned_by(event), store, lines)?,
        },
        CheckCode::NotLocked => write_not_locked(event, store, lines)?,
        CheckCode::RunsOff => {
            lines.push(Line::Newref {
                to: free_in(store),
                from: LENT,
            })?;
        }
        // No event breaks another rule. The checker confirms nothing of such a text.
        _ => lines.push(Line::Fail)?,
    }
    let at = lines.len().saturating_sub(first).saturating_sub(1);
    if needs_end(code, lines.last()) {
        lines.push(Line::Fail)?;
    }
    Ok(at)
}

fn needs_end(code: CheckCode, last: Option<&Line>) -> bool {
    let ends = match last {
        Some(Line::Return(_)) | Some(Line::Fail) => true,
        _ => false,
    };
    !ends && code != CheckCode::RunsOff
}

/// Returns the name whose object an event returns.
fn returned_by(event: Event) -> Option<Local> {
    match event {
        Event::Return(local) => Some(local),
        _ => None,
    }
}

/// C5: the call ends where the reference is lost.
fn write_end(rules: Rules, store: &Store, lines: &mut Vec<Line>) -> Result<(), AllocError> {
    if rules == Rules::GlobalLock && store.is_locked(rules) {
        lines.push(Line::Unlock)?;
    }
    lines.push(Line::Fail)?;
    Ok(())
}

fn empty_in(store: &Store) -> u8 {
    match store.empty() {
        Some(register) => register.number(),
        None => LENT,
    }
}

/// Returns a register that is empty: another one than `empty_in`, if there are two.
fn free_in(store: &Store) -> u8 {
    match store.free() {
        Some(register) => register.number(),
        None => empty_in(store),
    }
}

/// C1: a reference is made of an empty register.
fn write_empty_used(store: &Store, lines: &mut Vec<Line>) -> Result<(), AllocError> {
    lines.push(Line::Newref {
        to: free_in(store),
        from: empty_in(store),
    })?;
    Ok(())
}

/// C3: what is only borrowed is given up or returned.
fn write_not_owned(
    rules: Rules,
    event: Event,
    store: &Store,
    lines: &mut Vec<Line>,
) -> Result<(), AllocError> {
    let (local, is_return) = match event {
        Event::Return(local) => (Some(local), true),
        Event::Release(local) | Event::Give(local) | Event::GiveTo { local, .. } => {
            (Some(local), false)
        }
        _ => (None, false),
    };
    let item = item_of(store, local);
    let variable = item.unwrap_or(LENT);
    if !is_return {
        lines.push(Line::Drop(variable))?;
        return Ok(());
    }
    // The item ends where the global lock is unlocked: it is returned before.
    if rules == Rules::GlobalLock && item.is_none() {
        lines.push(Line::Unlock)?;
    }
    lines.push(Line::Return(variable))?;
    Ok(())
}

/// Returns the variable that has the borrowed item which a name has.
fn item_of(store: &Store, local: Option<Local>) -> Option<u8> {
    let id = store.object_of(local?)?;
    match store.object(id).base {
        Base::Item(register) => Some(register.number()),
        _ => None,
    }
}

/// C4: a register that owns a reference gets another one.
fn write_lost(event: Event, store: &Store, lines: &mut Vec<Line>) -> Result<(), AllocError> {
    let to = match event {
        Event::Copy { to, .. } | Event::Lend { to, .. } => Some(to),
        Event::Call { into, .. } => into,
        Event::Put { .. } => return write_lost_by_cell(store, lines),
        _ => None,
    };
    lines.push(Line::Newref {
        to: register_of(store, to).unwrap_or(LENT),
        from: LENT,
    })?;
    Ok(())
}

/// The reference that a cell had is the function's, and lost at once.
fn write_lost_by_cell(store: &Store, lines: &mut Vec<Line>) -> Result<(), AllocError> {
    let to = empty_in(store);
    for _turn in 0..2 {
        lines.push(Line::Newref { to, from: LENT })?;
    }
    Ok(())
}

fn register_of(store: &Store, local: Option<Local>) -> Option<u8> {
    let id = store.object_of(local?)?;
    let register = store.object(id).registers.last()?;
    Some(register.number())
}

/// C8: an item is borrowed of a list that isn't locked, or what isn't locked is unlocked.
fn write_not_locked(event: Event, store: &Store, lines: &mut Vec<Line>) -> Result<(), AllocError> {
    match event {
        Event::Call { .. } | Event::Read { .. } | Event::Put { .. } => lines.push(Line::Borrow {
            to: free_in(store),
            list: UNLOCKED,
            otherwise: Target::Below,
        })?,
        _ => lines.push(Line::Unlock)?,
    }
    Ok(())
}
