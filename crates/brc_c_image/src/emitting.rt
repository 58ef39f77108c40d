//! The instructions of an event that breaks no rule.

use crate::block::Branch;
use crate::changes::Changes;
use crate::line::{LENT, Line};
use brc_c_paths::MOST_REGISTERS;
use brc_c_store::{Base, Event, Local, RegisterSet, Rules, Store};
use std::alloc::AllocError;

/// Appends the lines of an event after which a path goes on, and returns the instruction with two exits below them.
pub(crate) fn write_event(
    rules: Rules,
    event: Event,
    store: &Store,
    changes: &Changes,
    has_others: bool,
    lines: &mut Vec<Line>,
) -> Result<Branch, AllocError> {
    match event {
        Event::Call { .. } => {
            return write_call(store.is_locked(rules), changes, has_others, lines);
        }
        Event::Take(local) => write_taking(store, local, changes, lines)?,
        Event::Use(local) | Event::UseOrNull(local) => write_use(store, local, lines)?,
        Event::Put { .. } => write_taking_out(changes, lines)?,
        Event::Release(local) | Event::Give(local) | Event::GiveTo { local, .. } => {
            write_giving_back(store, local, lines)?;
        }
        _ => {}
    }
    write_drops(changes.dropped, lines)?;
    if changes.unlocks {
        lines.push(Line::Unlock)?;
    }
    if changes.locks {
        lines.push(Line::Lock)?;
    }
    Ok(asking(has_others))
}

fn asking(has_others: bool) -> Branch {
    if has_others {
        Branch::Ask
    } else {
        Branch::Nothing
    }
}

fn write_call(
    is_locked: bool,
    changes: &Changes,
    has_others: bool,
    lines: &mut Vec<Line>,
) -> Result<Branch, AllocError> {
    if let Some(register) = changes.item {
        return Ok(Branch::Borrow(register));
    }
    let Some(register) = changes.owned else {
        return Ok(asking(has_others));
    };
    if !has_others {
        lines.push(Line::Newref {
            to: register.number(),
            from: LENT,
        })?;
        return Ok(Branch::Nothing);
    }
    if is_locked {
        Ok(Branch::Fetch(register))
    } else {
        Ok(Branch::Make(register))
    }
}

/// A reference is made of one that is there.
fn write_taking(
    store: &Store,
    local: Local,
    changes: &Changes,
    lines: &mut Vec<Line>,
) -> Result<(), AllocError> {
    if let Some(register) = changes.owned {
        lines.push(Line::Newref {
            to: register.number(),
            from: variable_of(store, local),
        })?;
    }
    Ok(())
}

/// The reference that a cell had is the function's.
fn write_taking_out(changes: &Changes, lines: &mut Vec<Line>) -> Result<(), AllocError> {
    if let Some(register) = changes.owned {
        lines.push(Line::Newref {
            to: register.number(),
            from: LENT,
        })?;
    }
    Ok(())
}

/// A reference that a cell has is given up: one is made, and given up at once.
fn write_giving_back(store: &Store, local: Local, lines: &mut Vec<Line>) -> Result<(), AllocError> {
    let Some(id) = store.object_of(local) else {
        return Ok(());
    };
    let free = store.free().or(store.empty());
    if let (true, Some(register)) = (store.object(id).registers.is_empty(), free) {
        let to = register.number();
        lines.push(Line::Newref { to, from: LENT })?;
        lines.push(Line::Drop(to))?;
    }
    Ok(())
}

/// Returns the variable that names the object of a name.
fn variable_of(store: &Store, local: Local) -> u8 {
    let Some(id) = store.object_of(local) else {
        return LENT;
    };
    let object = store.object(id);
    if let Some(register) = object.registers.first() {
        return register.number();
    }
    match object.base {
        Base::Item(register) => register.number(),
        _ => LENT,
    }
}

/// A reference that is made of a borrowed item, and given up at once, shows that the item is alive.
fn write_use(store: &Store, local: Local, lines: &mut Vec<Line>) -> Result<(), AllocError> {
    let Some(id) = store.object_of(local) else {
        return Ok(());
    };
    let object = store.object(id);
    if !object.registers.is_empty() {
        return Ok(());
    }
    if let Base::Item(item) = object.base {
        if let Some(free) = store.free() {
            let to = free.number();
            lines.push(Line::Newref {
                to,
                from: item.number(),
            })?;
            lines.push(Line::Drop(to))?;
        }
    }
    Ok(())
}

/// Appends a `drop` of each register.
pub(crate) fn write_drops(set: RegisterSet, lines: &mut Vec<Line>) -> Result<(), AllocError> {
    let mut next = set.first();
    for _ in 0..MOST_REGISTERS {
        let Some(register) = next else {
            return Ok(());
        };
        lines.push(Line::Drop(register.number()))?;
        next = set.behind(register);
    }
    Ok(())
}

/// Appends the lines that empty registers of borrowed items.
pub(crate) fn write_emptying(set: RegisterSet, lines: &mut Vec<Line>) -> Result<(), AllocError> {
    let mut next = set.first();
    for _ in 0..MOST_REGISTERS {
        let Some(register) = next else {
            return Ok(());
        };
        let number = register.number();
        lines.push(Line::Newref {
            to: number,
            from: number,
        })?;
        lines.push(Line::Drop(number))?;
        next = set.behind(register);
    }
    Ok(())
}

/// Appends the lines of a return that breaks no rule, or one that shows it: what is left, or a section that is open.
pub(crate) fn write_return(
    rules: Rules,
    returned: Option<Local>,
    store: &Store,
    lines: &mut Vec<Line>,
) -> Result<(), AllocError> {
    if rules == Rules::GlobalLock {
        lines.push(Line::Unlock)?;
    }
    lines.push(match owned_by(store, returned) {
        Some(number) => Line::Return(number),
        None => Line::Fail,
    })?;
    Ok(())
}

/// Returns the variable that owns the reference which is returned.
fn owned_by(store: &Store, returned: Option<Local>) -> Option<u8> {
    let id = store.object_of(returned?)?;
    let register = store.object(id).registers.last()?;
    Some(register.number())
}
