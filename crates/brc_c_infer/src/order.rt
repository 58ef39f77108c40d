//! The order of the functions: each after those that it calls, but for recursions.

use crate::calls::Calls;
use std::alloc::{AllocError, Global};

/// A function of which some callees were entered already.
#[derive(Clone, Copy)]
struct Open {
    number: usize,
    entered: usize,
}

/// Returns the numbers of all functions, the callees first.
pub(crate) fn callees_first(alloc: Global, calls: &Calls) -> Result<Vec<usize>, AllocError> {
    let mut seen = Vec::new(alloc);
    for _ in 0..calls.len() {
        seen.push(false)?;
    }
    let mut order = Vec::new(alloc);
    let mut open = Vec::new(alloc);
    let mut next = 0;
    // Each turn takes a callee of a function, ends a function, or begins with the next one.
    for _turn in 0..calls.turns() {
        match open.pop() {
            Some(top) => take_callee(calls, top, &mut seen, &mut open, &mut order)?,
            None => {
                enter(next, &mut seen, &mut open)?;
                next = next.saturating_add(1);
            }
        }
    }
    Ok(order)
}

fn take_callee(
    calls: &Calls,
    top: Open,
    seen: &mut Vec<bool>,
    open: &mut Vec<Open>,
    order: &mut Vec<usize>,
) -> Result<(), AllocError> {
    match calls.callees(top.number).get(top.entered) {
        Some(callee) => {
            open.push(Open {
                entered: top.entered.saturating_add(1),
                ..top
            })?;
            enter(*callee, seen, open)
        }
        None => {
            order.push(top.number)?;
            Ok(())
        }
    }
}

fn enter(number: usize, seen: &mut Vec<bool>, open: &mut Vec<Open>) -> Result<(), AllocError> {
    if let Some(is_seen) = seen.get_mut(number) {
        if !*is_seen {
            *is_seen = true;
            open.push(Open { number, entered: 0 })?;
        }
    }
    Ok(())
}
