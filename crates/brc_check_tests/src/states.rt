//! The states along paths.

use crate::modules::function_of;
use brc_check::{CheckCode, Exit, Slot, State, Step, entry_of, first_states, follow};
use brc_lang::Kind;
use std::alloc::Global;
use std::test::*;

/// The state in which v1 has the variable's state, v0 is the caller's list, and the other variables are empty.
fn state(var: Slot) -> State {
    let mut slots = [Slot::Empty; 16];
    slots[0] = Slot::Caller(Kind::List);
    slots[1] = var;
    State {
        slots,
        locked: None,
    }
}

/// The number of the first point with another state of v1.
pub fn first_other_state(
    alloc: Global,
    lines: &[u8],
    slots: &[Option<Slot>],
) -> Result<Option<usize>, Fail> {
    let module = function_of(alloc, lines)?;
    let entries = first_states(alloc, &module.functions.as_slice()[0])?;
    if entries.len() != slots.len() {
        return Ok(Some(entries.len()));
    }
    for (at, var) in slots.iter().enumerate() {
        if entries.as_slice()[at] != var.map(state) {
            return Ok(Some(at));
        }
    }
    Ok(None)
}

/// Whether a path's first step makes a reference to the list, and its second one finds it left.
pub fn takes_two_steps(alloc: Global) -> Result<bool, Fail> {
    let module = function_of(alloc, b"newref v1 v0\nfail\n")?;
    let code = module.functions.as_slice()[0].code.as_slice();
    let entry = entry_of(&[]);
    let Step::To(1, arriving) = follow(code, 0, &entry, Exit::Success) else {
        return Ok(false);
    };
    let reported = follow(code, 1, &arriving, Exit::Success);
    Ok(
        entry == state(Slot::Empty)
            && arriving == state(Slot::Owned(Kind::List))
            && matches!(reported, Step::Error(CheckCode::LeftOwned)),
    )
}

const EMPTY: Option<Slot> = Some(Slot::Empty);

const NUMBER: Option<Slot> = Some(Slot::Owned(Kind::Num));

/// Lines, and the state of v1 at each point where a path comes first.
pub const CASES: &[(&[u8], &[Option<Slot>])] = &[
    (
        b"num v1 1 else @2\nret v1\nfail\ndrop v1\nfail\n",
        &[EMPTY, NUMBER, EMPTY, None, None],
    ),
    // The first path to the last point has a number.
    (
        b"num v1 1 else @2\ngoto @3\nnone v1\nret v1\n",
        &[EMPTY, NUMBER, EMPTY, NUMBER],
    ),
    // The first instruction reports an error: no path goes on.
    (b"drop v1\nfail\n", &[EMPTY, None]),
];
