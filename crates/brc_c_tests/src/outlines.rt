//! The check of an outline: of one that says what a function does which loses a reference, and of some that say
//! something else of it.

use brc_c_outline::{Broken, Outline, Point, is_broken, shows};
use brc_check::entry_of;
use brc_lang::{CheckCode, Kind, Module, read};
use brc_model::{Slot, State};
use std::alloc::{AllocError, Global};
use std::test::Fail;

const LOSES: &[u8] = b"module 1\nfunc f\nnewref v1 v0\nfail\nend\n";

/// What an outline says of the function.
#[derive(Clone, Copy)]
pub struct Said {
    /// The point where paths go on from the first one.
    way: usize,
    /// The instruction at which the second point starts.
    start: usize,
    /// The instruction that reports what is broken there.
    at: usize,
    code: CheckCode,
}

const RIGHT: Said = Said {
    way: 1,
    start: 1,
    at: 1,
    code: CheckCode::LeftOwned,
};

/// Returns the point at which the function begins, and then that at which it has lost a reference.
fn outline_of(alloc: Global, entry: State, said: Said) -> Result<Outline, AllocError> {
    let mut lost = entry;
    lost.slots[1] = Slot::Owned(Kind::List);
    let mut points = Vec::new(alloc);
    points.push(Point {
        start: 0,
        state: entry,
        broken: None,
        ways: vec![in alloc; said.way]?,
    })?;
    points.push(Point {
        start: said.start,
        state: lost,
        broken: Some(Broken {
            code: said.code,
            at: said.at,
        }),
        ways: Vec::new(alloc),
    })?;
    Ok(Outline { points })
}

/// Returns whether the function is found to do what is said of it, and to break the rule.
pub fn is_found(alloc: Global, said: Said) -> Result<bool, Fail> {
    let module = read(alloc, LOSES)?;
    let outline = outline_of(alloc, entry_of(&[]), said)?;
    Ok(is_shown_broken(alloc, &module, &outline)?)
}

/// Returns whether the outline is that of the function, and breaks the rule.
fn is_shown_broken(alloc: Global, module: &Module, outline: &Outline) -> Result<bool, AllocError> {
    if shows(alloc, module, outline)? {
        is_broken(alloc, outline, RIGHT.at, RIGHT.code)
    } else {
        Ok(false)
    }
}

/// What is said, and whether it is found to be so.
pub const SAID: [(Said, bool); 5] = [
    (RIGHT, true),
    (Said { way: 0, ..RIGHT }, false),
    (Said { start: 0, ..RIGHT }, false),
    (Said { at: 0, ..RIGHT }, false),
    (
        Said {
            code: CheckCode::StillOwns,
            ..RIGHT
        },
        false,
    ),
];
