//! Commands over outputs that stop taking bytes: what is written is the beginning of the whole text, and standard error
//! and the status say that it isn't all, or what else is wrong.

use crate::carrying::{Ran, carry_out};
use crate::shelf::Shelf;
use crate::sink::{ENDLESS, Room};
use brc_case_format::{Case, Stream};
use brc_run::System;
use std::alloc::AllocError;

/// A text of no more bytes is cut behind each of them, and a longer one in five places.
const SHORT: usize = 250;

/// Carries out the command, which has ended as `whole` says, over outputs that stop. Returns how it differs from the
/// case, or an empty text.
pub fn stopped_difference<R: System + AllocGlobal>(
    rt: &R,
    case: &Case,
    whole: &Ran,
) -> Result<String, AllocError> {
    let mut said = String::new(rt.alloc());
    let length = whole.out.len();
    for interrupts in [false, true] {
        for out in 0..=length {
            if is_tried(out, length) {
                let room = Room {
                    out,
                    err: ENDLESS,
                    interrupts,
                };
                add_difference(rt, case, whole, &room, &mut said)?;
            }
        }
    }
    // If standard error takes nothing, the status still gives the reason.
    let room = Room {
        out: ENDLESS,
        err: 0,
        interrupts: false,
    };
    add_difference(rt, case, whole, &room, &mut said)?;
    Ok(said)
}

/// Returns whether a text of this length is cut here.
fn is_tried(at: usize, length: usize) -> bool {
    length <= SHORT || at <= 1 || at == length / 2 || length.saturating_sub(at) <= 1
}

/// Appends how the command differs over outputs with this room, unless it has differed before.
fn add_difference<R: System + AllocGlobal>(
    rt: &R,
    case: &Case,
    whole: &Ran,
    room: &Room,
    said: &mut String,
) -> Result<(), AllocError> {
    if !said.is_empty() {
        return Ok(());
    }
    let alloc = rt.alloc();
    let mut shelf = Shelf::new(alloc, case);
    let ran = carry_out(rt, case, &mut shelf, room)?;
    if is_right(case, whole, room, &ran) {
        return Ok(());
    }
    let taken = ran.out.len();
    let status = ran.status;
    let err = str::from_utf8(ran.err.as_slice()).unwrap_or("bytes that are no text");
    let line = format!(in alloc; "after {taken} bytes status {status}, standard error has\n{err}")?;
    said.push_str(line.as_str())
}

/// Returns whether the command may end so over outputs with this room.
fn is_right(case: &Case, whole: &Ran, room: &Room, ran: &Ran) -> bool {
    let text = whole.out.as_slice();
    if ran.out.as_slice() != text.get(..room.out).unwrap_or(text) {
        return false;
    }
    let err = ran.err.as_slice();
    if room.out < text.len() {
        return case.is_stopped(err, ran.status);
    }
    case.status == Some(ran.status) && (room.err == 0 || case.is_met(Stream::Err, "", err))
}
