//! The command of a case, carried out over files and streams in memory.

use crate::shelf::Shelf;
use crate::sink::{Room, Sink};
use crate::window::Window;
use brc_arguments::{act_on, color_of};
use brc_case_format::Case;
use brc_run::System;
use std::alloc::{AllocError, Global};

/// What a command has written, and its status.
#[derive(Drop)]
pub struct Ran {
    pub out: Vec<u8>,
    /// What the terminal has shown, and behind it what standard error has.
    pub err: Vec<u8>,
    pub status: u8,
}

/// Carries out the command of the case, whose outputs have this room.
pub fn carry_out<R: System + AllocGlobal>(
    rt: &R,
    case: &Case,
    shelf: &mut Shelf<'_>,
    room: &Room,
) -> Result<Ran, AllocError> {
    let alloc = rt.alloc();
    let words = words_of(alloc, case)?;
    let mut out = Sink::new(alloc, room.out, room.interrupts);
    let mut err = Sink::new(alloc, room.err, room.interrupts);
    let colors = color_of(alloc, words.as_slice()).colors(case.is_terminal);
    let mut window = Window::new(alloc, case.is_terminal, colors);
    let status = act_on(
        rt,
        alloc,
        words.as_slice(),
        shelf,
        &mut window,
        &mut out,
        &mut err,
    );
    // The terminal is wiped before anything is written.
    let mut shown = Vec::from_slice(alloc, window.shown())?;
    shown.extend_from_slice(err.taken.as_slice())?;
    Ok(Ran {
        out: out.taken,
        err: shown,
        status,
    })
}

fn words_of(alloc: Global, case: &Case) -> Result<Vec<String>, AllocError> {
    let mut words = Vec::new(alloc);
    for word in &case.words {
        words.push(text_of(alloc, word.as_slice())?)?;
    }
    Ok(words)
}

fn text_of(alloc: Global, bytes: &[u8]) -> Result<String, AllocError> {
    String::from_str(alloc, str::from_utf8(bytes).unwrap_or(""))
}
