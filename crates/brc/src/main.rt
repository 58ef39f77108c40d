//! Checks and runs native extension modules.
#![tactic(auto)]

mod disk;
mod environment;
mod saving;
mod streams;

use brc_arguments::{act_on, color_of};
use brc_screen::Screen;
use disk::Disk;
use environment::{is_dumb, refuses_colors};
use std::cell::Cell;
use std::io::{ErrorKind, IsTerminal};
use std::process::ExitCode;
use std::{io, process};
use streams::{Errors, Output};

fn main(rt: HostRuntime) -> ExitCode {
    let words = match words(&rt) {
        Ok(words) => words,
        Err(error) => return ExitCode::from(unreadable_words(&rt, error.kind())),
    };
    let dumb = is_dumb(&rt);
    let shows_colors = rt.stdout().is_terminal() && !dumb && !refuses_colors(&rt);
    let colors = color_of(rt.alloc(), words.as_slice()).colors(shows_colors);
    let is_heard = rt.stderr().is_terminal();
    let is_gone = Cell::new(false);
    let status = act_on(
        &rt,
        rt.alloc(),
        words.as_slice(),
        &mut Disk::new(&rt, process::id(rt.process()), is_heard),
        &mut Screen::new(&rt, colors, is_heard && !dumb),
        &mut Output::new(io::writer(&rt.stdout()), &is_gone),
        &mut Errors::new(io::writer(&rt.stderr()), &is_gone),
    );
    ExitCode::from(status)
}

fn words(rt: &HostRuntime) -> io::Result<Vec<String>> {
    Ok(std::env::args(rt)?.collect(rt.alloc())?)
}

/// Reports that the words of the command line can't be read, and returns the status.
fn unreadable_words(rt: &impl Eprint, kind: ErrorKind) -> u8 {
    if kind == ErrorKind::OutOfMemory {
        let _ = eprintln!(rt; "no memory");
        3
    } else {
        let _ = eprintln!(rt; "error: invalid UTF-8 was detected in one or more arguments");
        2
    }
}
