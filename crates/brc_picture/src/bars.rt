//! The bars of the objects.

use crate::bar::Bar;
use crate::lane::Lane;
use crate::life::Life;
use crate::note::{Left, Note};
use crate::place::{Across, BAR, column_at, height_of, text_of, top_of};
use crate::shapes::{close_text, open_text, write_cut_number, write_rect};
use crate::style::life_class;
use brc_effect::rows::ROOT;
use brc_lang::write_bytes;
use brc_word::values::{DEFAULT, FILE, LIST, MERGED, NOBODY, NUM, ONE_REFERENCE, QUEUED, SOCK};
use brc_word::{is_immortal, kind_argument, kind_number, local_count};
use std::io;
use std::io::Write;

/// The biased count of the shared count 0.
const BIAS: u64 = 1 << 40;

/// What is left of a text in a bar.
const PAD: u64 = 4;

/// The digits for which a bar has room behind `local`, before a state, and behind `num`. It has 12 characters.
const LOCAL_DIGITS: usize = 6;

const SHARED_DIGITS: usize = 5;

const VALUE_DIGITS: usize = 8;

/// Writes the bar, if it has a column: its head, its bands, and what steps have left in the object's words.
pub fn write_bar<W: Write>(lanes: &[Lane], bar: &Bar, out: &mut W) -> io::Result<()> {
    let Some(column) = bar.column else {
        return Ok(());
    };
    let across = Across {
        left: column_at(lanes, column),
        width: BAR,
    };
    open_text(across.left, top_of(bar.first).saturating_sub(4), "row", out)?;
    let row = bar.row;
    write!(out, "row {row}")?;
    if row == ROOT {
        write_bytes(b", root", out)?;
    }
    close_text(out)?;
    for band in bar.bands.as_slice() {
        let class = life_class(band.life, bar.owner);
        let height = height_of(band.first, band.end);
        write_rect(across, top_of(band.first), height, class, out)?;
        if band.life == Life::Closed {
            open_text(
                across.left.saturating_add(PAD),
                text_of(band.first),
                "small pale",
                out,
            )?;
            write_bytes(b"closed", out)?;
            close_text(out)?;
        }
    }
    for note in bar.notes.as_slice() {
        write_note(across, note, out)?;
    }
    Ok(())
}

fn write_note<W: Write>(across: Across, note: &Note, out: &mut W) -> io::Result<()> {
    open_text(
        across.left.saturating_add(PAD),
        text_of(note.line),
        "small",
        out,
    )?;
    write_left(note.left, out)?;
    close_text(out)
}

/// Writes what a step has left in the object's word.
fn write_left<W: Write>(left: Left, out: &mut W) -> io::Result<()> {
    match left {
        Left::Local { word: NOBODY } => write_bytes(b"no owner", out),
        Left::Local { word } if is_immortal(word) => write_bytes(b"immortal", out),
        Left::Local { word } => {
            write_bytes(b"local ", out)?;
            write_cut_number(u64::from(local_count(word)), LOCAL_DIGITS, out)
        }
        Left::Shared { word } => write_shared(word, out),
        Left::Kind { word } => write_kind(word, out),
        Left::Marked => write_bytes(b"marked", out),
        Left::Unmarked => write_bytes(b"unmarked", out),
        Left::Locked { thread } => write!(out, "locked by {thread}"),
        Left::Unlocked => write_bytes(b"unlocked", out),
    }
}

/// Writes the shared count with its sign, and the state.
fn write_shared<W: Write>(word: u64, out: &mut W) -> io::Result<()> {
    let biased = word / ONE_REFERENCE;
    let (count, room) = if biased < BIAS {
        write_bytes(b"-", out)?;
        (BIAS - biased, SHARED_DIGITS - 1)
    } else {
        (biased - BIAS, SHARED_DIGITS)
    };
    let state = word % ONE_REFERENCE;
    let name: &[u8] = if state == DEFAULT {
        b" shared"
    } else if state == QUEUED {
        b" queued"
    } else if state == MERGED {
        b" merged"
    } else {
        b" unused"
    };
    write_cut_number(count, room, out)?;
    write_bytes(name, out)
}

fn write_kind<W: Write>(word: u64, out: &mut W) -> io::Result<()> {
    let kind = kind_number(word);
    let argument = kind_argument(word);
    if kind == NUM {
        write_bytes(b"num ", out)?;
        write_cut_number(u64::from(argument), VALUE_DIGITS, out)
    } else if kind == LIST {
        write!(out, "list {argument}")
    } else if kind == FILE {
        write_bytes(b"file", out)
    } else if kind == SOCK {
        write_bytes(b"sock", out)
    } else {
        write_bytes(b"none", out)
    }
}
