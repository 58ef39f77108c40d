//! How a refusal is mended. Where two paths meet in different states (C10), the mend fits what differs.

use crate::at_fault::variable_of;
use crate::differing::{locks_differ, slots_differ};
use crate::refused::Shown;
use crate::state_text::write_variable;
use crate::walking::reached;
use brc_check::{CheckCode, Path, Refused, Slot, State};
use brc_lang::{Kind, Variable, write_bytes};
use brc_pages::{Page, write_paragraph};
use std::io;
use std::io::Write;

/// In what a variable differs where two paths meet.
#[derive(Clone, Copy, PartialEq, Eq)]
enum Difference {
    /// It owns on one path, and is empty on the other.
    OwnedOrEmpty,
    /// It owns on one path, and borrows on the other.
    OwnedOrBorrowed,
    /// It owns on both, objects of two kinds.
    Kinds,
    /// It owns on both, and the kind isn't known on one.
    OneKind,
    /// It borrows on both, and only one path has asked for the kind.
    Asked,
    /// It borrows an item of the locked list on one path alone.
    Item,
    /// It borrows from the caller on one path alone.
    Lent,
}

/// In the lines below `vN` is the variable.
const OWNED_OR_EMPTY: &[&str] = &[
    "- Let the path on which vN owns give it up before the two meet: `drop vN`.",
    "- Or give each path its own end: a label for each state, as `goto one` and",
    "  `goto none` in place of one `goto error`.",
    "- In a loop: give up at the end of each pass what the pass has made.",
];

const OWNED_OR_BORROWED: &[&str] = &[
    "- Where vN borrows, make a reference of its own by `newref vN vN`",
    "  (Py_NewRef). Then it owns on both paths.",
];

const KINDS: &[&str] = &[
    "- No instruction forgets a kind, but the kind of what a `call` returns isn't",
    "  known. In a text that begins with `module 2`, let a function make the object",
    "  where its kind is known: `func zero`, `num v1 0 else @2`, `ret v1`, `fail`,",
    "  `end`, and `call vN zero else @L` in place of `num vN 0 else @L`.",
    "- Or give each path its own end.",
];

const ASKED: &[&str] = &[
    "- If `as` has asked on one path alone: ask about a second reference, which",
    "  `newref vM vN` makes, and drop that on each way. It keeps vN as it was,",
    "  in a loop too.",
];

const ITEM: &[&str] = &[
    "- vN can't give its item up, but `unlock` empties it: put one on each path",
    "  before the two meet.",
    "- Or empty vN where it borrows, by `none vN` and `drop vN`.",
    "- Or give each path its own end.",
];

const LENT: &[&str] = &[
    "- Leave vN as it is on both paths, and use another variable; or, where it",
    "  borrows, empty it by `none vN` and `drop vN`.",
];

const LOCKED: &[&str] = &[
    "- Lock on both paths before the two meet, or on neither.",
    "- Or give each path its own end.",
];

/// Writes how the refusal to which the path leads is mended: what its code's page says of the variable at fault or,
/// where two paths meet, what fits their states.
pub fn write_mend<W: Write>(
    page: &Page,
    shown: &Shown<'_>,
    refused: &Refused,
    out: &mut W,
) -> io::Result<()> {
    match &shown.path {
        Path::Reports(_) => match (letters_in(refused.code), variable_of(shown, refused)) {
            (Some(letters), Some(variable)) => write_about(page.mend, letters, variable, out),
            _ => write_paragraph(page.mend, out),
        },
        Path::Differ(exits, others) => {
            let first = reached(shown.function, exits.as_slice());
            let second = reached(shown.function, others.as_slice());
            match (first, second) {
                (Some((_, first)), Some((_, second))) => write_joining(&first, &second, out),
                _ => write_paragraph(page.mend, out),
            }
        }
    }
}

/// Returns the letters that stand for the variable at fault in the mend on the code's page.
fn letters_in(code: CheckCode) -> Option<&'static str> {
    match code {
        CheckCode::LeftOwned => Some("vN"),
        CheckCode::StillOwns => Some("vD"),
        CheckCode::LeftLocked | CheckCode::NotLocked => Some("vC"),
        _ => None,
    }
}

/// Writes how two paths that meet in these states are made to agree: once for each way in which variables differ.
fn write_joining<W: Write>(first: &State, second: &State, out: &mut W) -> io::Result<()> {
    for number in 0..Variable::COUNT {
        if let Some(difference) = difference_at(first, second, number) {
            if !is_above(first, second, number, difference) {
                write_difference(difference, Variable::new(number as u8), out)?;
            }
        }
    }
    if locks_differ(first, second) {
        write_paragraph(LOCKED, out)?;
    }
    Ok(())
}

/// Returns in what the variable of this number differs, if it does.
fn difference_at(first: &State, second: &State, number: usize) -> Option<Difference> {
    if number >= Variable::COUNT || !slots_differ(first.slots[number], second.slots[number]) {
        return None;
    }
    Some(difference_of(first.slots[number], second.slots[number]))
}

/// Returns whether a variable of a lower number differs in the same.
fn is_above(first: &State, second: &State, number: usize, difference: Difference) -> bool {
    for above in 0..number {
        if difference_at(first, second, above) == Some(difference) {
            return true;
        }
    }
    false
}

fn difference_of(one: Slot, other: Slot) -> Difference {
    match (one, other) {
        (Slot::Owned(Kind::Any), Slot::Owned(_)) | (Slot::Owned(_), Slot::Owned(Kind::Any)) => {
            Difference::OneKind
        }
        (Slot::Owned(_), Slot::Owned(_)) => Difference::Kinds,
        (Slot::Owned(_), Slot::Empty) | (Slot::Empty, Slot::Owned(_)) => Difference::OwnedOrEmpty,
        (Slot::Owned(_), _) | (_, Slot::Owned(_)) => Difference::OwnedOrBorrowed,
        (Slot::Caller(_), Slot::Caller(_)) | (Slot::Locked(_), Slot::Locked(_)) => {
            Difference::Asked
        }
        (Slot::Locked(_), _) | (_, Slot::Locked(_)) => Difference::Item,
        _ => Difference::Lent,
    }
}

fn write_difference<W: Write>(
    difference: Difference,
    variable: Variable,
    out: &mut W,
) -> io::Result<()> {
    match difference {
        Difference::OwnedOrEmpty => write_about(OWNED_OR_EMPTY, NAME, variable, out),
        Difference::OwnedOrBorrowed => write_about(OWNED_OR_BORROWED, NAME, variable, out),
        Difference::Kinds => write_about(KINDS, NAME, variable, out),
        Difference::OneKind => {
            write_about(ASKED, NAME, variable, out)?;
            write_about(KINDS, NAME, variable, out)
        }
        Difference::Asked => write_about(ASKED, NAME, variable, out),
        Difference::Item => write_about(ITEM, NAME, variable, out),
        Difference::Lent => write_about(LENT, NAME, variable, out),
    }
}

/// The letters that stand for the variable in the lines of a difference.
const NAME: &str = "vN";

/// Writes the lines, in which the letters stand for the variable.
fn write_about<W: Write>(
    lines: &[&str],
    letters: &str,
    variable: Variable,
    out: &mut W,
) -> io::Result<()> {
    for line in lines {
        write_bytes(b"  ", out)?;
        write_line_about(line.as_bytes(), letters.as_bytes(), variable, out)?;
        write_bytes(b"\n", out)?;
    }
    Ok(())
}

fn write_line_about<W: Write>(
    line: &[u8],
    letters: &[u8],
    variable: Variable,
    out: &mut W,
) -> io::Result<()> {
    let mut from = 0usize;
    for at in 0..line.len() {
        if at >= from && line[at..].starts_with(letters) {
            write_bytes(&line[from..at], out)?;
            write_variable(variable, out)?;
            from = at.saturating_add(letters.len());
        }
    }
    write_bytes(&line[from.min(line.len())..], out)
}
