//! What the words of objects and threads say.

ghost use Rattle.std.specs.Prelude.{◌≡◌, ◌≤◌, ◌++◌, OnOk};
ghost use Rattle.brc_word.specs.Words.{half, owner_part, local_part, next_part};
ghost use Rattle.brc_trace.specs.WordTexts.{row_text, local_text, count_text, phase_text, shared_text, next_text, dying_text};
ghost use Rattle.brc_trace.specs.WordTexts.{gate_text, kind_text, cell_text, status_text};
ghost use Rattle.brc_trace.specs.WordTexts.{value_text, subject_text, left_text, change_text, word_text};

use crate::line::Line;
use crate::marks::show_on_marks;
use brc_model::{Address, Duty, Layout};
use brc_word::values::{
    DEFAULT, EMPTY, FILE, FREE, LEAVING, LIST, MERGED, NONE, NUM, ONE_REFERENCE, QUEUED, RUNNING,
    SOCK,
};
use brc_word::{is_closed, is_immortal, kind_argument, kind_number, local_count, next_of_dying};
use std::alloc::AllocError;

/// The number of values of half a word.
const HALF: u64 = 1 << 32;

/// The biased count of the shared count 0.
const BIAS: u64 = 1 << 40;

/// Adds the word at the address: what the step of the duty found there, and what it left if that is another.
pub fn show_word(
    layout: Layout,
    duty: &Duty,
    address: Address,
    found: u64,
    left: u64,
    line: &mut Line,
) -> Result<(), AllocError>
    ensures { OnOk result (line.new ≡ line.old ++ word_text layout duty.now address found left) }
{
    match address {
        Address::Marks { thread, word } => {
            show_on_marks(layout, duty, thread, word, found, left, line)
        }
        _ => {
            show_subject(address, line)?;
            show_value(address, found, line)?;
            show_change(address, found, left, line)
        }
    }
}

fn show_subject(address: Address, line: &mut Line) -> Result<(), AllocError>
    ensures { OnOk result (line.new ≡ line.old ++ subject_text address) }
{
    match address {
        Address::Local { row } => show_of_row(u64::from(row), " local: ", line),
        Address::Shared { row } => show_of_row(u64::from(row), " shared: ", line),
        Address::Gate { row } => show_of_row(u64::from(row), " gate: ", line),
        Address::KindOf { row } => show_of_row(u64::from(row), " kind: ", line),
        Address::Cell { row, cell } => {
            show_of_row(u64::from(row), " cell ", line)?;
            line.number(u64::from(cell))?;
            line.text(": ")
        }
        Address::Marks { .. } | Address::Field { .. } | Address::Resource { .. } => Ok(()),
        Address::ThreadWord { thread } => {
            line.text("thread ")?;
            line.number(u64::from(thread))?;
            line.text(": ")
        }
    }
}

fn show_value(address: Address, word: u64, line: &mut Line) -> Result<(), AllocError>
    ensures { OnOk result (line.new ≡ line.old ++ value_text address word) }
{
    match address {
        Address::Local { .. } => show_local(word, line),
        Address::Shared { .. } => show_shared(word, line),
        Address::Gate { .. } => show_gate(word, line),
        Address::KindOf { .. } => show_kind(word, line),
        Address::Cell { .. } => show_cell(word, line),
        Address::Marks { .. } | Address::Field { .. } | Address::Resource { .. } => Ok(()),
        Address::ThreadWord { .. } => show_status(word, line),
    }
}

fn show_change(address: Address, found: u64, left: u64, line: &mut Line) -> Result<(), AllocError>
    ensures { OnOk result (line.new ≡ line.old ++ change_text address found left) }
{
    if left == found {
        return Ok(());
    }
    line.text(" -> ")?;
    show_left(address, found, left, line)
}

/// Adds the word that a step left. Of a local word with the same owner it adds the count alone.
fn show_left(address: Address, found: u64, left: u64, line: &mut Line) -> Result<(), AllocError>
    ensures { OnOk result (line.new ≡ line.old ++ left_text address found left) }
{
    match address {
        Address::Local { .. } => {
            if owner_part(left) == owner_part(found) {
                line.number(u64::from(local_count(left)))
            } else {
                show_local(left, line)
            }
        }
        _ => show_value(address, left, line),
    }
}

/// Adds the row's number, as in `row 5`.
pub fn show_row(row: u64, line: &mut Line) -> Result<(), AllocError>
    ensures { OnOk result (line.new ≡ line.old ++ row_text row) }
{
    line.text("row ")?;
    line.number(row)
}

/// Adds the row's number, and then the text.
pub fn show_of_row(row: u64, text: &str, line: &mut Line) -> Result<(), AllocError>
    ensures { OnOk result (line.new ≡ line.old ++ (row_text row ++ text.now)) }
{
    show_row(row, line)?;
    line.text(text)
}

/// Returns 0 if nobody owns the object, and otherwise 1 more than the owner's number.
pub fn owner_part(word: u64) -> u64
    ensures { result ≡ owner_part word }
{
    word / HALF
}

fn show_local(word: u64, line: &mut Line) -> Result<(), AllocError>
    ensures { OnOk result (line.new ≡ line.old ++ local_text word) }
{
    let owner = owner_part(word);
    if owner == 0 {
        line.text("nobody")
    } else if is_immortal(word) {
        line.text("immortal")
    } else {
        line.text("owner ")?;
        line.number(owner - 1)?;
        line.text(", ")?;
        line.number(u64::from(local_count(word)))
    }
}

fn show_shared(word: u64, line: &mut Line) -> Result<(), AllocError>
    ensures { OnOk result (line.new ≡ line.old ++ shared_text word) }
{
    show_count(word / ONE_REFERENCE, line)?;
    line.text(phase_name(word % ONE_REFERENCE))
}

/// Adds the shared count with its sign. The biased one is 2^40 more.
fn show_count(biased: u64, line: &mut Line) -> Result<(), AllocError>
    ensures { OnOk result (line.new ≡ line.old ++ count_text biased) }
{
    if biased < BIAS {
        line.text("-")?;
        line.number(BIAS - biased)
    } else {
        line.number(biased - BIAS)
    }
}

fn phase_name(phase: u64) -> &'static str
    ensures { result.now ≡ phase_text phase }
{
    if phase == DEFAULT {
        " default"
    } else if phase == QUEUED {
        " queued"
    } else if phase == MERGED {
        " merged"
    } else {
        " unused"
    }
}

fn show_gate(word: u64, line: &mut Line) -> Result<(), AllocError>
    ensures { OnOk result (line.new ≡ line.old ++ gate_text word) }
{
    if is_closed(word) {
        line.text("closed")
    } else if word == FREE {
        line.text("free")
    } else if word < HALF {
        line.text("locked by ")?;
        line.number(word.saturating_sub(2))
    } else {
        show_dying(word, line)
    }
}

fn show_dying(word: u64, line: &mut Line) -> Result<(), AllocError>
    requires { half ≤ word }
    ensures { OnOk result (line.new ≡ line.old ++ dying_text word) }
{
    line.text("dying by ")?;
    line.number(word / HALF - 1)?;
    show_next(word, line)
}

/// Adds what follows in the chain of the thread that deallocates the object with this gate.
fn show_next(word: u64, line: &mut Line) -> Result<(), AllocError>
    ensures { OnOk result (line.new ≡ line.old ++ next_text (next_part word)) }
{
    let next = next_of_dying(word);
    if next == 0 {
        return line.text(", last");
    }
    line.text(", then row ")?;
    line.number(u64::from(next - 1))
}

fn show_kind(word: u64, line: &mut Line) -> Result<(), AllocError>
    ensures { OnOk result (line.new ≡ line.old ++ kind_text word) }
{
    let kind = kind_number(word);
    if kind == NONE {
        line.text("none")
    } else if kind == NUM {
        line.text("num ")?;
        line.number(u64::from(kind_argument(word)))
    } else if kind == LIST {
        line.text("list ")?;
        line.number(u64::from(kind_argument(word)))
    } else if kind == FILE {
        line.text("file")
    } else if kind == SOCK {
        line.text("sock")
    } else {
        line.text("unborn")
    }
}

fn show_cell(word: u64, line: &mut Line) -> Result<(), AllocError>
    ensures { OnOk result (line.new ≡ line.old ++ cell_text word) }
{
    if word == EMPTY {
        return line.text("empty");
    }
    line.text("row ")?;
    line.number(word - 1)
}

fn show_status(word: u64, line: &mut Line) -> Result<(), AllocError>
    ensures { OnOk result (line.new ≡ line.old ++ status_text word) }
{
    line.text(if word == RUNNING {
        "running"
    } else if word == LEAVING {
        "leaving"
    } else {
        "gone"
    })
}
