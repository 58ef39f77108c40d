//! What a step found and left in a mark word.

ghost use Rattle.std.specs.Prelude.{◌≡◌, ◌≤◌, ◌+◌, ◌*◌, ◌++◌, if◌then◌else◌, [], codes, OnOk};
ghost use Rattle.brc_word.specs.Words.{marks_of_word};
ghost use Rattle.brc_model.specs.Layout.{row_at};
ghost use Rattle.brc_trace.specs.WordTexts.{row_text, marked_text, taken_text, rows_set, rows_or_none, marks_text, on_marks};

use crate::line::Line;
use crate::word::{show_of_row, show_row};
use brc_effect::rows::FRONT_ROWS;
use brc_model::{Duty, Layout};
use brc_word::values::SET;
use brc_word::{MARKS_OF_WORD, mark_at};
use std::alloc::AllocError;

/// Adds what the step of the duty found and left in the thread's mark word with the number `word`: the mark that it
/// sets or takes, or the whole word if it loads it.
pub fn show_on_marks(
    layout: Layout,
    duty: &Duty,
    thread: u32,
    word: u32,
    found: u64,
    left: u64,
    line: &mut Line,
) -> Result<(), AllocError>
    ensures { OnOk result (line.new ≡ line.old ++ on_marks layout duty.now thread word found left) }
{
    match *duty {
        Duty::SetMark { row } => show_marked(u64::from(row), found, left, line),
        Duty::TakeMark { row } | Duty::ClaimMark { row } => {
            show_taken(u64::from(row), found, left, line)
        }
        Duty::TakeFound { word, marks } => {
            let row = row_of_mark(layout, thread, word, marks.trailing_zeros());
            show_taken(row, found, left, line)
        }
        _ => show_marks(layout, thread, word, found, line),
    }
}

/// Adds the row's mark before and after a step that sets it. It was set if the step has left the word as it was.
fn show_marked(row: u64, found: u64, left: u64, line: &mut Line) -> Result<(), AllocError>
    ensures { OnOk result (line.new ≡ line.old ++ marked_text row found left) }
{
    let text = if left == found {
        " mark: set"
    } else {
        " mark: clear -> set"
    };
    show_of_row(row, text, line)
}

/// Adds the row's mark before and after a step that takes it. It was set if the step has changed the word.
fn show_taken(row: u64, found: u64, left: u64, line: &mut Line) -> Result<(), AllocError>
    ensures { OnOk result (line.new ≡ line.old ++ taken_text row found left) }
{
    let text = if left == found {
        " mark: clear"
    } else {
        " mark: set -> clear"
    };
    show_of_row(row, text, line)
}

/// Adds the thread's mark word with the number `word`, by the rows whose marks are set.
#[tactic(auto, unfolding(crate::specs::WordTexts::marks_text))]
fn show_marks(
    layout: Layout,
    thread: u32,
    word: u32,
    found: u64,
    line: &mut Line,
) -> Result<(), AllocError>
    ensures { OnOk result (line.new ≡ line.old ++ marks_text layout thread word found) }
{
    line.text("thread ")?;
    line.number(u64::from(thread))?;
    line.text(" marks ")?;
    line.number(u64::from(word))?;
    line.text(": ")?;
    show_rows(layout, thread, word, found, line)
}

/// Adds the rows whose marks are set in the thread's mark word, by rising row, or `none`.
fn show_rows(
    layout: Layout,
    thread: u32,
    word: u32,
    found: u64,
    line: &mut Line,
) -> Result<(), AllocError>
    ensures { OnOk result (line.new ≡ line.old ++ rows_or_none (rows_set layout thread word found marks_of_word)) }
{
    let mut some = false;
    for bit in 0..MARKS_OF_WORD {
        if mark_at(found, bit) == SET {
            show_next(row_of_mark(layout, thread, word, bit), some, line)?;
            some = true;
        }
    }
    if some {
        return Ok(());
    }
    line.text("none")
}

/// Adds the row, behind a comma if there is a row before it.
fn show_next(row: u64, some: bool, line: &mut Line) -> Result<(), AllocError>
    ensures { OnOk result (line.new ≡ line.old ++ ((if some then codes ", " else []) ++ row_text row)) }
{
    line.text(if some { ", " } else { "" })?;
    show_row(row, line)
}

/// Returns the row whose mark is in this bit of the thread's mark word with the number `word`.
pub fn row_of_mark(layout: Layout, thread: u32, word: u32, bit: u32) -> u64
    requires { bit ≤ marks_of_word }
    ensures { result ≡ row_at layout thread (marks_of_word * word + bit) }
{
    let index = u64::from(MARKS_OF_WORD) * u64::from(word) + u64::from(bit);
    match thread {
        0 if index < u64::from(FRONT_ROWS) => index,
        0 => u64::from(layout.workers) * u64::from(layout.rows) + index,
        _ => u64::from(FRONT_ROWS) + u64::from(thread - 1) * u64::from(layout.rows) + index,
    }
}
