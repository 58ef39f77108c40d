//! The explanation of a schedule's text.

use crate::above::{Situation, find_line};
use crate::advice::{write_hidden, write_wanted};
use crate::forms::Operand;
use crate::line_fault::{LineFault, NAME, Wanted, fault, fits, misfit};
use crate::missing::write_counted;
use crate::unreadable::write_line;
use crate::visible::{Span, behind, part, whole};
use crate::words::{empty_word, word_at};
use brc_lang::{
    FaultCode, ReadFault, Version, is_name, is_word, number_between, write_bytes, write_number,
    write_pieces,
};
use brc_pages::{Topic, page_of, write_gap, write_heading, write_in};
use brc_report::{Paint, Role};
use std::io;
use std::io::Write;

/// The most workers.
const MOST_WORKERS: u32 = 32;

/// The most rows of a worker.
const MOST_ROWS: u32 = 1024;

/// The most calls of a worker, and the most steps of a line.
const MOST_TIMES: u32 = 1_000_000;

/// The last row of the largest world.
const LAST_ROW: u32 = 33_809;

/// The lines that each schedule has, in their order, and what they mean.
const FIRST_LINES: &[(&str, &str)] = &[
    ("schedule 1", "the first line"),
    ("workers N", "1 to 32 workers"),
    ("rows N", "each has rows for 1 to 1024 objects"),
    (
        "call T NAME TIMES",
        "worker T calls NAME, TIMES times; a line for each worker",
    ),
];

/// The lines below them.
const FURTHER_LINES: &[(&str, &str)] = &[
    ("step T ok N", "N steps of thread T; main is 0"),
    ("step T fault N", "the same, and host calls among them fail"),
    (
        "claim T ROW",
        "thread T takes the row out of its queue, if it is in there",
    ),
    ("stop T", "worker T stops, and makes no further call"),
];

/// The width of the column with the lines.
const LINE_WIDTH: usize = 17;

const WORKERS: Wanted = Wanted::Said("`workers N`, the number of workers, 1 to 32");

const ROWS: Wanted = Wanted::Said("`rows N`, how many rows each worker has, 1 to 1024");

const CALL: Wanted = Wanted::Said("`call T NAME TIMES`: a line for each worker T, in their order");

const STEPS: Wanted = Wanted::Said("`step T ok N`, `step T fault N`, `claim T ROW` or `stop T`");

/// What belongs into a line, if the lines above it have no fault.
#[derive(Clone, Copy)]
enum Expected {
    Workers,
    Rows,
    /// The call of this worker.
    Call(u32),
    Steps,
}

/// A word behind the first one of a line.
#[derive(Clone, Copy)]
enum PlanWord {
    /// A number from the first to the second.
    Number(u32, u32),
    /// The number of this worker.
    Turn(u32),
    Name,
    Choice,
}

/// Writes why `brc_schedule::read_schedule` refuses the text for the fault: the line, a mark under the word, and what
/// would be read there; or how much the schedule has, if there is no fault. Below that are the forms of all lines. It
/// returns the errors of `brc_lang::write_bytes`.
pub fn explain_schedule<W: Write>(
    text: &[u8],
    fault: Option<ReadFault>,
    paint: Paint,
    out: &mut W,
) -> io::Result<()> {
    match fault {
        Some(fault) => write_fault(text, fault, paint, out)?,
        None => write_sizes(text, out)?,
    }
    write_heading("The lines of a schedule, in their order", paint, out)?;
    write_forms(FIRST_LINES, out)?;
    write_bytes(b"  and then any number of these, in any order:\n", out)?;
    write_forms(FURTHER_LINES, out)?;
    write_bytes(
        b"\nMore: brc step MODULE SCHEDULE --trace shows what each step does\n",
        out,
    )
}

fn write_forms<W: Write>(forms: &[(&str, &str)], out: &mut W) -> io::Result<()> {
    for (line, meaning) in forms {
        write_pieces(&[b"  ", line.as_bytes()], out)?;
        write_gap(line.len(), LINE_WIDTH, out)?;
        write_pieces(&[meaning.as_bytes(), b"\n"], out)?;
    }
    Ok(())
}

/// Writes how many workers, rows and lines the schedule has.
fn write_sizes<W: Write>(text: &[u8], out: &mut W) -> io::Result<()> {
    let workers = size_in(text, 2);
    let mut lines: u64 = 0;
    for byte in text {
        if *byte == b'\n' {
            lines = lines.saturating_add(1);
        }
    }
    let further = lines.saturating_sub(3).saturating_sub(u64::from(workers));
    write_bytes(b"The schedule can be read: ", out)?;
    write_counted(u64::from(workers), "worker", out)?;
    write_bytes(b" of ", out)?;
    write_counted(u64::from(size_in(text, 3)), "row", out)?;
    write_bytes(b", and below the calls\n", out)?;
    write_counted(further, "line", out)?;
    write_bytes(b" of steps, claims and stops.\n", out)
}

/// Returns the number of the line `workers N` or `rows N`, or 0 if the line has none.
fn size_in(text: &[u8], number: u64) -> u32 {
    let line = find_line(text, number).line;
    let size = part(line, word_at(line, 1).unwrap_or(behind(line)));
    number_between(1, MOST_ROWS, size).unwrap_or(0)
}

fn write_fault<W: Write>(
    text: &[u8],
    fault: ReadFault,
    paint: Paint,
    out: &mut W,
) -> io::Result<()> {
    let page = page_of(Topic::Read(fault.code));
    write_bytes(b"Line ", out)?;
    write_number(fault.line, out)?;
    write_bytes(b" of the schedule can't be read. ", out)?;
    write_in(Role::Code, &[page.code.as_bytes()], paint, out)?;
    write_pieces(&[b": ", page.title.as_bytes(), b"\n\n"], out)?;
    let found = find_line(text, fault.line);
    let workers = size_in(text, 2);
    let expected = expected_in(fault.line, workers);
    match fault.code {
        FaultCode::FirstLine => write_first_line(&found, paint, out),
        FaultCode::CutOff => write_cut_off(&found, fault.line, expected, paint, out),
        _ => write_words(&found, fault.line, expected, workers, paint, out),
    }
}

/// Returns what belongs into the line of this number, of a schedule of so many workers.
fn expected_in(number: u64, workers: u32) -> Expected {
    if number <= 2 {
        return Expected::Workers;
    }
    if number == 3 {
        return Expected::Rows;
    }
    match u32::try_from(number.saturating_sub(3)) {
        Ok(worker) if worker <= workers => Expected::Call(worker),
        _ => Expected::Steps,
    }
}

fn write_first_line<W: Write>(found: &Situation<'_>, paint: Paint, out: &mut W) -> io::Result<()> {
    let (marked, wrong) = first_line_fault(found);
    write_line(found, 1, marked, paint, out)?;
    write_pieces(&[wrong.as_bytes(), b"\n"], out)?;
    write_bytes(b"Expected: the line `schedule 1`.\n", out)
}

/// Returns the part of the first line that is at fault, and what is wrong about it.
fn first_line_fault(found: &Situation<'_>) -> (Span, &'static str) {
    let line = found.line;
    let first = word_at(line, 0).unwrap_or(whole(line));
    if !found.is_there {
        (whole(line), "The text is empty.")
    } else if is_word(line, b"schedule 1") {
        (behind(line), "No line feed ends the line.")
    } else if is_word(line, b"schedule 1\r") {
        (
            Span { from: 10, to: 11 },
            "A carriage return is before the line feed, which ends a line alone.",
        )
    } else if line.starts_with(b"\xef\xbb\xbf") {
        (
            Span { from: 0, to: 3 },
            "A byte order mark is before the text, which has ASCII alone.",
        )
    } else if is_word(part(line, first), b"module") {
        (
            whole(line),
            "This is a module, which `brc explain FILE` explains.",
        )
    } else {
        (whole(line), "The first line is another.")
    }
}

fn write_cut_off<W: Write>(
    found: &Situation<'_>,
    number: u64,
    expected: Expected,
    paint: Paint,
    out: &mut W,
) -> io::Result<()> {
    write_line(found, number, behind(found.line), paint, out)?;
    if found.is_there {
        return write_bytes(
            b"The text ends here, and no line feed ends the line.\n\
            Expected: a line feed.\n",
            out,
        );
    }
    match expected {
        Expected::Workers => write_missing(
            "The text ends here, and has no workers.\n",
            WORKERS,
            out,
        ),
        Expected::Rows => write_missing("The text ends here, and has no rows.\n", ROWS, out),
        Expected::Call(worker) => {
            write_bytes(b"The text ends here, and worker ", out)?;
            write_number(u64::from(worker), out)?;
            write_missing(" has no call.\n", CALL, out)
        }
        Expected::Steps => Ok(()),
    }
}

fn write_missing<W: Write>(wrong: &str, wanted: Wanted, out: &mut W) -> io::Result<()> {
    write_bytes(wrong.as_bytes(), out)?;
    write_wanted(Version::One, wanted, out)
}

fn write_words<W: Write>(
    found: &Situation<'_>,
    number: u64,
    expected: Expected,
    workers: u32,
    paint: Paint,
    out: &mut W,
) -> io::Result<()> {
    let line = found.line;
    let fault = match expected {
        Expected::Workers => named_fault(
            line,
            b"workers",
            &[PlanWord::Number(1, MOST_WORKERS)],
            WORKERS,
        ),
        Expected::Rows => named_fault(line, b"rows", &[PlanWord::Number(1, MOST_ROWS)], ROWS),
        Expected::Call(worker) => named_fault(
            line,
            b"call",
            &[
                PlanWord::Turn(worker),
                PlanWord::Name,
                PlanWord::Number(1, MOST_TIMES),
            ],
            CALL,
        ),
        Expected::Steps => steps_fault(line, workers),
    };
    write_line(found, number, fault.span, paint, out)?;
    write_pieces(&[fault.wrong.as_bytes(), b"\n"], out)?;
    write_hidden(part(line, fault.span), out)?;
    write_wanted(Version::One, fault.wanted, out)?;
    match expected {
        Expected::Call(worker) => {
            write_bytes(b"This is the line of worker ", out)?;
            write_number(u64::from(worker), out)?;
            write_bytes(b".\n", out)
        }
        Expected::Workers | Expected::Rows | Expected::Steps => Ok(()),
    }
}

/// Returns what is wrong with a line that belongs below the calls.
fn steps_fault(line: &[u8], workers: u32) -> LineFault {
    let thread = PlanWord::Number(0, workers);
    let word = part(line, word_at(line, 0).unwrap_or(whole(line)));
    if is_word(word, b"claim") {
        return words_fault(line, &[thread, PlanWord::Number(0, LAST_ROW)], STEPS);
    }
    if is_word(word, b"stop") {
        return words_fault(line, &[thread], STEPS);
    }
    named_fault(
        line,
        b"step",
        &[thread, PlanWord::Choice, PlanWord::Number(1, MOST_TIMES)],
        STEPS,
    )
}

/// Returns what is wrong with a line that begins with this word and has these words behind it.
fn named_fault(line: &[u8], name: &[u8], words: &[PlanWord], wanted: Wanted) -> LineFault {
    let first = word_at(line, 0).unwrap_or(whole(line));
    let word = part(line, first);
    if is_word(word, name) {
        return words_fault(line, words, wanted);
    }
    let wrong = if line.is_empty() {
        "The line is empty. A text has no empty line."
    } else if word.is_empty() {
        "The line begins with a space."
    } else {
        misplaced(word)
    };
    fault(first, wrong, wanted)
}

/// Returns what is wrong with a line that begins with this word, which isn't read here.
fn misplaced(word: &[u8]) -> &'static str {
    let is_known = is_word(word, b"workers")
        || is_word(word, b"rows")
        || is_word(word, b"call")
        || is_word(word, b"step")
        || is_word(word, b"claim")
        || is_word(word, b"stop");
    if is_known {
        "Such a line isn't read here."
    } else {
        "No line of a schedule begins so."
    }
}

/// Returns what is wrong with the words behind the first one: first with their number, and then with the words from
/// left to right.
fn words_fault(line: &[u8], words: &[PlanWord], wanted: Wanted) -> LineFault {
    let count = words.len();
    if word_at(line, count).is_none() {
        return fault(behind(line), "A word is missing here.", wanted);
    }
    if let Some(extra) = word_at(line, count.saturating_add(1)) {
        return too_many(line, extra, wanted);
    }
    for (at, word) in words.iter().enumerate() {
        let span = word_at(line, at + 1).unwrap_or(behind(line));
        if let Some(found) = word_fault(*word, part(line, span), span) {
            return found;
        }
    }
    fault(whole(line), "The line isn't one of a schedule.", wanted)
}

/// Returns what is wrong with a line of too many words, of which `extra` is the first one behind its end.
fn too_many(line: &[u8], extra: Span, wanted: Wanted) -> LineFault {
    match empty_word(line) {
        Some(empty) if empty.from < line.len() => {
            let wrong = "There is a space too many: an empty word is between two spaces.";
            fault(empty, wrong, wanted)
        }
        Some(empty) => fault(empty, "There is a space at the end of the line.", wanted),
        None => fault(extra, "Here the line has a word too many.", wanted),
    }
}

/// Returns what is wrong with a word that doesn't fit in its place.
fn word_fault(word: PlanWord, text: &[u8], span: Span) -> Option<LineFault> {
    let found = match word {
        PlanWord::Number(low, high) => {
            let operand = Operand::Number(low, high);
            if fits(text, operand) {
                return None;
            }
            fault(span, misfit(text, operand), Wanted::Operand(operand))
        }
        PlanWord::Turn(worker) => {
            if number_between(worker, worker, text).is_ok() {
                return None;
            }
            let wanted = Wanted::Said("the number of the worker whose call is next");
            fault(span, "This isn't the next worker.", wanted)
        }
        PlanWord::Name => {
            if is_name(text) {
                return None;
            }
            fault(span, "This is no name of a function.", NAME)
        }
        PlanWord::Choice => {
            if is_word(text, b"ok") || is_word(text, b"fault") {
                return None;
            }
            let wanted = Wanted::Said("`ok`, or `fault` if host calls among the steps fail");
            fault(span, "This isn't `ok` or `fault`.", wanted)
        }
    };
    Some(found)
}
