//! The word at fault of a text that can't be read.

use crate::above::{Situation, wrong_target};
use crate::line_fault::{LineFault, heading_fault, instruction_fault};
use crate::visible::{Span, behind, part, whole};
use crate::words::word_at;
use brc_lang::{FaultCode, ReadFault, is_word};

/// A place in a text.
#[derive(Clone, Copy)]
pub struct Place {
    /// The line, counted from 1.
    pub line: u64,
    /// The column, counted from 1. A byte takes one.
    pub column: u64,
}

/// The part of a text that is at fault.
#[derive(Clone, Copy)]
pub struct Mark {
    /// The number of its line, counted from 1.
    pub line: u64,
    pub span: Span,
}

impl Mark {
    /// Returns where it begins.
    pub fn place(self) -> Place {
        Place {
            line: self.line,
            column: (self.span.from as u64).saturating_add(1),
        }
    }
}

/// Returns the part that is at fault. A target (L4) isn't on the line that the fault names, which is that of `end`.
pub fn mark_of(found: &Situation<'_>, fault: &ReadFault) -> Mark {
    let line = found.line;
    let span = match fault.code {
        FaultCode::FirstLine => first_line_fault(found).0,
        FaultCode::UnknownWord | FaultCode::Number => words_fault(found).span,
        FaultCode::Target => {
            if let Some(wrong) = wrong_target(found.body) {
                return Mark {
                    line: found.body_line.saturating_add(wrong.at as u64),
                    span: wrong.span,
                };
            }
            whole(line)
        }
        FaultCode::NameTwice => word_at(line, 1).unwrap_or(whole(line)),
        FaultCode::Callee | FaultCode::StaticList => word_at(line, 2).unwrap_or(whole(line)),
        FaultCode::CutOff => behind(line),
        FaultCode::OverLimit | FaultCode::NoMemory => whole(line),
    };
    Mark {
        line: fault.line,
        span,
    }
}

/// Returns what is wrong with the words of the line.
pub fn words_fault(found: &Situation<'_>) -> LineFault {
    if found.inside {
        instruction_fault(found.version, found.line)
    } else {
        heading_fault(found.version, found.below_function, found.line)
    }
}

/// Returns the part of the first line that is at fault, and what is wrong about it.
pub fn first_line_fault(found: &Situation<'_>) -> (Span, &'static str) {
    let line = found.line;
    let first = word_at(line, 0).unwrap_or(whole(line));
    if !found.is_there {
        (whole(line), "The text is empty.")
    } else if is_word(line, b"module 1")
        || is_word(line, b"module 2")
        || is_word(line, b"module 3")
    {
        (behind(line), "No line feed ends the line.")
    } else if is_word(line, b"module 1\r")
        || is_word(line, b"module 2\r")
        || is_word(line, b"module 3\r")
    {
        let end = Span { from: 8, to: 9 };
        (
            end,
            "A carriage return is before the line feed, which ends a line alone.",
        )
    } else if line.starts_with(b"\xef\xbb\xbf") {
        let mark = Span { from: 0, to: 3 };
        (
            mark,
            "A byte order mark is before the text, which has ASCII alone.",
        )
    } else if is_word(part(line, first), b"module") {
        let version = Span {
            from: first.to.saturating_add(1),
            to: line.len(),
        };
        (
            version,
            "The line is another: behind the word `module` is the version, 1, 2 or 3.",
        )
    } else if is_word(part(line, first), b"schedule") {
        (
            whole(line),
            "This is a schedule, which `brc explain --schedule-file FILE` explains.",
        )
    } else {
        (whole(line), "The first line is another.")
    }
}
