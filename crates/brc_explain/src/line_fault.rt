//! Which word of a line is at fault (L2 and L3). The reader looks at the first word, the number of words and the word
//! `else` first, and then at the words from left to right; so does this search.

use crate::forms::{CALL, CELLS, Form, LONG_CELLS, Operand, form_of};
use crate::visible::{Span, behind, part, whole};
use crate::words::{empty_word, word_at, word_count};
use brc_lang::{Version, is_name, is_word, number_between};

/// What is wrong with a line, and what would be read there.
#[derive(Clone, Copy)]
pub struct LineFault {
    /// The part of the line that is at fault.
    pub span: Span,
    /// What is wrong with it.
    pub wrong: &'static str,
    /// What would be read there.
    pub wanted: Wanted,
    /// The form of the line's instruction, if its name is one.
    pub form: Option<Form>,
}

/// What would be read at a place.
#[derive(Clone, Copy, PartialEq, Eq)]
pub enum Wanted {
    /// The name of an instruction.
    Name,
    /// What the sentence says.
    Said(&'static str),
    Operand(Operand),
}

const HEADING: Wanted = Wanted::Said(
    "`func NAME`, as in `func f`, and the function's instructions below it",
);

const HEADING_OR_STATIC: Wanted = Wanted::Said(
    "`static K ..`, as in `static 5 6`, or `func NAME`, as in `func f`",
);

/// A name of a function.
pub const NAME: Wanted = Wanted::Said(
    "a name: a letter a to z, and up to 15 more of a to z, 0 to 9 and _",
);

const PASSING: Wanted = Wanted::Said("`borrow` or `steal`, and the kind of the parameter");

const PARAMETER_KIND: Wanted = Wanted::Said("a kind: none, num, list, file, sock or any");

/// A number of a static list.
const STATIC_NUMBER: Operand = Operand::Number(0, u32::MAX);

/// The most numbers of a static list.
const MOST_NUMBERS: usize = 64;

/// The greatest number of a function's parameters.
const MOST_PARAMETERS: usize = 4;

/// Returns a fault without the form of an instruction.
pub fn fault(span: Span, wrong: &'static str, wanted: Wanted) -> LineFault {
    LineFault {
        span,
        wrong,
        wanted,
        form: None,
    }
}

/// Returns what is wrong with a line outside a function; `below_function` says whether one is above the line.
pub fn heading_fault(version: Version, below_function: bool, line: &[u8]) -> LineFault {
    let may_be_static = version == Version::Three && !below_function;
    let wanted = if may_be_static {
        HEADING_OR_STATIC
    } else {
        HEADING
    };
    let Some(first) = word_at(line, 0) else {
        return fault(whole(line), "The line is empty.", wanted);
    };
    let word = part(line, first);
    if is_word(word, b"static") && may_be_static {
        return static_fault(line);
    }
    if !is_word(word, b"func") {
        return fault(first, outside(version, word), wanted);
    }
    let Some(name) = word_at(line, 1) else {
        return fault(behind(line), "The function has no name.", NAME);
    };
    match version {
        Version::One => name_fault(line, name),
        Version::Two | Version::Three if is_name(part(line, name)) => parameter_fault(line),
        Version::Two | Version::Three => fault(name, "This is no name of a function.", NAME),
    }
}

/// Returns what is wrong with the words behind `static`: 1 to 64 numbers.
fn static_fault(line: &[u8]) -> LineFault {
    if word_at(line, 1).is_none() {
        let wrong = "The static list has no number.";
        return fault(behind(line), wrong, Wanted::Operand(STATIC_NUMBER));
    }
    if let Some(extra) = word_at(line, 1 + MOST_NUMBERS) {
        return fault(
            extra,
            "This word is one too many: a static list has 64 numbers at most.",
            Wanted::Said("the end of the line, behind the last number"),
        );
    }
    for at in 1..1 + MOST_NUMBERS {
        let Some(span) = word_at(line, at) else {
            break;
        };
        let word = part(line, span);
        if !fits(word, STATIC_NUMBER) {
            return fault(
                span,
                misfit(word, STATIC_NUMBER),
                Wanted::Operand(STATIC_NUMBER),
            );
        }
    }
    fault(
        whole(line),
        "The line isn't a static line.",
        HEADING_OR_STATIC,
    )
}

/// Returns what is wrong with a line outside a function that has its name there, and no parameters.
fn name_fault(line: &[u8], name: Span) -> LineFault {
    if let Some(extra) = word_at(line, 2) {
        let wrong = if is_passing(part(line, extra)) {
            "A parameter needs `module 2` as the text's first line (or `module 3`)."
        } else {
            "This word is one too many: a name has no space in it."
        };
        return fault(
            extra,
            wrong,
            Wanted::Said("the end of the line, behind the name"),
        );
    }
    fault(name, "This is no name of a function.", NAME)
}

/// Returns what is wrong with the words behind the name of a function: a passing and a kind for each parameter.
fn parameter_fault(line: &[u8]) -> LineFault {
    for number in 0..MOST_PARAMETERS {
        let passing = word_at(line, 2 + 2 * number).unwrap_or(behind(line));
        if !is_passing(part(line, passing)) {
            return fault(passing, "This isn't `borrow` or `steal`.", PASSING);
        }
        let Some(kind) = word_at(line, 3 + 2 * number) else {
            return fault(behind(line), "The parameter has no kind.", PARAMETER_KIND);
        };
        let word = part(line, kind);
        if !fits(word, Operand::Kind) && !is_word(word, b"any") {
            return fault(kind, "There is no such kind.", PARAMETER_KIND);
        }
    }
    fault(
        word_at(line, 2 + 2 * MOST_PARAMETERS).unwrap_or(behind(line)),
        "This word is one too many: a function has four parameters at most.",
        Wanted::Said("the end of the line, behind the last parameter"),
    )
}

fn is_passing(word: &[u8]) -> bool {
    is_word(word, b"borrow") || is_word(word, b"steal")
}

/// Returns what is wrong with a line outside a function that begins with this word.
fn outside(version: Version, word: &[u8]) -> &'static str {
    if word.is_empty() {
        "The line is empty or begins with a space, and no function is open here."
    } else if is_word(word, b"end") {
        "No function is open here, so there is none to end."
    } else if is_word(word, b"static") && version == Version::Three {
        "A static line is above all functions, and a function is above this one."
    } else if is_word(word, b"static") {
        "`static` needs `module 3` as the text's first line."
    } else if form_of(version, word).is_some() {
        "This is an instruction, and no function is open here."
    } else {
        "Outside a function each line is the heading of the next one."
    }
}

/// Returns what is wrong with a line of a function.
pub fn instruction_fault(version: Version, line: &[u8]) -> LineFault {
    let first = word_at(line, 0).unwrap_or(whole(line));
    let word = part(line, first);
    let Some(form) = form_of(version, word) else {
        let later = form_of(Version::Three, word);
        return LineFault {
            form: later,
            ..fault(first, unknown(line, word, later), Wanted::Name)
        };
    };
    let found = if form.name == CALL.name {
        call_fault(line)
    } else {
        operand_fault(line, &form)
    };
    LineFault {
        form: Some(form),
        ..found
    }
}

/// Returns what is wrong with a line of a function that begins with this word, which is no instruction's name, or the
/// name of one of a later version.
fn unknown(line: &[u8], word: &[u8], later: Option<Form>) -> &'static str {
    if let Some(form) = later {
        if form.name == CALL.name {
            "`call` needs `module 2` as the text's first line (or `module 3`)."
        } else {
            "`take` needs `module 3` as the text's first line."
        }
    } else if line.is_empty() {
        "The line is empty. A text has no empty line."
    } else if word.is_empty() {
        "The line begins with a space. It begins with the name of its instruction."
    } else if is_word(word, b"func") {
        "The function above is still open: its `end` is missing."
    } else if is_word(word, b"end") {
        "`end` stands alone on its line."
    } else {
        "No instruction has this name."
    }
}

/// Returns what is wrong with the words behind the name of an instruction.
fn operand_fault(line: &[u8], form: &Form) -> LineFault {
    let count = form.operands.len();
    if word_at(line, count).is_none() {
        let wrong = "A word is missing here.";
        return fault(
            behind(line),
            wrong,
            Wanted::Said("the rest of the instruction"),
        );
    }
    if let Some(extra) = word_at(line, count.saturating_add(1)) {
        return too_many(line, extra);
    }
    if let Some(found) = else_fault(line, form.operands) {
        return found;
    }
    for (at, operand) in form.operands.iter().enumerate() {
        let span = word_at(line, at + 1).unwrap_or(behind(line));
        let word = part(line, span);
        if !fits(word, *operand) {
            return fault(span, misfit(word, *operand), Wanted::Operand(*operand));
        }
    }
    fault(whole(line), "The line isn't an instruction.", Wanted::Name)
}

/// Returns what is wrong with the words behind the name of a call: a variable, a name, up to four variables, `else`
/// and a target.
fn call_fault(line: &[u8]) -> LineFault {
    let count = word_count(line);
    if count < CALL_WORDS {
        return fault(
            behind(line),
            "A word is missing here.",
            Wanted::Said("the rest of the instruction"),
        );
    }
    if let Some(extra) = word_at(line, CALL_WORDS + MOST_PARAMETERS) {
        return too_many(line, extra);
    }
    let else_at = count - 2;
    let word = word_at(line, else_at).unwrap_or(behind(line));
    if !is_word(part(line, word), b"else") {
        let wrong = "This isn't the word `else`.";
        return fault(word, wrong, Wanted::Operand(Operand::Else));
    }
    for at in 1..count {
        let span = word_at(line, at).unwrap_or(behind(line));
        let word = part(line, span);
        if at == 2 {
            if !is_name(word) {
                return fault(span, "This is no name of a function.", NAME);
            }
        } else if at != else_at {
            let operand = if at < else_at {
                Operand::Variable
            } else {
                Operand::Target
            };
            if !fits(word, operand) {
                return fault(span, misfit(word, operand), Wanted::Operand(operand));
            }
        }
    }
    fault(whole(line), "The line isn't an instruction.", Wanted::Name)
}

/// The words of a call without arguments: `call`, a variable, a name, `else` and a target.
pub const CALL_WORDS: usize = 5;

/// Returns what is wrong with a line of too many words, the first of which behind the instruction's end is `extra`.
fn too_many(line: &[u8], extra: Span) -> LineFault {
    let end = Wanted::Said("the words of the instruction, with one space between two");
    match empty_word(line) {
        Some(empty) if empty.from < line.len() => {
            fault(
                empty,
                "There is a space too many: an empty word is between two spaces.",
                end,
            )
        }
        Some(empty) => fault(empty, "There is a space at the end of the line.", end),
        None => fault(extra, "Here the instruction has a word too many.", end),
    }
}

/// Returns what is wrong with the word in the place of `else`, if that place has another one.
fn else_fault(line: &[u8], operands: &[Operand]) -> Option<LineFault> {
    for (at, operand) in operands.iter().enumerate() {
        let span = word_at(line, at + 1).unwrap_or(behind(line));
        if *operand == Operand::Else && !is_word(part(line, span), b"else") {
            let wrong = "This isn't the word `else`.";
            return Some(fault(span, wrong, Wanted::Operand(Operand::Else)));
        }
    }
    None
}

/// Returns whether the word fits in the operand's place.
pub fn fits(word: &[u8], operand: Operand) -> bool {
    match operand {
        Operand::Variable => marked_number(b'v', 15, word),
        Operand::Number(low, high) => number_between(low, high, word).is_ok(),
        Operand::Mode => {
            is_word(word, b"r")
                || is_word(word, b"w")
                || is_word(word, b"rw")
                || is_word(word, b"wc")
                || is_word(word, b"rwc")
        }
        Operand::Kind => {
            is_word(word, b"none")
                || is_word(word, b"num")
                || is_word(word, b"list")
                || is_word(word, b"file")
                || is_word(word, b"sock")
        }
        Operand::Else => is_word(word, b"else"),
        Operand::Target => marked_number(b'@', 255, word),
    }
}

/// Returns whether the word is the mark and a number of at most `high` behind it.
fn marked_number(mark: u8, high: u32, word: &[u8]) -> bool {
    match word {
        [first, digits @ ..] => *first == mark && number_between(0, high, digits).is_ok(),
        [] => false,
    }
}

/// Returns what is wrong with a word that doesn't fit in its place.
pub fn misfit(word: &[u8], operand: Operand) -> &'static str {
    if word.is_empty() {
        return "A word is missing here: there is an empty one between two spaces.";
    }
    match operand {
        Operand::Variable => {
            if word.starts_with(b"v") {
                "This is no variable: v, and a number from 0 to 15 without a leading zero."
            } else {
                "This is no variable: it doesn't begin with v."
            }
        }
        Operand::Number(_, _) if operand == CELLS && fits(word, LONG_CELLS) => {
            "A list of more than 8 cells needs `module 3` as the text's first line."
        }
        Operand::Number(_, _) => number_misfit(word),
        Operand::Mode => "There is no such mode.",
        Operand::Kind => "There is no such kind.",
        Operand::Else => "This isn't the word `else`.",
        Operand::Target => {
            if word.starts_with(b"@") {
                "This is no target: @, and a number from 0 to 255 without a leading zero."
            } else {
                "This is no target: it doesn't begin with @."
            }
        }
    }
}

fn number_misfit(word: &[u8]) -> &'static str {
    if !word.iter().all(|byte| byte.is_ascii_digit()) {
        "This is no number: it has something else than digits."
    } else if word.len() > 1 && word.starts_with(b"0") {
        "This number begins with a zero."
    } else {
        "This number is out of range."
    }
}
