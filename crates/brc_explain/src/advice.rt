//! What is wrong with a text that can't be read, and what would be read there, in sentences.

use crate::above::{Situation, WrongTarget, count_instructions, heading_of, wrong_target};
use crate::forms::{Operand, hint_for};
use crate::line_fault::Wanted;
use crate::marks::{Mark, first_line_fault, words_fault};
use crate::missing::{write_callee, write_static_list};
use crate::visible::part;
use brc_lang::{FaultCode, ReadFault, Version, is_word, write_bytes, write_number, write_pieces};
use std::io;
use std::io::Write;

/// Writes what is wrong at the mark, and what would be read there. It returns the errors of `brc_lang::write_bytes`.
pub fn write_advice<W: Write>(
    text: &[u8],
    found: &Situation<'_>,
    fault: &ReadFault,
    mark: Mark,
    out: &mut W,
) -> io::Result<()> {
    match fault.code {
        FaultCode::FirstLine => write_first_line(found, out),
        FaultCode::UnknownWord | FaultCode::Number => write_words(found, out),
        FaultCode::Target => match wrong_target(found.body) {
            Some(wrong) => write_target(&wrong, count_instructions(found.body), fault.line, out),
            None => Ok(()),
        },
        FaultCode::NameTwice => write_twice(text, part(found.line, mark.span), out),
        FaultCode::OverLimit => write_limit(found, fault.line, out),
        FaultCode::CutOff => write_cut_off(found, out),
        FaultCode::NoMemory => write_bytes(b"There was too little memory to read the text.\n", out),
        FaultCode::Callee => write_callee(text, found, part(found.line, mark.span), out),
        FaultCode::StaticList => write_static_list(found, out),
    }
}

fn write_first_line<W: Write>(found: &Situation<'_>, out: &mut W) -> io::Result<()> {
    let (_, wrong) = first_line_fault(found);
    write_pieces(&[wrong.as_bytes(), b"\n"], out)?;
    write_bytes(
        b"Expected: the line `module 1`, `module 2` or `module 3`. The functions follow\n\
        below it.\n",
        out,
    )
}

fn write_words<W: Write>(found: &Situation<'_>, out: &mut W) -> io::Result<()> {
    let fault = words_fault(found);
    write_pieces(&[fault.wrong.as_bytes(), b"\n"], out)?;
    let word = part(found.line, fault.span);
    write_hidden(word, out)?;
    if fault.wanted == Wanted::Name {
        write_hint(hint_for(word), out)?;
    }
    write_wanted(found.version, fault.wanted, out)
}

/// Writes what the reader of a word can't see in it: a carriage return or a tab.
pub fn write_hidden<W: Write>(word: &[u8], out: &mut W) -> io::Result<()> {
    if word.contains(&b'\r') {
        write_bytes(
            b"(\\x0d is a carriage return. Each line ends with a line feed alone.)\n",
            out,
        )?;
    }
    if word.contains(&b'\t') {
        write_bytes(b"(\\x09 is a tab. One space separates two words.)\n", out)?;
    }
    Ok(())
}

fn write_hint<W: Write>(hint: &str, out: &mut W) -> io::Result<()> {
    if hint.is_empty() {
        return Ok(());
    }
    write_pieces(&[hint.as_bytes(), b"\n"], out)
}

/// Writes what is expected in the place of a fault.
pub fn write_wanted<W: Write>(version: Version, wanted: Wanted, out: &mut W) -> io::Result<()> {
    match wanted {
        Wanted::Said(wanted) => write_pieces(&[b"Expected: ", wanted.as_bytes(), b".\n"], out),
        Wanted::Operand(operand) => write_operand(operand, out),
        Wanted::Name => write_names(version, out),
    }
}

/// Writes the names of the instructions that the version has.
fn write_names<W: Write>(version: Version, out: &mut W) -> io::Result<()> {
    let names: &[u8] = match version {
        Version::One =>
            b"Expected: `end`, or an instruction: num, list, none, newref, move, drop, lock,\n\
            unlock, borrow, fetch, set, put, open, connect, read, write, as, goto, again,\n\
            ret, fail.\n",
        Version::Two =>
            b"Expected: `end`, or an instruction: num, list, none, newref, move, drop, lock,\n\
            unlock, borrow, fetch, set, put, open, connect, read, write, as, call, goto,\n\
            again, ret, fail.\n",
        Version::Three =>
            b"Expected: `end`, or an instruction: num, list, none, take, newref, move, drop,\n\
            lock, unlock, borrow, fetch, set, put, open, connect, read, write, as, call,\n\
            goto, again, ret, fail.\n",
    };
    write_bytes(names, out)
}

fn write_operand<W: Write>(operand: Operand, out: &mut W) -> io::Result<()> {
    let wanted = match operand {
        Operand::Variable => "a variable: v0 to v15",
        Operand::Mode => "a mode: r, w, rw, wc (writes, and makes the file) or rwc",
        Operand::Kind => "a kind: none, num, list, file or sock",
        Operand::Else => "the word `else`, and behind it where the call goes on after a failure",
        Operand::Target => "a target: @ and an instruction's number, counted from @0",
        Operand::Number(low, high) => return write_range(low, high, out),
    };
    write_pieces(&[b"Expected: ", wanted.as_bytes(), b".\n"], out)
}

/// Writes which numbers are expected, from the least to the greatest.
pub fn write_range<W: Write>(low: u32, high: u32, out: &mut W) -> io::Result<()> {
    write_bytes(b"Expected: a number from ", out)?;
    write_number(u64::from(low), out)?;
    write_bytes(b" to ", out)?;
    write_number(u64::from(high), out)?;
    write_bytes(b" (digits alone, no leading zero).\n", out)
}

/// Writes where the target leads, in a function of `count` instructions whose `end` is on the line `end`.
fn write_target<W: Write>(
    wrong: &WrongTarget<'_>,
    count: usize,
    end: u64,
    out: &mut W,
) -> io::Result<()> {
    write_bytes(b"This is instruction @", out)?;
    write_number(wrong.at as u64, out)?;
    if wrong.back {
        write_bytes(b", and `again` leads back, or to itself.\n", out)?;
        write_targets(0, wrong.at as u64, out)?;
    } else {
        write_later(wrong.at, count, out)?;
    }
    write_bytes(
        b"Instructions are counted from @0; `func` and `end` aren't counted. The fault is\n\
        reported at line ",
        out,
    )?;
    write_number(end, out)?;
    write_bytes(b", the `end`, where it is known how many there are.\n", out)
}

/// Writes which targets lead forward from the instruction `at` of `count`.
fn write_later<W: Write>(at: usize, count: usize, out: &mut W) -> io::Result<()> {
    let last = count.saturating_sub(1);
    if at >= last {
        return write_bytes(
            b", the function's last one, and `else` and `goto` lead to a\n\
            later one. Write one below it, as `fail`, or go on elsewhere.\n",
            out,
        );
    }
    write_bytes(
        b", and `else` and `goto` lead to a later one. Only `again`\nleads back.\n",
        out,
    )?;
    write_targets((at as u64).saturating_add(1), last as u64, out)
}

/// Writes which targets are expected, from the first to the last.
fn write_targets<W: Write>(first: u64, last: u64, out: &mut W) -> io::Result<()> {
    write_bytes(b"Expected: @", out)?;
    write_number(first, out)?;
    if first < last {
        write_bytes(b" to @", out)?;
        write_number(last, out)?;
    }
    write_bytes(b".\n", out)
}

fn write_twice<W: Write>(text: &[u8], name: &[u8], out: &mut W) -> io::Result<()> {
    let Some(first) = heading_of(text, name) else {
        return Ok(());
    };
    write_bytes(b"The function of line ", out)?;
    write_number(first.number, out)?;
    write_bytes(b" has the same name.\nExpected: another name.\n", out)
}

fn write_limit<W: Write>(found: &Situation<'_>, number: u64, out: &mut W) -> io::Result<()> {
    if is_word(found.line, b"end") {
        write_bytes(
            b"The function has no instruction.\n\
            Expected: at least one, as `fail`, which returns NULL.\n",
            out,
        )
    } else if found.inside && number.saturating_sub(found.body_line) < MOST_INSTRUCTIONS {
        write_bytes(
            b"With this call nine calls could be open at once.\n\
            Expected: a call of another function. Eight calls are open at once at most.\n",
            out,
        )
    } else if found.inside {
        write_bytes(
            b"This would be the function's 257th instruction.\n\
            Expected: `end`. A function has 1 to 256 instructions.\n",
            out,
        )
    } else if found.version == Version::Three && !found.below_function {
        write_bytes(
            b"This would be the 17th static list.\n\
            Expected: the module's first function. A module has 16 static lists at most.\n",
            out,
        )
    } else {
        write_bytes(
            b"This would be the 65th function.\n\
            Expected: the end of the text. A module has 1 to 64 functions.\n",
            out,
        )
    }
}

/// The greatest number of a function's instructions.
const MOST_INSTRUCTIONS: u64 = 256;

fn write_cut_off<W: Write>(found: &Situation<'_>, out: &mut W) -> io::Result<()> {
    let wrong: &[u8] = if found.is_there {
        b"The text ends here, and no line feed ends the line.\n\
        Expected: a line feed.\n"
    } else if found.inside {
        b"The text ends here, and the function is still open.\n\
        Expected: the function's next instruction, or the line `end`.\n"
    } else {
        b"The text ends here, and has no function.\n\
        Expected: `func NAME`, the function's instructions, and `end`.\n"
    };
    write_bytes(wrong, out)
}
