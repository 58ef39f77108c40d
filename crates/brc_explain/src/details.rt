//! What is said of a fault beside its code and its place among the instructions, for programs.

ghost use Rattle.brc_lang.specs.Grammar.{IsModule};
ghost use Rattle.brc_check.specs.Refusal.{IsRefusedFor};

use crate::above::find_line;
use crate::advice::write_advice;
use crate::at_fault::{instruction_at, variable_of};
use crate::fault::ExplainFault;
use crate::joining::write_mend;
use crate::marks::{Place, mark_of};
use crate::refused::{Shown, shown_of};
use crate::visible::part;
use crate::words::word_at;
use brc_check::{CheckCode, Refused};
use brc_lang::{Function, Module, ReadFault, Variable, write_bytes, write_instruction};
use brc_pages::{Topic, page_of};
use std::alloc::Global;
use std::io;
use std::io::Write;

/// What is said of a fault.
#[derive(Drop)]
pub struct Details {
    /// Where the word at fault begins, if it is known.
    pub place: Option<Place>,
    /// The variable at fault, as `v1`, if there is one.
    pub variable: Option<&'static str>,
    /// How to mend it, in one line.
    pub mend: Vec<u8>,
}

/// The names of the variables.
const NAMES: &[&str] = &[
    "v0", "v1", "v2", "v3", "v4", "v5", "v6", "v7", "v8", "v9", "v10", "v11", "v12", "v13", "v14",
    "v15",
];

/// Returns what is said of why the text can't be read. Returns `NoMemory` if memory is refused.
pub fn details_of_fault(
    alloc: Global,
    text: &[u8],
    fault: &ReadFault,
) -> Result<Details, ExplainFault> {
    let found = find_line(text, fault.line);
    let mark = mark_of(&found, fault);
    let mut advice = Vec::new(alloc);
    let written = write_advice(text, &found, fault, mark, &mut advice);
    Ok(Details {
        place: Some(mark.place()),
        variable: None,
        mend: in_one_line(alloc, advice, written)?,
    })
}

/// Returns what is said of a refusal, whose instruction is on this line. Returns `NoMemory` if memory is refused.
pub fn details_of_refusal(
    alloc: Global,
    module: &Module,
    refused: &Refused,
    line: Option<u64>,
) -> Result<Details, ExplainFault>
    requires fits { IsModule «module».now }
    requires refusal { IsRefusedFor «module».now.functions refused.now }
{
    let shown = shown_of(alloc, module, refused)?;
    let variable = variable_of(&shown, refused);
    let place = match line {
        Some(line) => {
            let column = column_of(
                alloc,
                module.functions.as_slice(),
                &shown,
                refused,
                variable,
            )?;
            Some(Place { line, column })
        }
        None => None,
    };
    let page = page_of(Topic::Check(refused.code));
    let mut mend = Vec::new(alloc);
    let written = write_mend(&page, &shown, refused, &mut mend);
    Ok(Details {
        place,
        variable: name_of(variable),
        mend: in_one_line(alloc, mend, written)?,
    })
}

/// Returns the lines that were written as one, without the spaces at their beginnings. A vector refuses bytes only for
/// want of memory.
fn in_one_line(
    alloc: Global,
    lines: Vec<u8>,
    written: io::Result<()>,
) -> Result<Vec<u8>, ExplainFault> {
    let mut text = Vec::new(alloc);
    if written.is_err() || write_flat(lines.as_slice(), &mut text).is_err() {
        return Err(ExplainFault::NoMemory);
    }
    Ok(text)
}

fn write_flat<W: Write>(lines: &[u8], out: &mut W) -> io::Result<()> {
    let mut begins = true;
    let mut is_first = true;
    for byte in lines {
        if *byte == b'\n' {
            begins = true;
        } else if !begins || *byte != b' ' {
            if begins && !is_first {
                write_bytes(b" ", out)?;
            }
            write_bytes(&[*byte], out)?;
            begins = false;
            is_first = false;
        }
    }
    Ok(())
}

fn name_of(variable: Option<Variable>) -> Option<&'static str> {
    let name = NAMES.get(variable?.number() as usize)?;
    Some(*name)
}

/// Returns the column at which the variable is in the instruction at fault, or that of the instruction.
fn column_of(
    alloc: Global,
    functions: &[Function],
    shown: &Shown<'_>,
    refused: &Refused,
    variable: Option<Variable>,
) -> Result<u64, ExplainFault> {
    let (Some(instr), Some(name)) = (
        instruction_at(shown.function, refused.at),
        name_of(variable),
    ) else {
        return Ok(1);
    };
    let mut text = Vec::new(alloc);
    if write_instruction(functions, instr, &mut text).is_err() {
        return Err(ExplainFault::NoMemory);
    }
    Ok(column_in(
        text.as_slice(),
        name.as_bytes(),
        is_about_first(refused.code),
    ))
}

/// Returns whether the code is about the instruction's first variable, if it has one at two places.
fn is_about_first(code: CheckCode) -> bool {
    matches!(
        code,
        CheckCode::StillOwns | CheckCode::NotLocked | CheckCode::LockedChanged
    )
}

/// Returns the column of the first word of this name, or of the last one, or 1 if there is none.
fn column_in(text: &[u8], name: &[u8], first: bool) -> u64 {
    let mut column = 1;
    for number in 1..MOST_WORDS {
        let Some(span) = word_at(text, number) else {
            break;
        };
        if part(text, span) == name {
            column = (span.from as u64).saturating_add(1);
            if first {
                break;
            }
        }
    }
    column
}

/// The most words of an instruction: those of a call with four arguments.
const MOST_WORDS: usize = 9;
