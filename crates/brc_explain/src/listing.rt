//! A function as a listing: each instruction with its number, and the state before it.

use crate::called::write_arguments;
use crate::fault::ExplainFault;
use crate::rows::Row;
use crate::state_text::write_state;
use brc_lang::{
    Function, Instr, Parameter, write_bytes, write_instruction, write_number, write_pieces,
};
use brc_pages::{write_gap, write_in};
use brc_report::{Paint, Role};
use std::alloc::Global;
use std::io;
use std::io::Write;

/// What a listing shows beside its rows.
#[derive(Clone, Copy)]
pub struct Remarks<'a> {
    /// What stands behind the row at fault.
    pub code: &'static str,
    /// The points to which instructions lead, though their states may be unknown. The others are unreachable.
    pub led: &'a [usize],
}

/// Returns the text of an instruction of one of the module's functions.
fn text_of(alloc: Global, functions: &[Function], instr: Instr) -> Result<Vec<u8>, ExplainFault> {
    let mut text = Vec::new(alloc);
    match write_instruction(functions, instr, &mut text) {
        Ok(()) => Ok(text),
        // A vector refuses bytes only for want of memory.
        Err(_) => Err(ExplainFault::NoMemory),
    }
}

/// Returns how many columns the longest instruction takes, in a module of these functions.
pub fn width_of(
    alloc: Global,
    functions: &[Function],
    code: &[Instr],
) -> Result<usize, ExplainFault> {
    let mut width = 0;
    for instr in code {
        let text = text_of(alloc, functions, *instr)?;
        width = text.len().max(width);
    }
    Ok(width)
}

/// Writes the instruction's number and its text, and spaces up to the next column.
pub fn write_numbered<W: Write>(
    alloc: Global,
    functions: &[Function],
    at: usize,
    instr: Instr,
    width: usize,
    paint: Paint,
    out: &mut W,
) -> Result<(), ExplainFault> {
    let text = text_of(alloc, functions, instr)?;
    write_label(at, paint, out)?;
    write_bytes(text.as_slice(), out)?;
    write_gap(text.len(), width, out)?;
    Ok(())
}

/// Writes the number of an instruction, in a column of its own.
fn write_label<W: Write>(at: usize, paint: Paint, out: &mut W) -> io::Result<()> {
    let indent: &[u8] = if at < 10 {
        b"    "
    } else if at < 100 {
        b"   "
    } else {
        b"  "
    };
    write_pieces(&[indent, paint.on(Role::Aside).as_bytes(), b"@"], out)?;
    write_number(at as u64, out)?;
    write_pieces(&[paint.off().as_bytes(), b"  "], out)
}

/// Writes the rows of the listing of a function of the module, each with its instruction.
pub fn write_listing<W: Write>(
    alloc: Global,
    functions: &[Function],
    function: &Function,
    rows: &[Row],
    remarks: Remarks<'_>,
    paint: Paint,
    out: &mut W,
) -> Result<(), ExplainFault> {
    let code = function.code.as_slice();
    let width = width_of(alloc, functions, code)?;
    write_heading_line(function, paint, out)?;
    for row in rows {
        if row.at < code.len() {
            write_numbered(alloc, functions, row.at, code[row.at], width, paint, out)?;
            write_before(row, &code[row.at], remarks, paint, out)?;
        }
    }
    Ok(())
}

/// Writes an empty line, and the line that opens the function.
fn write_heading_line<W: Write>(function: &Function, paint: Paint, out: &mut W) -> io::Result<()> {
    write_bytes(b"\n", out)?;
    write_opening(function, paint, out)
}

/// Writes the line that opens the function.
pub fn write_opening<W: Write>(function: &Function, paint: Paint, out: &mut W) -> io::Result<()> {
    write_bytes(paint.on(Role::Part).as_bytes(), out)?;
    write_pieces(&[b"func ", function.name.as_bytes()], out)?;
    for Parameter { passing, kind } in function.parameters.as_slice() {
        let words: [&[u8]; 4] = [
            b" ",
            passing.name().as_bytes(),
            b" ",
            kind.name().as_bytes(),
        ];
        write_pieces(&words, out)?;
    }
    write_pieces(&[paint.off().as_bytes(), b"\n"], out)
}

/// Returns what stands for the state of a row without one.
fn unknown(row: &Row, remarks: Remarks<'_>) -> &'static [u8] {
    if remarks.led.contains(&row.at) {
        b"-"
    } else {
        b"unreachable"
    }
}

/// Writes the state before the instruction of a row, what a call does with its arguments, and the mark of the row at
/// fault.
fn write_before<W: Write>(
    row: &Row,
    instr: &Instr,
    remarks: Remarks<'_>,
    paint: Paint,
    out: &mut W,
) -> io::Result<()> {
    match &row.before {
        Some(state) => write_state(state, paint, out)?,
        None => write_in(Role::Aside, &[unknown(row, remarks)], paint, out)?,
    }
    write_arguments(instr, paint, out)?;
    if row.is_marked {
        write_bytes(b"   ", out)?;
        write_in(Role::Code, &[b"<- ", remarks.code.as_bytes()], paint, out)?;
    }
    write_bytes(b"\n", out)
}
