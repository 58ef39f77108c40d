//! What a step belongs to: an instruction, a claim, a stop, or a part of a thread's exit.

ghost use Rattle.std.specs.Prelude.{◌≡◌, ◌++◌, OnOk, IfOk, Some, slice_get};
ghost use Rattle.brc_trace.specs.PartTexts.{instr_text, point_text, exit_text, part_text};

use crate::line::Line;
use brc_lang::{Function, Instr};
use brc_world::{ExitPart, Part};
use std::alloc::{AllocError, Global};

/// Returns the part of the work of a thread that calls the function with the number, as a trace names it.
pub fn part_text(
    alloc: Global,
    functions: &[Function],
    number: usize,
    part: Part,
) -> Result<Vec<u8>, AllocError>
    ensures { IfOk result (λ text. text.items ≡ part_text functions.now number part) }
{
    let mut line = Line::new(alloc);
    show_part(functions, number, part, &mut line)?;
    Ok(line.into_bytes())
}

/// Adds the part of the work of a thread that calls the function with the number.
pub fn show_part(
    functions: &[Function],
    number: usize,
    part: Part,
    line: &mut Line,
) -> Result<(), AllocError>
    ensures { OnOk result (line.new ≡ line.old ++ part_text functions.now number part) }
{
    match part {
        Part::Instruction { at } => match functions.get(number) {
            Some(function) => show_point(functions, function, at, line),
            None => {
                line.text("@")?;
                line.number(at as u64)
            }
        },
        Part::Claim { row } => {
            line.text("claim of row ")?;
            line.number(u64::from(row))
        }
        Part::Stop => line.text("stop"),
        Part::Exit(part) => line.text(exit_name(part)),
    }
}

/// Adds the function's name, the instruction's number and the instruction.
fn show_point(
    functions: &[Function],
    function: &Function,
    at: usize,
    line: &mut Line,
) -> Result<(), AllocError>
    ensures { OnOk result (line.new ≡ line.old ++ point_text functions.now (Some function.now) at) }
{
    line.bytes(function.name.as_bytes())?;
    line.text(" @")?;
    line.number(at as u64)?;
    show_instr(functions, function.code.as_slice(), at, line)
}

/// Adds the instruction as a module of these functions spells it, if the code has it.
fn show_instr(
    functions: &[Function],
    code: &[Instr],
    at: usize,
    line: &mut Line,
) -> Result<(), AllocError>
    ensures { OnOk result (line.new ≡ line.old ++ instr_text functions.now (slice_get code.now at)) }
{
    match code.get(at) {
        Some(instr) => {
            line.text(" ")?;
            line.instruction(functions, *instr)
        }
        None => Ok(()),
    }
}

fn exit_name(part: ExitPart) -> &'static str
    ensures { result.now ≡ exit_text part }
{
    match part {
        ExitPart::Root => "exit: root",
        ExitPart::Leave => "exit: leave",
        ExitPart::Marks => "exit: marks",
        ExitPart::Gone => "exit: gone",
    }
}
