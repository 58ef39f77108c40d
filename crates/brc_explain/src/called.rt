//! The functions that instructions call, and what becomes of the arguments.

use crate::listing::write_opening;
use crate::operand_roles::arguments_of;
use crate::state_text::write_variable;
use brc_lang::{Argument, Function, Instr, Passing, write_bytes};
use brc_pages::write_heading;
use brc_report::{Paint, Role};
use std::io;
use std::io::Write;

/// Writes what a call does with its arguments, as in `   borrows v1, steals v2`. Of another instruction, and of a call
/// without arguments, it writes nothing.
pub fn write_arguments<W: Write>(instr: &Instr, paint: Paint, out: &mut W) -> io::Result<()> {
    let arguments = arguments_of(instr);
    if arguments.is_empty() {
        return Ok(());
    }
    write_bytes(b"   ", out)?;
    write_bytes(paint.on(Role::Aside).as_bytes(), out)?;
    let mut separator: &[u8] = b"";
    for argument in arguments {
        write_bytes(separator, out)?;
        write_argument(argument, out)?;
        separator = b", ";
    }
    write_bytes(paint.off().as_bytes(), out)
}

fn write_argument<W: Write>(argument: &Argument, out: &mut W) -> io::Result<()> {
    let does: &[u8] = match argument.parameter.passing {
        Passing::Borrow => b"borrows ",
        Passing::Steal => b"steals ",
    };
    write_bytes(does, out)?;
    write_variable(argument.from, out)
}

/// Writes the lines that open the functions that the code calls, each once, if it calls any.
pub fn write_called<W: Write>(
    functions: &[Function],
    code: &[Instr],
    paint: Paint,
    out: &mut W,
) -> io::Result<()> {
    let mut is_first = true;
    for (number, function) in functions.iter().enumerate() {
        if calls(code, number) {
            if is_first {
                write_heading("The functions that it calls", paint, out)?;
                is_first = false;
            }
            write_bytes(b"  ", out)?;
            write_opening(function, paint, out)?;
        }
    }
    Ok(())
}

/// Returns whether the code calls the function of the number.
fn calls(code: &[Instr], number: usize) -> bool {
    for instr in code {
        if let Instr::Call { callee, .. } = instr {
            if usize::from(*callee) == number {
                return true;
            }
        }
    }
    false
}
