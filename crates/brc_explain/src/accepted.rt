//! The explanation of a module that is accepted.

ghost use Rattle.brc_lang.specs.Grammar.{IsFunction};

use crate::called::write_called;
use crate::fault::ExplainFault;
use crate::forms::{is_asked, write_all_forms};
use crate::listing::{Remarks, write_listing};
use crate::rows::listing_of;
use crate::state_text::write_legend;
use brc_check::Checked;
use brc_lang::{Function, Version, write_bytes};
use brc_pages::{write_heading, write_in};
use brc_report::{Paint, Role};
use std::alloc::Global;
use std::io;
use std::io::Write;

/// Writes a listing of each function, or of the one of the number `only`, with the state before each instruction.
///
/// Returns `NoMemory` if memory is refused, and `Output` if the writer makes an error.
pub fn explain_accepted<W: Write>(
    alloc: Global,
    checked: &Checked,
    only: Option<usize>,
    paint: Paint,
    out: &mut W,
) -> Result<(), ExplainFault> {
    let module = checked.module();
    write_accepted(module.version, paint, out)?;
    let functions = module.functions.as_slice();
    for (number, function) in functions.iter().enumerate() {
        if is_asked(only, number) {
            list_accepted(alloc, functions, function, paint, out)?;
        }
    }
    write_heading("The instructions, and what they are in C", paint, out)?;
    write_all_forms(functions, only, out)?;
    if let Some(number) = only {
        if number < functions.len() {
            write_called(functions, functions[number].code.as_slice(), paint, out)?;
        }
    }
    Ok(())
}

fn write_accepted<W: Write>(version: Version, paint: Paint, out: &mut W) -> io::Result<()> {
    write_in(Role::Success, &[b"accepted"], paint, out)?;
    write_bytes(
        b": on every path each reference is given up exactly once, nothing is used\n\
        after it may be freed, and each lock is ended.\n\n\
        Below, each instruction has its number and what the variables hold before it:\n",
        out,
    )?;
    write_legend(version, out)
}

fn list_accepted<W: Write>(
    alloc: Global,
    functions: &[Function],
    function: &Function,
    paint: Paint,
    out: &mut W,
) -> Result<(), ExplainFault>
    requires { IsFunction function.now }
{
    let rows = listing_of(alloc, function, None)?;
    let remarks = Remarks { code: "", led: &[] };
    write_listing(
        alloc,
        functions,
        function,
        rows.as_slice(),
        remarks,
        paint,
        out,
    )
}
