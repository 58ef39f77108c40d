//! A path, one line a step: the instruction, the exit taken there, and the state after it.

use crate::called::write_arguments;
use crate::fault::ExplainFault;
use crate::listing::write_numbered;
use crate::rows::StepRow;
use crate::state_text::write_state;
use brc_lang::{Function, Instr, write_bytes};
use brc_pages::{Topic, page_of, write_gap, write_in};
use brc_report::{Paint, Role};
use std::alloc::Global;
use std::io;
use std::io::Write;

/// What the lines of a path have in common.
#[derive(Clone, Copy)]
pub struct Walk<'a> {
    pub alloc: Global,
    /// The module's functions.
    pub functions: &'a [Function],
    pub code: &'a [Instr],
    /// The width of the column with the instructions.
    pub width: usize,
    pub paint: Paint,
}

/// The width of the column with the exits.
const EXIT_WIDTH: usize = 4;

/// Writes the rows of a path.
pub fn write_path<W: Write>(
    walk: Walk<'_>,
    rows: &[StepRow],
    out: &mut W,
) -> Result<(), ExplainFault> {
    for row in rows {
        if row.at < walk.code.len() {
            write_step(walk, row, walk.code[row.at], out)?;
        }
    }
    Ok(())
}

/// Writes one row: its instruction, the exit, and where that leads.
fn write_step<W: Write>(
    walk: Walk<'_>,
    row: &StepRow,
    instr: Instr,
    out: &mut W,
) -> Result<(), ExplainFault> {
    let Walk {
        alloc,
        functions,
        width,
        paint,
        ..
    } = walk;
    write_numbered(alloc, functions, row.at, instr, width, paint, out)?;
    match (&row.after, &row.reported) {
        (Some(after), _) => {
            write_exit(row.way.word(), walk.paint, out)?;
            write_state(after, walk.paint, out)?;
            write_arguments(&instr, walk.paint, out)?;
        }
        (None, Some(reported)) => {
            let page = page_of(Topic::Check(*reported));
            let pieces: [&[u8]; 3] = [page.code.as_bytes(), b": ", page.title.as_bytes()];
            write_in(Role::Code, &pieces, walk.paint, out)?;
        }
        (None, None) => write_bytes(b"the call ends", out)?,
    }
    write_bytes(b"\n", out)?;
    Ok(())
}

fn write_exit<W: Write>(word: &str, paint: Paint, out: &mut W) -> io::Result<()> {
    write_in(Role::Part, &[word.as_bytes()], paint, out)?;
    write_gap(word.len(), EXIT_WIDTH, out)
}
