//! The line of a claim or a stop that changes nothing.

ghost use Rattle.std.specs.Prelude.{◌≡◌, ◌++◌, OnOk};
ghost use Rattle.brc_trace.specs.NoOpTexts.{is_step_line, no_op_claim_text, no_op_stop_text, no_op_text};

use crate::entry::show_opening;
use crate::line::Line;
use brc_model::Choice;
use brc_report::{Paint, Role};
use std::alloc::AllocError;

/// Returns whether the choice is that of the steps of a line `step`. If the thread is gone, these have no line.
pub fn is_step_line(choice: Choice) -> bool
    ensures { result ≡ is_step_line choice }
{
    match choice {
        Choice::Ok | Choice::Fault => true,
        Choice::Claim(_) | Choice::Stop => false,
    }
}

/// Adds the line of a claim or a stop that changes nothing, with a line feed. Other choices have no such line.
pub fn show_no_op(
    paint: Paint,
    number: u64,
    thread: u8,
    choice: Choice,
    line: &mut Line,
) -> Result<(), AllocError>
    ensures { OnOk result (line.new ≡ line.old ++ no_op_text paint number thread choice) }
{
    match choice {
        Choice::Ok | Choice::Fault => Ok(()),
        Choice::Claim(row) => show_claim(paint, number, thread, row, line),
        Choice::Stop => show_stop(paint, number, thread, line),
    }
}

fn show_claim(
    paint: Paint,
    number: u64,
    thread: u8,
    row: u32,
    line: &mut Line,
) -> Result<(), AllocError>
    ensures { OnOk result (line.new ≡ line.old ++ no_op_claim_text paint number thread row) }
{
    show_opening(paint, number, thread, line)?;
    line.text(paint.on(Role::Part))?;
    line.text("claim of row ")?;
    line.number(u64::from(row))?;
    line.text(paint.off())?;
    line.text("  nothing to claim\n")
}

fn show_stop(paint: Paint, number: u64, thread: u8, line: &mut Line) -> Result<(), AllocError>
    ensures { OnOk result (line.new ≡ line.old ++ no_op_stop_text paint number thread) }
{
    show_opening(paint, number, thread, line)?;
    line.text(paint.on(Role::Part))?;
    line.text("stop")?;
    line.text(paint.off())?;
    line.text("  nothing to stop\n")
}
