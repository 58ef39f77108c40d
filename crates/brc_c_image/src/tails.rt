use crate::block::Held;
use crate::emitting::write_drops;
use crate::line::Line;
use std::alloc::AllocError;

/// Appends the lines by which a path gives up: whatever the function holds is given back, and the checker reports
/// nothing.
pub(crate) fn write_tail(held: &Held, lines: &mut Vec<Line>) -> Result<(), AllocError> {
    if held.is_locked {
        lines.push(Line::Unlock)?;
    }
    write_drops(held.owned, lines)?;
    lines.push(Line::Fail)?;
    Ok(())
}
