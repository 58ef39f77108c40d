//! What the person at a terminal sees of a command: colours, and how far a run is.

ghost use Rattle.std.specs.Prelude.{◌≡◌};
ghost use Rattle.brc_report.specs.declared.paint.Paint.{Paint};
ghost use Rattle.brc_report.specs.declared.paint.Paint.TheVariants.{Plain};

use brc_report::Paint;
use brc_work::Gate;
use brc_world::{Event, Sight};

/// What a terminal says of the claims and stops of a schedule that have changed nothing, behind their number.
pub const CHANGED_NOTHING: &str = "of the claims and stops changed nothing (--trace shows which)";

/// How many steps between two progress reports of a schedule.
const STEPS_BETWEEN: u64 = 65_536;

/// The terminal of whoever started the command. As the gate of a run it hears of each call that the workers make.
pub trait Terminal: Gate + Sync {
    // How it marks the parts of a text.
    ghost paint_of: { Self → Paint };

    /// Returns how the parts of an explanation, of a trace or of the lines about C files are marked. Other reports are
    /// never marked.
    fn paint(&self) -> Paint
        ensures { result ≡ paint_of self.now };

    /// Shows how many steps a schedule has made so far. `brc step` calls it once in some 65,536 steps.
    fn made(&mut self, steps: u64);

    /// Counts a claim or a stop of a schedule that has changed nothing. `clear` says how many there are.
    fn no_op(&mut self);

    /// Shows how many states a search has visited so far. `brc explain --schedule` calls it once in some 256 states.
    fn visited(&mut self, states: u64);

    /// Shows how many C functions have been judged so far. `brc c` calls it after each one.
    fn judged(&mut self, functions: u64);

    /// Returns how many seconds the command has taken so far, or 0 if there is no clock.
    fn passed(&self) -> u64;

    /// Takes away what it has shown, and says how many claims and stops have changed nothing. A command calls it once
    /// nothing more is made, before anything is written.
    fn clear(&mut self);
}

/// No terminal: texts aren't marked, and nothing is shown.
#[derive(Clone, Copy)]
pub struct NoTerminal;

impl Gate for NoTerminal {
    fn before(&self, _thread: u8, _call: u32) {}

    fn after(&self, _thread: u8, _call: u32) {}
}

impl Terminal for NoTerminal {
    ghost paint_of = { λ _. Plain };

    fn paint(&self) -> Paint {
        Paint::Plain
    }

    fn made(&mut self, _steps: u64) {}

    fn no_op(&mut self) {}

    fn visited(&mut self, _states: u64) {}

    fn judged(&mut self, _functions: u64) {}

    fn passed(&self) -> u64 {
        0
    }

    fn clear(&mut self) {}
}

/// Adds steps to those that a schedule has made, and shows the sum if it has passed a multiple of 65,536.
pub fn more_made<T: Terminal>(made: u64, more: u64, terminal: &mut T) -> u64 {
    let sum = made.saturating_add(more);
    if made / STEPS_BETWEEN != sum / STEPS_BETWEEN {
        terminal.made(sum);
    }
    sum
}

/// Returns whether a claim or a stop changes nothing: its thread takes no step by it, or the claim finds no mark.
pub fn is_no_op(sight: &Option<Sight>) -> bool {
    match sight {
        None => true,
        Some(sight) => match sight.event {
            Event::Does { found, left, .. } => found == left,
            Event::Silent | Event::Calls(_) => false,
        },
    }
}
