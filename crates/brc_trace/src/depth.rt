//! How many calls of a thread are open, as a trace sees it from the instructions that the thread begins.

ghost use Rattle.std.specs.Prelude.{◌≡◌, Some};
ghost use Rattle.brc_trace.specs.Depths.{ending, crossing_in, crossing_at, depth_after};

use brc_lang::{Function, Instr};
use brc_world::{Part, Sight};

/// What a step does with the calls of its thread.
#[derive(Clone, Copy)]
pub enum Crossing {
    /// As many are open as before.
    Stays,
    /// It calls a function.
    Enters,
    /// It returns to the call that has made this one.
    Returns,
}

/// Returns what the step does with the calls of its thread, of which as many are open: a call, and the end of one in
/// which more than one is open, are one step each.
pub fn crossing_at(functions: &[Function], depth: u64, sight: &Sight) -> Crossing
    ensures { result ≡ crossing_at functions.now depth sight.now }
{
    match sight.begins {
        Some(Part::Instruction { at }) => match functions.get(sight.function) {
            Some(function) => crossing_in(function, depth, at),
            None => Crossing::Stays,
        },
        _ => Crossing::Stays,
    }
}

/// Returns what the instruction of the function at a point does with the calls of its thread.
fn crossing_in(function: &Function, depth: u64, at: usize) -> Crossing
    ensures { result ≡ crossing_in depth (Some function.now) at }
{
    match function.code.as_slice().get(at) {
        Some(Instr::Call { .. }) => Crossing::Enters,
        Some(Instr::Ret { .. } | Instr::Fail) => ending(depth),
        _ => Crossing::Stays,
    }
}

/// Returns what the end of a call does: where more than one is open, the thread returns to the call that has made it.
fn ending(depth: u64) -> Crossing
    ensures { result ≡ ending depth }
{
    if depth > 1 {
        Crossing::Returns
    } else {
        Crossing::Stays
    }
}

/// Returns how many calls are open after the step.
pub fn depth_after(crossing: Crossing, depth: u64) -> u64
    ensures { result ≡ depth_after crossing depth }
{
    match crossing {
        Crossing::Stays => depth,
        Crossing::Enters => depth.saturating_add(1),
        Crossing::Returns => depth.saturating_sub(1),
    }
}
