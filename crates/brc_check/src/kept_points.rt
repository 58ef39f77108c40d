//! The points where paths meet: the first point of a function, and each target of an `else`, a `goto` or an `again`.

ghost use Rattle.std.specs.Prelude.{◌≡◌, ◌↔◌, ◌<◌, ◌≤◌, ◌||◌, ℕ, length, map, false, IfOk, IsFalse, IsTrue};
ghost use Rattle.std.specs.List.{slice_index_or};
ghost use Rattle.brc_lang.specs.Limits.{instruction_limit};
ghost use Rattle.brc_check.specs.Lookups.{HasOneExit};
ghost use Rattle.brc_check.specs.Tables.{is_kept, is_target, kept_points, point_of};
ghost use Rattle.brc_check.specs.Filling.{kept_entries};

use crate::entries::entry_at;
use crate::kept_entry::KeptEntry;
use brc_lang::{Instr, Sequence};
use brc_model::State;
use std::alloc::{AllocError, Global};

/// The greatest number of instructions of a function. Each point's number is below it.
pub const POINTS: usize = 256;

/// Returns whether the two exits of the instruction may lead to different points or leave different states.
pub fn has_two_exits(instr: &Instr) -> bool
    ensures { IsFalse result → HasOneExit instr.now }
{
    match instr {
        Instr::NoneObject { .. }
        | Instr::Take { .. }
        | Instr::Newref { .. }
        | Instr::Move { .. }
        | Instr::Drop { .. }
        | Instr::Lock { .. }
        | Instr::Unlock { .. }
        | Instr::Goto { .. }
        | Instr::Ret { .. }
        | Instr::Fail => false,
        _ => true,
    }
}

fn mark(marks: &mut [bool; POINTS], target: Option<u8>)
    ensures { (point : ℕ) → point < instruction_limit → slice_index_or marks.new point false
        ≡ slice_index_or marks.old point false || is_target point target }
{
    if let Some(target) = target {
        marks[target as usize] = true;
    }
}

/// Returns, for each number that a point may have, whether the point is kept.
pub fn marks_of(code: &[Instr]) -> [bool; POINTS]
    ensures { (point : ℕ) → point < instruction_limit → slice_index_or result point false ≡ is_kept code.now point }
{
    let mut marks = [false; POINTS];
    marks[0] = true;
    for instr in code {
        mark(&mut marks, instr.jump());
        mark(&mut marks, instr.turn());
    }
    marks
}

/// Returns the entries of the kept points.
pub fn keep(
    alloc: Global,
    code: &[Instr],
    entries: &[Option<State>],
) -> Result<Sequence<KeptEntry>, AllocError>
    requires { length code.now ≤ instruction_limit }
    ensures { IfOk result (λ kept. kept ≡ kept_entries code.now entries.now) }
{
    let marks = marks_of(code);
    let mut kept = Sequence::new(alloc);
    for at in 0..code.len() {
        if marks[at] {
            kept.push(KeptEntry {
                at,
                state: entry_at(entries, at),
            })?;
        }
    }
    Ok(kept)
}

/// Returns whether the entries are those of the kept points.
pub fn has_points(code: &[Instr], kept: &[KeptEntry]) -> bool
    requires { length code.now ≤ instruction_limit }
    ensures { IsTrue result ↔ (map point_of kept.now ≡ kept_points code.now) }
{
    let marks = marks_of(code);
    let mut number = 0;
    for at in 0..code.len() {
        if marks[at] {
            if number >= kept.len() || kept[number].at != at {
                return false;
            }
            number += 1;
        }
    }
    number == kept.len()
}
