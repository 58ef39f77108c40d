//! The check that the points of an outline break no rule but one.

ghost use Rattle.std.specs.Prelude.{◌≡◌, ℕ, Some, IsTrue, slice_get};
ghost use Rattle.brc_lang.specs.declared.check_code.CheckCode.{CheckCode};
ghost use Rattle.brc_c_outline.specs.declared.outline.Point.{Point};
ghost use Rattle.brc_c_outline.specs.Outlines.{IsThat, point_at};
ghost use Rattle.brc_c_judge.specs.Texts.{BreaksOnly};

use brc_c_outline::{Broken, Outline};
use brc_lang::CheckCode;

/// Returns whether no point of an outline breaks another rule than this one, or at another instruction.
pub(crate) fn breaks_only(outline: &Outline, at: usize, code: CheckCode) -> bool
    ensures { IsTrue result → BreaksOnly outline.now at code }
{
    for point in outline.points.iter() {
        if !is_only(point.broken, at, code) {
            return false;
        }
    }
    true
}

fn is_only(broken: Option<Broken>, at: usize, code: CheckCode) -> bool
    ensures { IsTrue result → (at' : ℕ) (code' : CheckCode) → IsThat broken at' code'
        → (at' ≡ at) × (code' ≡ code) }
{
    match broken {
        Some(broken) => broken.at == at && broken.code == code,
        None => true,
    }
}
