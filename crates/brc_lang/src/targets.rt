//! Where the instructions of a function lead.

ghost use Rattle.std.specs.Prelude.{◌≡◌};
ghost use Rattle.brc_lang.specs.Fault.{targets_fit};

use crate::module::Instr;

/// Returns whether each target behind `else` or `goto` is the number of a later instruction of the code, and each
/// target of `again` that of the instruction itself or of an earlier one.
pub(crate) fn targets_fit(code: &[Instr]) -> bool
    ensures { result ≡ targets_fit code.now }
{
    for (at, instr) in code.iter().enumerate() {
        if let Some(target) = instr.jump() {
            let target = usize::from(target);
            if target <= at || target >= code.len() {
                return false;
            }
        }
        if let Some(target) = instr.turn() {
            if usize::from(target) > at {
                return false;
            }
        }
    }
    true
}
