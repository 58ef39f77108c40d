//! The checker's verdict on a text.

ghost use Rattle.std.specs.Prelude.{◌≡◌, IfOk, Ok, false, true};
ghost use Rattle.brc_lang.specs.Grammar.{Spells};
ghost use Rattle.brc_check.specs.Refusal.{IsForMemory};
ghost use Rattle.brc_c_outline.specs.Outlines.{IsBroken};
ghost use Rattle.brc_c_judge.specs.Texts.{BreaksOnly};
ghost use Rattle.brc_c_judge.specs.Verdicts.{IsVerdictOn};

use crate::only::breaks_only;
use brc_c_outline::{Outline, accepted_is_unbroken, is_broken, shows};
use brc_check::{Refused, check};
use brc_lang::{CheckCode, FaultCode, Module, one_reading, read};
use std::alloc::{AllocError, Global};

/// What a text is to show: a code that is reported at an instruction.
#[derive(Clone, Copy)]
pub struct Claim {
    /// The number of the instruction, from 0.
    pub at: usize,
    pub code: CheckCode,
}

/// A claim that the checker confirms. Only `judge` makes one.
#[derive(Clone, Copy)]
pub struct Finding {
    claim: Claim,
}

impl Finding {
    /// Returns what is confirmed.
    pub fn claim(&self) -> Claim {
        self.claim
    }
}

/// What the checker says of a text.
#[derive(Clone, Copy)]
pub enum Judged {
    /// It is accepted.
    Right,
    /// What is claimed of it is reported.
    Wrong(Finding),
    /// It isn't accepted, and something else is reported than what is claimed of it: whoever wrote the text or made the
    /// claim was wrong.
    Unconfirmed,
    /// It isn't found to have exactly the paths of its outline: whoever wrote the text was wrong.
    NoImage,
}

/// Returns the checker's verdict on a text that is to show an outline, and of which a fault is claimed, or none.
pub fn judge(
    alloc: Global,
    text: &[u8],
    outline: &Outline,
    claim: Option<Claim>,
) -> Result<Judged, AllocError>
    ensures { IfOk result (IsVerdictOn text.now outline.now claim) }
{
    match read(alloc, text) {
        Ok(spelled) => judge_module(alloc, text, outline, spelled, claim),
        Err(fault) => {
            if fault.code == FaultCode::NoMemory {
                Err(AllocError)
            } else {
                Ok(Judged::Unconfirmed)
            }
        }
    }
}

/// Returns the verdict on the module that a text spells.
fn judge_module(
    alloc: Global,
    text: &[u8],
    outline: &Outline,
    spelled: Module,
    claim: Option<Claim>,
) -> Result<Judged, AllocError>
    requires { Spells text.now spelled }
    ensures { IfOk result (IsVerdictOn text.now outline.now claim) }
{
    one_reading();
    accepted_is_unbroken();
    if !shows(alloc, &spelled, outline)? {
        return Ok(Judged::NoImage);
    }
    let refused = match check(alloc, spelled) {
        Ok(_) => return Ok(Judged::Right),
        Err(refused) => refused,
    };
    if is_for_memory(&refused) {
        return Err(AllocError);
    }
    let Some(claim) = claim else {
        return Ok(Judged::Unconfirmed);
    };
    if is_reported(claim, &refused) && breaks_just(alloc, outline, claim)? {
        Ok(Judged::Wrong(Finding { claim }))
    } else {
        Ok(Judged::Unconfirmed)
    }
}

/// Returns whether a path of the outline breaks the rule that is claimed, and none another.
fn breaks_just(alloc: Global, outline: &Outline, claim: Claim) -> Result<bool, AllocError>
    ensures broken { result ≡ Ok true → IsBroken outline.now claim.at claim.code }
    ensures only { result ≡ Ok true → BreaksOnly outline.now claim.at claim.code }
{
    if !breaks_only(outline, claim.at, claim.code) {
        return Ok(false);
    }
    is_broken(alloc, outline, claim.at, claim.code)
}

fn is_for_memory(refused: &Refused) -> bool
    ensures { result ≡ false → IsForMemory refused.now → ⊥ }
{
    refused.code == CheckCode::NoMemory
}

/// Returns whether the checker reports what is claimed.
fn is_reported(claim: Claim, refused: &Refused) -> bool
    ensures { result ≡ true → (claim.at ≡ refused.now.at) × (claim.code ≡ refused.now.code) }
{
    claim.at == refused.at && claim.code == refused.code
}
