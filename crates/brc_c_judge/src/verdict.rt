//! The verdict on a function.

ghost use Rattle.std.specs.Prelude.{◌≡◌, [], IfOk, Some, IsTrue};
ghost use Rattle.brc_c_judge.specs.Texts.{IsConfirmed, claim_of};
ghost use Rattle.brc_c_judge.specs.Verdicts.{IsVerdictOn, IsVerdictOf, IsFound, IsOfRight, IsOfFaults};

use crate::accepted::Accepted;
use crate::confirmed::Confirmed;
use crate::judging::{Claim, Judged, judge};
use brc_c_graph::Graph;
use brc_c_image::{Image, Size, Text, image_of};
use brc_c_paths::Fault;
use brc_c_store::Rules;
use std::alloc::{AllocError, Global};

/// What is found of a function.
#[derive(Drop)]
pub enum Verdict {
    /// The checker accepts its modules: the first one, and those of its further parts.
    Right(Accepted, Vec<Accepted>),
    /// Its faults, each of which the checker confirms.
    Wrong(Vec<Confirmed>),
    TooLarge(Size),
    /// The checker doesn't confirm what the modules are said to show: these faults, or if there is none, that the
    /// function is right. That is an error of this program, and no verdict on the function.
    Unconfirmed(Vec<Fault>),
    /// A module hasn't the paths of its outline, or what is found isn't just what the paths of the graph do. That is an
    /// error of this program, too.
    NoImage,
}

/// Returns the verdict on a function of C by its graph. The name may be any.
pub fn judge_function(
    alloc: Global,
    rules: Rules,
    graph: &Graph,
    name: &[u8],
) -> Result<Verdict, AllocError>
    ensures { IfOk result (IsVerdictOf rules graph.now) }
{
    match image_of(alloc, rules, graph, name)? {
        Image::TooLarge(size) => Ok(Verdict::TooLarge(size)),
        Image::Right(texts) => judge_right(alloc, texts),
        Image::Wrong(faults, texts) => judge_faults(alloc, faults, texts),
        Image::Unmatched => Ok(Verdict::NoImage),
    }
}

/// What is found of one text.
#[derive(Drop)]
enum Found {
    Accepted(Accepted),
    Unconfirmed,
    NoImage,
}

fn judge_right(alloc: Global, texts: Vec<Text>) -> Result<Verdict, AllocError>
    ensures { IfOk result (IsOfRight texts.items) }
{
    let mut accepted = Vec::new(alloc);
    for text in texts {
        match accept(alloc, text)? {
            Found::Accepted(text) => accepted.push(text)?,
            Found::Unconfirmed => return Ok(Verdict::Unconfirmed(Vec::new(alloc))),
            Found::NoImage => return Ok(Verdict::NoImage),
        }
    }
    if accepted.is_empty() {
        return Ok(Verdict::Unconfirmed(Vec::new(alloc)));
    }
    let first = accepted.remove(0);
    Ok(Verdict::Right(first, accepted))
}

/// Returns a text as an accepted one, if the checker accepts it.
fn accept(alloc: Global, text: Text) -> Result<Found, AllocError>
    ensures { IfOk result (IsFound text) }
{
    match judge(alloc, text.bytes.as_slice(), &text.outline, None)? {
        Judged::Right => Ok(Found::Accepted(Accepted::new(text))),
        Judged::Wrong(_) | Judged::Unconfirmed => Ok(Found::Unconfirmed),
        Judged::NoImage => Ok(Found::NoImage),
    }
}

fn judge_faults(alloc: Global, faults: Vec<Fault>, texts: Vec<Text>) -> Result<Verdict, AllocError>
    ensures { IfOk result (IsOfFaults faults.items texts.items) }
{
    let mut texts = texts.into_iter();
    let mut confirmed = Vec::new(alloc);
    let mut unconfirmed = Vec::new(alloc);
    for fault in faults {
        let Some(text) = texts.next() else {
            return Ok(Verdict::NoImage);
        };
        if !judge_fault(alloc, fault, text, &mut confirmed, &mut unconfirmed)? {
            return Ok(Verdict::NoImage);
        }
    }
    if texts.next().is_some() {
        return Ok(Verdict::NoImage);
    }
    if unconfirmed.is_empty() {
        Ok(Verdict::Wrong(confirmed))
    } else {
        Ok(Verdict::Unconfirmed(unconfirmed))
    }
}

/// Adds a fault to those that the checker confirms, or to the others. Returns whether its text has the paths of its
/// outline.
fn judge_fault(
    alloc: Global,
    fault: Fault,
    text: Text,
    confirmed: &mut Vec<Confirmed>,
    unconfirmed: &mut Vec<Fault>,
) -> Result<bool, AllocError>
    ensures { IfOk result (λ is_image. IsTrue is_image → unconfirmed.new.items ≡ []
        → (unconfirmed.old.items ≡ [])
        × IsConfirmed (record { fault = fault; text = text }) confirmed.old.items confirmed.new.items) }
{
    match confirm(alloc, &fault, &text)? {
        Judged::Wrong(_) => {
            confirmed.push(Confirmed::new(fault, text))?;
            Ok(true)
        }
        Judged::Right | Judged::Unconfirmed => {
            unconfirmed.push(fault)?;
            Ok(true)
        }
        Judged::NoImage => Ok(false),
    }
}

/// Returns the checker's verdict on the text of a fault: *wrong* only if it reports the fault where its text says so.
fn confirm(alloc: Global, fault: &Fault, text: &Text) -> Result<Judged, AllocError>
    ensures { IfOk result (IsVerdictOn text.now.bytes.items text.now.outline
        (Some (claim_of fault.now text.now))) }
{
    let claim = Claim {
        at: text.at,
        code: fault.code,
    };
    judge(alloc, text.bytes.as_slice(), &text.outline, Some(claim))
}
