//! What a step brings about: what becomes of a reference of its thread, of an object's state or lock, and of its life.

ghost use Rattle.std.specs.Prelude.{◌≡◌, ◌++◌, OnOk, IfOk};
ghost use Rattle.brc_trace.specs.Outcomes.{reference_outcome, lock_outcome, phase_outcome, life_outcome};
ghost use Rattle.brc_trace.specs.Outcomes.{happens, fate_text, outcome_text, before_next};

use crate::line::Line;
use crate::word::show_of_row;
use brc_model::{Address, Duty, Exit, Reason};
use brc_report::{Paint, Role};
use brc_word::values::{FREE, MERGED, ONE_REFERENCE, QUEUED};
use brc_word::{is_dead, is_fresh, is_immortal};
use std::alloc::AllocError;

/// What a step brings about for one object.
#[derive(Clone, Copy)]
pub struct Outcome {
    /// The object's row.
    pub row: u32,
    pub fate: Fate,
}

/// What happens to an object or to a reference to it.
#[derive(Clone, Copy)]
pub enum Fate {
    /// The thread has a reference more.
    Gained,
    /// The thread has given a reference up.
    GivenUp,
    /// The object is in its owner's queue.
    Queued,
    /// The object's counts are merged.
    Merged,
    /// The thread has locked the object.
    Locked,
    /// The object is free again.
    Unlocked,
    /// The object is born.
    Born,
    /// No reference to the object is left.
    Dies,
    /// The host's call to close the object's resource faults.
    CloseFaults,
    /// The object is deallocated.
    Closed,
}

impl Fate {
    /// Returns what a trace says of the object's row, behind its number: a space, and then the words.
    pub fn text(self) -> &'static str
        ensures { result.now ≡ fate_text self }
    {
        match self {
            Fate::Gained => " gained",
            Fate::GivenUp => " given up",
            Fate::Queued => " queued",
            Fate::Merged => " merged",
            Fate::Locked => " locked",
            Fate::Unlocked => " unlocked",
            Fate::Born => " born",
            Fate::Dies => " dies",
            Fate::CloseFaults => " close faults",
            Fate::Closed => " closed",
        }
    }
}

/// Returns what becomes of a reference of the thread by the duty, whose step found this word.
pub fn reference_outcome(duty: &Duty, found: u64) -> Option<Outcome>
    ensures { result ≡ reference_outcome duty.now found }
{
    match *duty {
        Duty::RetainLoad { row, .. } if is_immortal(found) => happens(row, Fate::Gained),
        Duty::RetainStore { row, .. } | Duty::RetainAdd { row, .. } => happens(row, Fate::Gained),
        Duty::ReleaseLoad { row, .. } if is_immortal(found) => happens(row, Fate::GivenUp),
        Duty::ReleaseStore { row, .. } => happens(row, Fate::GivenUp),
        Duty::SharedExchange {
            row,
            reason: Reason::Own,
            word,
        } if found == word => happens(row, Fate::GivenUp),
        _ => None,
    }
}

/// Returns whether the duty locks or unlocks an object.
pub fn lock_outcome(duty: &Duty, found: u64) -> Option<Outcome>
    ensures { result ≡ lock_outcome duty.now found }
{
    match *duty {
        Duty::LockGate { row } if found == FREE => happens(row, Fate::Locked),
        Duty::UnlockGate { row } => happens(row, Fate::Unlocked),
        _ => None,
    }
}

/// Returns which state the object has now, if the word is a shared one whose state has changed.
pub fn phase_outcome(address: Address, found: u64, left: u64) -> Option<Outcome>
    ensures { result ≡ phase_outcome address found left }
{
    match address {
        Address::Shared { row } => {
            let phase = left % ONE_REFERENCE;
            if phase == found % ONE_REFERENCE {
                None
            } else if phase == QUEUED {
                happens(row, Fate::Queued)
            } else if phase == MERGED {
                happens(row, Fate::Merged)
            } else {
                None
            }
        }
        _ => None,
    }
}

/// Returns what becomes of an object's life by the duty. `exit` is the exit by which a close of a resource ends.
pub fn life_outcome(exit: Exit, duty: &Duty, found: u64, left: u64) -> Option<Outcome>
    ensures { result ≡ life_outcome exit duty.now found left }
{
    match *duty {
        Duty::BirthLocal { row, .. } => happens(row, Fate::Born),
        Duty::DecideAtZero { row } if is_fresh(found) => happens(row, Fate::Dies),
        Duty::SharedExchange { row, word, .. } if found == word && is_dead(left) => {
            happens(row, Fate::Dies)
        }
        Duty::MergeExchange {
            row,
            word,
            reason: Reason::Own,
            ..
        } if found == word && is_dead(left) => happens(row, Fate::Dies),
        Duty::CloseResource { row } if matches!(exit, Exit::Fault) => {
            happens(row, Fate::CloseFaults)
        }
        Duty::SettleEnd { row } => happens(row, Fate::Closed),
        _ => None,
    }
}

fn happens(row: u32, fate: Fate) -> Option<Outcome>
    ensures { result ≡ happens row fate }
{
    Some(Outcome { row, fate })
}

/// Adds the outcome, if there is one, behind the text `before`. Returns what separates the next one from the text
/// before it.
pub fn show_outcome(
    paint: Paint,
    before: &'static str,
    outcome: Option<Outcome>,
    line: &mut Line,
) -> Result<&'static str, AllocError>
    ensures text { OnOk result (line.new ≡ line.old ++ outcome_text paint before.now outcome) }
    ensures next { IfOk result (λ next. next.now ≡ before_next before.now outcome) }
{
    let Some(outcome) = outcome else {
        return Ok(before);
    };
    line.text(before)?;
    line.text(paint.on(Role::Life))?;
    show_of_row(u64::from(outcome.row), outcome.fate.text(), line)?;
    line.text(paint.off())?;
    Ok(", ")
}
