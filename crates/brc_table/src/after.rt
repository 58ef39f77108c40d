//! What a hand keeps after a duty: its thread's chain, used rows and status, by the word found.
//!
//! Some duties have calls of their own: those that return more than the word found (`LockGate`, `CellSwap`), and
//! those on fields and resources, which have no word in the table.

ghost use Rattle.std.specs.Prelude.{◌≡◌, ◌-◌, ◌<◌, ◌^◌, ℕ};
ghost use Rattle.brc_model.specs.declared.layout.Layout.{Layout};
ghost use Rattle.brc_model.specs.declared.actor.Status.{Status};
ghost use Rattle.brc_model.specs.Duties.{address_of, new_head};
ghost use Rattle.brc_model.specs.Machine.{is_running, status_by, used_by};
ghost use Rattle.brc_table.specs.Rule.{reading};
ghost use Rattle.brc_table.specs.Accesses.{HasNextRow};

use brc_model::Duty;
use brc_word::next_of_dying;
use brc_word::values::{NOT_STARTED, RUNNING};

/// Returns what the duty's word says. A thread that isn't started yet counts as running.
#[inline(always)]
pub(crate) fn said_by(duty: Duty, word: u64) -> u64
    ensures { (layout : Layout) (thread head : ℕ) → result ≡ reading (address_of layout thread head duty) word }
{
    match duty {
        Duty::Look { .. } | Duty::Leave { .. } | Duty::Finish => {
            if word == NOT_STARTED { RUNNING } else { word }
        }
        _ => word,
    }
}

/// Returns the head of the thread's dying chain after the duty has found this word: 0, or a row plus 1.
#[inline(always)]
pub(crate) fn head_after(duty: Duty, head: u32, found: u64) -> u32
    requires row { HasNextRow duty }
    ensures { result ≡ new_head head duty found }
{
    match duty {
        Duty::Die { row } => row + 1,
        Duty::Settle => next_of_dying(found),
        _ => head,
    }
}

/// Returns how many rows of its block the thread has used after the duty.
#[inline(always)]
pub(crate) fn used_after(duty: Duty, used: u32) -> u32
    requires room { used < 2 ^ 32 - 1 }
    ensures { result ≡ used_by used duty }
{
    match duty {
        Duty::BirthLocal { .. } => used + 1,
        _ => used,
    }
}

/// Returns whether the thread runs after the duty.
#[inline(always)]
pub(crate) fn runs_after(duty: Duty, running: bool) -> bool
    ensures { (status : Status) → running ≡ is_running status → result ≡ is_running (status_by status duty) }
{
    match duty {
        Duty::Leave { .. } | Duty::Finish => false,
        _ => running,
    }
}
