//! The part of its exit in which a thread is, by its agenda. The last duty of an agenda is done next.

ghost use Rattle.std.specs.Prelude.{◌≡◌, reverse};
ghost use Rattle.std.specs.List.{list_any};
ghost use Rattle.brc_machine.specs.Sights.{exit_part, is_leave, is_scan, leaves_next};

use crate::sight::ExitPart;
use brc_model::Duty;

/// Returns the part of its exit in which a thread with this agenda is.
#[tactic(auto, using(crate::proofs::Agendas::any_reversed))]
pub fn exit_part(agenda: &[Duty]) -> ExitPart
    ensures { result ≡ exit_part (reverse agenda.now) }
{
    if leaves_next(agenda) {
        ExitPart::Leave
    } else if leaves_later(agenda) {
        ExitPart::Root
    } else if scans(agenda) {
        ExitPart::Marks
    } else {
        ExitPart::Gone
    }
}

/// Returns whether the next duty announces the thread's exit.
pub fn leaves_next(agenda: &[Duty]) -> bool
    ensures { result ≡ leaves_next (reverse agenda.now) }
{
    match agenda.last() {
        Some(duty) => is_leave(*duty),
        None => false,
    }
}

/// Returns whether some duty announces the thread's exit.
pub fn leaves_later(agenda: &[Duty]) -> bool
    ensures { result ≡ list_any is_leave agenda.now }
{
    agenda.iter().any(|duty| is_leave(*duty))
}

/// Returns whether some duty scans the thread's marks.
pub fn scans(agenda: &[Duty]) -> bool
    ensures { result ≡ list_any is_scan agenda.now }
{
    agenda.iter().any(|duty| is_scan(*duty))
}

/// Returns whether the duty announces the thread's exit.
pub fn is_leave(duty: Duty) -> bool
    ensures { result ≡ is_leave duty }
{
    matches!(duty, Duty::Leave { .. })
}

/// Returns whether the duty scans the thread's marks.
pub fn is_scan(duty: Duty) -> bool
    ensures { result ≡ is_scan duty }
{
    matches!(duty, Duty::Scan { .. })
}
