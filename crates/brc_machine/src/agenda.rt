//! A thread's agenda: the duties that it still has to do. The last duty of the vector is done next.

ghost use Rattle.std.specs.Prelude.{◌≡◌, ◌+◌, ◌≤◌, ◌++◌, reverse, vec_len, vec_capacity};
ghost use Rattle.brc_model.specs.Duties.{ready};
ghost use Rattle.brc_machine.specs.Agendas.{is_idle};
ghost use Rattle.brc_effect.specs.Effects.{duties_of};

use brc_effect::Next;
use brc_model::{Duty, Holding};

/// Adds the duties to the agenda, to be done before those that are in it already.
#[inline(always)]
pub fn push(agenda: &mut Vec<Duty>, next: Next)
    requires room { vec_len agenda.old + 4 ≤ vec_capacity agenda.old }
    ensures duties { reverse agenda.new.items ≡ duties_of next ++ reverse agenda.old.items }
    ensures room { vec_capacity agenda.old ≤ vec_capacity agenda.new }
{
    match next {
        Next::Nothing => (),
        Next::One(a) => agenda.push_reserved(a),
        Next::Two(a, b) => {
            agenda.push_reserved(b);
            agenda.push_reserved(a);
        }
        Next::Release { row, then } => {
            agenda.push_reserved(then);
            agenda.push_reserved(Duty::ReleaseLoad {
                row,
                holding: Holding::InFlight,
            });
        }
        Next::Three(a, b, c) => {
            agenda.push_reserved(c);
            agenda.push_reserved(b);
            agenda.push_reserved(a);
        }
    }
}

/// Removes the next duties for as long as they need no step: `Settle` with an empty chain, `Scan` of no rows, and
/// `TakeFound` of no marks.
#[inline(always)]
pub fn pass_over(agenda: &mut Vec<Duty>, head: u32)
    ensures duties { reverse agenda.new.items ≡ ready head (reverse agenda.old.items) }
    ensures room { vec_capacity agenda.old ≤ vec_capacity agenda.new }
{
    while let Some(duty) = agenda.last() {
        if !is_idle(*duty, head) {
            return;
        }
        agenda.pop();
    }
}

fn is_idle(duty: Duty, head: u32) -> bool
    ensures { result ≡ is_idle head duty }
{
    match duty {
        Duty::Settle => head == 0,
        Duty::Scan { rows, .. } => rows == 0,
        Duty::TakeFound { marks, .. } => marks == 0,
        _ => false,
    }
}
