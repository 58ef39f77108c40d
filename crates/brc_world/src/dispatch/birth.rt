//! The dispatch of `num` and `list`, which make an object.

ghost use Rattle.std.specs.Prelude.{◌≡◌, if◌then◌else◌, None, Some};
ghost use Rattle.brc_model.specs.Actions.{birth_action};
ghost use Rattle.brc_model.specs.Layout.{row_at};
ghost use Rattle.brc_model.specs.Machine.{has_room};
ghost use Rattle.brc_world.specs.Actors.{context_in};
ghost use Rattle.brc_world.specs.Starts.{CanDispatch, HasDispatched};

use crate::dispatch::Start;
use crate::thread::Thread;
use brc_effect::rows::{block_size, row_at};
use brc_lang::Variable;
use brc_model::{Duty, Layout};

/// Begins the birth of an object of the kind word in the variable. If the thread has no row left, it empties the
/// variable and goes on at `otherwise`.
#[inline(always)]
pub(super) fn birth(
    to: Variable,
    word: u64,
    otherwise: u8,
    layout: Layout,
    number: u8,
    thread: &mut Thread,
    left: u32,
    start: &mut Start,
)
    requires { CanDispatch thread.old }
    ensures { HasDispatched thread.old (birth_action layout number thread.old.used (context_in left thread.old)
        thread.old.at thread.old.variables to word otherwise) start.new thread.new }
{
    let next = thread.at + 1;
    match next_row(layout, number, thread.used) {
        Some(row) => {
            thread.set(to, Some(row));
            thread.go_to(left, next);
            *start = Start::Doing(Duty::BirthKind {
                row,
                holding: thread.holding(to),
                word,
            });
        }
        None => {
            thread.set(to, None);
            thread.go_to(left, usize::from(otherwise));
            *start = Start::Moved;
        }
    }
}

/// Returns the row of the thread's next birth, or `None` if its block is full, as main's always is.
fn next_row(layout: Layout, number: u8, used: u32) -> Option<u32>
    ensures { result ≡ (if has_room layout number used then Some (row_at layout number used) else None) }
{
    (used < block_size(layout, number)).then(|| row_at(layout, number, used))
}
