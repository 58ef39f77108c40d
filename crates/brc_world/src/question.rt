//! What a step asks of the word that its duty finds, and where the thread goes on by the answer.

ghost use Rattle.std.specs.Prelude.{◌≡◌};
ghost use Rattle.brc_model.specs.StepMachine.{at_place};
ghost use Rattle.brc_world.specs.Actors.{actor_of, context_in};
ghost use Rattle.brc_world.specs.Questions.{outside_of, place_answered, IsAnswerable};

use crate::thread::{Mode, Thread};
use brc_effect::kinds::{cells_of, kind_of_word, same_kind};
use brc_lang::{Kind, Variable};
use brc_machine::objects::item_in;
use brc_model::Stage;

/// What a step asks of the word that its duty finds. The answer decides where the thread goes on.
#[derive(Clone, Copy)]
pub enum Question {
    /// Is the object of the kind, by its kind word? If so, the thread goes on where it is, and otherwise at
    /// `otherwise`.
    Kind { kind: Kind, otherwise: u8 },
    /// Has the list a cell with the index, by its kind word? If so, the thread is then inside its instruction.
    Range { index: u8, outside: Outside },
    /// Which item does the cell hold? The variable borrows it, and the thread goes on where it is. If the cell is
    /// empty, so is the variable, and the thread goes on at `otherwise`.
    Borrow { to: Variable, otherwise: u8 },
    /// Which item does the cell hold? The thread makes a reference to it next. If the cell is empty, so is the
    /// variable, and the thread goes on at `otherwise`.
    Fetch { to: Variable, otherwise: u8 },
}

/// What a thread does if its list has no cell with the index.
#[derive(Clone, Copy)]
pub enum Outside {
    /// It empties the variable, which gets no item, and goes on at `otherwise` (`borrow`, `fetch`).
    Empties { to: Variable, otherwise: u8 },
    /// It stays inside the instruction, to release what it wanted to store (`set`).
    Releases,
    /// It goes on at `otherwise` (`put`).
    GoesOn { otherwise: u8 },
}

/// Answers the question by the word found, and takes the thread to the place where it then goes on.
#[inline(always)]
pub fn answer(thread: &mut Thread, question: &Question, found: u64)
    requires { IsAnswerable question.now found }
    ensures { actor_of thread.new ≡ at_place (actor_of thread.old)
        (place_answered question.now found (context_in thread.old.left thread.old) thread.old.at thread.old.variables) }
{
    let left = thread.left;
    let here = thread.at;
    match *question {
        Question::Kind { kind, otherwise } => {
            let is_of_kind = same_kind(kind_of_word(found), kind);
            thread.go_to(
                left,
                if is_of_kind {
                    here
                } else {
                    usize::from(otherwise)
                },
            );
        }
        Question::Range { index, outside } => {
            if u32::from(index) < cells_of(found) {
                thread.mode = Mode::Inside(Stage::InRange);
            } else {
                miss(thread, outside);
            }
        }
        Question::Borrow { to, otherwise } => {
            let item = item_in(found);
            thread.set(to, item);
            thread.go_to(
                left,
                if item.is_some() {
                    here
                } else {
                    usize::from(otherwise)
                },
            );
        }
        Question::Fetch { to, otherwise } => match item_in(found) {
            Some(row) => thread.mode = Mode::Inside(Stage::Found { row }),
            None => {
                thread.set(to, None);
                thread.go_to(left, usize::from(otherwise));
            }
        },
    }
}

/// Takes the thread to where it goes on without a cell.
#[inline(always)]
fn miss(thread: &mut Thread, outside: Outside)
    ensures { actor_of thread.new ≡ at_place (actor_of thread.old)
        (outside_of outside (context_in thread.old.left thread.old) thread.old.at thread.old.variables) }
{
    let left = thread.left;
    match outside {
        Outside::Empties { to, otherwise } => {
            thread.set(to, None);
            thread.go_to(left, usize::from(otherwise));
        }
        Outside::Releases => thread.mode = Mode::Inside(Stage::OutOfRange),
        Outside::GoesOn { otherwise } => thread.go_to(left, usize::from(otherwise)),
    }
}
