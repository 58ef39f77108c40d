//! The entries of one function compared with one step of a path.

ghost use Rattle.std.specs.Prelude.{◌≡◌, ◌↔◌, Some, IsTrue, MatchOption};
ghost use Rattle.brc_check.specs.Entries.{end_of, StaysOn, IsBlocked};
ghost use Rattle.brc_check.specs.Filling.{entry_at};

use crate::refused::CodeAt;
use crate::state::same_state;
use crate::step::Step;
use brc_lang::CheckCode;
use brc_model::State;

/// Returns the entry of the point, or `None` if there is no such point.
pub fn entry_at(entries: &[Option<State>], at: usize) -> Option<State>
    ensures { result ≡ entry_at entries.now at }
{
    if at < entries.len() {
        entries[at]
    } else {
        None
    }
}

fn is_entry(entries: &[Option<State>], at: usize, state: &State) -> bool
    ensures { IsTrue result ↔ (entry_at entries.now at ≡ Some state.now) }
{
    match entry_at(entries, at) {
        None => false,
        Some(found) => same_state(&found, state),
    }
}

/// Returns the code and the point that keep the step from agreeing with the entries, or `None` if it agrees.
pub fn blocked(entries: &[Option<State>], at: usize, step: &Step) -> Option<CodeAt>
    ensures { MatchOption result (StaysOn (entry_at entries.now) (end_of at step.now))
        (λ m. IsBlocked (entry_at entries.now) (end_of at step.now) m.at m.code) }
{
    match *step {
        Step::Ends => None,
        Step::Error(code) => Some(CodeAt { at, code }),
        Step::To(next, arriving) => {
            if is_entry(entries, next, &arriving) {
                return None;
            }
            Some(CodeAt {
                at: next,
                code: CheckCode::StatesDiffer,
            })
        }
    }
}
