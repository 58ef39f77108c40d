//! Paths through a function, followed by the checker's own steps.

ghost use Rattle.std.specs.Prelude.{◌≡◌};
ghost use Rattle.brc_model.specs.Paths.{path_end};
ghost use Rattle.brc_explain.specs.Walking.{place_of, onward};

use brc_check::{Exit, State, Step, entry_of, follow};
use brc_lang::{Function, Instr};

/// A point that a path reaches, and the state there; `None` once the path has ended the call or reported a code.
type Place = Option<(usize, State)>;

/// Returns where the path of these exits stands: the point that it reaches from the function's first instruction, and
/// the state there, or `None` if it has ended the call or reported a code.
pub fn reached(function: &Function, exits: &[Exit]) -> Place
    ensures { result ≡ place_of (path_end function.now exits.now) }
{
    let code = function.code.as_slice();
    let mut place = Some((0, entry_of(function.parameters.as_slice())));
    for exit in exits {
        place = onward(code, place, *exit);
    }
    place
}

/// Returns where a path stands after one exit more.
fn onward(code: &[Instr], place: Place, exit: Exit) -> Place
    ensures { result ≡ onward code.now place exit }
{
    let (at, state) = place?;
    if at >= code.len() {
        return None;
    }
    match follow(code, at, &state, exit) {
        Step::To(next, arriving) => Some((next, arriving)),
        Step::Ends | Step::Error(_) => None,
    }
}
