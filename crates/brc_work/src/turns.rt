//! How often the instructions `again` of a call have gone back.

ghost use Rattle.brc_work.specs.Performs.{CountsTurn};

use brc_model::Exit;

/// How often each instruction `again` of the function, by its point, has gone back in the call.
pub(crate) type Turns = [u16; 256];

/// The turns of a call that begins.
pub(crate) const NO_TURNS: Turns = [0; 256];

/// `again`: goes back if it has gone back less often than it may. A fault is the way back.
pub(crate) fn again(turns: &mut Turns, at: usize, times: u16) -> Exit
    ensures { CountsTurn at times result turns.old turns.new }
{
    if at >= turns.len() || turns[at] >= times {
        return Exit::Success;
    }
    turns[at] += 1;
    Exit::Fault
}
