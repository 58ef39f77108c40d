//! One step of a path.

ghost use Rattle.std.specs.Prelude.{◌≡◌, ◌<◌, length};
ghost use Rattle.brc_model.specs.Paths.{At, follow};
ghost use Rattle.brc_check.specs.Entries.{end_in, end_of};

use crate::instruction::{apply, refusal, target_of};
use brc_lang::{CheckCode, Instr};
use brc_model::{Exit, State};

/// The end of a step.
#[derive(Clone, Copy)]
pub enum Step {
    /// A point, and the state in which the path reaches it.
    To(usize, State),
    /// The end of the call.
    Ends,
    /// No point: the instruction where the step begins reports the code.
    Error(CheckCode),
}

/// The end of a step whose state is elsewhere.
#[derive(Clone, Copy)]
pub enum StepEnd {
    /// A point.
    To(usize),
    /// The end of the call.
    Ends,
    /// No point: the instruction where the step begins reports the code.
    Error(CheckCode),
}

/// Takes the step from a point, which the code has, by one exit of the instruction there. Where the step leads to a
/// point, the state becomes the one in which the path reaches it.
pub fn advance(code: &[Instr], at: usize, state: &mut State, exit: Exit) -> StepEnd
    requires { at < length code.now }
    ensures { end_in at result state.new ≡ follow code.now (At at state.old) exit }
{
    let instr = &code[at];
    if let Some(reported) = refusal(*instr, state) {
        return StepEnd::Error(reported);
    }
    let Some(next) = target_of(*instr, exit, at) else {
        return StepEnd::Ends;
    };
    if next >= code.len() {
        return StepEnd::Error(CheckCode::RunsOff);
    }
    apply(*instr, exit, state);
    StepEnd::To(next)
}

/// Returns the step from a point, which the code has, in a state by one exit of the instruction there.
///
/// An instruction that reports a code in the state is not taken: whatever the exit, the step ends with that code.
pub fn follow(code: &[Instr], at: usize, state: &State, exit: Exit) -> Step
    requires { at < length code.now }
    ensures { end_of at result ≡ follow code.now (At at state.now) exit }
{
    let mut arriving = *state;
    match advance(code, at, &mut arriving, exit) {
        StepEnd::To(next) => Step::To(next, arriving),
        StepEnd::Ends => Step::Ends,
        StepEnd::Error(reported) => Step::Error(reported),
    }
}
