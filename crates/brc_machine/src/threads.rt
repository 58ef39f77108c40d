//! What a thread's status, its function and the rows that it has used say of its next step.

ghost use Rattle.std.specs.Prelude.{◌≡◌};
ghost use Rattle.brc_model.specs.Dispatch.{exit_of};
ghost use Rattle.brc_model.specs.Machine.{has_room, is_running};
ghost use Rattle.brc_model.specs.Safety.{has_gone};
ghost use Rattle.brc_model.specs.Threads.{function_at};

use brc_effect::rows::block_size;
use brc_lang::{Function, Instr};
use brc_model::{Choice, Exit, Layout, Status};

/// Returns whether a thread with the status runs: it has neither announced its exit nor gone.
pub fn is_running(status: Status) -> bool
    ensures { result ≡ is_running status }
{
    matches!(status, Status::Running)
}

/// Returns whether a thread with the status is gone.
pub fn has_gone(status: Status) -> bool
    ensures { result ≡ has_gone status }
{
    matches!(status, Status::Gone)
}

/// Returns the exit by which the choice ends a host call or a close.
#[inline(always)]
pub fn exit_of(choice: Choice) -> Exit
    ensures { result ≡ exit_of choice }
{
    match choice {
        Choice::Ok | Choice::Claim(_) | Choice::Stop => Exit::Success,
        Choice::Fault => Exit::Fault,
    }
}

/// Returns the function's instructions, or none if there is no such function.
pub fn code_of(functions: &[Function], function: usize) -> &[Instr]
    ensures { result.now ≡ (function_at functions.now function).code }
{
    match functions.get(function) {
        Some(f) => f.code.as_slice(),
        None => &[],
    }
}

/// Returns whether the thread, which has used `used` rows of its block, has a row left for a birth. Main's block is
/// full from the start.
pub fn has_room(layout: Layout, number: u8, used: u32) -> bool
    ensures { result ≡ has_room layout number used }
{
    used < block_size(layout, number)
}
