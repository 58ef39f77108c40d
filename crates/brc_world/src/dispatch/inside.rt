//! The dispatch inside an instruction that takes several steps, by how far the thread is in it.

ghost use Rattle.std.specs.Prelude.{Some};
ghost use Rattle.brc_world.specs.Starts.{action_inside, CanDispatch, HasDispatched};

use crate::dispatch::Start;
use crate::dispatch::files::{lend_to_write, make_granted, put_back, use_lent};
use crate::dispatch::items::{give_up_item, put_retained, retain_found, use_cell};
use crate::thread::Thread;
use brc_lang::Instr;
use brc_model::{Layout, Stage};

/// Goes on inside the instruction.
#[inline(always)]
pub(super) fn go_on_inside(
    instr: Instr,
    stage: Stage,
    layout: Layout,
    number: u8,
    thread: &mut Thread,
    start: &mut Start,
)
    requires { CanDispatch thread.old }
    ensures { HasDispatched thread.old (action_inside layout number stage
        (Some instr) thread.old) start.new thread.new }
{
    match stage {
        Stage::InRange => use_cell(instr, thread, start),
        Stage::OutOfRange => give_up_item(instr, thread, start),
        Stage::Found { row } => retain_found(instr, row, thread, start),
        Stage::Retained => put_retained(instr, thread, start),
        Stage::Loaded => lend_to_write(instr, thread, start),
        Stage::Lent => use_lent(instr, thread, start),
        Stage::Called { exit } => put_back(instr, exit, thread, start),
        Stage::Granted => make_granted(instr, layout, number, thread, start),
    }
}
