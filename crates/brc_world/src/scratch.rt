//! The copy of a thread, on which a peek starts the thread's next step.

ghost use Rattle.std.specs.Prelude.{◌≡◌, ◌+◌, ◌≤◌, vec_len, vec_capacity, OnOk};
ghost use Rattle.brc_world.specs.Actors.{actor_of};

use crate::open_calls::OpenCalls;
use crate::thread::{Mode, ROOM, Thread};
use brc_machine::NoMemory;
use brc_model::Status;
use std::alloc::Global;

/// The memory in which a look at a thread's next step keeps a copy of the thread. It is of no thread and no world in
/// particular. It keeps its memory from look to look, so it needs no more than the longest agenda does.
#[derive(Drop)]
pub struct Scratch {
    pub thread: Thread,
}

impl Scratch {
    /// Returns a new one, or `NoMemory` if memory is refused.
    pub fn new(alloc: Global) -> Result<Scratch, NoMemory> {
        Ok(Scratch {
            thread: Thread {
                function: 0,
                mode: Mode::Idle,
                left: 0,
                at: 0,
                variables: [None; 16],
                turns: [0; 256],
                outer: OpenCalls::new(alloc)?,
                status: Status::Running,
                agenda: Vec::with_capacity(alloc, ROOM)?,
                head: 0,
                used: 0,
                locked: None,
                lent: None,
            },
        })
    }
}

/// Makes the copy the thread, with room for the duties of a step. Returns `NoMemory` if memory is refused.
pub fn copy_thread(thread: &Thread, copy: &mut Thread) -> Result<(), NoMemory>
    ensures actor { OnOk result (actor_of copy.new ≡ actor_of thread.now) }
    ensures room { OnOk result (vec_len copy.new.agenda + 8 ≤ vec_capacity copy.new.agenda) }
{
    copy.agenda.clear();
    copy.agenda.extend_from_slice(thread.agenda.as_slice())?;
    copy.agenda.reserve(ROOM)?;
    copy.outer.copy_from(&thread.outer)?;
    copy.function = thread.function;
    copy.mode = thread.mode;
    copy.left = thread.left;
    copy.at = thread.at;
    copy.variables = thread.variables;
    copy.turns = thread.turns;
    copy.status = thread.status;
    copy.head = thread.head;
    copy.used = thread.used;
    copy.locked = thread.locked;
    copy.lent = thread.lent;
    Ok(())
}
