ghost use Rattle.std.specs.Prelude.{◌≡◌, ◌≤◌, ◌∷◌, map, IfOk};
ghost use Rattle.brc_model.specs.Layout.{block_size};
ghost use Rattle.brc_model.specs.Limits.{block_limit};
ghost use Rattle.brc_model.specs.StepMachine.{main_actor, worker_actor};
ghost use Rattle.brc_world.specs.Actors.{actor_of};

use crate::open_calls::OpenCalls;
use crate::thread::{Mode, ROOM, Thread};
use brc_effect::rows::block_size;
use brc_machine::NoMemory;
use brc_model::{Call, Layout, Status};
use std::alloc::Global;

/// Returns main and one worker for each call, or `NoMemory` if memory is refused. Main has used all rows of its block.
pub fn first_threads(alloc: Global, layout: Layout, calls: &[Call]) -> Result<Vec<Thread>, NoMemory>
    requires { block_size layout 0 ≤ block_limit }
    ensures { IfOk result (λ threads. map actor_of threads.items ≡ main_actor layout ∷ map worker_actor calls.now) }
{
    let mut threads = Vec::with_capacity(alloc, 1 + calls.len())?;
    threads.push(Thread {
        function: 0,
        mode: Mode::Idle,
        left: 0,
        at: 0,
        variables: [None; 16],
        turns: [0; 256],
        outer: OpenCalls::new(alloc)?,
        status: Status::Running,
        agenda: Vec::with_capacity(alloc, ROOM)?,
        head: 0,
        used: block_size(layout, 0),
        locked: None,
        lent: None,
    })?;
    for call in calls {
        threads.push(Thread {
            function: call.function,
            mode: Mode::Idle,
            left: call.times,
            at: 0,
            variables: [None; 16],
            turns: [0; 256],
            outer: OpenCalls::new(alloc)?,
            status: Status::Running,
            agenda: Vec::with_capacity(alloc, ROOM)?,
            head: 0,
            used: 0,
            locked: None,
            lent: None,
        })?;
    }
    Ok(threads)
}
