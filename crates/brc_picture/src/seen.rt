//! What is kept of a run for its picture.

ghost use Rattle.std.specs.Prelude.{◌≡◌, ◌<◌, length};
ghost use Rattle.std.specs.List.{All};

use crate::recent::Recent;
use brc_lang::{Function, Module};
use brc_schedule::{Schedule, Steps};
use brc_trace::{Past, first_past};
use brc_world::{NoMemory, Scratch, Sight, World};
use std::alloc::{AllocError, Global};

/// The last steps of a run, whose machine may be any that shows its sights.
#[derive(Drop)]
pub struct Seen {
    past: Past,
    pub(crate) recent: Recent,
}

impl Seen {
    /// Returns what is seen of a run of this many threads before its first step.
    pub fn new(alloc: Global, threads: usize) -> Result<Seen, AllocError> {
        Ok(Seen {
            past: first_past(alloc, threads)?,
            recent: Recent::new(alloc),
        })
    }

    /// Sees the next step of the schedule, which is one of the thread: its sight, or `None` if the thread takes none.
    pub fn see(
        &mut self,
        functions: &[Function],
        thread: u8,
        sight: &Option<Sight>,
    ) -> Result<(), AllocError> {
        if usize::from(thread) < self.past.threads.len() {
            if let Some(sight) = sight {
                let entry = self.past.note(functions, thread, *sight);
                self.recent.add(entry)?;
            }
        }
        self.past.count(1);
        Ok(())
    }

    /// Counts steps that a thread can't take, because it is gone.
    pub fn count(&mut self, steps: u32) {
        self.past.count(steps);
    }
}

/// Takes the steps of the schedule, and returns what is seen of them. Returns `NoMemory` if memory is refused.
pub fn see_run(
    alloc: Global,
    module: &Module,
    world: &mut World,
    schedule: &Schedule,
) -> Result<Seen, NoMemory>
    requires threads { All (λ line. line.thread < length world.old.actors) schedule.now.steps }
{
    let mut seen = Seen::new(alloc, world.threads())?;
    let mut scratch = Scratch::new(alloc)?;
    let functions = module.functions.as_slice();
    for line in schedule.steps.as_slice() {
        see_line(functions, world, *line, &mut scratch, &mut seen)?;
    }
    Ok(seen)
}

fn see_line(
    functions: &[Function],
    world: &mut World,
    line: Steps,
    scratch: &mut Scratch,
    seen: &mut Seen,
) -> Result<(), NoMemory>
    requires { line.thread < length world.old.actors }
    ensures as_many { length world.new.actors ≡ length world.old.actors }
{
    let thread = usize::from(line.thread);
    for done in 0..line.times {
        if world.is_gone(thread) {
            seen.count(line.times - done);
            return Ok(());
        }
        match world.next_event(scratch, thread, line.choice) {
            Ok(sight) => seen.see(functions, line.thread, &sight)?,
            Err(_) => return Err(NoMemory),
        }
        world.step(thread, line.choice)?;
    }
    Ok(())
}
