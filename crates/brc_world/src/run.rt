//! The run of a schedule: its steps, in order.

ghost use Rattle.std.specs.Prelude.{◌≡◌, ◌<◌, length, OnOk, OnErr};
ghost use Rattle.std.specs.List.{All};
ghost use Rattle.brc_world.specs.Worlds.{model_of};
ghost use Rattle.brc_world.specs.Runs.{world_after, events_of_line, events_of, StandsWithin};

use crate::did::Did;
use crate::world::World;
use brc_machine::NoMemory;
use brc_schedule::{Schedule, Steps};

impl World<'_> {
    /// Takes the schedule's steps in order. It doesn't read the schedule's calls, with which the world has begun
    /// already. Returns `NoMemory` at the first step that is refused memory: the steps before it have been taken, and
    /// it would have changed the world.
    pub fn run(&mut self, schedule: &Schedule) -> Result<(), NoMemory>
        requires { All (λ line. line.thread < length self.old.actors) schedule.now.steps }
        ensures done { OnOk result (model_of self.new ≡ world_after (model_of self.old)
            (events_of schedule.now.steps)) }
        ensures stopped { OnErr result (StandsWithin (model_of self.old) (events_of schedule.now.steps)
            (model_of self.new)) }
        ensures as_many { length self.new.actors ≡ length self.old.actors }
    {
        for line in schedule.steps.as_slice() {
            self.take_steps(*line)?;
        }
        Ok(())
    }

    /// Takes the steps of one line of a schedule. Returns `NoMemory` at the first step that is refused memory: the
    /// steps before it have been taken, and it would have changed the world. Once the thread is gone, the rest of its
    /// steps change nothing, and are not tried.
    pub fn take_steps(&mut self, line: Steps) -> Result<(), NoMemory>
        requires { line.thread < length self.old.actors }
        ensures done { OnOk result (model_of self.new ≡ world_after (model_of self.old) (events_of_line line)) }
        ensures stopped { OnErr result (StandsWithin (model_of self.old) (events_of_line line) (model_of self.new)) }
        ensures as_many { length self.new.actors ≡ length self.old.actors }
    {
        let thread = usize::from(line.thread);
        for _ in 0..line.times {
            if let Did::Gone = self.step(thread, line.choice)? {
                return Ok(());
            }
        }
        Ok(())
    }
}
