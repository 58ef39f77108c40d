//! The trace of a schedule's run.

ghost use Rattle.std.specs.Prelude.{◌≡◌, ◌<◌, [], ◌∷◌, length, OnOk, OnErr};
ghost use Rattle.std.specs.List.{All};
ghost use Rattle.std.specs.Io.KnownBytes.{Appends};
ghost use Rattle.brc_lang.specs.Written.{AppendsBeginning};
ghost use Rattle.brc_world.specs.Runs.{world_after, events_of_line, events_of};
ghost use Rattle.brc_world.specs.Worlds.{model_of};
ghost use Rattle.brc_trace.specs.TraceText.{past_by, past_at, text_by, text_at, trace_text};
ghost use Rattle.brc_trace.specs.TraceText.{StandsAmong, IsTraced, StopsAmong};

use crate::entry::show_entry;
use crate::fault::TraceFault;
use crate::line::Line;
use crate::no_op::{is_step_line, show_no_op};
use crate::past::{Past, first_past};
use brc_lang::{Function, Module, write_bytes};
use brc_model::Choice;
use brc_report::Paint;
use brc_schedule::{Schedule, Steps};
use brc_world::{Scratch, Sight, World};
use std::alloc::{AllocError, Global};
use std::io::Write;

/// Takes the steps of the schedule, and writes a line for each of them, and for each claim that may not be made, and
/// each stop of a thread that can't stop where it is. Other steps of a thread that is gone have no line.
///
/// The schedule's calls are not read: the world, which is one of the module, has begun with them. Each line is written
/// once its step is taken. Returns `NoMemory` if memory is refused, and `Output` if the writer returns an error. Then a
/// beginning of the trace is written, and some of the steps are taken.
pub fn trace<W: Write>(
    alloc: Global,
    module: &Module,
    world: &mut World,
    schedule: &Schedule,
    paint: Paint,
    out: &mut W,
) -> Result<(), TraceFault>
    requires threads { All (λ line. line.thread < length world.old.actors) schedule.now.steps }
    requires functions { «module».now.functions ≡ (model_of world.old).functions }
    ensures made { OnOk result (model_of world.new ≡ world_after (model_of world.old) (events_of schedule.now.steps)) }
    ensures whole { OnOk result (Appends (W.contents out.old) (W.contents out.new)
        (trace_text paint (model_of world.old) (events_of schedule.now.steps))) }
    ensures stopped { OnErr result (StandsAmong (model_of world.old) (events_of schedule.now.steps)
        (model_of world.new)) }
    ensures begun { OnErr result (AppendsBeginning (W.contents out.old) (W.contents out.new)
        (trace_text paint (model_of world.old) (events_of schedule.now.steps))) }
    ensures as_many { length world.new.actors ≡ length world.old.actors }
{
    let mut tracer = Tracer {
        past: first_past(alloc, world.threads())?,
        line: Line::new(alloc),
        scratch: Scratch::new(alloc)?,
    };
    let functions = module.functions.as_slice();
    tracer.trace_lines(paint, functions, world, schedule.steps.as_slice(), out)
}

/// What writes a trace: what it remembers of the steps before, and the memory in which it puts a line together.
#[derive(Drop)]
pub struct Tracer {
    pub past: Past,
    pub line: Line,
    pub scratch: Scratch,
}

impl Tracer {
    /// Takes the steps of the schedule's lines in order, and writes the lines of the steps.
    fn trace_lines<W: Write>(
        &mut self,
        paint: Paint,
        functions: &[Function],
        world: &mut World,
        lines: &[Steps],
        out: &mut W,
    ) -> Result<(), TraceFault>
        requires there { All (λ line. line.thread < length world.old.actors) lines.now }
        requires fits { length self.old.past.threads ≡ length world.old.actors }
        ensures traced { OnOk result (IsTraced paint functions.now (model_of world.old) self.old.past
            (events_of lines.now) (model_of world.new) self.new.past (W.contents out.old) (W.contents out.new)) }
        ensures stopped { OnErr result (StopsAmong paint functions.now (model_of world.old) self.old.past
            (events_of lines.now) (model_of world.new) (W.contents out.old) (W.contents out.new)) }
        ensures as_many { length world.new.actors ≡ length world.old.actors }
    {
        for line in lines {
            self.trace_steps(paint, functions, world, *line, out)?;
        }
        Ok(())
    }

    /// Takes the steps of one line of a schedule, and writes the lines of the steps. Once the thread is gone, the rest
    /// of its steps change nothing and have no line, unless it is a claim or a stop: they are counted and not tried.
    fn trace_steps<W: Write>(
        &mut self,
        paint: Paint,
        functions: &[Function],
        world: &mut World,
        steps: Steps,
        out: &mut W,
    ) -> Result<(), TraceFault>
        requires there { steps.thread < length world.old.actors }
        requires fits { length self.old.past.threads ≡ length world.old.actors }
        ensures traced { OnOk result (IsTraced paint functions.now (model_of world.old) self.old.past
            (events_of_line steps) (model_of world.new) self.new.past (W.contents out.old) (W.contents out.new)) }
        ensures stopped { OnErr result (StopsAmong paint functions.now (model_of world.old) self.old.past
            (events_of_line steps) (model_of world.new) (W.contents out.old) (W.contents out.new)) }
        ensures as_many { length world.new.actors ≡ length world.old.actors }
        ensures remembers { OnOk result (length self.new.past.threads ≡ length self.old.past.threads) }
    {
        for done in 0..steps.times {
            if is_step_line(steps.choice) {
                if world.is_gone(usize::from(steps.thread)) {
                    self.past.count(steps.times - done);
                    return Ok(());
                }
            }
            self.trace_step(paint, functions, world, steps.thread, steps.choice, out)?;
        }
        Ok(())
    }

    /// Takes one step of the thread, and then writes its line, if it has one. So each line that is written is of a step
    /// that was taken.
    fn trace_step<W: Write>(
        &mut self,
        paint: Paint,
        functions: &[Function],
        world: &mut World,
        thread: u8,
        choice: Choice,
        out: &mut W,
    ) -> Result<(), TraceFault>
        requires there { thread < length world.old.actors }
        requires fits { length self.old.past.threads ≡ length world.old.actors }
        ensures traced { OnOk result (IsTraced paint functions.now (model_of world.old) self.old.past
            ((thread, choice) ∷ []) (model_of world.new) self.new.past (W.contents out.old) (W.contents out.new)) }
        ensures stopped { OnErr result (StopsAmong paint functions.now (model_of world.old) self.old.past
            ((thread, choice) ∷ []) (model_of world.new) (W.contents out.old) (W.contents out.new)) }
        ensures as_many { length world.new.actors ≡ length world.old.actors }
        ensures remembers { OnOk result (length self.new.past.threads ≡ length self.old.past.threads) }
    {
        self.prepare(paint, functions, world, thread, choice)?;
        world.step(usize::from(thread), choice)?;
        match write_bytes(self.line.as_bytes(), out) {
            Ok(()) => Ok(()),
            Err(_) => Err(TraceFault::Output),
        }
    }

    /// Looks at the thread's next step, puts its line together, if it has one, and remembers the step.
    fn prepare(
        &mut self,
        paint: Paint,
        functions: &[Function],
        world: &World,
        thread: u8,
        choice: Choice,
    ) -> Result<(), TraceFault>
        requires there { thread < length world.now.actors }
        requires fits { length self.old.past.threads ≡ length world.now.actors }
        ensures line { OnOk result (self.new.line ≡ text_at paint functions.now (model_of world.now) self.old.past
            (thread, choice)) }
        ensures past { OnOk result (self.new.past ≡ past_at functions.now (model_of world.now) self.old.past
            (thread, choice)) }
        ensures remembers { OnOk result (length self.new.past.threads ≡ length self.old.past.threads) }
    {
        match world.next_event(&mut self.scratch, usize::from(thread), choice) {
            Ok(sight) => Ok(self.show(paint, functions, thread, choice, &sight)?),
            Err(_) => Err(TraceFault::NoMemory),
        }
    }

    fn show(
        &mut self,
        paint: Paint,
        functions: &[Function],
        thread: u8,
        choice: Choice,
        sight: &Option<Sight>,
    ) -> Result<(), AllocError>
        requires { thread < length self.old.past.threads }
        ensures line { OnOk result (self.new.line ≡ text_by paint functions.now self.old.past thread choice
            sight.now) }
        ensures past { OnOk result (self.new.past ≡ past_by functions.now self.old.past thread sight.now) }
        ensures remembers { OnOk result (length self.new.past.threads ≡ length self.old.past.threads) }
    {
        self.line.clear();
        if let Some(sight) = sight {
            let entry = self.past.note(functions, thread, *sight);
            show_entry(paint, functions, &entry, &mut self.line)?;
        } else {
            show_no_op(paint, self.past.number, thread, choice, &mut self.line)?;
        }
        self.past.count(1);
        Ok(())
    }
}
