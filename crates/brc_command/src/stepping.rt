//! The steps of a schedule over a module, both given as texts.

ghost use Rattle.std.specs.Prelude.{◌≡◌, ◌≢◌, ◌⊎◌, ◌<◌, length, IfOk, IfErr, OnOk, IsErrOf, MatchResult};
ghost use Rattle.std.specs.List.{All};
ghost use Rattle.brc_model.specs.Safety.{AreCalls};
ghost use Rattle.brc_schedule.specs.Text.{IsSchedule};
ghost use Rattle.brc_world.specs.Runs.{world_after, events_of_line, events_of};
ghost use Rattle.brc_world.specs.Tallies.{tally_of};
ghost use Rattle.brc_world.specs.Worlds.{model_of};
ghost use Rattle.brc_command.specs.declared.step_fault.StepFault.TheVariants.{Output};
ghost use Rattle.brc_command.specs.Calls.{calls_of};
ghost use Rattle.brc_command.specs.Texts.{last_world, HasTally, StepsTo, StepsTowards, IsFaultOfTexts};

use crate::ready::ready_of;
use crate::step_fault::StepFault;
use crate::terminal::{NoTerminal, Terminal, is_no_op, more_made};
use brc_check::Checked;
use brc_model::{Call, Choice};
use brc_report::{Tally, write_tally};
use brc_schedule::{Schedule, Steps};
use brc_world::{NoMemory, Scratch, World, runs_follow_machines, tallies_follow_machines};
use std::alloc::Global;
use std::io::Write;

/// The most steps that are taken before the terminal can show how far the run is.
const PART: u32 = 65_536;

/// Makes the schedule's steps over the module and writes the report of the world afterwards.
///
/// Returns the first reason why it can't: the module's text, the schedule's text, the check, a function's name, memory,
/// the writer. Nothing is written before the report.
pub fn step_text<W: Write>(
    alloc: Global,
    module: &[u8],
    schedule: &[u8],
    out: &mut W,
) -> Result<(), StepFault>
    ensures stepped { OnOk result (StepsTo module.now schedule.now (W.contents out.old) (W.contents out.new)) }
    ensures fault { IfErr result (λ e. (e ≡ Output) ⊎ IsFaultOfTexts module.now schedule.now e) }
    ensures unwritten { IfErr result (λ e. e ≢ Output → W.contents out.new ≡ W.contents out.old) }
    ensures begun { IsErrOf result Output → StepsTowards module.now schedule.now (W.contents out.old)
        (W.contents out.new) }
{
    step_text_on(alloc, module, schedule, &mut NoTerminal, out)
}

/// Does what `step_text` does, and shows how far it is.
pub fn step_text_on<T: Terminal, W: Write>(
    alloc: Global,
    module: &[u8],
    schedule: &[u8],
    terminal: &mut T,
    out: &mut W,
) -> Result<(), StepFault>
    ensures stepped { OnOk result (StepsTo module.now schedule.now (W.contents out.old) (W.contents out.new)) }
    ensures fault { IfErr result (λ e. (e ≡ Output) ⊎ IsFaultOfTexts module.now schedule.now e) }
    ensures unwritten { IfErr result (λ e. e ≢ Output → W.contents out.new ≡ W.contents out.old) }
    ensures begun { IsErrOf result Output → StepsTowards module.now schedule.now (W.contents out.old)
        (W.contents out.new) }
{
    runs_follow_machines();
    tallies_follow_machines();
    let tally = tally_of_texts(alloc, module, schedule, terminal)?;
    match write_tally(&tally, out) {
        Ok(()) => Ok(()),
        Err(_) => Err(StepFault::Output),
    }
}

fn tally_of_texts<T: Terminal>(
    alloc: Global,
    module: &[u8],
    schedule: &[u8],
    terminal: &mut T,
) -> Result<Tally, StepFault>
    ensures { MatchResult result (λ tally. HasTally module.now schedule.now tally)
        (λ e. IsFaultOfTexts module.now schedule.now e) }
{
    let ready = ready_of(alloc, module, schedule)?;
    let calls = ready.calls.as_slice();
    let tally = last_tally(alloc, &ready.checked, &ready.schedule, calls, terminal)?;
    Ok(tally)
}

fn last_tally<T: Terminal>(
    alloc: Global,
    checked: &Checked,
    schedule: &Schedule,
    calls: &[Call],
    terminal: &mut T,
) -> Result<Tally, NoMemory>
    requires fits { IsSchedule schedule.now }
    requires found { calls.now ≡ calls_of checked.now.module schedule.now.calls }
    requires calls_fit { AreCalls checked.now.module calls.now }
    ensures { IfOk result (λ tally. tally ≡ tally_of (last_world checked.now schedule.now)) }
{
    let workers = usize::from(schedule.workers);
    let mut scratch = Scratch::new(alloc)?;
    let mut world = World::new(alloc, checked, workers, schedule.rows, calls)?;
    let taken = take_lines(
        &mut world,
        schedule.steps.as_slice(),
        &mut scratch,
        terminal,
    );
    terminal.clear();
    taken?;
    world.tally()
}

/// Takes the steps of all lines in order.
fn take_lines<T: Terminal>(
    world: &mut World,
    lines: &[Steps],
    scratch: &mut Scratch,
    terminal: &mut T,
) -> Result<(), NoMemory>
    requires { All (λ line. line.thread < length world.old.actors) lines.now }
    ensures { OnOk result (model_of world.new ≡ world_after (model_of world.old) (events_of lines.now)) }
{
    let mut made = 0;
    for line in lines {
        look_at(world, *line, scratch, terminal)?;
        take_line(world, *line, made, terminal)?;
        made = made.saturating_add(u64::from(line.times));
    }
    Ok(())
}

/// Counts the line before a terminal, if it is a claim or a stop that will change nothing. The world stays as it is.
fn look_at<T: Terminal>(
    world: &World,
    line: Steps,
    scratch: &mut Scratch,
    terminal: &mut T,
) -> Result<(), NoMemory>
    requires { line.thread < length world.now.actors }
{
    match line.choice {
        Choice::Ok | Choice::Fault => Ok(()),
        Choice::Claim(_) | Choice::Stop => {
            let sight = world.next_event(scratch, usize::from(line.thread), line.choice)?;
            if is_no_op(&sight) {
                terminal.no_op();
            }
            Ok(())
        }
    }
}

/// Takes the steps of a line, in parts, after the steps that were made before.
fn take_line<T: Terminal>(
    world: &mut World,
    line: Steps,
    before: u64,
    terminal: &mut T,
) -> Result<(), NoMemory>
    requires { line.thread < length world.old.actors }
    ensures stepped { OnOk result (model_of world.new ≡ world_after (model_of world.old) (events_of_line line)) }
    ensures as_many { length world.new.actors ≡ length world.old.actors }
{
    let mut made = before;
    let mut left = line.times;
    while left > 0 {
        let times = left.min(PART);
        world.take_steps(Steps { times, ..line })?;
        left -= times;
        made = more_made(made, u64::from(times), terminal);
    }
    Ok(())
}
