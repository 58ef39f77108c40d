//! The calls and the events that a schedule's text lists, of a module that need not be one that the checker accepts.

ghost use Rattle.std.specs.Prelude.{◌≡◌, ◌++◌, map, IfErr, IfOk, OnOk};
ghost use Rattle.brc_model.specs.Safety.{AreCalls};
ghost use Rattle.brc_replay.specs.WrongRuns.{event_in};
ghost use Rattle.brc_schedule.specs.Text.{IsSchedule, Spells};
ghost use Rattle.brc_world.specs.Runs.{events_of, events_of_line};
ghost use Rattle.brc_command.specs.Calls.{calls_of, AreKnown};
ghost use Rattle.brc_command.specs.Texts.{IsListFault};

use crate::calls::calls_of;
use crate::step_fault::StepFault;
use crate::texts::schedule_of;
use brc_lang::Module;
use brc_model::Call;
use brc_replay::Event;
use brc_schedule::{Schedule, Steps};
use brc_world::NoMemory;
use std::alloc::Global;

/// A schedule, its calls, and the events of its steps.
#[derive(Drop)]
pub struct Listed {
    pub schedule: Schedule,
    pub calls: Vec<Call>,
    pub events: Vec<Event>,
}

/// Returns what the schedule's text lists. Returns the reason why it spells no schedule of the module, or `NoMemory`.
pub fn listed_of(alloc: Global, module: &Module, text: &[u8]) -> Result<Listed, StepFault>
    ensures spelled { IfOk result (λ listed. Spells text.now listed.schedule) }
    ensures fits { IfOk result (λ listed. IsSchedule listed.schedule) }
    ensures found { IfOk result (λ listed. listed.calls.items ≡ calls_of «module».now listed.schedule.calls) }
    ensures known { IfOk result (λ listed. AreKnown «module».now listed.schedule.calls) }
    ensures calls_fit { IfOk result (λ listed. AreCalls «module».now listed.calls.items) }
    ensures made { IfOk result (λ listed. map event_in listed.events.items ≡ events_of listed.schedule.steps) }
    ensures fault { IfErr result (λ e. IsListFault «module».now text.now e) }
{
    let schedule = schedule_of(alloc, text)?;
    let calls = calls_of(alloc, module, &schedule)?;
    let events = events_of(alloc, schedule.steps.as_slice())?;
    Ok(Listed {
        schedule,
        calls,
        events,
    })
}

/// Returns the events that the lines of a schedule list.
fn events_of(alloc: Global, lines: &[Steps]) -> Result<Vec<Event>, NoMemory>
    ensures { IfOk result (λ events. map event_in events.items ≡ events_of lines.now) }
{
    let mut events = Vec::new(alloc);
    for at in 0..lines.len() {
        add_events(&mut events, &lines[at])?;
    }
    Ok(events)
}

/// Adds the events that the line lists.
fn add_events(events: &mut Vec<Event>, line: &Steps) -> Result<(), NoMemory>
    ensures { OnOk result (map event_in events.new.items
        ≡ map event_in events.old.items ++ events_of_line line.now) }
{
    let event = Event {
        thread: line.thread as usize,
        choice: line.choice,
    };
    for _ in 0..line.times {
        events.push(event)?;
    }
    Ok(())
}
