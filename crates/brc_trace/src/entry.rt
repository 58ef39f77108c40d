//! The line of a step.

ghost use Rattle.std.specs.Prelude.{◌≡◌, ◌++◌, OnOk};
ghost use Rattle.brc_trace.specs.EntryTexts.{opening_text, naming_text, found_text, duty_text, event_text, entry_text};
ghost use Rattle.brc_trace.specs.EntryTexts.{depth_text, crossing_text};

use crate::depth::{Crossing, crossing_at};
use crate::line::Line;
use crate::outcome::{life_outcome, lock_outcome, phase_outcome, reference_outcome, show_outcome};
use crate::part::show_part;
use crate::past::Doing;
use crate::rule::rule_at;
use crate::word::show_word;
use brc_lang::Function;
use brc_model::{Address, Duty, Exit, Layout};
use brc_report::{Paint, Role};
use brc_world::{Event, Part, Sight};
use std::alloc::AllocError;

/// A step that has a line in the trace.
#[derive(Clone, Copy)]
pub struct Entry {
    /// The step's number in the schedule, from 1.
    pub number: u64,
    /// Main is 0, the workers are 1, 2, ..
    pub thread: u8,
    /// The part of the thread's work that the step belongs to, and how many of its calls are open as it begins.
    pub doing: Doing,
    pub sight: Sight,
}

/// Adds the line of the entry, with a line feed.
pub fn show_entry(
    paint: Paint,
    functions: &[Function],
    entry: &Entry,
    line: &mut Line,
) -> Result<(), AllocError>
    ensures { OnOk result (line.new ≡ line.old ++ entry_text paint functions.now entry.now) }
{
    show_opening(paint, entry.number, entry.thread, line)?;
    show_naming(paint, functions, entry, line)?;
    show_event(
        paint,
        entry.sight.layout,
        entry.sight.exit,
        entry.sight.event,
        line,
    )?;
    line.text("\n")
}

/// Adds the step's number and its thread.
#[tactic(auto, unfolding(crate::specs::EntryTexts::opening_text))]
pub fn show_opening(
    paint: Paint,
    number: u64,
    thread: u8,
    line: &mut Line,
) -> Result<(), AllocError>
    ensures { OnOk result (line.new ≡ line.old ++ opening_text paint number thread) }
{
    line.text(paint.on(Role::Aside))?;
    line.number(number)?;
    line.text(paint.off())?;
    line.text("  thread ")?;
    line.number(u64::from(thread))?;
    line.text("  ")
}

/// Adds the depth of a called function, the part that the step belongs to, the step's rule, and whether the thread
/// returns to the call that has made this one.
fn show_naming(
    paint: Paint,
    functions: &[Function],
    entry: &Entry,
    line: &mut Line,
) -> Result<(), AllocError>
    ensures { OnOk result (line.new ≡ line.old ++ naming_text paint functions.now entry.now) }
{
    let rule = rule_at(entry.thread, entry.sight.running, entry.sight.event);
    show_depth(entry.doing, line)?;
    line.text(paint.on(Role::Part))?;
    show_part(functions, entry.sight.function, entry.doing.part, line)?;
    line.text(paint.off())?;
    line.text("  ")?;
    line.text(paint.on(Role::Rule))?;
    line.text(rule.name())?;
    line.text(paint.off())?;
    show_crossing(
        paint,
        crossing_at(functions, entry.doing.depth, &entry.sight),
        line,
    )
}

/// Adds how many calls are open at an instruction, if it isn't one of an outermost call.
fn show_depth(doing: Doing, line: &mut Line) -> Result<(), AllocError>
    ensures { OnOk result (line.new ≡ line.old ++ depth_text doing.depth doing.part) }
{
    match doing.part {
        Part::Instruction { .. } if doing.depth > 1 => {
            line.text("depth ")?;
            line.number(doing.depth)?;
            line.text("  ")
        }
        _ => Ok(()),
    }
}

/// Adds that the thread returns to the call that has made this one, if it does.
fn show_crossing(paint: Paint, crossing: Crossing, line: &mut Line) -> Result<(), AllocError>
    ensures { OnOk result (line.new ≡ line.old ++ crossing_text paint crossing) }
{
    match crossing {
        Crossing::Returns => {
            line.text("  ")?;
            line.text(paint.on(Role::Life))?;
            line.text("returns to its caller")?;
            line.text(paint.off())
        }
        Crossing::Stays | Crossing::Enters => Ok(()),
    }
}

/// Adds the word of the step, and what the step brings about. `exit` is the exit by which a close ends.
fn show_event(
    paint: Paint,
    layout: Layout,
    exit: Exit,
    event: Event,
    line: &mut Line,
) -> Result<(), AllocError>
    ensures { OnOk result (line.new ≡ line.old ++ event_text paint layout exit event) }
{
    match event {
        Event::Silent | Event::Calls(_) => Ok(()),
        Event::Does {
            duty,
            address,
            found,
            left,
        } => {
            show_found(paint, layout, &duty, address, found, left, line)?;
            show_duty(paint, exit, &duty, address, found, left, line)
        }
    }
}

fn show_found(
    paint: Paint,
    layout: Layout,
    duty: &Duty,
    address: Address,
    found: u64,
    left: u64,
    line: &mut Line,
) -> Result<(), AllocError>
    ensures { OnOk result (line.new ≡ line.old ++ found_text paint layout duty.now address found left) }
{
    match address {
        Address::Field { .. } | Address::Resource { .. } => Ok(()),
        _ => {
            line.text("  ")?;
            line.text(paint.on(Role::Word))?;
            show_word(layout, duty, address, found, left, line)?;
            line.text(paint.off())
        }
    }
}

/// Adds what the duty brings about: of a reference, of a lock, of a state, of a life.
fn show_duty(
    paint: Paint,
    exit: Exit,
    duty: &Duty,
    address: Address,
    found: u64,
    left: u64,
    line: &mut Line,
) -> Result<(), AllocError>
    ensures { OnOk result (line.new ≡ line.old ++ duty_text paint exit duty.now address found left) }
{
    let second = show_outcome(paint, "  ", reference_outcome(duty, found), line)?;
    let third = show_outcome(paint, second, lock_outcome(duty, found), line)?;
    let last = show_outcome(paint, third, phase_outcome(address, found, left), line)?;
    let _end = show_outcome(paint, last, life_outcome(exit, duty, found, left), line)?;
    Ok(())
}
