//! The picture of a run of any module, up to the first step that is wrong.

ghost use Rattle.std.specs.Prelude.{◌≡◌, ◌⊎◌, IfErr, IfOk};
ghost use Rattle.brc_command.specs.declared.step_fault.StepFault.TheVariants.{NoMemory as MemoryRefused, Output};
ghost use Rattle.brc_command.specs.Reruns.{Fits};

use crate::endings::Ending;
use crate::rerun::{Rerun, take_step};
use crate::save::Save;
use crate::step_fault::StepFault;
use brc_lang::Function;
use brc_picture::{Seen, Wrong, svg_text, touched_row};
use brc_plain::{Plain, Refused};
use brc_replay::Event;
use brc_world::{NoMemory, Sight};
use std::alloc::Global;

/// Saves the picture of the run, if there is a file for it, and returns how the run ends. Returns `Output` if that of a
/// whole run can't be saved, and `NoMemory`.
pub fn with_picture<S: Save>(
    alloc: Global,
    rerun: &Rerun<'_>,
    ending: Ending,
    picture: Option<&str>,
    save: &mut S,
) -> Result<Ending, StepFault>
    requires { Fits rerun.now }
    ensures same { IfOk result (λ same. same ≡ ending) }
    ensures fault { IfErr result (λ e. (e ≡ Output) ⊎ (e ≡ MemoryRefused)) }
{
    let Some(path) = picture else {
        return Ok(ending);
    };
    let svg = rerun_picture(alloc, rerun, &ending)?;
    let saved = save.save(path, svg.as_slice());
    // What is wrong is the reason also if the picture can't be saved.
    if saved.is_err() && matches!(&ending, Ending::Whole) {
        return Err(StepFault::Output);
    }
    Ok(ending)
}

/// What is left of a run once its steps are seen.
#[derive(Clone, Copy)]
enum Rest {
    /// The step can be followed by others.
    Goes,
    /// The machine takes no further step: this one, of the thread, is wrong or leaves the machine's bounds. `row` is
    /// the object whose word it accesses.
    Ends { thread: u8, row: Option<u32> },
}

/// Returns the picture of the run, as far as the machine goes.
fn rerun_picture(alloc: Global, rerun: &Rerun<'_>, ending: &Ending) -> Result<Vec<u8>, NoMemory>
    requires { Fits rerun.now }
{
    let functions = rerun.module.functions.as_slice();
    let mut plain = match Plain::first(alloc, rerun.module, rerun.rows, rerun.calls) {
        Ok(plain) => plain,
        Err(Refused::OutOfBounds) => {
            let nothing = Seen::new(alloc, 0)?;
            return Ok(svg_text(alloc, functions, &nothing, None)?);
        }
        Err(Refused::NoMemory) => return Err(NoMemory),
    };
    let mut seen = Seen::new(alloc, plain.threads())?;
    let mut rest = Rest::Goes;
    for event in rerun.events {
        if let Rest::Goes = rest {
            rest = see_step(alloc, functions, &mut plain, *event, &mut seen)?;
        }
    }
    let wrong = wrong_at(ending, &rest, plain.lost());
    Ok(svg_text(alloc, functions, &seen, wrong)?)
}

/// Sees the step, and takes it unless it is wrong.
fn see_step(
    alloc: Global,
    functions: &[Function],
    plain: &mut Plain<'_>,
    event: Event,
    seen: &mut Seen,
) -> Result<Rest, NoMemory> {
    let Ok(thread) = u8::try_from(event.thread) else {
        return Ok(Rest::Goes);
    };
    let sight = match plain.sight(alloc, event.thread, event.choice) {
        Ok(sight) => sight,
        Err(Refused::OutOfBounds) => None,
        Err(Refused::NoMemory) => return Err(NoMemory),
    };
    let row = row_of(&sight);
    seen.see(functions, thread, &sight)?;
    match take_step(alloc, plain, event) {
        Ok(true) => Ok(Rest::Goes),
        Ok(false) | Err(Refused::OutOfBounds) => Ok(Rest::Ends { thread, row }),
        Err(Refused::NoMemory) => Err(NoMemory),
    }
}

fn row_of(sight: &Option<Sight>) -> Option<u32> {
    match sight {
        Some(sight) => touched_row(&sight.event),
        None => None,
    }
}

/// Returns what is wrong at the end of the run, if that is said of it.
fn wrong_at<'e>(ending: &'e Ending, rest: &Rest, lost: Option<u32>) -> Option<Wrong<'e>> {
    let Ending::Wrong(text) = ending else {
        return None;
    };
    let reason = text.as_slice();
    match (rest, lost) {
        (Rest::Ends { thread, row }, _) => Some(Wrong::Step {
            thread: *thread,
            row: *row,
            reason,
        }),
        (Rest::Goes, Some(row)) => Some(Wrong::Lost { row, reason }),
        (Rest::Goes, None) => None,
    }
}
