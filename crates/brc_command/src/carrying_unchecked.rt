//! The commands about runs of modules that the checker may refuse.

ghost use Rattle.std.specs.Prelude.{◌≡◌, ◌≤◌};
ghost use Rattle.brc_lang.specs.Written.{AppendsBeginning};
ghost use Rattle.brc_command.specs.declared.step_fault.StepFault.TheVariants.{NoMemory};
ghost use Rattle.brc_command.specs.Commands.{Reports, BeginsReport};
ghost use Rattle.brc_command.specs.Lines.{fault_text};
ghost use Rattle.brc_command.specs.WholeRuns.{FilesReported, SaysWhy};
ghost use Rattle.brc_command.specs.WrongRuns.{EndsUnchecked, GoesWrong, HasFound, HasNone};

use crate::endings::write_ending;
use crate::explaining_runs::explain_run;
use crate::lines::write_stop;
use crate::load::Load;
use crate::replaying::replay;
use crate::save::Save;
use crate::terminal::Terminal;
use crate::unchecked::{Bounds, Unchecked};
use std::alloc::Global;
use std::io::Write;

/// Carries out the request and returns the exit status: 0, that of `Stop::status`, 1 for a run that goes wrong, and 2
/// for one that leaves the bounds of the machine.
///
/// If the status isn't 0, a line on standard error gives the reason. An error of standard error is ignored.
pub fn execute_unchecked<L: Load + Save, T: Terminal, W: Write, E: Write>(
    alloc: Global,
    asked: &Unchecked<'_>,
    load: &mut L,
    terminal: &mut T,
    out: &mut W,
    err: &mut E,
) -> u8
    ensures known { result ≤ 3 }
    ensures ends { EndsUnchecked (L.may_give load.old) (L.may_lack load.old) asked.now (W.contents out.old)
        (W.contents out.new) (E.contents err.old) (E.contents err.new) result }
{
    match *asked {
        Unchecked::Explain { file, bounds } => {
            explain_unchecked(alloc, file, bounds, load, terminal, out, err)
        }
        Unchecked::Step {
            file,
            schedule,
            trace,
            picture,
        } => step_unchecked(
            alloc, file, schedule, trace, picture, load, terminal, out, err,
        ),
    }
}

fn explain_unchecked<L: Load, T: Terminal, W: Write, E: Write>(
    alloc: Global,
    file: &str,
    bounds: Bounds,
    load: &mut L,
    terminal: &mut T,
    out: &mut W,
    err: &mut E,
) -> u8
    ensures known { result ≤ 3 }
    ensures accepted { result ≡ 0 → Reports (HasNone (L.may_give load.old) file.now) (W.contents out.old)
        (W.contents out.new) }
    ensures found { result ≡ 1 → BeginsReport (HasFound (L.may_give load.old) file.now bounds.workers bounds.rows)
        (W.contents out.old) (W.contents out.new) }
{
    match explain_run(alloc, file, bounds, load, terminal, out) {
        Ok(()) => 0,
        Err(stop) => {
            let _ = write_stop(&stop, err);
            stop.status()
        }
    }
}

fn step_unchecked<L: Load + Save, T: Terminal, W: Write, E: Write>(
    alloc: Global,
    file: &str,
    schedule: &str,
    trace: bool,
    picture: Option<&str>,
    load: &mut L,
    terminal: &mut T,
    out: &mut W,
    err: &mut E,
) -> u8
    ensures known { result ≤ 3 }
    ensures reported { result ≡ 0 → FilesReported (L.may_give load.old) file.now schedule.now trace
        (W.contents out.old) (W.contents out.new) }
    ensures silent { result ≡ 0 → E.contents err.new ≡ E.contents err.old }
    ensures wrong { result ≡ 1 → GoesWrong (L.may_give load.old) file.now schedule.now }
    ensures why { result ≡ 2 → SaysWhy (L.may_give load.old) (L.may_lack load.old) file.now schedule.now
        (E.contents err.old) (E.contents err.new) }
    ensures memory { result ≡ 3 → AppendsBeginning (E.contents err.old) (E.contents err.new) (fault_text NoMemory) }
{
    match replay(alloc, file, schedule, trace, picture, load, terminal, out) {
        Ok(ending) => {
            let _ = write_ending(&ending, err);
            ending.status()
        }
        // The module isn't checked, so no refusal gives status 1.
        Err(stop) => {
            let _ = write_stop(&stop, err);
            stop.status()
        }
    }
}
