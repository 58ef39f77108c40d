//! A schedule that is stepped while one allocation is refused: each call that takes memory says so, and made again it
//! goes on, so that the report is the same wherever memory was refused.

ghost use Rattle.std.specs.Prelude.{◌≡◌, ◌<◌, true, [], length, IfSome};
ghost use Rattle.brc_lang.specs.Grammar.{IsModule};
ghost use Rattle.brc_model.specs.Threads.{function_at};

use brc_check::{CheckCode, Checked, Table, infer, verify};
use brc_fixtures::is_callable;
use brc_lang::{FaultCode, Module, read};
use brc_model::{Call, Choice};
use brc_report::{Tally, write_tally};
use brc_schedule::{Schedule, read_schedule};
use brc_world::World;
use std::alloc::Global;
use std::test::*;

/// Worker 2 takes worker 1's number out of the root and queues it, and worker 1 closes it at its exit.
const OWN_AND_OTHER: &[u8] =
    b"module 1\nfunc own\nnum v1 7 else @12\nlock v0\nput v0 0 v1 else @3\nput v0 1 v1 else @4\nunlock v0\ndrop v1\n\
      none v1\nlock v0\nput v0 0 v1 else @9\nput v0 1 v1 else @10\nunlock v0\nret v1\nfail\nend\n\
      func other\nnone v1\nlock v0\nput v0 0 v1 else @3\nfetch v2 v0 1 else @5\nset v0 0 v2 else @5\nunlock v0\n\
      ret v1\nend\n";

const SCHEDULE: &[u8] =
    b"schedule 1\nworkers 2\nrows 4\ncall 1 own 1\ncall 2 other 1\nstep 1 ok 12\nstep 2 ok 1000\nstep 1 ok 1000\n\
      step 0 ok 1000\n";

const REPORT: &[u8] =
    b"threads 2\nrunning 0\ncreated 2\nclosed 2\nalive 0\nhost faults 0\nclose faults 0\n";

/// Each worker calls a function of its own once.
const CALLS: [Call; 2] = [
    Call {
        function: 0,
        times: 1,
    },
    Call {
        function: 1,
        times: 1,
    },
];

/// Where memory was refused first, if anywhere.
type Refusals = Option<&'static str>;

/// Reads the module, again if memory is refused.
fn module_of(alloc: Global, refused: &mut Refusals) -> Option<Module>
    ensures { IfSome result IsModule }
{
    for _ in 0..2 {
        match read(alloc, OWN_AND_OTHER) {
            Ok(module) => return Some(module),
            Err(fault) if fault.code == FaultCode::NoMemory => note(refused, "read"),
            Err(_) => return None,
        }
    }
    None
}

/// Infers the module's table, again if memory is refused.
fn table_of(alloc: Global, module: &Module, refused: &mut Refusals) -> Option<Table>
    requires { IsModule «module».now }
{
    for _ in 0..2 {
        match infer(alloc, module) {
            Ok(table) => return Some(table),
            Err(error) if error.code == CheckCode::NoMemory => note(refused, "infer"),
            Err(_) => return None,
        }
    }
    None
}

/// Infers the module's table and verifies it.
fn checked_of(alloc: Global, module: Module, refused: &mut Refusals) -> Option<Checked>
    requires { IsModule «module» }
{
    match table_of(alloc, &module, refused) {
        Some(table) => verify(module, table).ok(),
        None => None,
    }
}

/// Reads the schedule, again if memory is refused.
fn schedule_of(alloc: Global, refused: &mut Refusals) -> Option<Schedule> {
    for _ in 0..2 {
        match read_schedule(alloc, SCHEDULE) {
            Ok(schedule) => return Some(schedule),
            Err(fault) if fault.code == FaultCode::NoMemory => note(refused, "read_schedule"),
            Err(_) => return None,
        }
    }
    None
}

/// Notes where memory was refused.
fn note(refused: &mut Refusals, place: &'static str) {
    if refused.is_none() {
        *refused = Some(place);
    }
}

/// Takes each step of the schedule, again if memory is refused.
fn step_through(world: &mut World<'_>, schedule: &Schedule, refused: &mut Refusals) {
    for line in schedule.steps.as_slice() {
        for _ in 0..line.times {
            let thread = usize::from(line.thread);
            if thread < world.threads() && world.step(thread, line.choice).is_err() {
                note(refused, "step");
                let _ = world.step(thread, line.choice);
            }
        }
    }
}

/// Returns whether the report of the world is the wanted one. Asks again if memory is refused.
fn is_reported(alloc: Global, world: &World<'_>, refused: &mut Refusals) -> bool {
    for _ in 0..2 {
        match is_written(alloc, world) {
            Ok(is_wanted) => return is_wanted,
            Err(place) => note(refused, place),
        }
    }
    false
}

/// Writes the report of the world. Returns whether it is the wanted one, or where memory was refused.
fn is_written(alloc: Global, world: &World<'_>) -> Result<bool, &'static str> {
    match world.tally() {
        Ok(tally) => is_text(alloc, &tally),
        Err(_) => Err("tally"),
    }
}

fn is_text(alloc: Global, tally: &Tally) -> Result<bool, &'static str> {
    let mut report = Vec::new(alloc);
    match write_tally(tally, &mut report) {
        Ok(()) => Ok(report.as_slice() == REPORT),
        Err(_) => Err("report"),
    }
}

/// Steps the schedule over the module. Returns whether the report is the wanted one, or `None` if there is none.
fn stepped(alloc: Global, refused: &mut Refusals) -> Option<bool> {
    let module = module_of(alloc, refused)?;
    let checked = checked_of(alloc, module, refused)?;
    stepped_over(alloc, &checked, refused)
}

fn stepped_over(alloc: Global, checked: &Checked, refused: &mut Refusals) -> Option<bool> {
    if !is_callable(checked, 0) || !is_callable(checked, 1) {
        return None;
    }
    let schedule = schedule_of(alloc, refused)?;
    for _ in 0..2 {
        match World::new(alloc, checked, 2, 4, &CALLS) {
            Ok(mut world) => {
                step_through(&mut world, &schedule, refused);
                return Some(is_reported(alloc, &world, refused));
            }
            Err(_) => note(refused, "World::new"),
        }
    }
    None
}

/// Whichever allocation is refused, the call that was refused goes on when it is made again.
#[test]
fn each_refused_call_goes_on(rt: HostRuntime) {
    let mut refused = None;
    let is_reported = stepped(rt.alloc(), &mut refused);
    let _ = eprintln!(rt; "refused in {}", refused.unwrap_or("no call"));
    assert_eq!(rt; is_reported, Some(true));
}
