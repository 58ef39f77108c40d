//! Which calls a search tries, one after another.

ghost use Rattle.std.specs.Prelude.{◌<◌, ◌≤◌, map, IfOk, IfSome};
ghost use Rattle.brc_lang.specs.Grammar.{IsModule};
ghost use Rattle.brc_model.specs.Limits.{row_limit};
ghost use Rattle.brc_replay.specs.WrongRuns.{event_in, IsWrongRun};

use crate::possible::is_possible;
use crate::search::{ItemRead, Order, Watch, find};
use brc_lang::{Function, Instr, Module};
use brc_model::Call;
use brc_plain::Refused;
use brc_replay::Event;
use std::alloc::Global;

/// One worker is tried with all rows, and with each number of rows below this one.
const FEW_ROWS: u16 = 8;

/// How far a search goes.
#[derive(Clone, Copy)]
pub struct Bounds {
    /// The most workers, 1 to 32.
    pub workers: u8,
    /// The most rows of each worker, 1 to 1024.
    pub rows: u16,
    /// The most states.
    pub states: usize,
}

/// A run that goes wrong.
#[derive(Drop)]
pub struct Run {
    /// The rows of each worker.
    pub rows: u16,
    pub calls: Vec<Call>,
    pub events: Vec<Event>,
}

/// Calls that a search tries.
#[derive(Drop)]
struct Plan {
    rows: u16,
    calls: Vec<Call>,
    order: Order,
}

/// Looks for a run that goes wrong of a module whose function of this number is refused. First one worker calls the
/// function once and then twice, without main and then beside it, with all rows and then with fewer, so that there are
/// objects for which it has none. Then there are more workers, one of which calls it and the others it or another
/// function. If the function has parameters, those that call it are called. All searches together visit no more states
/// than the bounds say.
pub fn find_run<W: Watch>(
    alloc: Global,
    module: &Module,
    function: usize,
    bounds: Bounds,
    watch: &mut W,
) -> Result<Option<Run>, Refused>
    requires fits { IsModule «module».now }
    requires some_rows { 0 < bounds.rows }
    requires most_rows { bounds.rows ≤ row_limit }
    ensures { IfOk result (λ found. IfSome found (λ run.
        IsWrongRun «module».now run.rows run.calls.items (map event_in run.events.items))) }
{
    let plans = plans(alloc, module.functions.as_slice(), function, bounds)?;
    let mut left = bounds.states;
    let mut searches = plans.len();
    let mut before = 0usize;
    for plan in plans {
        if !is_possible(module, plan.rows, plan.calls.as_slice()) {
            continue;
        }
        // What a search leaves of its share is for those after it.
        let share = left / searches.max(1);
        let found = find(
            alloc,
            module,
            plan.rows,
            plan.calls.as_slice(),
            plan.order,
            share,
            &mut Later { before, watch },
        )?;
        if let Some(events) = found.events {
            return Ok(Some(Run {
                rows: plan.rows,
                calls: plan.calls,
                events,
            }));
        }
        left = left.saturating_sub(found.states);
        before = before.saturating_add(found.states);
        searches = searches.saturating_sub(1);
    }
    Ok(None)
}

/// Who waits for a search behind others.
#[derive(Drop)]
struct Later<'w, W> {
    /// The states that the others have visited.
    before: usize,
    watch: &'w mut W,
}

impl<W: Watch> Watch for Later<'_, W> {
    fn visited(&mut self, states: usize) -> bool {
        self.watch.visited(self.before.saturating_add(states))
    }

    fn ended(&mut self, had_room: bool) {
        self.watch.ended(had_room);
    }

    fn read_item(&mut self, read: ItemRead) {
        self.watch.read_item(read);
    }
}

/// Returns what to try, in its order.
fn plans(
    alloc: Global,
    functions: &[Function],
    function: usize,
    bounds: Bounds,
) -> Result<Vec<Plan>, Refused> {
    let mut plans = Vec::new(alloc);
    let callers = callers_of(alloc, functions, function)?;
    for order in [Order::WorkersFirst, Order::Any] {
        for caller in callers.as_slice() {
            plan_alone(alloc, *caller, order, bounds.rows, &mut plans)?;
        }
    }
    for workers in 2..=bounds.workers {
        for caller in callers.as_slice() {
            plan_together(alloc, functions, *caller, workers, bounds.rows, &mut plans)?;
        }
    }
    Ok(plans)
}

/// Plans that one worker calls the function, with all rows and with fewer.
fn plan_alone(
    alloc: Global,
    caller: usize,
    order: Order,
    most_rows: u16,
    plans: &mut Vec<Plan>,
) -> Result<(), Refused> {
    for fewer in 0..most_rows.min(FEW_ROWS) {
        // All rows first, then 1, 2, ..
        let rows = if fewer == 0 { most_rows } else { fewer };
        for times in [1, 2] {
            plans.push(Plan {
                rows,
                calls: planned(alloc, caller, times, caller, 1)?,
                order,
            })?;
        }
    }
    Ok(())
}

/// Plans that one worker calls the function and the others call it too, or another one.
fn plan_together(
    alloc: Global,
    functions: &[Function],
    caller: usize,
    workers: u8,
    rows: u16,
    plans: &mut Vec<Plan>,
) -> Result<(), Refused> {
    for times in [1, 2] {
        plans.push(Plan {
            rows,
            calls: planned(alloc, caller, times, caller, workers)?,
            order: Order::Any,
        })?;
        for other in 0..functions.len() {
            if other != caller && can_be_called(&functions[other]) {
                plans.push(Plan {
                    rows,
                    calls: planned(alloc, caller, times, other, workers)?,
                    order: Order::Any,
                })?;
            }
        }
    }
    Ok(())
}

/// Returns the calls of this number of workers, of which the first calls `one` and all others call `other`.
fn planned(
    alloc: Global,
    one: usize,
    times: u32,
    other: usize,
    workers: u8,
) -> Result<Vec<Call>, Refused> {
    let mut calls = Vec::new(alloc);
    calls.push(Call {
        function: one,
        times,
    })?;
    for _ in 1..workers {
        calls.push(Call {
            function: other,
            times,
        })?;
    }
    Ok(calls)
}

/// Returns whether a worker can call the function: it has no parameters.
fn can_be_called(function: &Function) -> bool {
    function.parameters.len() == 0
}

/// Returns the functions that a worker can call, and by which the function of this number is called: itself, if it has
/// no parameters, or else those that call it, be it by others.
fn callers_of(
    alloc: Global,
    functions: &[Function],
    function: usize,
) -> Result<Vec<usize>, Refused> {
    let mut callers = Vec::new(alloc);
    let Some(refused) = functions.get(function) else {
        return Ok(callers);
    };
    if can_be_called(refused) {
        callers.push(function)?;
        return Ok(callers);
    }
    let mut reaching = Vec::new(alloc);
    reaching.push(function)?;
    for number in function.saturating_add(1)..functions.len() {
        let caller = &functions[number];
        if calls_one_of(caller, reaching.as_slice()) {
            reaching.push(number)?;
            if can_be_called(caller) {
                callers.push(number)?;
            }
        }
    }
    Ok(callers)
}

/// Returns whether the function has a call of one of those.
fn calls_one_of(function: &Function, callees: &[usize]) -> bool {
    function.code.as_slice().iter().any(|instr| match instr {
        Instr::Call { callee, .. } => callees.contains(&usize::from(*callee)),
        _ => false,
    })
}
