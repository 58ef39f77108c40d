//! A whole run of a module, in plain numbers.

ghost use Rattle.std.specs.Prelude.{◌≡◌, ◌<◌, ◌≤◌, [], length, OnSome};
ghost use Rattle.brc_model.specs.Layout.{row_count};
ghost use Rattle.brc_model.specs.Limits.{row_limit, worker_limit};
ghost use Rattle.brc_model.specs.Threads.{function_at};
ghost use Rattle.brc_table.specs.Hands.{IsOf};
ghost use Rattle.brc_work.specs.Fits.{IsHeapOf};
ghost use Rattle.brc_work.specs.Mains.{MayFanOut};
ghost use Rattle.brc_work_tests.specs.Ready.{HoldsRoot};

use crate::calls::{ended, leaves, makes_calls, opened, worker_hand};
use crate::hearing::{Hearing, WORKER};
use brc_check::Checked;
use brc_fixtures::{accepted, is_callable, last_function};
use brc_heap::{Final, Hand, Heap, ROOT};
use brc_host::{FakeHost, FakeResource, Host};
use brc_queue::Queue;
use brc_work::{Gate, Ran, fan_out};
use std::alloc::Global;
use std::sync::Wait;
use std::test::*;
use std::thread::Threads;

/// The most rows that a worker may have.
pub const MOST_ROWS: u16 = 1024;

/// What a run leads to, as in a report: how many objects were created, closed and are alive, how many calls of the host
/// failed, and how many closes. The root counts as an object, and so does a number in a cell of a static list. None and
/// the static lists don't.
pub type Counts = [u64; 5];

/// What a run has left: the report's counts; the births that the worker has counted; the beginnings and ends of calls
/// that the gate has heard, or `None` if they didn't come in order; and whether the worker has made all its calls. The
/// faults of closes are those that the worker has counted, and those of both exits.
pub type Outcome = (Counts, u64, Option<u64>, bool);

/// An outcome, and the files and connections that the host has opened and closed.
type Ended = (Outcome, [u64; 2]);

/// The worker's rows, its calls, the most instructions that it begins, and which calls of its host fail.
pub type Run<'p> = (u16, u32, u64, &'p [u64]);

/// Returns how many objects were created, how many are closed, and how many are alive.
fn objects(end: &Final<FakeResource>) -> [u64; 3] {
    let mut created: u64 = 0;
    let mut closed: u64 = 0;
    let mut alive: u64 = 0;
    for row in ROOT..end.rows() {
        let (born, gone) = born_and_closed(end, row);
        created = created.saturating_add(u64::from(born));
        closed = closed.saturating_add(u64::from(gone));
        alive = alive.saturating_add(u64::from(born && !gone));
    }
    [created, closed, alive]
}

/// Returns whether an object was born in the row, and whether it is closed. An immortal one counts as neither.
fn born_and_closed(end: &Final<FakeResource>, row: u32) -> (bool, bool)
    requires { row < row_count end.now.state.layout }
{
    if end.is_immortal(row) {
        return (false, false);
    }
    (end.born(row), end.closed(row))
}

/// How each of one or two workers' runs has ended.
pub type Ends = [Option<Ran>; 2];

/// Lets a worker call the last function of the text's module, leave, and main leave, and ends the heap; and once more
/// with the worker in a thread of its own. Fails unless both runs lead to the same, and each host has closed what it has
/// opened.
pub fn run_twice<R: Threads + Wait + Sync>(
    rt: &R,
    alloc: Global,
    text: &[u8],
    run: Run<'_>,
) -> Result<Outcome, Fail> {
    let checked = accepted(alloc, text)?;
    let (one, apart) = both_run(rt, alloc, &checked, run)?;
    let (outcome, [opened, closed]) = one;
    if apart == one && opened == closed {
        Ok(outcome)
    } else {
        Err(Fail::new(format_args!("{one:?}, and in a thread of its own {apart:?}")))
    }
}

/// Makes both runs of `run_twice`, of a module that is accepted.
fn both_run<R: Threads + Wait + Sync>(
    rt: &R,
    alloc: Global,
    checked: &Checked,
    run: Run<'_>,
) -> Result<(Ended, Ended), Fail> {
    let (rows, times, steps, plan) = run;
    if rows == 0 || rows > MOST_ROWS {
        return Err("a worker has 1 to 1024 rows")?;
    }
    let function = last_function(checked)?;
    let one = run_once(rt, alloc, checked, function, rows, times, steps, plan)?;
    let apart = run_alone(rt, alloc, checked, function, rows, times, steps, plan)?;
    Ok((one, apart))
}

/// Lets a worker call the function, over a host that fails in the calls of the plan.
fn run_once<R: Wait>(
    rt: &R,
    alloc: Global,
    checked: &Checked,
    function: usize,
    rows: u16,
    times: u32,
    steps: u64,
    plan: &[u64],
) -> Result<Ended, Fail>
    requires function { function < length checked.now.module.functions }
    requires parameters { (function_at checked.now.module.functions function).parameters ≡ [] }
    requires rows { (0 < rows) × (rows ≤ row_limit) }
{
    let (heap, main) = opened(alloc, checked, 1, rows)?;
    match run_heap(rt, heap, main, checked, function, times, steps, plan) {
        Some(ended) => Ok(ended),
        None => Err("a thread isn't gone")?,
    }
}

/// Lets a worker of the heap make the calls, and ends the heap.
fn run_heap<R: Wait>(
    rt: &R,
    heap: Heap<FakeResource>,
    mut main: Hand<FakeResource>,
    checked: &Checked,
    function: usize,
    times: u32,
    steps: u64,
    plan: &[u64],
) -> Option<Ended>
    requires function { function < length checked.now.module.functions }
    requires parameters { (function_at checked.now.module.functions function).parameters ≡ [] }
    requires heap { IsHeapOf checked.now.module heap }
    requires main { HoldsRoot heap main }
    requires thread { main.view.thread ≡ 0 }
{
    let mut host = FakeHost::new(plan);
    let gate = Hearing::new();
    let (ran, close_faults) = run_worker(
        rt, &heap, &mut main, checked, function, times, steps, &mut host, &gate,
    )?;
    let [created, closed, alive] = objects_left(heap, main)?;
    let totals = ran.totals();
    let counts = [created, closed, alive, totals.host_faults, close_faults];
    let outcome = (
        counts,
        u64::from(totals.created),
        gate.heard(),
        ran.is_done(),
    );
    Some((outcome, [host.opened(), host.closed()]))
}

/// Lets a worker make the calls and leave, and then main leave. Returns how the run has ended, and how many closes have
/// failed.
fn run_worker<R: Wait>(
    rt: &R,
    heap: &Heap<FakeResource>,
    main: &mut Hand<FakeResource>,
    checked: &Checked,
    function: usize,
    times: u32,
    steps: u64,
    host: &mut FakeHost<'_>,
    gate: &Hearing,
) -> Option<(Ran, u64)>
    requires function { function < length checked.now.module.functions }
    requires parameters { (function_at checked.now.module.functions function).parameters ≡ [] }
    requires heap { IsHeapOf checked.now.module heap.now }
    requires main { HoldsRoot heap.now main.old }
    requires thread { main.old.view.thread ≡ 0 }
    ensures table { OnSome result (IsOf heap.now main.new) }
    ensures thread { OnSome result (main.new.view.thread ≡ 0) }
{
    let Ok(mut hand) = worker_hand(heap, main, WORKER) else {
        return None;
    };
    let ran = makes_calls(
        rt, heap, checked, function, times, steps, &mut hand, host, gate,
    );
    let close_faults = ran.totals().close_faults;
    let first = leaves(rt, heap, &mut hand, host);
    let last = leaves(rt, heap, main, host);
    Some((ran, close_faults.saturating_add(first).saturating_add(last)))
}

/// Lets one or two workers, one for each host, with `rows` rows, call the module's function with this number `times`
/// times, each in a thread of its own and with at most `steps` instructions. Then main leaves, over the first host, and
/// the heap ends. Returns how each worker's run has ended, the objects that were created, closed and are alive, and how
/// many closes of main's have failed.
#[tactic(auto, using(crate::proofs::Opening::lists_have_rows, crate::proofs::Opening::is_heap_of))]
pub fn run_apart<R: Threads + Wait + Sync, G: Gate + Sync>(
    rt: &R,
    alloc: Global,
    checked: &Checked,
    function: usize,
    threads: u8,
    rows: u16,
    times: u32,
    steps: u64,
    hosts: &mut [FakeHost<'_>],
    gate: &G,
) -> Result<(Ends, [u64; 3], u64), Fail>
    requires threads { (0 < threads) × (threads ≤ worker_limit) }
    requires rows { (0 < rows) × (rows ≤ row_limit) }
    requires one_each { length hosts.old ≡ threads }
{
    if !is_callable(checked, function) {
        return Err("the module has the function, which has no parameters")?;
    }
    let (heap, main) = Heap::new(alloc, threads, rows, checked.module())?;
    match run_heap_apart(
        rt, alloc, heap, main, checked, function, times, steps, hosts, gate,
    ) {
        Some(run) => Ok(run),
        None => Err("each thread is started and is gone")?,
    }
}

/// Does what `run_apart` does, with the heap.
fn run_heap_apart<R: Threads + Wait + Sync, G: Gate + Sync>(
    rt: &R,
    alloc: Global,
    heap: Heap<FakeResource>,
    mut main: Hand<FakeResource>,
    checked: &Checked,
    function: usize,
    times: u32,
    steps: u64,
    hosts: &mut [FakeHost<'_>],
    gate: &G,
) -> Option<(Ends, [u64; 3], u64)>
    requires enough { length hosts.old ≤ heap.layout.workers }
    requires function { function < length checked.now.module.functions }
    requires parameters { (function_at checked.now.module.functions function).parameters ≡ [] }
    requires heap { IsHeapOf checked.now.module heap }
    requires main { HoldsRoot heap main }
    requires may { MayFanOut main.view }
{
    let (ends, last) = all_leave(
        rt, alloc, &heap, &mut main, checked, function, times, steps, hosts, gate,
    )?;
    let objects = objects_left(heap, main)?;
    Some((ends, objects, last))
}

/// Lets the workers run, and then main leave. Returns how each worker's run has ended, and how many closes of main's
/// have failed.
fn all_leave<R: Threads + Wait + Sync, G: Gate + Sync>(
    rt: &R,
    alloc: Global,
    heap: &Heap<FakeResource>,
    main: &mut Hand<FakeResource>,
    checked: &Checked,
    function: usize,
    times: u32,
    steps: u64,
    hosts: &mut [FakeHost<'_>],
    gate: &G,
) -> Option<(Ends, u64)>
    requires enough { length hosts.old ≤ heap.now.layout.workers }
    requires function { function < length checked.now.module.functions }
    requires parameters { (function_at checked.now.module.functions function).parameters ≡ [] }
    requires heap { IsHeapOf checked.now.module heap.now }
    requires main { HoldsRoot heap.now main.old }
    requires may { MayFanOut main.old.view }
    ensures table { OnSome result (IsOf heap.now main.new) }
    ensures thread { OnSome result (main.new.view.thread ≡ 0) }
{
    let Ok(gone) = fan_out(
        rt, alloc, heap, main, checked, function, times, steps, hosts, gate,
    ) else {
        return None;
    };
    let ends = ends_of(gone);
    let host = hosts.first_mut()?;
    let last = Queue::new(heap).leave(rt, main, host);
    Some((ends, last))
}

/// Returns how the runs have ended, and drops the hands.
fn ends_of(gone: Vec<(Hand<FakeResource>, Ran)>) -> Ends {
    match gone.as_slice() {
        [(_, one)] => [Some(*one), None],
        [(_, one), (_, other)] => [Some(*one), Some(*other)],
        _ => [None, None],
    }
}

/// Ends the heap. Returns how many objects were created, how many are closed, and how many are alive, or `None` if a
/// thread isn't gone.
pub fn objects_left(heap: Heap<FakeResource>, main: Hand<FakeResource>) -> Option<[u64; 3]>
    requires table { IsOf heap main }
    requires thread { main.view.thread ≡ 0 }
{
    let end = ended(heap, main)?;
    Some(objects(&end))
}

/// Makes the run of `run_once` with the worker in a thread of its own. Its exit's faults are among those that it has
/// counted.
fn run_alone<R: Threads + Wait + Sync>(
    rt: &R,
    alloc: Global,
    checked: &Checked,
    function: usize,
    rows: u16,
    times: u32,
    steps: u64,
    plan: &[u64],
) -> Result<Ended, Fail>
    requires rows { (0 < rows) × (rows ≤ row_limit) }
{
    let gate = Hearing::new();
    let mut hosts = [FakeHost::new(plan)];
    let (ends, [created, closed, alive], last) = run_apart(
        rt, alloc, checked, function, 1, rows, times, steps, &mut hosts, &gate,
    )?;
    let [Some(ran), _] = ends else {
        return Err("there is one worker")?;
    };
    let totals = ran.totals();
    let close_faults = totals.close_faults.saturating_add(last);
    let counts = [created, closed, alive, totals.host_faults, close_faults];
    let outcome = (
        counts,
        u64::from(totals.created),
        gate.heard(),
        ran.is_done(),
    );
    Ok((outcome, [hosts[0].opened(), hosts[0].closed()]))
}
