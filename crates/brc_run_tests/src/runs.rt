//! A run of a module's last function, in plain numbers.

ghost use Rattle.std.specs.Prelude.{◌≡◌, ◌<◌, [], length, IfSome};
ghost use Rattle.brc_model.specs.Threads.{function_at};

use brc_check::Checked;
use brc_fixtures::{accepted, last_function};
use brc_host::FakeHost;
use brc_model::Call;
use brc_report::Tally;
use brc_run::{Plan, System, run, run_on_system};
use brc_table::Contention;
use brc_work::Gate;
use std::alloc::Global;
use std::sync::Wait;
use std::thread::Threads;

/// The most rows that a worker may have.
pub const MOST_ROWS: u16 = 1024;

/// Each call's number takes the place of the last one's in the root's first cell.
pub const SWAP: &[u8] =
    b"module 1\nfunc swap\nnum v1 7 else @7\nlock v0\nset v0 0 v1 else @6\nunlock v0\nnone v1\nret v1\n\
    unlock v0\nfail\nend\n";

/// `f` lends its second number to `hold`, which returns a reference to it and hands a number of its own to `keep`.
pub const THREE_OPEN: &[u8] =
    b"module 2\nfunc keep steal num\nlock v0\nset v0 0 v1 else @2\nunlock v0\nfail\nend\n\
    func hold borrow any\nnewref v2 v1\nnum v3 9 else @4\ncall v4 keep v3 else @4\ndrop v4\nret v2\nend\n\
    func f\nnum v1 7 else @7\nnum v2 8 else @6\ncall v3 hold v2 else @5\ndrop v3\ngoto @5\ndrop v2\n\
    drop v1\nfail\nend\n";

/// Writes to a peer how many bytes it has read from a file, at most 4. The host's calls are 0 open, 1 connect, 2 read,
/// 3 write, and if those of opening succeed, at the end the closes of the connection and of the file: 4 and 5 in a
/// whole copy.
pub const COPY: &[u8] =
    b"module 1\nfunc f\nopen v1 0 r else @13\nconnect v2 0 else @12\nlock v1\nread v3 v1 4 else @10\n\
    unlock v1\nlock v2\nwrite v2 v3 else @7\nunlock v2\ndrop v3\ngoto @11\nunlock v1\ndrop v2\ndrop v1\nfail\nend\n";

/// A report: the workers, the threads that run, the objects that were created, closed and are alive, and the faults of
/// the host's calls and of its closes.
pub type Counts = [u64; 7];

/// How often a run's threads have queued, merged and claimed an object, and lost an exchange.
pub type Meetings = [u64; 4];

/// The workers, their rows, their calls, and the most instructions that each begins.
pub type Run = (u8, u16, u32, u64);

/// A gate that hears of nothing.
#[derive(Drop)]
pub struct Open;

impl Gate for Open {
    fn before(&self, _thread: u8, _call: u32) {}

    fn after(&self, _thread: u8, _call: u32) {}
}

/// Returns the next number of a sequence that looks random (Knuth's MMIX generator).
pub fn after(number: u64) -> u64 {
    number
        .wrapping_mul(6_364_136_223_846_793_005)
        .wrapping_add(1_442_695_040_888_963_407)
}

/// Returns the tally's numbers.
pub fn counts_of(tally: &Tally) -> Counts {
    [
        tally.threads,
        tally.running,
        tally.created,
        tally.closed,
        tally.alive,
        tally.host_faults,
        tally.close_faults,
    ]
}

/// Returns the numbers of the threads' meetings.
fn meetings_of(contention: &Contention) -> Meetings {
    [
        contention.queued,
        contention.merged,
        contention.claimed,
        contention.lost,
    ]
}

/// Returns the plan of a run that calls the module's last function, or `None` if a number is out of range.
fn plan_of(checked: &Checked, run: Run) -> Option<Plan>
    ensures function { IfSome result (λ plan. plan.call.function < length checked.now.module.functions) }
    ensures parameters { IfSome result (λ plan.
        (function_at checked.now.module.functions plan.call.function).parameters ≡ []) }
{
    let (threads, rows, times, steps) = run;
    if threads == 0 || threads > 32 || rows == 0 || rows > MOST_ROWS {
        return None;
    }
    let function = last_function(checked).ok()?;
    Some(Plan {
        call: Call { function, times },
        steps,
        threads,
        rows,
    })
}

/// Runs the text's module over the system. Returns the report's numbers.
pub fn report_of<R: System, G: Gate + Sync>(
    rt: &R,
    alloc: Global,
    text: &[u8],
    run: Run,
    paths: &[&str],
    peers: &[&str],
    gate: &G,
) -> Option<Counts> {
    let (counts, _) = counted_of(rt, alloc, text, run, paths, peers, gate)?;
    Some(counts)
}

/// Runs the text's module over the system. Returns the report's numbers, and how often the threads have met.
pub fn counted_of<R: System, G: Gate + Sync>(
    rt: &R,
    alloc: Global,
    text: &[u8],
    run: Run,
    paths: &[&str],
    peers: &[&str],
    gate: &G,
) -> Option<(Counts, Meetings)> {
    let checked = accepted(alloc, text).ok()?;
    counts_on(rt, alloc, &checked, run, paths, peers, gate)
}

fn counts_on<R: System, G: Gate + Sync>(
    rt: &R,
    alloc: Global,
    checked: &Checked,
    run: Run,
    paths: &[&str],
    peers: &[&str],
    gate: &G,
) -> Option<(Counts, Meetings)> {
    let plan = plan_of(checked, run)?;
    match run_on_system(rt, alloc, checked, plan, paths, peers, gate) {
        Ok(counted) => Some((counts_of(&counted.tally), meetings_of(&counted.contention))),
        Err(_) => None,
    }
}

/// Lets two workers call the last function of the text's module once, over these hosts and main's. Returns the report's
/// numbers.
pub fn report_over<'p, R: Threads + Wait + Sync, G: Gate + Sync>(
    rt: &R,
    alloc: Global,
    text: &[u8],
    hosts: &mut [FakeHost<'p>; 2],
    main_host: &mut FakeHost<'p>,
    gate: &G,
) -> Option<Counts> {
    let checked = accepted(alloc, text).ok()?;
    counts_over(rt, alloc, &checked, hosts, main_host, gate)
}

fn counts_over<'p, R: Threads + Wait + Sync, G: Gate + Sync>(
    rt: &R,
    alloc: Global,
    checked: &Checked,
    hosts: &mut [FakeHost<'p>; 2],
    main_host: &mut FakeHost<'p>,
    gate: &G,
) -> Option<Counts> {
    let plan = Plan {
        call: Call {
            function: last_function(checked).ok()?,
            times: 1,
        },
        steps: u64::MAX,
        threads: 2,
        rows: MOST_ROWS,
    };
    match run(rt, alloc, checked, plan, hosts, main_host, gate) {
        Ok(counted) => Some(counts_of(&counted.tally)),
        Err(_) => None,
    }
}
