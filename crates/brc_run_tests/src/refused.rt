//! Four workers swap numbers in the root, and one allocation is refused: each call that takes memory says so, and
//! whatever was made by then is closed.

ghost use Rattle.std.specs.Prelude.{◌≡◌, ◌<◌, true, [], length};
ghost use Rattle.brc_model.specs.Threads.{function_at};
ghost use Rattle.brc_table.specs.Hands.{IsOf};

use crate::runs::{Open, SWAP};
use brc_check::{CheckCode, Checked, check};
use brc_fixtures::is_callable;
use brc_heap::{Final, Hand, Heap, ROOT};
use brc_host::{FakeHost, FakeResource};
use brc_lang::{FaultCode, read};
use brc_queue::Queue;
use brc_work::fan_out;
use std::alloc::Global;
use std::sync::Wait;
use std::test::*;
use std::thread::Threads;

/// How many workers there are, how many rows each has, and how many calls it makes.
const THREADS: u8 = 4;

const ROWS: u16 = 1024;

const TIMES: u32 = 3;

/// Where memory was refused, or how many objects were created and closed.
#[derive(Debug, Drop)]
enum Outcome {
    /// L8, in reading the module.
    Reading,
    /// C12, in checking it.
    Checking,
    /// H1, in making the heap.
    Opening,
    /// K1, in starting the workers.
    Starting { created: u32, closed: u32 },
    /// Nowhere.
    Ended { created: u32, closed: u32 },
    /// A text that isn't read, a module that is refused, a function with parameters, or a thread that isn't gone at the
    /// end: it never comes.
    Wrong,
}

/// Returns how many objects were created, and how many are closed.
fn objects(end: &Final<FakeResource>) -> (u32, u32) {
    let mut created: u32 = 0;
    let mut closed: u32 = 0;
    for row in ROOT..end.rows() {
        if end.is_immortal(row) {
            continue;
        }
        if end.born(row) {
            created = created.saturating_add(1);
        }
        if end.closed(row) {
            closed = closed.saturating_add(1);
        }
    }
    (created, closed)
}

/// Ends the heap, whose threads are all gone. Returns how many objects were created and closed, or `None` if a thread
/// isn't gone.
fn ended(heap: Heap<FakeResource>, main: Hand<FakeResource>) -> Option<(u32, u32)>
    requires of { IsOf heap main }
    requires main { main.view.thread ≡ 0 }
{
    match heap.finish(main) {
        Ok(end) => Some(objects(&end)),
        Err(_) => None,
    }
}

/// Lets workers run over the hosts, one for each, and main leave after them.
#[tactic(auto, using(crate::proofs::Opening::lists_have_rows, crate::proofs::Opening::is_heap_of))]
fn outcome_of<R: Threads + Wait + Sync>(
    rt: &R,
    alloc: Global,
    checked: &Checked,
    hosts: &mut [FakeHost<'_>],
) -> Outcome
    requires few { length hosts.old ≡ THREADS }
    requires function { 0 < length checked.now.module.functions }
    requires parameters { (function_at checked.now.module.functions 0).parameters ≡ [] }
{
    let Ok((heap, mut main)) = Heap::new(alloc, THREADS, ROWS, checked.module()) else {
        return Outcome::Opening;
    };
    let ran = fan_out(
        rt,
        alloc,
        &heap,
        &mut main,
        checked,
        0,
        TIMES,
        u64::MAX,
        hosts,
        &Open,
    )
    .is_ok();
    let mut host = FakeHost::new(&[]);
    Queue::new(&heap).leave(rt, &mut main, &mut host);
    match ended(heap, main) {
        Some((created, closed)) if ran => Outcome::Ended { created, closed },
        Some((created, closed)) => Outcome::Starting { created, closed },
        None => Outcome::Wrong,
    }
}

/// Lets workers run over hosts that never fail.
fn outcome_over_hosts<R: Threads + Wait + Sync>(
    rt: &R,
    alloc: Global,
    checked: &Checked,
) -> Outcome {
    if !is_callable(checked, 0) {
        return Outcome::Wrong;
    }
    let mut hosts = [
        FakeHost::new(&[]),
        FakeHost::new(&[]),
        FakeHost::new(&[]),
        FakeHost::new(&[]),
    ];
    outcome_of(rt, alloc, checked, &mut hosts)
}

/// Reads and checks the module, and runs it.
fn swaps<R: Threads + Wait + Sync>(rt: &R, alloc: Global) -> Outcome {
    match read(alloc, SWAP) {
        Ok(module) => match check(alloc, module) {
            Ok(checked) => outcome_over_hosts(rt, alloc, &checked),
            Err(refused) if refused.code == CheckCode::NoMemory => Outcome::Checking,
            Err(_) => Outcome::Wrong,
        },
        Err(fault) if fault.code == FaultCode::NoMemory => Outcome::Reading,
        Err(_) => Outcome::Wrong,
    }
}

/// Returns whether the run said where memory was refused and closed what was made, or had ample memory and made all.
fn is_right(outcome: &Outcome) -> bool {
    match outcome {
        Outcome::Ended { created, closed } => *created == 13 && *closed == 13,
        Outcome::Starting { created, closed } => *created == *closed,
        Outcome::Reading | Outcome::Checking | Outcome::Opening => true,
        Outcome::Wrong => false,
    }
}

/// With ample memory all is made; whichever allocation is refused, what was made is closed.
#[test]
fn each_refusal_is_answered(rt: HostRuntime) {
    let outcome = swaps(&rt, rt.alloc());
    let _ = eprintln!(rt; "{outcome:?}");
    assert!(rt; is_right(&outcome));
}
