//! A soak: 32 workers, each in a thread of its own, call the first function of an accepted module over a fresh heap,
//! and then over the next heap that of the next module. At each heap's end the births and closes that it shows, and
//! those that the workers and the hosts have counted, are compared with what the calls lead to.

ghost use Rattle.std.specs.Prelude.{◌≡◌, ◌<◌, true, [], length, IfOk};
ghost use Rattle.brc_model.specs.Threads.{function_at};

use crate::modules::{MODULES, ROWS, WORKERS};
use anyhow::{Result, bail};
use brc_check::{Checked, check};
use brc_heap::{Final, Hand, Heap, ROOT};
use brc_host::{FakeHost, FakeResource, Host};
use brc_lang::read;
use brc_queue::Queue;
use brc_work::{Gate, Ran, fan_out};
use std::alloc::{AllocError, Global};
use std::sync::Wait;
use std::thread::Threads;
use std::time::{Clock, Instant};

/// How many calls all workers make if there is one heap for each module.
const ONE_HEAP_EACH: u64 = 481_696;

/// What is counted of a heap that has ended.
#[derive(Debug, Drop, PartialEq)]
struct HeapCounts {
    /// The objects that were born, the root too.
    created: u64,
    /// The births that the workers have counted.
    births: u64,
    /// The objects that are closed.
    closed: u64,
    /// The files and connections that the hosts have opened.
    host_opened: u64,
    /// The files and connections that the hosts have closed.
    host_closed: u64,
    /// The calls of the hosts that have failed.
    faults: u64,
}

/// A gate that hears nothing.
struct Deaf;

impl Gate for Deaf {
    fn before(&self, _thread: u8, _call: u32) {}

    fn after(&self, _thread: u8, _call: u32) {}
}

/// Returns how many objects the workers of a heap make if each of them calls a function `times` times that makes
/// `in_a_call` objects while the worker has rows for them.
fn made_by_all(times: u32, in_a_call: u32) -> u64 {
    let tried = u64::from(times) * u64::from(in_a_call);
    tried.min(u64::from(ROWS)) * u64::from(WORKERS)
}

/// How many words the piece of memory has that `keep_memory` gives back: more than a heap takes.
const KEPT_WORDS: usize = 1 << 20;

/// Makes glibc's allocator keep the memory of a heap for the next one. What is free at its end it gives back to the
/// system only above twice the largest piece that the program gave back. Otherwise each heap takes new pages, which the
/// system clears, and that takes longer than to fill them.
fn keep_memory(alloc: Global) -> std::result::Result<(), AllocError> {
    let piece: Vec<u64> = Vec::with_capacity(alloc, KEPT_WORDS)?;
    drop(piece);
    Ok(())
}

/// Runs one heap after another, for each module in turn, until `asked` calls have been made in all. Without `asked` it
/// runs one heap for each module. Compares the counts of each heap, and prints what was done.
///
/// # Errors
///
/// If the counts of a heap aren't those that its module's calls lead to. The schedule doesn't change these: what the
/// workers give birth to, and the root, is created, and all of it is closed but what keeps itself alive.
pub fn soak<R: Threads + Wait + Sync + Clock + Print>(
    rt: &R,
    alloc: Global,
    asked: Option<u64>,
) -> Result<()> {
    let start = Instant::now(rt)?;
    let wanted_calls = asked.unwrap_or(ONE_HEAP_EACH);
    keep_memory(alloc)?;
    let (mut heaps, mut calls, mut births, mut closes) = (0u64, 0u64, 0u64, 0u64);
    // Each heap makes at least one call.
    for _ in 0..wanted_calls {
        for module in &MODULES {
            let missing = wanted_calls
                .saturating_sub(calls)
                .div_ceil(u64::from(WORKERS));
            let times = missing.min(u64::from(module.times)) as u32;
            if times == 0 {
                break;
            }
            let found = run_heap(rt, alloc, &accepted(alloc, module.text)?, times)?;
            let made = made_by_all(times, module.births);
            let opened = made_by_all(times, module.opened);
            let wanted = HeapCounts {
                created: made.saturating_add(1),
                births: made,
                closed: made
                    .saturating_add(1)
                    .saturating_sub(made_by_all(times, module.kept)),
                host_opened: opened,
                host_closed: opened,
                faults: 0,
            };
            if found != wanted {
                bail!("{}: wanted {wanted:?}, found {found:?}", module.name);
            }
            heaps = heaps.saturating_add(1);
            calls = calls.saturating_add(u64::from(times) * u64::from(WORKERS));
            births = births.saturating_add(found.created);
            closes = closes.saturating_add(found.closed);
        }
        if calls >= wanted_calls {
            break;
        }
    }
    println!(rt; "heaps {heaps}\ncalls {calls}\nbirths {births}\ncloses {closes}")?;
    println!(rt; "every heap ended with exact closes")?;
    if asked.is_some() {
        let time = start.elapsed(rt)?;
        println!(rt; "seconds {}.{:03}", time.as_secs(), time.subsec_millis())?;
    }
    Ok(())
}

/// Returns the accepted module of the text.
fn accepted(alloc: Global, text: &[u8]) -> Result<Checked> {
    let Ok(module) = read(alloc, text) else {
        bail!("a module can't be read");
    };
    match check(alloc, module) {
        Ok(checked) => Ok(checked),
        Err(_) => bail!("a module isn't accepted"),
    }
}

/// Returns whether the accepted module's first function has no parameters, as one that workers call.
fn is_callable(checked: &Checked) -> bool
    ensures there { 0 < length checked.now.module.functions }
    ensures bare { result ≡ true → (function_at checked.now.module.functions 0).parameters ≡ [] }
{
    // The accepted module has a first function.
    checked.module().functions.as_slice()[0].parameters.len() == 0
}

/// Lets each worker of a fresh heap call the accepted module's first function `times` times, in a thread of its own and
/// over a host of its own. Then main leaves, and the heap ends. Returns its counts.
#[tactic(auto, using(crate::proofs::Opening::lists_have_rows, crate::proofs::Opening::is_heap_of))]
fn run_heap<R: Threads + Wait + Sync>(
    rt: &R,
    alloc: Global,
    checked: &Checked,
    times: u32,
) -> Result<HeapCounts> {
    if !is_callable(checked) {
        bail!("the first function has parameters");
    }
    let (heap, mut main) = Heap::new(alloc, WORKERS, ROWS, checked.module())?;
    let mut hosts = hosts_of(alloc)?;
    let mut main_host = FakeHost::new(&[]);
    let ran = fan_out(
        rt,
        alloc,
        &heap,
        &mut main,
        checked,
        0,
        times,
        u64::MAX,
        hosts.as_mut_slice(),
        &Deaf,
    );
    // Main leaves in any case: what dies only then has its files closed too.
    let failed = Queue::new(&heap).leave(rt, &mut main, &mut main_host);
    let gone = ran?;
    let Ok(end) = heap.finish(main) else {
        bail!("a thread isn't gone");
    };
    hosts.push(main_host)?;
    Ok(counts_of(&end, gone.as_slice(), failed, hosts.as_slice()))
}

/// Returns a host for each worker. No call of theirs fails.
fn hosts_of(alloc: Global) -> std::result::Result<Vec<FakeHost<'static>>, AllocError>
    ensures { IfOk result (λ hosts. length hosts.items ≡ WORKERS) }
{
    let mut hosts = Vec::new(alloc);
    for _ in 0..WORKERS {
        hosts.push(FakeHost::new(&[]))?;
    }
    Ok(hosts)
}

/// Returns the counts of a heap: from its end, from what its workers have counted, from how many closes of main's have
/// failed, and from what all hosts have counted.
fn counts_of(
    end: &Final<FakeResource>,
    gone: &[(Hand<FakeResource>, Ran)],
    failed: u64,
    hosts: &[FakeHost<'_>],
) -> HeapCounts {
    let mut counts = HeapCounts {
        created: 0,
        births: 0,
        closed: 0,
        host_opened: 0,
        host_closed: 0,
        faults: failed,
    };
    for row in ROOT..end.rows() {
        if end.is_immortal(row) {
            continue;
        }
        counts.created = counts.created.saturating_add(u64::from(end.born(row)));
        counts.closed = counts.closed.saturating_add(u64::from(end.closed(row)));
    }
    for (_, ran) in gone {
        let totals = ran.totals();
        counts.births = counts.births.saturating_add(u64::from(totals.created));
        counts.faults = counts
            .faults
            .saturating_add(totals.host_faults)
            .saturating_add(totals.close_faults);
    }
    for host in hosts {
        counts.host_opened = counts.host_opened.saturating_add(host.opened());
        counts.host_closed = counts.host_closed.saturating_add(host.closed());
    }
    counts
}
