//! A worker: it makes random calls, gives up what it holds, and leaves.

ghost use Rattle.std.specs.Prelude.{◌≡◌, ◌<◌, ◌+◌, ◌^◌, None};
ghost use Rattle.brc_fixtures.specs.Resting.{IsAlone, IsAtRest, alone-prop};
ghost use Rattle.brc_soak_tests.specs.Ledgers.{Tells};

use crate::calls::{bears, gives_up, leaves, merges, retains};
use crate::ledger::{Ledger, ROWS};
use crate::log::{Log, one_more};
use crate::posts::Posts;
use crate::swaps::{Swapped, swaps};
use brc_heap::{Hand, Heap, ROOT};
use brc_host::{FakeHost, FakeResource, Host};
use brc_lang::{Kind, Mode};
use rand::RngExt;
use rand_core::SeedableRng;
use rand_xoshiro::Xoshiro256PlusPlus;
use std::sync::Wait;

/// How many random calls each worker makes. A soak, of eight workers, takes 3 core-seconds: a second on four processors
/// that have nothing else to do, and up to 4 beside other work.
const CALLS: u32 = 2_500_000;

/// A worker that holds this many references to an object doesn't retain it, so that objects die before the end, too.
const ENOUGH: u32 = 4;

/// A worker gives birth to an object about once in this many calls, so that objects are born, and die, until the end.
const BETWEEN: u32 = 250_000;

/// A worker's hand, which a thread takes with it, with the seed of the worker's calls.
#[derive(Drop)]
pub struct Worker<'a> {
    heap: &'a Heap<FakeResource>,
    hand: Hand<FakeResource>,
    seed: u64,
    ghost fresh: { IsAlone heap.now hand } by { alone-prop heap.now hand },
}

impl<'a> Worker<'a> {
    /// Returns the worker that has this hand, which was just given out.
    pub fn new(heap: &'a Heap<FakeResource>, hand: Hand<FakeResource>, seed: u64) -> Worker<'a>
        requires { IsAlone heap.now hand }
    {
        Worker { heap, hand, seed }
    }
}

/// Gives birth to an object of a random kind: mostly a list.
fn bears_any(
    heap: &Heap<FakeResource>,
    hand: &mut Hand<FakeResource>,
    ledger: &mut Ledger,
    log: &mut Log,
    host: &mut FakeHost<'_>,
    random: &mut Xoshiro256PlusPlus,
)
    requires resting { IsAtRest heap.now hand.old None }
    requires tells { Tells ledger.old hand.old.view.references }
    requires few { ledger.old.total + 1 < 2 ^ 32 }
    ensures resting { IsAtRest heap.now hand.new None }
    ensures tells { Tells ledger.new hand.new.view.references }
{
    if !heap.room(hand) {
        return;
    }
    let kind = random.random_range(0..8u32);
    if kind == 0 {
        if let Some(row) = bears(heap, hand, ledger, Kind::Num, 0, None) {
            log.birth(row, false);
        }
        return;
    }
    if kind == 1 {
        let Ok(file) = host.open(0, Mode::READ) else {
            return;
        };
        if let Some(row) = bears(heap, hand, ledger, Kind::File, 0, Some(file)) {
            log.birth(row, true);
        }
        return;
    }
    let cells = random.random_range(1..9u32);
    if let Some(row) = bears(heap, hand, ledger, Kind::List, cells, None) {
        log.birth(row, false);
    }
}

/// Tries to swap a random cell of the list.
fn swaps_any(
    heap: &Heap<FakeResource>,
    hand: &mut Hand<FakeResource>,
    ledger: &mut Ledger,
    log: &mut Log,
    list: u32,
    cell: u32,
    item: Option<u32>,
)
    requires resting { IsAtRest heap.now hand.old None }
    requires tells { Tells ledger.old hand.old.view.references }
    requires few { ledger.old.total + 1 < 2 ^ 32 }
    ensures resting { IsAtRest heap.now hand.new None }
    ensures tells { Tells ledger.new hand.new.view.references }
{
    match swaps(heap, hand, ledger, list, cell, item) {
        Swapped::NotHeld => {}
        Swapped::Busy => one_more(&mut log.made.busy),
        Swapped::NoCell => one_more(&mut log.made.locks),
        Swapped::Done(read, found) => {
            one_more(&mut log.made.locks);
            log.swap(list, cell, item, read, found);
        }
    }
}

/// Gives up a reference, but the last one to the root: the worker holds the root until it leaves.
fn gives_up_any<R: Wait>(
    rt: &R,
    heap: &Heap<FakeResource>,
    posts: &Posts<'_>,
    hand: &mut Hand<FakeResource>,
    ledger: &mut Ledger,
    log: &mut Log,
    host: &mut FakeHost<'_>,
    row: u32,
)
    requires posts { posts.now ≡ heap.now }
    requires resting { IsAtRest heap.now hand.old None }
    requires tells { Tells ledger.old hand.old.view.references }
    ensures resting { IsAtRest heap.now hand.new None }
    ensures tells { Tells ledger.new hand.new.view.references }
{
    if row == ROOT && ledger.count(row) < 2 {
        return;
    }
    if let Some(failed) = gives_up(rt, heap, posts, hand, ledger, host, row) {
        one_more(&mut log.made.releases);
        log.failed_closes = log.failed_closes.saturating_add(failed);
    }
}

/// Looks through the hand's own queue.
fn scans<R: Wait>(
    rt: &R,
    heap: &Heap<FakeResource>,
    hand: &mut Hand<FakeResource>,
    ledger: &Ledger,
    log: &mut Log,
    host: &mut FakeHost<'_>,
)
    requires resting { IsAtRest heap.now hand.old None }
    requires tells { Tells ledger.now hand.old.view.references }
    ensures resting { IsAtRest heap.now hand.new None }
    ensures tells { Tells ledger.now hand.new.view.references }
{
    if let Some(failed) = merges(rt, heap, hand, ledger, host) {
        one_more(&mut log.made.scans);
        log.failed_closes = log.failed_closes.saturating_add(failed);
    }
}

/// Makes one random call. The rows are those of objects that the hand holds, if it holds any from the drawn row on.
fn calls_any<R: Wait>(
    rt: &R,
    heap: &Heap<FakeResource>,
    posts: &Posts<'_>,
    hand: &mut Hand<FakeResource>,
    ledger: &mut Ledger,
    log: &mut Log,
    host: &mut FakeHost<'_>,
    random: &mut Xoshiro256PlusPlus,
)
    requires posts { posts.now ≡ heap.now }
    requires resting { IsAtRest heap.now hand.old None }
    requires tells { Tells ledger.old hand.old.view.references }
    ensures resting { IsAtRest heap.now hand.new None }
    ensures tells { Tells ledger.new hand.new.view.references }
{
    if ledger.is_full() {
        return;
    }
    if random.random_range(0..BETWEEN) == 0 {
        return bears_any(heap, hand, ledger, log, host, random);
    }
    let row = ledger.held_from(random.random_range(1..ROWS as u32));
    match random.random_range(0..16u32) {
        0..4 => {
            if ledger.count(row) < ENOUGH && retains(heap, hand, ledger, row) {
                one_more(&mut log.made.retains);
            }
        }
        4 => gives_up_any(rt, heap, posts, hand, ledger, log, host, row),
        5 => scans(rt, heap, hand, ledger, log, host),
        choice => {
            let cell = random.random_range(0..8u32);
            let item = ledger.held_from(random.random_range(1..ROWS as u32));
            // The root goes into no cell: then it is closed at the end, and with it what it alone keeps.
            if choice < 11 && item != ROOT {
                swaps_any(heap, hand, ledger, log, row, cell, Some(item));
            } else {
                swaps_any(heap, hand, ledger, log, row, cell, None);
            }
        }
    }
}

/// Gives up all references but one to the root.
fn empties<R: Wait>(
    rt: &R,
    heap: &Heap<FakeResource>,
    posts: &Posts<'_>,
    hand: &mut Hand<FakeResource>,
    ledger: &mut Ledger,
    log: &mut Log,
    host: &mut FakeHost<'_>,
)
    requires posts { posts.now ≡ heap.now }
    requires resting { IsAtRest heap.now hand.old None }
    requires tells { Tells ledger.old hand.old.view.references }
    ensures resting { IsAtRest heap.now hand.new None }
    ensures tells { Tells ledger.new hand.new.view.references }
{
    for row in 1..ROWS as u32 {
        for _ in 0..ledger.count(row) {
            gives_up_any(rt, heap, posts, hand, ledger, log, host, row);
        }
    }
}

/// Makes random calls, gives up what the worker holds, and leaves. Returns what the worker has noted.
pub fn works<R: Wait>(rt: &R, worker: Worker<'_>) -> Log {
    let Worker {
        heap,
        mut hand,
        seed,
    } = worker;
    let posts = Posts::new(heap);
    let mut host = FakeHost::new(&[]);
    let mut log = Log::new();
    let mut random = Xoshiro256PlusPlus::seed_from_u64(seed);
    let mut ledger = Ledger::new();
    ledger.more(ROOT);
    for _ in 0..CALLS {
        calls_any(
            rt,
            heap,
            &posts,
            &mut hand,
            &mut ledger,
            &mut log,
            &mut host,
            &mut random,
        );
    }
    empties(
        rt,
        heap,
        &posts,
        &mut hand,
        &mut ledger,
        &mut log,
        &mut host,
    );
    scans(rt, heap, &mut hand, &ledger, &mut log, &mut host);
    if let Some(failed) = leaves(rt, heap, &mut hand, &ledger, &mut host) {
        log.left = 1;
        log.failed_closes = log.failed_closes.saturating_add(failed);
    }
    log.made.posts = posts.count();
    log.opened = host.opened();
    log.closes = host.closed();
    log
}
