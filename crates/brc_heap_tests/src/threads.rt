//! Threads that count at the same time. In one round another hand holds a lock meanwhile: no lock stands behind the
//! calls.

ghost use Rattle.std.specs.Prelude.{◌≡◌, true, OnOk};
ghost use Rattle.brc_fixtures.specs.Resting.{IsAlone, alone-prop};
ghost use Rattle.brc_heap_tests.specs.Ready.{IsReadyAt};

use crate::calls::retain_and_release;
use crate::lists::{locks, unlocks};
use brc_fixtures::{hand_of, opened};
use brc_heap::{Hand, Heap, LocalRelease};
use brc_lang::Kind;
use crossbeam_queue::ArrayQueue;
use std::alloc::{AllocError, Global};
use std::sync::{Mutex, Wait};
use std::test::*;
use std::thread;
use std::thread::Threads;

/// The worker that holds the lock.
const LOCKER: u8 = 1;

/// The last worker. Those behind the locker count, and so does main.
const LAST: u8 = 5;

/// How often a hand looks for a signal before it misses it.
const MOST_TURNS: u32 = 100_000_000;

/// The value of the numbers.
const VALUE: u32 = 7;

/// For each hand, by its thread's number, how often it has retained and released the root, and how often a number of
/// its own, with a reference left each time. Main has no number, and the locker doesn't count.
type Counts = [[u32; 2]; 6];

/// What the hands of a round have done so far.
#[derive(Drop)]
struct Progress {
    counts: Mutex<Counts>,
    /// A signal that the root is locked.
    locked: ArrayQueue<()>,
    /// A signal from each hand that has counted.
    done: ArrayQueue<()>,
}

/// A hand that a thread takes with it, and how often it is to retain and release each object.
#[derive(Drop)]
struct Worker<'a> {
    heap: &'a Heap<u32>,
    hand: Hand<u32>,
    times: u32,
    ghost alone: { IsAlone heap.now hand } by { alone-prop heap.now hand },
}

/// Retains and releases an object of the hand's own. Returns whether a reference is left, counted locally.
fn pair(heap: &Heap<u32>, hand: &mut Hand<u32>, row: u32) -> bool
    requires ready { IsReadyAt heap.now hand.old row }
    ensures ready { result ≡ true → IsReadyAt heap.now hand.new row }
{
    heap.retain(hand, row);
    matches!(heap.release_local(hand, row), LocalRelease::Kept)
}

/// Retains and releases the root many times, and then a number of the hand's own as often, if the hand has room for it.
/// Returns how often a reference was left: to the root, and to the number.
#[tactic(auto, using(crate::proofs::Readiness::ready_alone, crate::proofs::Readiness::alone_again))]
fn counts(worker: Worker<'_>) -> [u32; 2] {
    let Worker {
        heap,
        mut hand,
        times,
    } = worker;
    for kept in 0..times {
        let Some(_) = retain_and_release(heap, &mut hand) else {
            return [kept, 0];
        };
    }
    if !heap.room(&hand) {
        return [times, 0];
    }
    let row = heap.birth(&mut hand, Kind::Num, VALUE, None);
    for kept in 0..times {
        if !pair(heap, &mut hand, row) {
            return [times, kept];
        }
    }
    [times, times]
}

/// Lets a hand count, and notes how often.
fn counts_and_notes<R: Wait>(rt: &R, worker: Worker<'_>, progress: &Progress) {
    let thread = usize::from(worker.hand.thread());
    let counted = counts(worker);
    if let Some(place) = progress.counts.lock(rt).get_mut(thread) {
        *place = counted;
    }
    // There is room for each hand's signal.
    let _ = progress.done.push(rt, ());
}

/// Waits for the signal. Returns whether it was given.
fn waits<R: Wait>(rt: &R, signal: &ArrayQueue<()>) -> bool {
    for _ in 0..MOST_TURNS {
        if signal.pop(rt).is_some() {
            return true;
        }
    }
    false
}

/// Waits until all hands but the locker's have counted. Returns whether they have.
fn waits_for_all<R: Wait>(rt: &R, progress: &Progress) -> bool {
    for _ in 0..LAST {
        if !waits(rt, &progress.done) {
            return false;
        }
    }
    true
}

/// Locks the root, unlocks it once the others have counted, and does so again. Returns whether the hand could, and the
/// others have counted meanwhile.
#[tactic(auto, using(crate::proofs::Readiness::resting_alone))]
fn holds<R: Wait>(rt: &R, worker: Worker<'_>, progress: &Progress) -> bool {
    let Worker { heap, mut hand, .. } = worker;
    if !locks(heap, &mut hand) || progress.locked.push(rt, ()).is_err() {
        return false;
    }
    let counted = waits_for_all(rt, progress);
    unlocks(heap, &mut hand);
    if !locks(heap, &mut hand) {
        return false;
    }
    unlocks(heap, &mut hand);
    counted
}

/// Gives out the hands of the workers that count.
fn crew<'a>(
    alloc: Global,
    heap: &'a Heap<u32>,
    main: &mut Hand<u32>,
    times: u32,
) -> Result<Vec<Worker<'a>>, Fail>
    requires alone { IsAlone heap.now main.old }
    requires main { main.old.view.thread ≡ 0 }
    ensures alone { OnOk result (IsAlone heap.now main.new) }
{
    let mut workers = vec![in alloc]?;
    for thread in LOCKER + 1..LAST + 1 {
        let hand = hand_of(heap, main, thread)?;
        workers.push(Worker { heap, hand, times })?;
    }
    Ok(workers)
}

/// Lets the workers count in threads of a scope, and main beside them; and the locker hold the root meanwhile, if there
/// is one. Returns what they have counted, or `None` if the locker couldn't lock the root, or has missed the others.
fn all_count<R: Threads + Wait + Sync>(
    rt: &R,
    alloc: Global,
    workers: Vec<Worker<'_>>,
    main: Worker<'_>,
    locker: Option<Worker<'_>>,
) -> Result<Option<Counts>, AllocError> {
    let progress = Progress {
        counts: Mutex::new([[0; 2]; 6]),
        locked: ArrayQueue::new(alloc, 1)?,
        done: ArrayQueue::new(alloc, 5)?,
    };
    let now = &progress;
    let held = thread::scope(
        thread::scope_env(),
        rt,
        |scope| -> Result<bool, AllocError> {
            let mut locked = true;
            let mut holder = None;
            if let Some(locker) = locker {
                holder = Some(scope.spawn(move || holds(rt, locker, now))?);
                locked = waits(rt, &now.locked);
            }
            for worker in workers {
                scope.spawn(move || counts_and_notes(rt, worker, now))?;
            }
            counts_and_notes(rt, main, now);
            match holder {
                Some(holder) => Ok(holder.join(rt) & locked),
                None => Ok(true),
            }
        },
    )?;
    let counts = progress.counts.into_inner();
    if held { Ok(Some(counts)) } else { Ok(None) }
}

/// Opens a heap and lets all hands count, beside a lock or with none held.
fn round<R: Threads + Wait + Sync>(
    rt: &R,
    alloc: Global,
    locked: bool,
    times: u32,
) -> Result<Option<Counts>, Fail> {
    let (heap, main) = opened(alloc, LAST, 1)?;
    round_in(rt, alloc, &heap, main, locked, times)
}

/// Does what `round` does, with the heap.
fn round_in<R: Threads + Wait + Sync>(
    rt: &R,
    alloc: Global,
    heap: &Heap<u32>,
    mut main: Hand<u32>,
    locked: bool,
    times: u32,
) -> Result<Option<Counts>, Fail>
    requires alone { IsAlone heap.now main }
    requires main { main.view.thread ≡ 0 }
{
    let hand = hand_of(heap, &mut main, LOCKER)?;
    let workers = crew(alloc, heap, &mut main, times)?;
    let main = Worker {
        heap,
        hand: main,
        times,
    };
    let locker = if locked {
        Some(Worker { heap, hand, times })
    } else {
        None
    };
    Ok(all_count(rt, alloc, workers, main, locker)?)
}

// In the last round hand 1 holds the root's lock until the others have made their pairs.
#[test]
fn no_big_lock(rt: HostRuntime) -> Result<(), Fail> {
    for (locked, times) in [(false, 10_000), (true, 1_000)] {
        let counts = round(&rt, rt.alloc(), locked, times)?;
        let both = [times, times];
        let want = Some([[times, 0], [0, 0], both, both, both, both]);
        assert_eq!(rt; counts, want, "locked: {locked}");
    }
    Ok(())
}
