//! An object in its owner's queue. The owner leaves between the mark and the look, leaves before the mark, or runs on.
//! The two workers are in threads of their own, and a signal holds each of them where the other one is to go on.

ghost use Rattle.std.specs.Prelude.{◌≡◌, true, [], ◌∷◌, IfSome};
ghost use Rattle.brc_model.specs.declared.duty.Duty.TheVariants.{SetMark, MergeSwap};
ghost use Rattle.brc_model.specs.declared.duty.Reason.TheVariants.{Handed};
ghost use Rattle.brc_heap.specs.Marks.{look_left};
ghost use Rattle.brc_model.specs.Duties.{resources_of};
ghost use Rattle.brc_heap.specs.Calls.{IsBornWith, kind_word};
ghost use Rattle.brc_table.specs.Homes.{resources};
ghost use Rattle.brc_queue_tests.specs.Sharing.{HoldsRoot, HasLeft, shared_row};

use crate::meeting::Worker;
use crate::sharing::{
    ROW, bears, hands_over, leaves, looks, looks_through, marks, merges_and_settles, puts, takes,
};
use brc_heap::{Hand, Heap, MergeStep, SharedRelease};
use brc_host::{FakeHost, FakeResource, Host};
use brc_lang::{Kind, Mode};
use brc_queue::Looked;
use brc_table::Contention;
use crossbeam_queue::ArrayQueue;
use std::alloc::{AllocError, Global};
use std::sync::Wait;
use std::thread;
use std::thread::Threads;

/// How often a worker looks for the other one before it misses it.
const MOST_TURNS: u32 = 100_000_000;

/// What the owner does.
#[derive(Clone, Copy)]
pub enum Owner {
    /// It leaves between the mark and the look.
    LeavesLate,
    /// It leaves before the mark.
    Leaves,
    /// It leaves before the mark, and the object stays in a cell.
    LeavesTheItem,
    /// It runs on.
    Stays,
}

/// How a post went: what the poster found when it looked, and how its merge and its release ended, if it had to merge.
pub type Posted = (Looked, Option<(MergeStep, SharedRelease)>);

/// The signals at which the owner and the poster go on. Each is given by the other one.
#[derive(Drop)]
pub struct Signals {
    owner: ArrayQueue<()>,
    poster: ArrayQueue<()>,
}

impl Signals {
    /// Returns signals of which none is given yet.
    pub fn new(alloc: Global) -> Result<Signals, AllocError> {
        Ok(Signals {
            owner: ArrayQueue::new(alloc, 1)?,
            poster: ArrayQueue::new(alloc, 2)?,
        })
    }
}

/// Gives the signal. Returns whether there was room for it.
fn gives<R: Wait>(rt: &R, signal: &ArrayQueue<()>) -> bool {
    signal.push(rt, ()).is_ok()
}

/// Waits for the signal. Returns whether it was given.
fn waits<R: Wait>(rt: &R, signal: &ArrayQueue<()>) -> bool {
    for _ in 0..MOST_TURNS {
        if signal.pop(rt).is_some() {
            return true;
        }
    }
    false
}

/// Gives birth to the object, a file of this host or a number, and puts it into the root. Returns whether it is there.
fn shares(
    heap: &Heap<FakeResource>,
    hand: &mut Hand<FakeResource>,
    host: &mut FakeHost<'_>,
    owner: Owner,
) -> bool
    requires holds { HoldsRoot heap.now hand.old }
    ensures holds { result ≡ true → HoldsRoot heap.now hand.new }
{
    match owner {
        Owner::Stays => match host.open(0, Mode::READ) {
            Ok(file) => bears(heap, hand, ROW, Kind::File, Some(file)) && puts(heap, hand, false),
            Err(_) => false,
        },
        Owner::LeavesTheItem => bears(heap, hand, ROW, Kind::Num, None) && puts(heap, hand, true),
        Owner::LeavesLate | Owner::Leaves => {
            bears(heap, hand, ROW, Kind::Num, None) && puts(heap, hand, false)
        }
    }
}

/// Does the owner's part. Returns how many files it has closed by the time at which the second worker has posted its
/// object and it has looked through its queue, or left.
fn owns<R: Wait>(rt: &R, worker: Worker<'_>, between: &Signals, owner: Owner) -> Option<u64> {
    let Worker { heap, mut hand } = worker;
    owns_by(rt, heap, &mut hand, between, owner)
}

/// Does the owner's part with its hand.
fn owns_by<R: Wait>(
    rt: &R,
    heap: &Heap<FakeResource>,
    hand: &mut Hand<FakeResource>,
    between: &Signals,
    owner: Owner,
) -> Option<u64>
    requires holds { HoldsRoot heap.now hand.old }
{
    let mut host = FakeHost::new(&[]);
    if !shares(heap, hand, &mut host, owner) || !lets_the_poster_go_on(rt, between) {
        return None;
    }
    match owner {
        Owner::Stays => looks_and_leaves(rt, heap, hand, &mut host, between),
        Owner::LeavesLate | Owner::Leaves | Owner::LeavesTheItem => {
            leaves_at_once(rt, heap, hand, &mut host, between)
        }
    }
}

/// Lets the poster go on, and waits until it has. Returns whether it has.
fn lets_the_poster_go_on<R: Wait>(rt: &R, between: &Signals) -> bool {
    gives(rt, &between.poster) && waits(rt, &between.owner)
}

/// Looks through the owner's queue, and leaves. Returns how many files it has closed before it leaves.
fn looks_and_leaves<R: Wait>(
    rt: &R,
    heap: &Heap<FakeResource>,
    hand: &mut Hand<FakeResource>,
    host: &mut FakeHost<'_>,
    between: &Signals,
) -> Option<u64>
    requires holds { HoldsRoot heap.now hand.old }
{
    if !looks_through(rt, heap, hand, host) {
        return None;
    }
    // It has taken the object's mark, and merged the object.
    if hand.contention() != Contention::CLAIMED.plus(Contention::MERGED) {
        return None;
    }
    let closed = host.closed();
    if gives(rt, &between.poster) && leaves(rt, heap, hand, host) {
        Some(closed)
    } else {
        None
    }
}

/// Leaves, and returns how many files the owner has closed.
fn leaves_at_once<R: Wait>(
    rt: &R,
    heap: &Heap<FakeResource>,
    hand: &mut Hand<FakeResource>,
    host: &mut FakeHost<'_>,
    between: &Signals,
) -> Option<u64>
    requires holds { HoldsRoot heap.now hand.old }
{
    if leaves(rt, heap, hand, host) && gives(rt, &between.poster) {
        Some(host.closed())
    } else {
        None
    }
}

/// Returns whether the owner is to go on before the mark, before the look, and after the look.
fn moments_of(owner: Owner) -> [bool; 3] {
    match owner {
        Owner::Leaves | Owner::LeavesTheItem => [true, false, false],
        Owner::LeavesLate => [false, true, false],
        Owner::Stays => [false, false, true],
    }
}

/// Lets the owner go on, if this is the moment, and waits until it has. Returns whether the poster can go on.
fn lets_the_owner_go_on<R: Wait>(rt: &R, between: &Signals, is_moment: bool) -> bool {
    !is_moment || (gives(rt, &between.owner) && waits(rt, &between.poster))
}

/// Sets the mark of the object and looks after it, before, after or while the owner leaves, or runs on.
fn marks_and_looks<R: Wait>(
    rt: &R,
    heap: &Heap<FakeResource>,
    hand: &mut Hand<FakeResource>,
    between: &Signals,
    owner: Owner,
) -> Option<Looked>
    requires left { HasLeft heap.now hand.old (SetMark shared_row ∷ []) }
    ensures left { IfSome result (λ looked. HasLeft heap.now hand.new (look_left shared_row looked)) }
{
    let [before_mark, before_look, after_look] = moments_of(owner);
    if !lets_the_owner_go_on(rt, between, before_mark) {
        return None;
    }
    marks(heap, hand);
    if !lets_the_owner_go_on(rt, between, before_look) {
        return None;
    }
    let looked = looks(heap, hand);
    if !lets_the_owner_go_on(rt, between, after_look) {
        return None;
    }
    Some(looked)
}

/// Does the second worker's part: it takes the object out of the root and gives it up. Returns how its post went.
fn posts<R: Wait>(rt: &R, worker: Worker<'_>, between: &Signals, owner: Owner) -> Option<Posted> {
    let Worker { heap, mut hand } = worker;
    posts_by(rt, heap, &mut hand, between, owner)
}

/// Does the second worker's part with its hand.
fn posts_by<R: Wait>(
    rt: &R,
    heap: &Heap<FakeResource>,
    hand: &mut Hand<FakeResource>,
    between: &Signals,
    owner: Owner,
) -> Option<Posted>
    requires holds { HoldsRoot heap.now hand.old }
{
    if !waits(rt, &between.poster) || !takes(heap, hand) || !hands_over(heap, hand) {
        return None;
    }
    match marks_and_looks(rt, heap, hand, between, owner)? {
        Looked::Left => goes(rt, heap, hand, (Looked::Left, None)),
        Looked::Claimed => merges_and_goes(rt, heap, hand),
    }
}

/// Merges the object whose mark the poster has taken, and leaves. Returns how its post went.
fn merges_and_goes<R: Wait>(
    rt: &R,
    heap: &Heap<FakeResource>,
    hand: &mut Hand<FakeResource>,
) -> Option<Posted>
    requires left { HasLeft heap.now hand.old (MergeSwap shared_row Handed ∷ []) }
{
    let mut host = FakeHost::new(&[]);
    let ended = merges_and_settles(rt, heap, hand, &mut host)?;
    goes(rt, heap, hand, (Looked::Claimed, Some(ended)))
}

/// Lets the poster leave. Returns how its post went, if no close has failed.
fn goes<R: Wait>(
    rt: &R,
    heap: &Heap<FakeResource>,
    hand: &mut Hand<FakeResource>,
    posted: Posted,
) -> Option<Posted>
    requires holds { HoldsRoot heap.now hand.old }
{
    if leaves(rt, heap, hand, &mut FakeHost::new(&[])) {
        Some(posted)
    } else {
        None
    }
}

/// Lets the first worker own an object and the second one post it, at the same time. Returns how many files the owner
/// has closed, and how the post went.
pub fn both_go<R: Threads + Wait + Sync>(
    rt: &R,
    one: Worker<'_>,
    two: Worker<'_>,
    between: &Signals,
    owner: Owner,
) -> (Option<u64>, Option<Posted>) {
    thread::join(
        rt,
        move || owns(rt, one, between, owner),
        move || posts(rt, two, between, owner),
    )
}
