//! What a worker does on a thread of its own.

ghost use Rattle.std.specs.Prelude.{◌≡◌, ◌<◌, [], length};
ghost use Rattle.brc_queue.specs.Scans.{HasLeft};
ghost use Rattle.brc_model.specs.declared.actor.Status.TheVariants.{Gone};
ghost use Rattle.brc_model.specs.Threads.{function_at};
ghost use Rattle.brc_work.specs.Totals.{Asked, no_totals};
ghost use Rattle.brc_table.specs.Hands.{IsOf};
ghost use Rattle.brc_work.specs.Workers.{IsFresh, MayBeCalled, HasGone, Ends, job, fresh-prop, called-prop, heap-prop};
ghost use Rattle.brc_work.specs.Fits.{IsHeapOf};

use crate::gate::Gate;
use crate::ran::Ran;
use crate::totals::Totals;
use crate::worker::Worker;
use brc_check::Checked;
use brc_heap::{Hand, Heap};
use brc_host::Host;
use brc_queue::Queue;
use std::snapshot::Snapshot;
use std::sync::Wait;
use std::sync::atomic::{AtomicBool, Ordering};
use std::thread::Promise;

/// A worker's task: the calls that it is to make, with this hand and this host.
#[derive(Drop)]
pub(crate) struct Task<'a, T: Drop, H, G> {
    pub(crate) heap: &'a Heap<T>,
    pub(crate) checked: &'a Checked,
    pub(crate) function: usize,
    pub(crate) times: u32,
    pub(crate) steps: u64,
    pub(crate) thread: u8,
    pub(crate) hand: Hand<T>,
    pub(crate) host: &'a mut H,
    pub(crate) gate: &'a G,
    ghost known: { MayBeCalled checked.now.module function } by { called-prop checked.now.module function },
    ghost statics: { IsHeapOf checked.now.module heap.now } by { heap-prop checked.now.module heap.now },
    ghost fresh: { IsFresh heap.now thread hand } by { fresh-prop heap.now thread hand },
}

/// What a worker leaves: its hand, how its run has ended, and what it has counted.
#[derive(Drop)]
pub(crate) struct Remains<T: Drop> {
    pub(crate) hand: Hand<T>,
    pub(crate) ran: Ran,
    /// Whether it has begun at all.
    pub(crate) called: bool,
}

/// A worker's promise: when its thread ends, its hand is gone, and unless the workers were called off before it began,
/// it has made its calls, or was stopped by its bound, and has left.
#[derive(Drop)]
pub(crate) struct WorkerPromise<T: Drop, H> {
    pub(crate) heap: Snapshot<Heap<T>>,
    pub(crate) checked: Snapshot<Checked>,
    pub(crate) function: usize,
    pub(crate) times: u32,
    pub(crate) steps: u64,
    pub(crate) thread: u8,
    pub(crate) host: Snapshot<H>,
}

impl<T: Drop, H: Host<Res = T>> Promise<Remains<T>> for WorkerPromise<T, H> {
    ghost kept_by = { λ p done. Ends H.answers H.counts
        (job p.heap.value p.checked.value.«module» p.function p.times p.steps p.thread p.host.value)
        done.hand done.ran done.called };
}

impl<'a, T: Drop, H: Host<Res = T>, G: Gate> Task<'a, T, H, G> {
    /// Makes the calls, unless the workers are called off, and lets the hand leave.
    pub(crate) fn work<R: Wait>(self, rt: &R, called_off: &AtomicBool) -> Remains<T>
        ensures { Ends H.answers H.counts (job self.entry.heap.now self.entry.checked.now.module
            self.entry.function self.entry.times self.entry.steps self.entry.thread self.entry.host.now) result.hand
            result.ran result.called }
    {
        let Task {
            heap,
            checked,
            function,
            times,
            steps,
            thread: _,
            mut hand,
            host,
            gate,
        } = self;
        if called_off.load(Ordering::SeqCst) {
            let totals = leaves_at_once(rt, heap, &mut hand, host);
            return Remains {
                hand,
                ran: Ran::Stopped(totals),
                called: false,
            };
        }
        let ran = calls_and_leaves(
            rt, heap, checked, function, times, steps, &mut hand, host, gate,
        );
        Remains {
            hand,
            ran,
            called: true,
        }
    }
}

/// Makes the calls with a hand that was just given out, and lets it leave. Returns how the run has ended, with what was
/// counted of both.
fn calls_and_leaves<R: Wait, T: Drop, H: Host<Res = T>, G: Gate>(
    rt: &R,
    heap: &Heap<T>,
    checked: &Checked,
    function: usize,
    times: u32,
    steps: u64,
    hand: &mut Hand<T>,
    host: &mut H,
    gate: &G,
) -> Ran
    requires fresh { IsFresh heap.now hand.old.view.thread hand.old }
    requires function { function < length checked.now.module.functions }
    requires parameters { (function_at checked.now.module.functions function).parameters ≡ [] }
    requires heap { IsHeapOf checked.now.module heap.now }
    ensures gone { HasGone H.answers H.counts
        (job heap.now checked.now.module function times steps hand.old.view.thread host.old) hand.new result }
{
    let queue = Queue::new(heap);
    let worker = Worker::new(heap, &queue);
    let ran = worker.run(rt, checked, function, times, steps, hand, host, gate);
    let failed = queue.leave(rt, hand, host);
    let mut totals = ran.totals();
    totals.count_close_faults(failed);
    ran.with_totals(totals)
}

/// Lets a hand that was just given out leave without a call. Returns what was counted.
fn leaves_at_once<R: Wait, T: Drop, H: Host<Res = T>>(
    rt: &R,
    heap: &Heap<T>,
    hand: &mut Hand<T>,
    host: &mut H,
) -> Totals
    requires fresh { IsFresh heap.now hand.old.view.thread hand.old }
    ensures of { IsOf heap.now hand.new }
    ensures thread { hand.new.view.thread ≡ hand.old.view.thread }
    ensures gone { hand.new.view.actor.status ≡ Gone }
    ensures no_field { hand.new.fields ≡ [] }
    ensures asked { Asked H.answers H.counts host.old host.new no_totals result
        (λ calls. HasLeft calls hand.old.view hand.new.view) }
{
    let mut totals = Totals::new();
    let failed = Queue::new(heap).leave(rt, hand, host);
    totals.count_close_faults(failed);
    totals
}
