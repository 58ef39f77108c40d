//! Workers on threads of their own.

ghost use Rattle.std.specs.Prelude.{◌≡◌, ℕ, ◌+◌, ◌<◌, ◌≤◌, false, [], length, vec_len, vec_capacity, slice_index_or, IfOk, IfErr, OnErr};
ghost use Rattle.brc_model.specs.Threads.{function_at};
ghost use Rattle.brc_table.specs.Hands.{IsOf};
ghost use Rattle.brc_work.specs.Fits.{IsHeapOf};
ghost use Rattle.brc_work.specs.Mains.{MayFanOut, KeepsMain, HasJoinedAll};
ghost use Rattle.brc_work.specs.Workers.{HasGone, Ends, Job, job};

use crate::error::NoThread;
use crate::gate::Gate;
use crate::joining::join_hands;
use crate::ran::Ran;
use crate::task::{Remains, Task, WorkerPromise};
use crate::tasks::tasks_of;
use brc_check::Checked;
use brc_heap::{Hand, Heap};
use brc_host::Host;
use std::alloc::Global;
use std::snapshot::Snapshot;
use std::sync::Wait;
use std::sync::atomic::{AtomicBool, Ordering};
use std::thread;
use std::thread::{PromisedHandle, Threads};

/// The thread of a worker, whose hand will be gone when the thread ends; or what the worker has left in main's thread,
/// if its own couldn't be started.
type Started<T, H> = Result<PromisedHandle<Remains<T>, WorkerPromise<T, H>>, Remains<T>>;

/// Lets a worker for each host call the accepted module's function with this number, which has no parameters, `times`
/// times, each in a thread of its own; each begins at most `steps` instructions, and stops where it has begun as many,
/// as `Worker::run` does. Returns what the workers leave, in their order: each one's hand, which is gone, and how its
/// run has ended.
///
/// Main gives out the hands of workers 1, 2, .., and holds afterwards what it held before. When the call returns, all
/// workers have left.
///
/// # Errors
///
/// K1 if memory is refused, and then no hand was given out; or if a thread can't be started, and then the workers that
/// have no thread have left without a call. In any case main has joined each hand that it has given out: that thread is
/// gone, and `finish` doesn't find it running.
pub fn fan_out<
    'w,
    R: Threads + Wait + Sync,
    T: Send + Drop,
    H: Host<Res = T> + Send,
    G: Gate + Sync,
>(
    rt: &R,
    alloc: Global,
    heap: &'w Heap<T>,
    main: &mut Hand<T>,
    checked: &'w Checked,
    function: usize,
    times: u32,
    steps: u64,
    hosts: &'w mut [H],
    gate: &'w G,
) -> Result<Vec<(Hand<T>, Ran)>, NoThread>
    requires of { IsOf heap.now main.old }
    requires may { MayFanOut main.old.view }
    requires enough { length hosts.old ≤ heap.now.layout.workers }
    requires function { function < length checked.now.module.functions }
    requires parameters { (function_at checked.now.module.functions function).parameters ≡ [] }
    requires heap { IsHeapOf checked.now.module heap.now }
    ensures of { IsOf heap.now main.new }
    ensures kept { KeepsMain main.old.view main.new.view }
    ensures carried { main.new.carried ≡ main.old.carried }
    ensures fields { main.new.fields ≡ main.old.fields }
    ensures one_each { IfOk result (λ gone. vec_len gone ≡ length hosts.old) }
    ensures gone { IfOk result (λ gone. (k : ℕ) (w : _) (h : _) → k < vec_len gone
        → HasGone H.answers H.counts
        (job heap.now checked.now.module function times steps (k + 1) (slice_index_or hosts.old k h))
        (slice_index_or gone.items k w).0 (slice_index_or gone.items k w).1) }
    ensures joined { OnErr result (HasJoinedAll main.new.view) }
{
    let count = hosts.len();
    let tasks = Vec::with_capacity(alloc, count)?;
    let threads = Vec::with_capacity(alloc, count)?;
    let answer = Vec::with_capacity(alloc, count)?;
    let tasks = tasks_of(
        heap, main, checked, function, times, steps, hosts, gate, tasks,
    );
    let (gone, called) = run_all(rt, tasks, threads, answer);
    if called {
        Ok(gone)
    } else {
        join_hands(heap, main, gone);
        Err(NoThread)
    }
}

/// Lets each worker do its task in a thread of its own. Returns what the workers leave, and whether each has made its
/// calls in such a thread. If a thread can't be started, the workers are called off: those that haven't begun leave
/// without a call.
fn run_all<'w, R: Threads + Wait + Sync, T: Send + Drop, H: Host<Res = T> + Send, G: Gate + Sync>(
    rt: &R,
    tasks: Vec<Task<'w, T, H, G>>,
    mut threads: Vec<Started<T, H>>,
    answer: Vec<(Hand<T>, Ran)>,
) -> (Vec<(Hand<T>, Ran)>, bool)
    requires no_threads { threads.items ≡ [] }
    requires room { vec_len tasks ≤ vec_capacity threads }
    requires empty { answer.items ≡ [] }
    requires answer_room { vec_len tasks ≤ vec_capacity answer }
    ensures one_each { vec_len result.0 ≡ vec_len tasks.entry }
    ensures ends { (k : ℕ) (w : _) (t : _) → k < vec_len result.0 → let task = slice_index_or tasks.entry.items k t in
        Ends H.answers H.counts (job task.heap.now task.checked.now.module task.function task.times task.steps
        task.thread task.host.now)
        (slice_index_or result.0.items k w).0 (slice_index_or result.0.items k w).1 result.1 }
{
    let called_off = AtomicBool::new(false);
    let shared = &called_off;
    thread::scope(
        thread::scope_env(),
        rt,
        move |scope| -> (Vec<(Hand<T>, Ran)>, bool)
            requires { (threads.items ≡ []) × (vec_len tasks ≤ vec_capacity threads)
                × (answer.items ≡ []) × (vec_len tasks ≤ vec_capacity answer) }
            ensures { (vec_len result.0 ≡ vec_len tasks.entry) × ((k : ℕ) (w : _) (t : _) → k < vec_len result.0
                → let task = slice_index_or tasks.entry.items k t in
                Ends H.answers H.counts (job task.heap.now task.checked.now.module task.function task.times task.steps
                task.thread task.host.now)
                (slice_index_or result.0.items k w).0 (slice_index_or result.0.items k w).1 result.1) }
        {
            let were = Snapshot::of(&tasks);
            for task in tasks {
                let promise = WorkerPromise {
                    heap: Snapshot::of(task.heap),
                    checked: Snapshot::of(task.checked),
                    function: task.function,
                    times: task.times,
                    steps: task.steps,
                    thread: task.thread,
                    host: Snapshot::of(&*task.host),
                };
                let begun = match scope.spawn_with(
                    promise,
                    move || -> Remains<T>
                        ensures { Ends H.answers H.counts (job task.entry.heap.now task.entry.checked.now.module
                            task.entry.function task.entry.times task.entry.steps task.entry.thread
                            task.entry.host.now) result.hand result.ran result.called }
                    { task.work(rt, shared) },
                ) {
                    Ok(started) => Ok(started),
                    Err(refused) => {
                        shared.store(true, Ordering::SeqCst);
                        Err((refused.value)())
                    }
                };
                let Ok(()) = threads.push(begun) else {
                    unreachable!()
                };
            }
            join_all(rt, were, threads, answer)
        },
    )
}

/// Joins the threads of the workers that had these tasks. Returns what the workers leave, in their order, and whether
/// each has made its calls in a thread of its own.
fn join_all<'w, R: Threads, T: Send + Drop, H: Host<Res = T>, G: Gate>(
    rt: &R,
    were: Snapshot<Vec<Task<'w, T, H, G>>>,
    threads: Vec<Started<T, H>>,
    mut answer: Vec<(Hand<T>, Ran)>,
) -> (Vec<(Hand<T>, Ran)>, bool)
    requires empty { answer.items ≡ [] }
    requires room { vec_len threads ≤ vec_capacity answer }
    requires begun { (k : ℕ) (b : _) (t : _) → k < vec_len threads → let task = slice_index_or were.value.items k t in
        IfOk (slice_index_or threads.items k b) (λ s. let promise = s.promise in
        job promise.heap.value promise.checked.value.«module» promise.function promise.times promise.steps
        promise.thread promise.host.value
        ≡ job task.heap.now task.checked.now.module task.function task.times task.steps task.thread task.host.now)
        × IfErr (slice_index_or threads.items k b) (λ done. Ends H.answers H.counts
        (job task.heap.now task.checked.now.module task.function task.times task.steps task.thread task.host.now)
        done.hand done.ran done.called) }
    ensures one_each { vec_len result.0 ≡ vec_len threads }
    ensures started { (k : ℕ) (b : _) → k < vec_len threads
        → IfErr (slice_index_or threads.items k b) (λ _. result.1 ≡ false) }
    ensures ends { (k : ℕ) (w : _) (t : _) → k < vec_len result.0
        → let task = slice_index_or were.entry.value.items k t in
        Ends H.answers H.counts (job task.heap.now task.checked.now.module task.function task.times task.steps
        task.thread task.host.now)
        (slice_index_or result.0.items k w).0 (slice_index_or result.0.items k w).1 result.1 }
{
    let _ = were;
    let mut called = true;
    for begun in threads {
        let done = left_by(rt, begun);
        called = called && done.called;
        let Ok(()) = answer.push((done.hand, done.ran)) else {
            unreachable!()
        };
    }
    (answer, called)
}

/// Returns what the worker leaves: if it has a thread, once that has ended. What a worker did in main's thread doesn't
/// count as calls.
fn left_by<R: Threads, T: Send + Drop, H: Host<Res = T>>(rt: &R, begun: Started<T, H>) -> Remains<T>
    ensures started { IfErr begun (λ _. result.called ≡ false) }
    ensures ends { (j : Job H) → IfOk begun (λ s. let promise = s.promise in
        job promise.heap.value promise.checked.value.«module» promise.function promise.times promise.steps
        promise.thread promise.host.value ≡ j)
        → IfErr begun (λ done. Ends H.answers H.counts j done.hand done.ran done.called)
        → Ends H.answers H.counts j result.hand result.ran result.called }
{
    match begun {
        Ok(started) => started.join(rt),
        Err(done) => Remains {
            hand: done.hand,
            ran: done.ran,
            called: false,
        },
    }
}
