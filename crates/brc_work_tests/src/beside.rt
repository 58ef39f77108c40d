//! Two workers that call two functions of a module at the same time, each in a thread of its own.

ghost use Rattle.std.specs.Prelude.{◌≡◌, ◌<◌, [], length, OnSome};
ghost use Rattle.brc_model.specs.Threads.{function_at};
ghost use Rattle.brc_table.specs.Hands.{IsOf};
ghost use Rattle.brc_work.specs.Fits.{IsHeapOf};
ghost use Rattle.brc_work_tests.specs.Ready.{HoldsRoot};

use crate::calls::{leaves, makes_calls, opened, worker_hand};
use crate::hearing::{Hearing, WORKER};
use crate::runs::{MOST_ROWS, objects_left};
use brc_check::Checked;
use brc_fixtures::is_callable;
use brc_heap::{Hand, Heap};
use brc_host::{FakeHost, FakeResource};
use std::alloc::Global;
use std::sync::Wait;
use std::test::*;
use std::thread;
use std::thread::Threads;

/// How often each worker calls its function.
const CALLS: u32 = 4;

/// Lets a worker make its calls of the function, and begin at most `steps` instructions; then it leaves. Returns
/// whether it has made all its calls.
fn works<R: Wait>(
    rt: &R,
    heap: &Heap<FakeResource>,
    checked: &Checked,
    function: usize,
    steps: u64,
    mut hand: Hand<FakeResource>,
) -> bool
    requires function { function < length checked.now.module.functions }
    requires parameters { (function_at checked.now.module.functions function).parameters ≡ [] }
    requires heap { IsHeapOf checked.now.module heap.now }
    requires holds { HoldsRoot heap.now hand }
{
    let gate = Hearing::new();
    let mut host = FakeHost::new(&[]);
    let ran = makes_calls(
        rt, heap, checked, function, CALLS, steps, &mut hand, &mut host, &gate,
    );
    leaves(rt, heap, &mut hand, &mut host);
    ran.is_done()
}

/// Lets the first worker call the first function, and the second one the second. Returns whether one of them has made
/// all its calls.
fn both_work<R: Threads + Wait + Sync>(
    rt: &R,
    heap: &Heap<FakeResource>,
    checked: &Checked,
    steps: u64,
    one: Hand<FakeResource>,
    two: Hand<FakeResource>,
) -> bool
    requires functions { 1 < length checked.now.module.functions }
    requires first { (function_at checked.now.module.functions 0).parameters ≡ [] }
    requires second { (function_at checked.now.module.functions 1).parameters ≡ [] }
    requires heap { IsHeapOf checked.now.module heap.now }
    requires one { HoldsRoot heap.now one }
    requires two { HoldsRoot heap.now two }
{
    let (first, second) = thread::join(
        rt,
        move || -> bool
            requires { (1 < length checked.now.module.functions)
                × ((function_at checked.now.module.functions 0).parameters ≡ [])
                × IsHeapOf checked.now.module heap.now × HoldsRoot heap.now one }
        { works(rt, heap, checked, 0, steps, one) },
        move || -> bool
            requires { (1 < length checked.now.module.functions)
                × ((function_at checked.now.module.functions 1).parameters ≡ [])
                × IsHeapOf checked.now.module heap.now × HoldsRoot heap.now two }
        { works(rt, heap, checked, 1, steps, two) },
    );
    first || second
}

/// Lets both workers work, and then main leave. Returns whether a worker has made all its calls.
fn all_leave<R: Threads + Wait + Sync>(
    rt: &R,
    heap: &Heap<FakeResource>,
    main: &mut Hand<FakeResource>,
    checked: &Checked,
    steps: u64,
) -> Option<bool>
    requires functions { 1 < length checked.now.module.functions }
    requires first { (function_at checked.now.module.functions 0).parameters ≡ [] }
    requires second { (function_at checked.now.module.functions 1).parameters ≡ [] }
    requires heap { IsHeapOf checked.now.module heap.now }
    requires main { HoldsRoot heap.now main.old }
    requires thread { main.old.view.thread ≡ 0 }
    ensures table { OnSome result (IsOf heap.now main.new) }
    ensures thread { OnSome result (main.new.view.thread ≡ 0) }
{
    let Ok(one) = worker_hand(heap, main, WORKER) else {
        return None;
    };
    let Ok(two) = worker_hand(heap, main, 2) else {
        return None;
    };
    let done = both_work(rt, heap, checked, steps, one, two);
    let mut host = FakeHost::new(&[]);
    leaves(rt, heap, main, &mut host);
    Some(done)
}

/// Lets two workers call the module's first two functions at the same time, one each, and begin at most `steps`
/// instructions. Returns whether one has made all its calls, and the objects that were created, closed and are alive.
pub fn beside<R: Threads + Wait + Sync>(
    rt: &R,
    alloc: Global,
    checked: &Checked,
    steps: u64,
) -> Result<(bool, [u64; 3]), Fail> {
    if !is_callable(checked, 0) || !is_callable(checked, 1) {
        return Err("two functions have no parameters")?;
    }
    let (heap, main) = opened(alloc, checked, 2, MOST_ROWS)?;
    match beside_in(rt, heap, main, checked, steps) {
        Some(ends) => Ok(ends),
        None => Err("a hand can't be given out, or a thread isn't gone")?,
    }
}

/// Does what `beside` does, with the heap.
fn beside_in<R: Threads + Wait + Sync>(
    rt: &R,
    heap: Heap<FakeResource>,
    mut main: Hand<FakeResource>,
    checked: &Checked,
    steps: u64,
) -> Option<(bool, [u64; 3])>
    requires functions { 1 < length checked.now.module.functions }
    requires first { (function_at checked.now.module.functions 0).parameters ≡ [] }
    requires second { (function_at checked.now.module.functions 1).parameters ≡ [] }
    requires heap { IsHeapOf checked.now.module heap }
    requires main { HoldsRoot heap main }
    requires thread { main.view.thread ≡ 0 }
{
    let done = all_leave(rt, &heap, &mut main, checked, steps)?;
    let objects = objects_left(heap, main)?;
    Some((done, objects))
}
