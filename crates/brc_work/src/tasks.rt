//! The tasks of workers, each of which has a hand of its own.

ghost use Rattle.std.specs.Prelude.{◌≡◌, ℕ, ◌+◌, ◌<◌, ◌≤◌, true, [], length, vec_len, vec_capacity, slice_index_or};
ghost use Rattle.brc_model.specs.Threads.{function_at};
ghost use Rattle.brc_table.specs.Hands.{IsOf};
ghost use Rattle.brc_table.specs.Views.{is_given};
ghost use Rattle.brc_work.specs.Fits.{IsHeapOf};
ghost use Rattle.brc_work.specs.Mains.{MayFanOut, KeepsMain};
ghost use Rattle.brc_work.specs.Workers.{job};

use crate::gate::Gate;
use crate::task::Task;
use brc_check::Checked;
use brc_heap::{Hand, Heap};
use brc_host::Host;

/// Gives out a hand for each host, to workers 1, 2, .. in order. Returns their tasks. There are no tasks yet, and there
/// is room for one for each host.
pub(crate) fn tasks_of<'w, T: Drop, H: Host<Res = T>, G: Gate>(
    heap: &'w Heap<T>,
    main: &mut Hand<T>,
    checked: &'w Checked,
    function: usize,
    times: u32,
    steps: u64,
    hosts: &'w mut [H],
    gate: &'w G,
    mut tasks: Vec<Task<'w, T, H, G>>,
) -> Vec<Task<'w, T, H, G>>
    requires of { IsOf heap.now main.old }
    requires may { MayFanOut main.old.view }
    requires enough { length hosts.old ≤ heap.now.layout.workers }
    requires function { function < length checked.now.module.functions }
    requires parameters { (function_at checked.now.module.functions function).parameters ≡ [] }
    requires heap { IsHeapOf checked.now.module heap.now }
    requires none { tasks.items ≡ [] }
    requires room { length hosts.old ≤ vec_capacity tasks }
    ensures of { IsOf heap.now main.new }
    ensures kept { KeepsMain main.old.view main.new.view }
    ensures carried { main.new.carried ≡ main.old.carried }
    ensures fields { main.new.fields ≡ main.old.fields }
    ensures given { (t : ℕ) → is_given t main.new.view ≡ true → (k : ℕ) × (k < vec_len result) × (k + 1 ≡ t) }
    ensures one_each { vec_len result ≡ length hosts.old }
    ensures tasks { (k : ℕ) (t : _) (h : _) → k < vec_len result → let task = slice_index_or result.items k t in
        job task.heap.now task.checked.now.module task.function task.times task.steps task.thread task.host.now
        ≡ job heap.now checked.now.module function times steps (k + 1) (slice_index_or hosts.old k h) }
{
    heap.words().layout_is_plain();
    let mut thread: u8 = 1;
    let places = hosts.iter_mut();
    for host in places {
        let Ok(hand) = heap.hand_out(main, thread) else {
            unreachable!()
        };
        let task = Task {
            heap,
            checked,
            function,
            times,
            steps,
            thread,
            hand,
            host,
            gate,
        };
        let Ok(()) = tasks.push(task) else {
            unreachable!()
        };
        thread += 1;
    }
    tasks
}
