//! The end of a run: main leaves, and the heap ends.

ghost use Rattle.std.specs.Prelude.{◌≡◌, List, true, All};
ghost use Rattle.brc_host.specs.HostCounts.{raised};
ghost use Rattle.brc_host.specs.HostCalls.{HostCall, HasAnswered, close_faults};
ghost use Rattle.brc_table.specs.declared.view.View.{View};
ghost use Rattle.brc_table.specs.Hands.{IsOf};
ghost use Rattle.brc_queue.specs.Scans.{HasLeft};
ghost use Rattle.brc_table.specs.Joining.{RowsAreUsed};
ghost use Rattle.brc_heap.specs.Ends.{HasEnded};
ghost use Rattle.brc_run.specs.Runs.{MayEnd};

use brc_heap::{Final, Hand, Heap};
use brc_host::Host;
use brc_queue::Queue;
use std::sync::Wait;

/// Lets main leave. Returns how many closes of main's have failed, up to the greatest number.
pub(crate) fn left<R: Wait, T: Drop, H: Host<Res = T>>(
    rt: &R,
    heap: &Heap<T>,
    main: &mut Hand<T>,
    host: &mut H,
) -> u64
    requires of { IsOf heap.now main.old }
    requires may { MayEnd main.old.view }
    ensures of { IsOf heap.now main.new }
    ensures main { main.new.view.thread ≡ 0 }
    ensures counted { (closes : List HostCall) × (first : View) × (last : View) × HasLeft closes first last
        × (result ≡ raised (close_faults closes) 0) × HasAnswered H.answers H.counts host.old closes host.new }
{
    Queue::new(heap).leave(rt, main, host)
}

/// Ends the heap. Each thread is gone, main too: if one weren't, main would look again.
pub(crate) fn finished<R: Wait, T: Drop>(rt: &R, heap: Heap<T>, main: Hand<T>) -> Final<T>
    requires of { IsOf heap main }
    requires main { main.view.thread ≡ 0 }
    ensures table { result.state.table ≡ heap.table }
    ensures layout { result.state.layout ≡ heap.layout }
    ensures ended { HasEnded result.state }
    ensures joined { All (RowsAreUsed result.state.layout result.state.words) main.view.joined }
    ensures lines { result.state.lines ≡ heap.lines }
{
    let mut heap = heap;
    let mut main = main;
    for _ in rt.forever() {
        match heap.finish(main) {
            Ok(end) => return end,
            Err(back) => {
                heap = back.heap;
                main = back.main;
            }
        }
    }
    unreachable!()
}
