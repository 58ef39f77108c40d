//! A worker.

ghost use Rattle.std.specs.Prelude.{◌≡◌};

use brc_heap::Heap;
use brc_queue::Queue;
use std::marker::Model;

/// Makes the calls of an accepted module's functions over a heap. `T` is the resource of a file or a socket.
#[derive(Drop)]
pub struct Worker<'h, T: Drop> {
    pub(crate) heap: &'h Heap<T>,
    pub(crate) queue: &'h Queue<'h, T>,
}

impl<'h, T: Drop> Model for Worker<'h, T> {
    ghost use Rattle.std.specs.Prelude.{◌≡◌};
    ghost use Rattle.brc_table.specs.Hands.{TableState};

    ghost Value = { TableState };

    ghost view = { λ w. w.heap.now };

    ghost invariant = { λ w. w.queue.now ≡ w.heap.now };
}

impl<'h, T: Drop> Worker<'h, T> {
    /// Returns what makes calls over the heap, with the queues of its threads.
    pub fn new(heap: &'h Heap<T>, queue: &'h Queue<'h, T>) -> Worker<'h, T>
        requires { queue.now ≡ heap.now }
        ensures { result ≡ heap.now }
    {
        Worker { heap, queue }
    }
}
