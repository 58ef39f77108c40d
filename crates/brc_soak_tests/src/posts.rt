//! A queue that counts what a worker puts into it.

ghost use Rattle.std.specs.Prelude.{◌≡◌};

use brc_free::Waits;
use brc_heap::{Hand, Heap, Looked, Marker};
use brc_host::FakeResource;
use brc_queue::Queue;
use std::marker::Model;
use std::sync::atomic::{AtomicU64, Ordering};

/// The queues of a heap's threads, with how many objects were put there by this value.
#[derive(Drop)]
pub struct Posts<'h> {
    queue: Queue<'h, FakeResource>,
    posts: AtomicU64,
}

impl<'h> Model for Posts<'h> {
    ghost use Rattle.brc_table.specs.Hands.{TableState};

    ghost Value = { TableState };

    ghost view = { λ posts. posts.queue };
}

impl<'h> Posts<'h> {
    /// Returns the queues of the heap's threads.
    pub fn new(heap: &'h Heap<FakeResource>) -> Posts<'h>
        ensures { result ≡ heap.now }
    {
        Posts {
            queue: Queue::new(heap),
            posts: AtomicU64::new(0),
        }
    }

    /// Returns how many objects were put into their owners' queues.
    pub fn count(&self) -> u64 {
        self.posts.load(Ordering::SeqCst)
    }
}

impl<'h> Marker<FakeResource> for Posts<'h> {
    ghost heap = { λ posts. posts };

    fn post(&self, hand: &mut Hand<FakeResource>, row: u32) -> Looked {
        self.posts.fetch_add(1, Ordering::SeqCst);
        Marker::post(&self.queue, hand, row)
    }
}

impl<'h> Waits for Posts<'h> {
    fn wait(&self) {
        self.queue.wait();
    }
}
