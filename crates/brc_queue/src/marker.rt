//! The queues as what a hand uses that deallocates objects.

use crate::queue::Queue;
use brc_free::{Waits, wait_by};
use brc_heap::{Hand, Looked, Marker, Work};

impl<'h, T: Drop> Marker<T> for Queue<'h, T> {
    ghost heap = { λ queue. queue };

    fn post(&self, hand: &mut Hand<T>, row: u32) -> Looked {
        self.set_mark(hand, row, Work::Next);
        self.check_owner(hand, row, Work::Next)
    }
}

impl<'h, T: Drop> Waits for Queue<'h, T> {
    fn wait(&self) {
        wait_by(&self.backoff);
    }
}
