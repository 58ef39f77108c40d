//! Waiting between two tries of a step that another thread came before.

use crossbeam_utils::Backoff;

/// How often `snooze` is called until a back-off is completed.
const FIRST_STEPS: u32 = 11;

/// What lets other threads run before its thread makes a try again.
pub trait Waits {
    /// Waits before the next try.
    fn wait(&self);
}

/// Lets other threads run: the thread yields its processor twice.
///
/// A new back-off pauses, and yields only after some tries. Where more threads than processors want one word, a thread
/// that tries again at once takes the word's cache line from the one whose turn it is, and a thread that pauses keeps a
/// processor from the one that has the lock. So the first wait completes the back-off, from when on each `snooze` is a
/// yield. Whoever waits keeps the back-off for as long as it works.
#[cold]
#[inline(never)]
pub fn wait_by(backoff: &Backoff) {
    if !backoff.is_completed() {
        for _ in 0..FIRST_STEPS {
            backoff.snooze();
        }
    }
    backoff.snooze();
    backoff.snooze();
}
