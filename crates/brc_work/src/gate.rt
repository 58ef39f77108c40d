//! What hears of a worker's calls.

/// Hears of each call of a worker, before it begins and after it has ended. It may hold the worker, or count.
pub trait Gate {
    /// The thread's call with this number, from 0, is about to begin.
    fn before(&self, thread: u8, call: u32);

    /// The thread's call with this number, from 0, has ended.
    fn after(&self, thread: u8, call: u32);
}
