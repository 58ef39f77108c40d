/// The rules that a function is judged by.
#[derive(Clone, Copy, PartialEq, Eq)]
pub enum Rules {
    /// Those of a Python with a global lock, which the function holds unless it allows threads.
    GlobalLock,
    /// Those of a Python whose threads run at the same time (PEP 703): an item is borrowed in a critical section.
    FreeThreaded,
}
