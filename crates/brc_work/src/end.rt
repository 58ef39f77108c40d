//! How a call has ended.

/// How a call has ended that a worker makes.
#[derive(Clone, Copy)]
pub(crate) enum End {
    /// It returns a reference to the row's object, which is its caller's from then on.
    Returned(u32),
    /// It returns no reference.
    Failed,
    /// The worker has stopped in it: what the call owned it has given up.
    Stopped,
}
