use brc_lang::{Kind, Sequence};

/// The counts of a world: its threads and its objects.
#[derive(Drop)]
pub struct Tally {
    /// The number of workers.
    pub threads: u64,
    /// The threads that haven't finished, main included.
    pub running: u64,
    /// The objects created so far, without the immortal ones.
    pub created: u64,
    /// The created objects that have been deallocated.
    pub closed: u64,
    /// The created objects that haven't been deallocated.
    pub alive: u64,
    /// The calls of the host that failed.
    pub host_faults: u64,
    /// The calls of the host to close a resource that failed.
    pub close_faults: u64,
    /// The objects that are alive, by rising row.
    pub left: Sequence<Left>,
}

/// An object that is alive.
#[derive(Clone, Copy)]
pub struct Left {
    /// The object's row.
    pub row: u32,
    /// The object's kind.
    pub kind: Kind,
}
