//! The values of words that have a name, and the numbers of the kinds. Specifications and code use the same names.

/// The thread word of a worker that isn't started.
pub const NOT_STARTED: u64 = 0;

/// The thread word of a running thread.
pub const RUNNING: u64 = 1;

/// The thread word of a thread that has announced its exit.
pub const LEAVING: u64 = 2;

/// The thread word of a thread that is gone.
pub const GONE: u64 = 3;

/// A set mark: the object is in its owner's queue.
pub const SET: u64 = 1;

/// A mark that isn't set: the object is in no queue.
pub const UNSET: u64 = 0;

/// The local word of an object that nobody owns.
pub const NOBODY: u64 = 0;

/// One reference in a shared word, whose two lowest bits are the state.
pub const ONE_REFERENCE: u64 = 4;

/// The state default, in the two lowest bits of a shared word.
pub const DEFAULT: u64 = 0;

/// The state queued.
pub const QUEUED: u64 = 2;

/// The state merged.
pub const MERGED: u64 = 3;

/// A cell without a reference, and a field without a resource.
pub const EMPTY: u64 = 0;

/// The field of a file or a socket whose resource is in it.
pub const FULL: u64 = 1;

/// The gate of an object that is neither locked nor dying nor closed.
pub const FREE: u64 = 1;

/// The number of the kind none.
pub const NONE: u32 = 1;

/// The number of the kind num.
pub const NUM: u32 = 2;

/// The number of the kind list.
pub const LIST: u32 = 3;

/// The number of the kind file.
pub const FILE: u32 = 4;

/// The number of the kind socket.
pub const SOCK: u32 = 5;
