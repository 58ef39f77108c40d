/// The address of a word that threads share. `row` is the row of the word's object.
#[derive(Clone, Copy)]
pub enum Address {
    /// The object's owner, and the owner's local count.
    Local { row: u32 },
    /// The shared count, and the object's state: default, queued or merged.
    Shared { row: u32 },
    /// Whether the object is dying, closed or neither.
    Gate { row: u32 },
    /// The object's kind, and a number's value or a list's number of cells.
    KindOf { row: u32 },
    /// Which of 64 objects of the thread are in its queue: a mark for each, in a bit of its own. `word` counts the
    /// thread's mark words from 0.
    Marks { thread: u32, word: u32 },
    /// A cell of a list, from 0. The word is the row of the object that the cell references, plus 1, or 0 if it is
    /// empty.
    Cell { row: u32, cell: u32 },
    /// Whether the resource of a file or a socket is in its field.
    Field { row: u32 },
    /// How often the host has been asked to close the object's resource.
    Resource { row: u32 },
    /// Whether the thread runs, is leaving or is gone.
    ThreadWord { thread: u32 },
}
