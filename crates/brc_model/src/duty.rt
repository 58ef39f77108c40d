use brc_lang::Variable;

/// How a thread holds a reference.
#[derive(Clone, Copy, Debug)]
pub enum Holding {
    /// By a variable of one of its open calls.
    ByVariable {
        /// How many calls are open around that one: 0 for the outermost.
        depth: u8,
        variable: Variable,
    },
    /// As the caller that lends the root.
    AsCaller,
    /// In flight: the thread is giving the reference up.
    InFlight,
}

/// Whose reference a release through the shared word gives up, and for whose release a thread merges.
#[derive(Clone, Copy, Debug)]
pub enum Reason {
    /// The thread's own.
    Own,
    /// The one that another thread handed to the owner's queue.
    Handed,
}

/// What a thread still has to do: one step on one word. `row` is the row of the duty's object. Where a duty has a row,
/// `word` is the value that an earlier step found, on which this step relies; of a birth it is the kind word.
#[derive(Clone, Copy, Debug)]
pub enum Duty {
    /// Loads the local word, to make a new reference for the holder.
    RetainLoad {
        row: u32,
        holding: Holding,
    },
    /// Counts the new reference in the local word, as the owner.
    RetainStore {
        row: u32,
        holding: Holding,
        word: u64,
    },
    /// Counts the new reference in the shared word.
    RetainAdd {
        row: u32,
        holding: Holding,
    },
    /// Loads the local word, to give up the holder's reference.
    ReleaseLoad {
        row: u32,
        holding: Holding,
    },
    /// Counts the reference down in the local word, as the owner.
    ReleaseStore {
        row: u32,
        word: u64,
    },
    /// Loads the shared word, because no local reference is left.
    DecideAtZero {
        row: u32,
    },
    /// Loads the shared word, to give up a reference there.
    SharedLoad {
        row: u32,
        reason: Reason,
    },
    /// Compare-exchanges the shared word: if it is still `word`, queues the object or counts the reference down.
    SharedExchange {
        row: u32,
        reason: Reason,
        word: u64,
    },
    /// Sets the object's mark, which puts the object into its owner's queue.
    SetMark {
        row: u32,
    },
    /// Looks whether the owner still runs.
    Look {
        row: u32,
    },
    /// Takes the mark back, because the owner no longer runs.
    TakeMark {
        row: u32,
    },
    /// Begins a merge: swaps the local word for nobody's. The owner merges an object once it has given up its last
    /// local reference. A thread that has claimed a mark merges the object before it gives up the reference that the
    /// queue held.
    MergeSwap {
        row: u32,
        reason: Reason,
    },
    /// Loads the shared word, to which the `carried` local references are to be added.
    MergeLoad {
        row: u32,
        carried: u32,
        reason: Reason,
    },
    /// Compare-exchanges the shared word: if it is still `word`, stores the merged one.
    MergeExchange {
        row: u32,
        carried: u32,
        word: u64,
        reason: Reason,
    },
    /// Puts the object, which has no reference left, at the head of the thread's dying chain.
    Die {
        row: u32,
    },
    /// Takes the first object off the thread's dying chain, to deallocate it.
    Settle,
    /// Loads the dying object's kind word.
    SettleKind {
        row: u32,
    },
    /// Empties a cell of the dying list, which has `cells` cells.
    SettleCell {
        row: u32,
        cell: u32,
        cells: u32,
    },
    /// Takes the resource of the dying file or socket out of its field.
    TakeField {
        row: u32,
    },
    /// Lets the host close the resource.
    CloseResource {
        row: u32,
    },
    /// Closes the dying object.
    SettleEnd {
        row: u32,
    },
    /// Announces the thread's exit. The thread then scans the marks of `rows` rows of its block, from the mark word
    /// with the number `word` on.
    Leave {
        word: u32,
        rows: u32,
    },
    /// Loads the thread's mark word with the number `word`. `rows` rows are still to be scanned, those of this word
    /// included.
    Scan {
        word: u32,
        rows: u32,
    },
    /// Takes the lowest of the `marks` that the thread's exit found set in its mark word and hasn't taken yet.
    TakeFound {
        word: u32,
        marks: u64,
    },
    /// Says that the thread is gone.
    Finish,
    /// Takes the mark of a row of the thread's own block, while the thread runs.
    ClaimMark {
        row: u32,
    },
    /// Loads a mark word of the thread's own block, while the thread runs.
    MarksLoad {
        word: u32,
    },
    /// Stores the kind word of a new object for the holder.
    BirthKind {
        row: u32,
        holding: Holding,
        word: u64,
    },
    /// Puts the resource of the new file or socket into its field.
    BirthField {
        row: u32,
        holding: Holding,
    },
    /// Stores the new object's owner and its first local reference: the object is born.
    BirthLocal {
        row: u32,
        holding: Holding,
    },
    /// Loads the object's kind word, to ask for its kind.
    KindLoad {
        row: u32,
    },
    /// Compare-exchanges the list's gate: if it is free, the thread has locked the list from then on.
    LockGate {
        row: u32,
    },
    /// Frees the gate of the list that the thread has locked.
    UnlockGate {
        row: u32,
    },
    /// Loads a cell of the list that the thread has locked.
    CellLoad {
        row: u32,
        cell: u32,
    },
    /// Swaps a cell of the list that the thread has locked: the reference to `item`, which the thread has by the
    /// holding, goes into the cell, and what the cell held is released next.
    CellSwap {
        row: u32,
        cell: u32,
        item: u32,
        holding: Holding,
    },
    /// Takes the resource of the file or socket that the thread has locked out of its field: the thread has it lent,
    /// for a call of the host.
    LendField {
        row: u32,
    },
    /// Puts the resource that the thread has lent back into its field.
    ReturnField {
        row: u32,
    },
}
