//! Laws of the counting machine as running threads use it, beside those of the counts: who watches a mark that is set,
//! who may change a cell or a local word, and what a thread that is gone holds.

ghost use Rattle.brc_model.specs.GuardLaws.{QueuedMarksAreWatched, CellsAreGuarded, GuardedCellsStay, FieldsAreGuarded, OwnersCountAlone, GoneThreadsHoldNothing};

/// States that each mark that is set is watched: by the running thread of its block, by that thread's exit, or by a
/// thread that has the duty to look at it.
pub fn queued_marks_are_watched()
    ensures { QueuedMarksAreWatched }
{}

/// States that only the thread that holds a row's gate, or that deallocates the row, changes the row's cells.
pub fn cells_are_guarded()
    ensures { CellsAreGuarded }
{}

/// States that no thread changes a cell of a list that another thread has locked or chained, and that a thread chains a
/// row only by a step of its own on the row's gate.
pub fn guarded_cells_stay()
    ensures { GuardedCellsStay }
{}

/// States that only the thread that holds a row's gate, that deallocates the row, or in whose block it isn't born yet,
/// changes the row's field.
pub fn fields_are_guarded()
    ensures { FieldsAreGuarded }
{}

/// States that while the thread of a row's block runs, no other thread changes the row's local word.
pub fn owners_count_alone()
    ensures { OwnersCountAlone }
{}

/// States that a thread that is gone holds no reference, lock, resource, duty or chain.
pub fn gone_threads_hold_nothing()
    ensures { GoneThreadsHoldNothing }
{}
