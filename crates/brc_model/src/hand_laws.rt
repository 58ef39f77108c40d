//! Laws of the counting machine as running threads use it: how it begins, how a thread hands a reference over to
//! another, which references there are, and what is left at the end.

ghost use Rattle.brc_model.specs.Ending.{RowsEnd};
ghost use Rattle.brc_model.specs.CountingLaws.{HandsBegin, ReferencesAreHandedOver, SharesOfThreads, CellsHold};

/// States that the first machine of hands has the invariant: main holds the root, and no worker holds anything.
pub fn hands_begin()
    ensures { HandsBegin }
{}

/// States that the invariant is kept when a thread hands a reference over to another thread, one that runs and isn't
/// exiting, while neither has open work about the object.
pub fn references_are_handed_over()
    ensures { ReferencesAreHandedOver }
{}

/// States that the references to an object are those that the threads hold as callers or in flight, and those that the
/// words of cells name, if no thread holds the object by a variable.
pub fn references_are_the_threads()
    ensures { SharesOfThreads }
{}

/// States that the references that cells hold are those that their words name.
pub fn cells_hold()
    ensures { CellsHold }
{}

/// States that at the end, when each thread is gone or was never started, exactly the counted objects that no cell of
/// an open list names are closed.
pub fn rows_end()
    ensures { RowsEnd }
{}
