//! Laws of the counting machine between two duties: what running threads may do with their open work, and which work
//! they may begin.

ghost use Rattle.brc_model.specs.CountingLaws.{WorkIsPutAside, WorkIsTakenBack, RetainsBegin, ReleasesBegin, BirthsBegin, KindsAreAsked, LocksBegin, UnlocksBegin, CellLoadsBegin, SettlesBegin, ClaimsBegin, MarkLoadsBegin, ExitsBegin, ImmortalsAreFree};

/// States that the invariant holds after a thread puts its only duty aside, if the duty may wait.
pub fn work_is_put_aside()
    ensures { WorkIsPutAside }
{}

/// States that the invariant holds after a ready thread takes back a duty that it has put aside.
pub fn work_is_taken_back()
    ensures { WorkIsTakenBack }
{}

/// States that the invariant holds after a ready thread begins to retain an object to which it holds a reference, or
/// which is an item of the list that it has locked.
pub fn retains_begin()
    ensures { RetainsBegin }
{}

/// States that the invariant holds after a ready thread begins to give up a reference that it holds.
pub fn releases_begin()
    ensures { ReleasesBegin }
{}

/// States that the invariant holds after a ready worker with a row left begins a birth.
pub fn births_begin()
    ensures { BirthsBegin }
{}

/// States that the invariant holds after a ready thread begins to ask for the kind of an object to which it holds a
/// reference, or which is an item of the list that it has locked.
pub fn kinds_are_asked()
    ensures { KindsAreAsked }
{}

/// States that the invariant holds after a ready thread that has locked nothing begins to lock an object to which it
/// holds a reference.
pub fn locks_begin()
    ensures { LocksBegin }
{}

/// States that the invariant holds after a ready thread begins to unlock the object that it has locked.
pub fn unlocks_begin()
    ensures { UnlocksBegin }
{}

/// States that the invariant holds after a ready thread begins to load a cell of the list that it has locked.
pub fn cell_loads_begin()
    ensures { CellLoadsBegin }
{}

/// States that the invariant holds after a ready thread that has put nothing aside begins to settle its dying chain.
pub fn settles_begin()
    ensures { SettlesBegin }
{}

/// States that the invariant holds after a ready thread that has put nothing aside begins to claim the mark of a row of
/// its own block.
pub fn claims_begin()
    ensures { ClaimsBegin }
{}

/// States that the invariant holds after a ready thread that has put nothing aside begins to load a mark word of its
/// own block.
pub fn mark_loads_begin()
    ensures { MarkLoadsBegin }
{}

/// States that the invariant holds after a ready thread that holds nothing, has put nothing aside and has an empty
/// dying chain begins to leave.
pub fn exits_begin()
    ensures { ExitsBegin }
{}

/// States that the invariant holds after a ready thread gains a reference to an immortal object.
pub fn immortals_are_free()
    ensures { ImmortalsAreFree }
{}
