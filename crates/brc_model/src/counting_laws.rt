//! Laws of the counting machine, on which running threads rely: what a thread's next duty keeps and what it can rely
//! on, and what the counts of a row say.

ghost use Rattle.brc_model.specs.CountingLaws.{DutiesAreKept, DutiesAreWithin, AccountsAreThere, ChainsAreThere, CountsAgree, HandedMergesLive};

/// States that a thread's next duty isn't bad, and that doing it keeps the invariant.
pub fn duties_are_kept()
    ensures { DutiesAreKept }
{}

/// States what a thread can rely on at its next duty: its word is there, the value that it finds suits the duty, a
/// store knows the value that it overwrites, and a load of a local word finds no owner or the thread of the row's
/// block.
pub fn duties_are_within()
    ensures { DutiesAreWithin }
{}

/// States that the counts of each counted object that was born add up to its references and its pending decrements, and
/// what each state of a live one implies.
pub fn counts_agree()
    ensures { CountsAgree }
{}

/// States that the object of each reference in a thread's account has a row.
pub fn accounts_are_there()
    ensures { AccountsAreThere }
{}

/// States that the head of a thread's dying chain is 0, or the number of a row plus 1, and that the thread doesn't
/// deallocate the object that it has locked: the object isn't the first one of the chain, and no duty finalises it.
pub fn chains_are_there()
    ensures { ChainsAreThere }
{}

/// States that a merge for a reference that was handed to the owner's queue leaves that reference counted, so that the
/// object doesn't die by the merge.
pub fn handed_merges_live()
    ensures { HandedMergesLive }
{}
