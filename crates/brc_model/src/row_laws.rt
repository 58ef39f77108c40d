//! Laws of an accepted module's rows: of their words, and of the lists of what was born and closed.

ghost use Rattle.brc_lang.specs.declared.module.Module.{Module};
ghost use Rattle.brc_lang.specs.Grammar.{IsModule};
ghost use Rattle.brc_model.specs.Paths.{IsAcceptable};
ghost use Rattle.brc_model.specs.Progress.{Always, AtEachEvent, StatesRise, OnlyOwnersCount, OwnersStay, ClosedStays, ClosesAnew, ImmortalsStay, ClosedOnce, GatesTell, BornAreUsed, BornOnce, BornListed, BornAreThere, UsedAreBorn, ClosedWereBorn, CellsChangeUnderLock, HandedMergesLeaveACount};
ghost use Rattle.brc_model.specs.Watched.{MarksWatched};
ghost use Rattle.brc_model.specs.KnownKinds.{KindsAreKnown, KindsStay};
ghost use Rattle.brc_model.specs.Items.{ItemsAreThere};

/// States that no event lowers a row's state, in the order default, queued, merged.
pub fn states_only_rise()
    ensures { (m : Module) → IsModule m → IsAcceptable m → AtEachEvent StatesRise m }
{}

/// States that, while a row's owner runs, only the owner's events change the row's local word.
pub fn only_a_running_owner_counts()
    ensures { (m : Module) → IsModule m → IsAcceptable m → AtEachEvent OnlyOwnersCount m }
{}

/// States that no thread becomes the owner of a born row: the row keeps its owner, or nobody owns it any more.
pub fn nobody_takes_a_row_over()
    ensures { (m : Module) → IsModule m → IsAcceptable m → AtEachEvent OwnersStay m }
{}

/// States that no event changes the words of an immortal row, but its gate and its cells, which change under its lock.
pub fn immortal_words_stay()
    ensures { (m : Module) → IsModule m → IsAcceptable m → AtEachEvent ImmortalsStay m }
{}

/// States that only the thread that has locked a list, or that deallocates it, changes the list's cells.
pub fn cells_change_under_lock()
    ensures { (m : Module) → IsModule m → IsAcceptable m → AtEachEvent CellsChangeUnderLock m }
{}

/// States that a closed row stays closed.
pub fn closed_rows_stay_closed()
    ensures { (m : Module) → IsModule m → IsAcceptable m → AtEachEvent ClosedStays m }
{}

/// States that an event closes nothing, or one row that wasn't closed before.
pub fn an_event_closes_one_row_anew()
    ensures { (m : Module) → IsModule m → IsAcceptable m → AtEachEvent ClosesAnew m }
{}

/// States that no row is closed twice, over all events.
pub fn a_row_is_finalised_once()
    ensures { (m : Module) → IsModule m → IsAcceptable m → Always ClosedOnce m }
{}

/// States that a row's gate has the closed word exactly if the abstract state lists the row as closed.
pub fn gates_tell_what_is_closed()
    ensures { (m : Module) → IsModule m → IsAcceptable m → Always GatesTell m }
{}

/// States that each born row is among the rows that the thread of its block has used.
pub fn born_rows_are_used()
    ensures { (m : Module) → IsModule m → IsAcceptable m → Always BornAreUsed m }
{}

/// States that each row that the thread of its block has used is born.
pub fn used_rows_are_born()
    ensures { (m : Module) → IsModule m → IsAcceptable m → Always UsedAreBorn m }
{}

/// States that no object is born twice.
pub fn an_object_is_born_once()
    ensures { (m : Module) → IsModule m → IsAcceptable m → Always BornOnce m }
{}

/// States that the list of the born objects has exactly the born rows, without none's.
pub fn born_rows_are_listed()
    ensures { (m : Module) → IsModule m → IsAcceptable m → Always BornListed m }
{}

/// States that each born row is one of the machine's rows.
pub fn born_rows_are_there()
    ensures { (m : Module) → IsModule m → IsAcceptable m → Always BornAreThere m }
{}

/// States that each closed row was born.
pub fn closed_rows_were_born()
    ensures { (m : Module) → IsModule m → IsAcceptable m → Always ClosedWereBorn m }
{}

/// States that each set mark is watched: by the running thread of its block, by that thread's exit, or by a thread that
/// will look.
pub fn marks_are_watched()
    ensures { (m : Module) → IsModule m → IsAcceptable m → Always MarksWatched m }
{}

/// States that a merge for a reference that was handed to the owner's queue leaves a count of at least 1. So the object
/// doesn't die by the merge, and the model's steps don't ask whether it does.
pub fn handed_merges_leave_a_count()
    ensures { (m : Module) → IsModule m → IsAcceptable m → Always HandedMergesLeaveACount m }
{}

/// States that no event changes a kind word that a birth has stored.
pub fn kinds_stay()
    ensures { (m : Module) → IsModule m → IsAcceptable m → AtEachEvent KindsStay m }
{}

/// States that the object that a variable names has the kind that the checker says, in each state in which paths reach
/// the thread's point: the kind word that its birth stored says so.
pub fn variables_have_their_kinds()
    ensures { (m : Module) → IsModule m → IsAcceptable m → Always KindsAreKnown m }
{}

/// States that each borrowed item is in a cell of the list that its thread has locked, in each state in which paths
/// reach the thread's point, and that a thread inside an instruction uses a cell that the list has.
pub fn borrowed_items_stay()
    ensures { (m : Module) → IsModule m → IsAcceptable m → Always ItemsAreThere m }
{}
