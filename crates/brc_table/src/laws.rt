//! What holds of a table between any two steps of its threads.

ghost use Rattle.std.specs.Prelude.{ℕ, ◌<◌, List};
ghost use Rattle.brc_model.specs.Layout.{row_count, IsCounted};
ghost use Rattle.brc_table.specs.Plan.{Plan};
ghost use Rattle.brc_table.specs.declared.view.View.{View};
ghost use Rattle.brc_table.specs.Rule.{Stands};
ghost use Rattle.brc_table.specs.Agreeing.{AgreesInTable};
ghost use Rattle.brc_table.specs.Ending.{FirstKindsStay, RowsEnd, SeenEndsAreSo, FieldsEnd};
ghost use Rattle.brc_table.specs.Joining.{JoinedHandsAreGone};
ghost use Rattle.brc_table.specs.Guarding.{SetMarksAreWatched, OnlyHoldersChangeCells, OnlyHoldersSwapCells, OnlyRunningOwnersCount, GoneHandsHoldNothing, GoneWordsTell, HandsAreStarted, ViewsKeepTheLayout, RootIsAList, TakenFieldsAreAlone};

use brc_model::{
    accounts_are_there, cells_are_guarded, cells_hold, counts_agree, fields_end,
    gone_threads_hold_nothing, owners_count_alone, queued_marks_are_watched, rows_end,
};

/// States that in each table, between any two steps of any threads, the counts of every counted object add up to the
/// references that the hands and the cells of lists hold and the decrements that are pending, and what each state of
/// the object implies.
pub fn counts_agree_in_every_table()
    ensures { (plan : Plan) (words : List ℕ) (views : List View) (x : ℕ) → Stands plan words views
        → IsCounted plan.layout x → x < row_count plan.layout → AgreesInTable plan.layout words views x }
{
    counts_agree();
    cells_hold();
}

/// States that each mark that is set is watched: by the thread of its block while that runs, by its exit, or by a hand
/// that has the duty to look at the mark.
pub fn set_marks_are_watched()
    ensures { SetMarksAreWatched }
{
    queued_marks_are_watched();
}

/// States that a step changes a cell only if its hand has locked the list, or deallocates it. The first clause speaks
/// of duties, and the second of swaps, which are steps of no duty.
pub fn only_holders_change_cells()
    ensures duties { OnlyHoldersChangeCells }
    ensures swaps { OnlyHoldersSwapCells }
{
    cells_are_guarded();
    accounts_are_there();
}

/// States that while the thread of a block runs, no other hand changes the local words of the block.
pub fn only_running_owners_count()
    ensures { OnlyRunningOwnersCount }
{
    owners_count_alone();
}

/// States that a hand whose thread is gone holds no reference, lock, field, duty or chain.
pub fn gone_hands_hold_nothing<T>()
    ensures { GoneHandsHoldNothing T }
{
    gone_threads_hold_nothing();
}

/// States that the word of each thread whose hand was joined says that the thread is gone, and that exactly the rows
/// that it has used are born.
pub fn joined_hands_are_gone()
    ensures { JoinedHandsAreGone }
{
    gone_threads_hold_nothing();
}

/// States that a thread's word says that it is gone exactly if the thread has a hand, and is gone.
pub fn gone_words_tell()
    ensures { GoneWordsTell }
{}

/// States that a thread whose word says that it isn't started has no hand, so that it holds nothing either.
pub fn hands_are_started()
    ensures { HandsAreStarted }
{}

/// States that the view of each hand has the table's number of workers and rows, the same in all.
pub fn views_keep_the_layout()
    ensures { ViewsKeepTheLayout }
{}

/// States that the root is a list of eight cells.
pub fn root_is_a_list()
    ensures { RootIsAList }
{}

/// States that when a table is closed, the kind word of each row that was there from the start is its first one.
pub fn first_kinds_stay()
    ensures { FirstKindsStay }
{}

/// States that while a row's field is out of the table, one hand has taken it, and uses it, and no other has.
pub fn taken_fields_are_alone<T>()
    ensures { TakenFieldsAreAlone T }
{}

/// States that once each thread is gone or was never started, exactly the born objects that no cell of an open list
/// names are closed, and the cells of closed lists are empty.
pub fn rows_end_in_every_table()
    ensures { RowsEnd }
{
    rows_end();
}

/// States that when a table is closed, what main's hand has seen of the ends of threads is so.
pub fn seen_ends_are_so()
    ensures { SeenEndsAreSo }
{}

/// States that once each thread is gone or was never started, the field of a closed object is empty, and that of each
/// other row has its object's resource, if its kind has one.
pub fn fields_end_in_every_table()
    ensures { FieldsEnd }
{
    fields_end();
    gone_threads_hold_nothing();
}
