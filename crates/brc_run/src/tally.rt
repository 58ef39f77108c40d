//! The tally of a run that has ended.

ghost use Rattle.std.specs.Prelude.{◌≡◌, ◌<◌, ◌≤◌, ◌++◌, map, filter, count_by, sum_by, IfOk, OnOk};
ghost use Rattle.brc_host.specs.HostCounts.{raised};
ghost use Rattle.brc_heap.specs.Ends.{was_born, is_closed};
ghost use Rattle.brc_model.specs.Layout.{row_count};
ghost use Rattle.brc_run.specs.Tallies.{rows_between, rows_behind_none, is_created, has_closed, is_open, is_left, left_at, tally_at_end};

use brc_effect::rows::{first_immortal_list, first_number};
use brc_heap::{Final, ROOT};
use brc_lang::Sequence;
use brc_model::Layout;
use brc_report::{Left, Tally};
use brc_work::Totals;
use std::alloc::{AllocError, Global};

/// Returns the tally of a run of `threads` workers, which have counted these totals, and whose main thread has counted
/// `close_faults` closes that failed. Each thread is gone. `layout` is the heap's.
pub fn tally_of<T: Drop>(
    alloc: Global,
    end: &Final<T>,
    layout: Layout,
    threads: u32,
    totals: &[Totals],
    close_faults: u64,
) -> Result<Tally, AllocError>
    requires layout { layout ≡ end.now.state.layout }
    ensures { IfOk result (λ tally. tally ≡ tally_at_end end.now.state threads totals.now close_faults) }
{
    let created = created_in(end, layout);
    let closed = closed_in(end, layout);
    Ok(Tally {
        threads: u64::from(threads),
        running: 0,
        created: u64::from(created),
        closed: u64::from(closed),
        alive: u64::from(created.saturating_sub(closed)),
        host_faults: host_faults_in(totals),
        close_faults: close_faults_in(totals).saturating_add(close_faults),
        left: left_in(alloc, end, layout)?,
    })
}

/// Returns how many counted objects were created: of the rows in front of the static lists, and of those behind.
///
/// So no row is asked whether it is a static list's. Without static lists the rows are gone over as they lie.
fn created_in<T: Drop>(end: &Final<T>, layout: Layout) -> u32
    requires layout { layout ≡ end.now.state.layout }
    ensures { result ≡ count_by (is_created end.now.state) (rows_behind_none end.now.state) }
{
    let front = born_in(end, ROOT, first_immortal_list(layout));
    let rear = born_in(end, first_number(layout), end.rows());
    front + rear
}

/// Returns in how many of the rows from `first` on, and below `last`, an object was born or was there from the start.
fn born_in<T: Drop>(end: &Final<T>, first: u32, last: u32) -> u32
    requires rising { first ≤ last }
    requires there { last ≤ row_count end.now.state.layout }
    ensures { result ≡ count_by (was_born end.now.state) (rows_between first last) }
{
    let mut born = 0;
    for row in first..last {
        if end.born(row) {
            born += 1;
        }
    }
    born
}

/// Returns how many counted objects are closed: of the rows in front of the static lists, and of those behind.
fn closed_in<T: Drop>(end: &Final<T>, layout: Layout) -> u32
    requires layout { layout ≡ end.now.state.layout }
    ensures { result ≡ count_by (has_closed end.now.state) (rows_behind_none end.now.state) }
{
    let front = gone_in(end, ROOT, first_immortal_list(layout));
    let rear = gone_in(end, first_number(layout), end.rows());
    front + rear
}

/// Returns of how many of the rows from `first` on, and below `last`, the object is closed.
fn gone_in<T: Drop>(end: &Final<T>, first: u32, last: u32) -> u32
    requires rising { first ≤ last }
    requires there { last ≤ row_count end.now.state.layout }
    ensures { result ≡ count_by (is_closed end.now.state) (rows_between first last) }
{
    let mut closed = 0;
    for row in first..last {
        if end.closed(row) {
            closed += 1;
        }
    }
    closed
}

/// Returns the counted objects that were created and aren't closed, by rising row: those in front of the static lists,
/// and those behind.
fn left_in<T: Drop>(
    alloc: Global,
    end: &Final<T>,
    layout: Layout,
) -> Result<Sequence<Left>, AllocError>
    requires layout { layout ≡ end.now.state.layout }
    ensures { IfOk result (λ left. left
        ≡ map (left_at end.now.state) (filter (is_left end.now.state) (rows_behind_none end.now.state))) }
{
    let mut left = Sequence::new(alloc);
    add_open(end, ROOT, first_immortal_list(layout), &mut left)?;
    add_open(end, first_number(layout), end.rows(), &mut left)?;
    Ok(left)
}

/// Returns whether an object was born in the row, or was there from the start, and isn't closed.
fn is_open<T: Drop>(end: &Final<T>, row: u32) -> bool
    requires there { row < row_count end.now.state.layout }
    ensures { result ≡ is_open end.now.state row }
{
    end.born(row) && !end.closed(row)
}

/// Adds the open objects of the rows from `first` on, and below `last`.
fn add_open<T: Drop>(
    end: &Final<T>,
    first: u32,
    last: u32,
    left: &mut Sequence<Left>,
) -> Result<(), AllocError>
    requires rising { first ≤ last }
    requires there { last ≤ row_count end.now.state.layout }
    ensures { OnOk result (left.new
        ≡ left.old ++ map (left_at end.now.state) (filter (is_open end.now.state) (rows_between first last))) }
{
    for row in first..last {
        if is_open(end, row) {
            let kind = end.kind(row);
            left.push(Left { row, kind })?;
        }
    }
    Ok(())
}

/// Returns how many calls of the host have failed, up to the greatest number.
fn host_faults_in(totals: &[Totals]) -> u64
    ensures { result ≡ raised (sum_by (λ t. t.host_faults) totals.now) 0 }
{
    let mut faults: u64 = 0;
    for counted in totals {
        faults = faults.saturating_add(counted.host_faults);
    }
    faults
}

/// Returns how many closes have failed in the workers, up to the greatest number.
fn close_faults_in(totals: &[Totals]) -> u64
    ensures { result ≡ raised (sum_by (λ t. t.close_faults) totals.now) 0 }
{
    let mut faults: u64 = 0;
    for counted in totals {
        faults = faults.saturating_add(counted.close_faults);
    }
    faults
}
