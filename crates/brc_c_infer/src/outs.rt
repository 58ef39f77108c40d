//! What a function leaves where its arguments point to: what most returns do.

use crate::entering::is_read;
use crate::exits::Split;
use crate::pointed::OutRecord;
use crate::records::{Fate, Record, is_replaced};
use crate::sites::Sites;
use crate::tracing::container_of;
use brc_c_flow::{Left, LeftObject, OutNames, OwnOut, RowFlow};
use std::alloc::{AllocError, Global};

/// What an exit leaves, and how many returns differ from that.
#[derive(Clone, Copy)]
struct Vote {
    left: Left,
    others: usize,
    /// How many returns leave NULL or what was there, where others leave an object.
    doubts: usize,
}

impl Vote {
    /// A split into exits is worth more that leaves no doubt than one from which no return differs.
    fn cost(self) -> usize {
        self.others.saturating_add(self.doubts.saturating_mul(2))
    }
}

/// What a function does where an argument points to, and how far the returns differ from that.
#[derive(Clone, Copy)]
pub(crate) struct OutVote {
    pub(crate) out: OwnOut,
    pub(crate) cost: usize,
}

/// How many returns of an exit leave an object of each sort.
#[derive(Clone, Copy)]
struct Counts {
    new: usize,
    borrowed: usize,
    unknown: usize,
    null: usize,
    same: usize,
}

/// Returns what a function does where an argument points to.
pub(crate) fn vote_on_out(
    alloc: Global,
    flow: &RowFlow,
    records: &[Record],
    split: Split,
    number: usize,
    names: OutNames,
) -> Result<OutVote, AllocError> {
    let is_replaced = is_replaced(records, number);
    let from = container_of(alloc, flow, names.local)?;
    let has_failure = split.has_failure(records);
    let left = argument_left(records, split, number);
    let counts = counts_of(alloc, flow, records, split, false, number, left)?;
    let success = vote_of(&counts, from, true);
    let mut failure = Vote {
        others: 0,
        doubts: 0,
        ..success
    };
    if has_failure {
        let failing = counts_of(alloc, flow, records, split, true, number, None)?;
        failure = vote_of(&failing, from, is_replaced);
        // No split is meant by which only failures leave a new reference.
        if counts.new == 0 && failing.new > 0 {
            failure.others = failure.others.saturating_add(flow.returns.len());
        }
    }
    Ok(OutVote {
        out: OwnOut {
            argument: names.argument,
            is_read: is_read(alloc, &flow.graph, names)?,
            is_replaced,
            left,
            success: success.left,
            failure: failure.left,
        },
        cost: success.cost().saturating_add(failure.cost()),
    })
}

/// Returns the number of the argument that a success leaves where another one points to.
fn argument_left(records: &[Record], split: Split, number: usize) -> Option<usize> {
    for record in records {
        if let (false, Some(out)) = (split.fails(record), record.outs.get(number)) {
            if out.after != OutRecord::Same && out.argument.is_some() {
                return out.argument;
            }
        }
    }
    None
}

/// Returns whether this argument is NULL where a return is reached.
fn is_passed_null(record: &Record, argument: Option<usize>) -> bool {
    match argument {
        Some(number) => record.fates.get(number) == Some(&Fate::Null),
        None => false,
    }
}

/// Counts each return of an exit once for each sort of object that it leaves. `left` is the argument that it leaves:
/// where that is NULL, NULL says nothing.
fn counts_of(
    alloc: Global,
    flow: &RowFlow,
    records: &[Record],
    split: Split,
    fails: bool,
    number: usize,
    left: Option<usize>,
) -> Result<Counts, AllocError> {
    let mut new = Sites::new(alloc, flow)?;
    let mut borrowed = Sites::new(alloc, flow)?;
    let mut unknown = Sites::new(alloc, flow)?;
    let mut null = Sites::new(alloc, flow)?;
    let mut same = Sites::new(alloc, flow)?;
    for record in records {
        if split.fails(record) == fails {
            if let Some(out) = record.outs.get(number) {
                match out.after {
                    OutRecord::New => new.mark(record.site),
                    OutRecord::Borrowed => borrowed.mark(record.site),
                    OutRecord::Unknown => unknown.mark(record.site),
                    OutRecord::Same => same.mark(record.site),
                    OutRecord::Nothing | OutRecord::Moved => {}
                }
                if out.may_be_null && !is_passed_null(record, left) {
                    null.mark(record.site);
                }
            }
        }
    }
    Ok(Counts {
        new: new.count(),
        borrowed: borrowed.count(),
        unknown: unknown.count(),
        null: null.count(),
        same: same.count(),
    })
}

/// Returns what an exit leaves. Of a success some return may leave nothing, as where nothing is found. Of a failure
/// most returns have to leave an object.
fn vote_of(counts: &Counts, from: Option<usize>, is_any: bool) -> Vote {
    let none = counts.null.saturating_add(counts.same);
    let is_new = counts.new > 0
        && counts.new >= counts.borrowed
        && (is_any || counts.new > none.saturating_add(counts.borrowed));
    let object = if is_new {
        LeftObject::New
    } else if counts.borrowed > 0 {
        LeftObject::Borrowed(from)
    } else if counts.unknown > 0 {
        LeftObject::Unknown
    } else {
        LeftObject::None
    };
    Vote {
        left: Left {
            object,
            is_null: counts.null > 0,
            is_same: counts.same > 0,
        },
        others: if is_new { counts.borrowed } else { counts.new },
        doubts: if object == LeftObject::None { 0 } else { none },
    }
}
