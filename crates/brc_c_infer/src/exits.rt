//! Into which exits the returns of a function fall, and which arguments each exit steals: what most returns do.

use crate::outs::vote_on_out;
use crate::records::{Fate, Record};
use crate::sites::Sites;
use brc_c_flow::{OwnOut, RowFlow};
use brc_c_store::Signs;
use brc_c_table::Takes;
use std::alloc::{AllocError, Global};

/// How returns fall into exits: success, and failure if there is one.
#[derive(Clone, Copy, PartialEq, Eq)]
pub(crate) enum Split {
    One,
    /// NULL is a failure.
    Null,
    /// -1 and below are failures.
    Negative,
    /// 0 is a failure.
    Zero,
    /// 0 says that nothing is found, and -1 and below are failures.
    Missing,
}

impl Split {
    /// Returns whether a return is a failure.
    pub(crate) fn fails(self, returned: &Record) -> bool {
        match self {
            Split::One => false,
            Split::Null => returned.is_null,
            Split::Negative => {
                !returned.signs.is_empty() && !returned.signs.zero && !returned.signs.above
            }
            Split::Zero => returned.signs == Signs::ZERO,
            Split::Missing => !returned.signs.is_empty() && !returned.signs.above,
        }
    }

    /// Returns whether one of these returns is a failure.
    pub(crate) fn has_failure(self, records: &[Record]) -> bool {
        for record in records {
            if self.fails(record) {
                return true;
            }
        }
        false
    }
}

/// What an exit does with an argument.
#[derive(Clone, Copy)]
struct Vote {
    is_stolen: bool,
    /// How many returns differ.
    others: usize,
    /// Whether there is a return at which the argument isn't NULL.
    is_cast: bool,
}

/// The exits of a function, and how it takes each argument.
#[derive(Drop)]
pub(crate) struct Exits {
    pub(crate) split: Split,
    pub(crate) takes: Vec<Takes>,
    pub(crate) outs: Vec<OwnOut>,
    /// How many returns differ from what their exit does.
    cost: usize,
}

/// Returns the exits from whose majorities the fewest returns differ; of equal ones the first.
pub(crate) fn exits_of(
    alloc: Global,
    flow: &RowFlow,
    records: &[Record],
    splits: &[Split],
) -> Result<Exits, AllocError> {
    let mut best = exits_by(alloc, flow, records, Split::One)?;
    for split in splits {
        let found = exits_by(alloc, flow, records, *split)?;
        if found.cost < best.cost {
            best = found;
        }
    }
    Ok(best)
}

fn exits_by(
    alloc: Global,
    flow: &RowFlow,
    records: &[Record],
    split: Split,
) -> Result<Exits, AllocError> {
    let mut exits = Exits {
        split,
        takes: Vec::new(alloc),
        outs: Vec::new(alloc),
        cost: 0,
    };
    let has_failure = split.has_failure(records);
    for (number, argument) in flow.arguments.iter().enumerate() {
        if argument.local.is_none() {
            exits.takes.push(Takes::NoObject)?;
            continue;
        }
        let success = vote_on(alloc, flow, records, split, false, number)?;
        let mut failure = if has_failure {
            vote_on(alloc, flow, records, split, true, number)?
        } else {
            success
        };
        // It fails for NULL only, of which there is no reference.
        if !failure.is_cast {
            failure.is_stolen = success.is_stolen;
        }
        exits.takes.push(takes_by(success, failure))?;
        exits.cost = exits.cost.saturating_add(success.others);
        if split != Split::One {
            exits.cost = exits.cost.saturating_add(failure.others);
        }
    }
    for (number, names) in flow.outs.iter().enumerate() {
        let vote = vote_on_out(alloc, flow, records, split, number, *names)?;
        exits.outs.push(vote.out)?;
        exits.cost = exits.cost.saturating_add(vote.cost);
    }
    Ok(exits)
}

fn takes_by(success: Vote, failure: Vote) -> Takes {
    match (success.is_stolen, failure.is_stolen) {
        (false, false) => Takes::BorrowedOrNull,
        (true, true) => Takes::Stolen,
        (true, false) => Takes::StolenOnSuccess,
        (false, true) => Takes::StolenOnFailure,
    }
}

/// Returns what most returns of an exit do with an argument. A return may do both, on different paths.
fn vote_on(
    alloc: Global,
    flow: &RowFlow,
    records: &[Record],
    split: Split,
    fails: bool,
    number: usize,
) -> Result<Vote, AllocError> {
    let mut given = Sites::new(alloc, flow)?;
    let mut left = Sites::new(alloc, flow)?;
    for record in records {
        if split.fails(record) == fails {
            match record.fates.get(number) {
                Some(Fate::GivenUp) => given.mark(record.site),
                Some(Fate::Left) => left.mark(record.site),
                _ => {}
            }
        }
    }
    Ok(majority(&given, &left))
}

/// Returns what most returns do: on some paths of these the argument is given up, and on some of those it is left.
fn majority(given: &Sites, left: &Sites) -> Vote {
    let is_stolen = given.count() > left.count();
    Vote {
        is_stolen,
        others: if is_stolen {
            left.count_beside(given)
        } else {
            given.count()
        },
        is_cast: given.count() > 0 || left.count() > 0,
    }
}
