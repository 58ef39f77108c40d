//! Whose the object is that a function gives: what most returns say.

use crate::records::{Kind, Record};
use crate::tracing::container_of;
use brc_c_flow::{ReturnedValue, RowFlow};
use brc_c_table::Gives;
use std::alloc::{AllocError, Global};

/// What a function gives.
#[derive(Clone, Copy)]
pub(crate) struct Given {
    pub(crate) gives: Gives,
    /// Whether something is assumed of the object.
    pub(crate) is_assumed: bool,
}

/// How many returns give an object of each sort.
#[derive(Clone, Copy)]
struct Count {
    own: usize,
    own_singletons: usize,
    singletons: usize,
    unknown: usize,
    borrowed: usize,
    /// The argument that all borrowed ones are, or from which they are borrowed.
    argument: Option<usize>,
    /// Whether all borrowed ones are an argument.
    are_same: bool,
    /// Whether they are borrowed from several arguments, or from something else than an argument.
    are_mixed: bool,
}

/// Returns whose the object is that a function gives. Only a helper gives what it borrows.
pub(crate) fn given_by(
    alloc: Global,
    flow: &RowFlow,
    records: &[Record],
    is_helper: bool,
) -> Result<Given, AllocError> {
    let count = count_kinds(alloc, flow, records)?;
    let own = count.own.saturating_add(count.own_singletons);
    let known = own.saturating_add(count.borrowed);
    if known == 0 && count.singletons == 0 && count.unknown == 0 {
        return Ok(given_by_none(flow, records));
    }
    if is_helper && count.borrowed > own {
        return Ok(Given {
            gives: borrowed_by(&count, own),
            is_assumed: false,
        });
    }
    // Of what is only ever a singleton nobody asks whether each reference is given up. A singleton says nothing of what
    // else is given.
    let is_singleton = count.own == 0 && count.unknown == 0 && count.borrowed == 0;
    Ok(Given {
        gives: Gives::New,
        is_assumed: is_singleton || (count.own == 0 && count.unknown > 0),
    })
}

/// A function that returns an object on no path returns NULL, if each of its returns is reached.
fn given_by_none(flow: &RowFlow, records: &[Record]) -> Given {
    let mut is_silent = false;
    for (site, returned) in flow.returns.iter().enumerate() {
        let is_reached = records.iter().any(|record| record.site == site);
        if matches!(returned.value, ReturnedValue::Object(_)) && !is_reached {
            is_silent = true;
        }
    }
    Given {
        gives: if is_silent { Gives::New } else { Gives::Null },
        is_assumed: is_silent,
    }
}

fn borrowed_by(count: &Count, own: usize) -> Gives {
    let Some(argument) = count.argument else {
        return Gives::Lent;
    };
    if count.are_mixed {
        return Gives::Lent;
    }
    match u8::try_from(argument) {
        Ok(argument) if count.are_same && own == 0 => Gives::Same { argument },
        Ok(argument) => Gives::Item { argument },
        Err(_) => Gives::Lent,
    }
}

/// Counts each kind once a return.
fn count_kinds(alloc: Global, flow: &RowFlow, records: &[Record]) -> Result<Count, AllocError> {
    let mut seen: Vec<(usize, Kind)> = Vec::new(alloc);
    let mut count = Count {
        own: 0,
        own_singletons: 0,
        singletons: 0,
        unknown: 0,
        borrowed: 0,
        argument: None,
        are_same: true,
        are_mixed: false,
    };
    for record in records {
        let kind = (record.site, record.kind);
        if !seen.contains(&kind) {
            seen.push(kind)?;
            add(alloc, flow, record.kind, &mut count)?;
        }
    }
    Ok(count)
}

fn add(alloc: Global, flow: &RowFlow, kind: Kind, count: &mut Count) -> Result<(), AllocError> {
    match kind {
        Kind::Nothing => {}
        Kind::Own => count.own = count.own.saturating_add(1),
        Kind::OwnSingleton => count.own_singletons = count.own_singletons.saturating_add(1),
        Kind::Singleton => count.singletons = count.singletons.saturating_add(1),
        Kind::Unknown => count.unknown = count.unknown.saturating_add(1),
        Kind::Same(argument) => add_borrowed(count, Some(argument), true),
        Kind::PartOf(argument) => add_borrowed(count, Some(argument), false),
        Kind::Item(local) => {
            let container = container_of(alloc, flow, local)?;
            add_borrowed(count, container, false);
        }
        Kind::Lent => add_borrowed(count, None, false),
    }
    Ok(())
}

fn add_borrowed(count: &mut Count, argument: Option<usize>, is_same: bool) {
    count.borrowed = count.borrowed.saturating_add(1);
    count.are_same = count.are_same && is_same;
    match (argument, count.argument) {
        (None, _) => count.are_mixed = true,
        (Some(_), None) => count.argument = argument,
        (Some(one), Some(other)) => count.are_mixed = count.are_mixed || one != other,
    }
}
