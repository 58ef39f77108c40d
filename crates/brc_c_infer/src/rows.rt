//! The row of a function, put together.

use crate::exits::{Exits, Split, exits_of};
use crate::file::Files;
use crate::pointed::OutRecord;
use crate::records::{Kind, Record};
use crate::results::{Given, given_by};
use crate::rule::{name_of, plain_result};
use crate::tracing::assumed_arguments;
use brc_c_flow::{NullField, OwnOut, OwnRow, RowFlow};
use brc_c_graph::Graph;
use brc_c_store::{Event, Signs};
use brc_c_table::{Fails, Gives, Row, Takes};
use brc_c_tree::Function;
use brc_lang::Sequence;
use std::alloc::{AllocError, Global};

/// Returns a function's row by what is known at its returns.
pub(crate) fn row_from(
    files: &Files<'_>,
    function: &Function,
    flow: &RowFlow,
    records: &[Record],
    is_helper: bool,
) -> Result<OwnRow, AllocError> {
    let alloc = files.alloc;
    let given = if flow.gives_objects {
        given_by(alloc, flow, records, is_helper)?
    } else {
        Given {
            gives: plain_given(files, function, records),
            is_assumed: false,
        }
    };
    let has_outs = !flow.outs.is_empty();
    let exits = exits_of(alloc, flow, records, splits_of(given.gives, has_outs))?;
    let fails = fails_of(given.gives, &exits, records);
    let seen = seen_signs(records);
    let (success, failure) = signs_by(fails, seen);
    Ok(OwnRow {
        row: Row {
            name: name_of(alloc, files.symbols.text(function.name))?,
            is_field: false,
            gives: given.gives,
            takes: takes_of(alloc, function, &exits, given.gives)?,
            fails,
            runs: runs_code(&flow.graph),
        },
        success,
        failure,
        is_assumed: given.is_assumed,
        assumed: assumed_arguments(alloc, flow)?,
        outs: outs_of(alloc, records, exits.outs),
        nulls: nulls_of(alloc, flow, records)?,
    })
}

/// Returns what a function gives that gives no object: NULL, if it is a pointer that never is anything else.
fn plain_given(files: &Files<'_>, function: &Function, records: &[Record]) -> Gives {
    let gives = plain_result(files, function);
    if gives == Gives::Other && seen_signs(records) == Signs::ZERO {
        Gives::Null
    } else {
        gives
    }
}

/// Returns what is known of what arguments point to: nothing, if a return has moved it elsewhere.
fn outs_of(alloc: Global, records: &[Record], outs: Vec<OwnOut>) -> Vec<OwnOut> {
    for record in records {
        for out in record.outs.iter() {
            if out.after == OutRecord::Moved {
                return Vec::new(alloc);
            }
        }
    }
    outs
}

/// Returns the fields of arguments that are NULL at each return.
fn nulls_of(
    alloc: Global,
    flow: &RowFlow,
    records: &[Record],
) -> Result<Vec<NullField>, AllocError> {
    let mut nulls = Vec::new(alloc);
    for (at, field) in flow.fields.iter().enumerate() {
        if records
            .iter()
            .all(|record| record.nulls.get(at) == Some(&true))
        {
            nulls.push(field.null)?;
        }
    }
    Ok(nulls)
}

/// Returns into which exits the returns may fall, beside one exit for all.
fn splits_of(gives: Gives, has_outs: bool) -> &'static [Split] {
    match gives {
        Gives::Number if has_outs => &[Split::Negative, Split::Zero, Split::Missing],
        Gives::Number => &[Split::Negative, Split::Zero],
        Gives::New | Gives::Item { .. } | Gives::Part { .. } | Gives::Lent | Gives::Same { .. } => {
            &[Split::Null]
        }
        Gives::Null | Gives::Other | Gives::Void | Gives::Free => &[],
    }
}

/// Returns how a failure shows. An object that may be NULL fails by that.
fn fails_of(gives: Gives, exits: &Exits, records: &[Record]) -> Fails {
    match gives {
        Gives::Number => match exits.split {
            Split::Negative => Fails::Negative,
            Split::Zero => Fails::Zero,
            Split::Missing => Fails::Missing,
            Split::One | Split::Null => Fails::Never,
        },
        Gives::Null | Gives::Other | Gives::Void | Gives::Free => Fails::Never,
        _ => {
            if exits.split == Split::Null || records.iter().any(gives_null) {
                Fails::Null
            } else {
                Fails::Never
            }
        }
    }
}

fn gives_null(returned: &Record) -> bool {
    let is_argument = matches!(returned.kind, Kind::Same(_));
    returned.is_null || (returned.may_be_null && !is_argument)
}

/// Returns the signs that the returned numbers have.
fn seen_signs(records: &[Record]) -> Signs {
    let mut seen = Signs::NONE;
    for record in records {
        seen.minus_one = seen.minus_one || record.signs.minus_one;
        seen.below = seen.below || record.signs.below;
        seen.zero = seen.zero || record.signs.zero;
        seen.above = seen.above || record.signs.above;
    }
    seen
}

/// Returns the signs of the numbers after a success, and after a failure.
fn signs_by(fails: Fails, seen: Signs) -> (Signs, Signs) {
    match fails {
        Fails::Negative => (some_of(Signs::ZERO_OR_ABOVE, seen), some_of(NEGATIVE, seen)),
        Fails::Zero => (some_of(NOT_ZERO, seen), Signs::ZERO),
        Fails::Missing => (some_of(Signs::ABOVE, seen), some_of(NEGATIVE, seen)),
        _ => (some_of(Signs::ALL, seen), Signs::ALL),
    }
}

const NEGATIVE: Signs = Signs {
    minus_one: true,
    below: true,
    zero: false,
    above: false,
    only: None,
};

const NOT_ZERO: Signs = Signs {
    minus_one: true,
    below: true,
    zero: false,
    above: true,
    only: None,
};

/// Returns those of the signs that are seen, or all of them if none is.
fn some_of(signs: Signs, seen: Signs) -> Signs {
    let both = Signs {
        minus_one: signs.minus_one && seen.minus_one,
        below: signs.below && seen.below,
        zero: signs.zero && seen.zero,
        above: signs.above && seen.above,
        only: None,
    };
    if both.is_empty() { signs } else { both }
}

/// Returns how the arguments are taken. What lends the result isn't NULL.
fn takes_of(
    alloc: Global,
    function: &Function,
    exits: &Exits,
    gives: Gives,
) -> Result<Sequence<Takes>, AllocError> {
    let container = match gives {
        Gives::Item { argument } => Some(usize::from(argument)),
        _ => None,
    };
    let mut takes = Sequence::new(alloc);
    for (number, parameter) in function.parameters.iter().enumerate() {
        let found = match exits.takes.get(number) {
            Some(found) => *found,
            None => Takes::NoObject,
        };
        takes.push(if parameter.is_variadic {
            Takes::RestNoObjects
        } else if container == Some(number) && found == Takes::BorrowedOrNull {
            Takes::Borrowed
        } else {
            found
        })?;
    }
    Ok(takes)
}

/// Returns whether other code may run in a function: a call in it runs some, or other threads are allowed to.
fn runs_code(graph: &Graph) -> bool {
    for node in graph.nodes() {
        let runs = match node.event {
            Event::Detach => true,
            Event::EndItems => match node.words {
                Some(words) => !sets_items(graph.words(words)),
                None => true,
            },
            _ => false,
        };
        if runs {
            return true;
        }
    }
    false
}

/// Returns whether a function of the table ends items only since it replaces one.
fn sets_items(name: &str) -> bool {
    name == "PyList_SetItem" || name == "PyList_SET_ITEM"
}

/// Returns whether two rows of a function say the same.
pub(crate) fn are_same(one: &Option<OwnRow>, other: &Option<OwnRow>) -> bool {
    match (one, other) {
        (Some(one), Some(other)) => {
            one.row.gives == other.row.gives
                && one.row.takes.as_slice() == other.row.takes.as_slice()
                && one.row.fails == other.row.fails
                && one.row.runs == other.row.runs
                && one.success == other.success
                && one.failure == other.failure
                && one.is_assumed == other.is_assumed
                && one.assumed.as_slice() == other.assumed.as_slice()
                && one.outs.as_slice() == other.outs.as_slice()
                && one.nulls.as_slice() == other.nulls.as_slice()
        }
        (None, None) => true,
        _ => false,
    }
}
