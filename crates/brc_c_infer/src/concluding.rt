use crate::file::{File, Files};
use crate::records::{Fate, Record, records_of};
use crate::rows::row_from;
use brc_c_flow::{OwnFunctions, OwnRow, Program, RowFlow, row_flow_of};
use brc_c_image::arrivals_of;
use brc_c_store::Rules;
use brc_c_tree::Function;
use std::alloc::{AllocError, Global};

/// Returns the row of a function by its body and by the rows of others, or `None` if it isn't read or never returns.
pub(crate) fn conclude(
    files: &Files<'_>,
    file: File<'_>,
    own: OwnFunctions<'_>,
    function: &Function,
    is_helper: bool,
) -> Result<Option<OwnRow>, AllocError> {
    let alloc = files.alloc;
    let program = Program {
        symbols: files.symbols,
        types: file.types,
        tables: files.tables,
        own,
        usage: file.usage,
    };
    let Some(flow) = row_flow_of(alloc, &program, function, is_helper)? else {
        return Ok(None);
    };
    let Some(right) = records_in(alloc, &flow, false)? else {
        return Ok(None);
    };
    let records = if is_cut(right.as_slice(), flow.arguments.len()) {
        match records_in(alloc, &flow, true)? {
            Some(found) => found,
            None => right,
        }
    } else {
        right
    };
    if records.is_empty() {
        return Ok(None);
    }
    let row = row_from(files, function, &flow, records.as_slice(), is_helper)?;
    Ok(Some(row))
}

/// Returns what is known at the returns that paths reach, or `None` if there are too many paths.
fn records_in(
    alloc: Global,
    flow: &RowFlow,
    goes_on: bool,
) -> Result<Option<Vec<Record>>, AllocError> {
    match arrivals_of(alloc, Rules::GlobalLock, &flow.graph, goes_on)? {
        Some(arrivals) => Ok(Some(records_of(alloc, flow, arrivals.as_slice())?)),
        None => Ok(None),
    }
}

/// Returns whether no path returns, or none to which an argument is passed that isn't NULL: each may give something up
/// twice.
fn is_cut(records: &[Record], arguments: usize) -> bool {
    for number in 0..arguments {
        if records
            .iter()
            .all(|record| record.fates.get(number) == Some(&Fate::Null))
        {
            return true;
        }
    }
    records.is_empty()
}
