//! The general rule, from which a recursion begins: arguments are borrowed, and what is given is new.

use crate::file::{File, Files};
use brc_c_flow::OwnRow;
use brc_c_store::Signs;
use brc_c_table::{Fails, Gives, Row, Takes};
use brc_c_tree::{Function, Parameter};
use brc_lang::Sequence;
use std::alloc::{AllocError, Global};

/// Returns the row of a function by its head alone.
pub(crate) fn row_by_rule(
    files: &Files<'_>,
    file: File<'_>,
    function: &Function,
) -> Result<OwnRow, AllocError> {
    let gives = given_by_type(files, file, function);
    let mut takes = Sequence::new(files.alloc);
    for parameter in function.parameters.iter() {
        takes.push(takes_by_type(files, file, parameter))?;
    }
    Ok(OwnRow {
        row: Row {
            name: name_of(files.alloc, files.symbols.text(function.name))?,
            is_field: false,
            gives,
            takes,
            fails: if gives == Gives::New {
                Fails::Null
            } else {
                Fails::Never
            },
            runs: true,
        },
        success: Signs::ALL,
        failure: Signs::ALL,
        is_assumed: gives == Gives::New,
        assumed: Vec::new(files.alloc),
        outs: Vec::new(files.alloc),
        nulls: Vec::new(files.alloc),
    })
}

fn given_by_type(files: &Files<'_>, file: File<'_>, function: &Function) -> Gives {
    if file.types.is_object(files.symbols, function.result) {
        Gives::New
    } else {
        plain_result(files, function)
    }
}

/// Returns what a function gives that gives no object.
pub(crate) fn plain_result(files: &Files<'_>, function: &Function) -> Gives {
    if function.result.stars > 0 {
        Gives::Other
    } else if files.symbols.text(function.result.symbol) == b"void".as_slice() {
        Gives::Void
    } else {
        Gives::Number
    }
}

fn takes_by_type(files: &Files<'_>, file: File<'_>, parameter: &Parameter) -> Takes {
    if parameter.is_variadic {
        Takes::RestNoObjects
    } else if file.types.is_object(files.symbols, parameter.type_name) {
        Takes::BorrowedOrNull
    } else {
        Takes::NoObject
    }
}

/// Returns a name of C as a row has it.
pub(crate) fn name_of(alloc: Global, text: &[u8]) -> Result<Sequence<u8>, AllocError> {
    let mut name = Sequence::new(alloc);
    for byte in text {
        name.push(*byte)?;
    }
    Ok(name)
}
