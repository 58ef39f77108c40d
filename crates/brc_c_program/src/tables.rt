//! The tables of a command: the program's own one, and those of its files.

use crate::files::Files;
use brc_c_table::{RowFault, Table, TableFault, Tables};
use brc_c_text::FILE_LIMIT;
use std::alloc::{AllocError, Global};

/// Reads the tables at these paths, and appends a line to `errors` about each that isn't read.
pub(crate) fn read_tables<F: Files>(
    alloc: Global,
    paths: &[&str],
    files: &mut F,
    errors: &mut String,
) -> Result<Tables, AllocError> {
    let Ok(mut tables) = Tables::new(alloc) else {
        return Err(AllocError);
    };
    for path in paths {
        read_table(alloc, path, files, &mut tables, errors)?;
    }
    Ok(tables)
}

fn read_table<F: Files>(
    alloc: Global,
    path: &str,
    files: &mut F,
    tables: &mut Tables,
    errors: &mut String,
) -> Result<(), AllocError> {
    let mut bytes = Vec::new(alloc);
    if !files.read(path, &mut bytes)? {
        return write!(errors, "{path}: unreadable file\n");
    }
    if bytes.len() > FILE_LIMIT {
        return write!(errors, "{path}: more than 1 MiB\n");
    }
    match Table::read(alloc, bytes.as_slice()) {
        Ok(table) => tables.add(table),
        Err(
            TableFault {
                fault: RowFault::NoMemory,
                ..
            },
        ) => Err(AllocError),
        Err(fault) => write!(errors, "{path}:{fault}\n"),
    }
}
