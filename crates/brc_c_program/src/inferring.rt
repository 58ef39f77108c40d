//! What the functions of a program do with references.

use crate::pairs::Readings;
use crate::unit::Known;
use brc_c_infer::{File, Own, infer};
use std::alloc::AllocError;

/// Returns what is known of the functions of all files by their own bodies, as the rules of a global lock read them.
pub(crate) fn own_of(known: &Known, readings: &[Readings]) -> Result<Own, AllocError> {
    let mut files = Vec::new(known.alloc);
    for read in readings {
        files.push(File {
            tree: &read.locked.tree,
            types: &read.locked.types,
            usage: &read.locked.usage,
            uses: &read.locked.uses,
            casts: &read.locked.casts,
        })?;
    }
    infer(known.alloc, &known.symbols, &known.tables, files.as_slice())
}
