//! From a text to a table, line by line.

use crate::api::PARTS;
use crate::fault::{RowFault, TableFault};
use crate::line::read_line;
use crate::table::Table;
use brc_lang::{Cursor, split_line};
use std::alloc::Global;

impl Table {
    /// Reads the rows that the lines of a text spell.
    ///
    /// Returns the first line at fault from the top and its fault, or `NoMemory` if memory was refused.
    pub fn read(alloc: Global, text: &[u8]) -> Result<Table, TableFault> {
        let mut table = Table::new(alloc);
        table.read_rows(alloc, text)?;
        Ok(table)
    }

    /// Returns the program's own table: what the C API's manual says, as the file `api.txt` of this crate has it.
    ///
    /// Returns `NoMemory` if memory was refused.
    pub fn of_the_c_api(alloc: Global) -> Result<Table, TableFault> {
        let mut table = Table::new(alloc);
        for part in PARTS {
            table.read_rows(alloc, part.as_bytes())?;
        }
        Ok(table)
    }

    /// Reads the rows of a text, and adds them.
    fn read_rows(&mut self, alloc: Global, text: &[u8]) -> Result<(), TableFault> {
        let mut cursor = Cursor {
            rest: text,
            line: 1,
        };
        while let Some((text, rest)) = split_line(cursor.rest) {
            let line = cursor.line;
            match self.read_line(alloc, text) {
                Ok(()) => {}
                Err(fault) => return Err(TableFault { line, fault }),
            }
            cursor = Cursor {
                rest,
                line: line + 1,
            };
        }
        if cursor.rest.is_empty() {
            Ok(())
        } else {
            Err(TableFault {
                line: cursor.line,
                fault: RowFault::CutOff,
            })
        }
    }

    /// Reads a line, and adds its row, if it has one.
    fn read_line(&mut self, alloc: Global, line: &[u8]) -> Result<(), RowFault> {
        match read_line(alloc, line)? {
            Some(row) => self.add(alloc, row),
            None => Ok(()),
        }
    }
}
