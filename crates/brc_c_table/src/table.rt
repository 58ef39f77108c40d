use crate::fault::RowFault;
use crate::row::Row;
use std::alloc::Global;
use std::collections::HashMap;

/// Rows by name, each name once.
#[derive(Drop)]
struct Rows {
    by_name: HashMap<Vec<u8>, Row>,
}

impl Rows {
    fn new(alloc: Global) -> Rows {
        Rows {
            by_name: HashMap::new(alloc),
        }
    }

    fn row(&self, name: &[u8]) -> Option<&Row> {
        self.by_name.get(name)
    }

    /// Adds the row. Returns `NameTwice` or `NoMemory`, and is unchanged then.
    fn add(&mut self, alloc: Global, row: Row) -> Result<(), RowFault> {
        if self.row(row.name.as_slice()).is_some() {
            return Err(RowFault::NameTwice);
        }
        let name = Vec::from_slice(alloc, row.name.as_slice())?;
        self.by_name.insert(name, row)?;
        Ok(())
    }
}

/// The rows of a text: those of functions, and those of fields that are called through a pointer.
#[derive(Drop)]
pub struct Table {
    functions: Rows,
    fields: Rows,
}

impl Table {
    /// Returns a table without rows, which takes no memory.
    pub fn new(alloc: Global) -> Table {
        Table {
            functions: Rows::new(alloc),
            fields: Rows::new(alloc),
        }
    }

    /// Returns the row of the function with this name.
    pub fn row(&self, name: &[u8]) -> Option<&Row> {
        self.functions.row(name)
    }

    /// Returns the row of the field with this name, as of `tp_alloc`: what is known of a call `t->tp_alloc(..)`.
    pub fn field(&self, name: &[u8]) -> Option<&Row> {
        self.fields.row(name)
    }

    /// Returns the number of rows.
    pub fn len(&self) -> usize {
        self.functions
            .by_name
            .len()
            .saturating_add(self.fields.by_name.len())
    }

    /// Adds the row. Returns `NameTwice` or `NoMemory`, and the table is unchanged then.
    pub fn add(&mut self, alloc: Global, row: Row) -> Result<(), RowFault> {
        if row.is_field {
            self.fields.add(alloc, row)
        } else {
            self.functions.add(alloc, row)
        }
    }
}
