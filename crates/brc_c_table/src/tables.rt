use crate::fault::TableFault;
use crate::row::Row;
use crate::table::Table;
use std::alloc::{AllocError, Global};

/// The user's tables and the program's own one.
#[derive(Drop)]
pub struct Tables {
    users: Vec<Table>,
    own: Table,
}

impl Tables {
    /// Returns the program's own table alone. Returns `NoMemory` if memory was refused.
    pub fn new(alloc: Global) -> Result<Tables, TableFault> {
        Ok(Tables {
            users: Vec::new(alloc),
            own: Table::of_the_c_api(alloc)?,
        })
    }

    /// Adds a table of the user's.
    pub fn add(&mut self, table: Table) -> Result<(), AllocError> {
        self.users.push(table)?;
        Ok(())
    }

    /// Returns the row of the function with this name: that of the first of the user's tables that has one, otherwise
    /// the program's own.
    pub fn row(&self, name: &[u8]) -> Option<&Row> {
        for table in self.users.iter() {
            if let Some(row) = table.row(name) {
                return Some(row);
            }
        }
        self.own.row(name)
    }

    /// Returns the row of the field with this name, as `row` does.
    pub fn field(&self, name: &[u8]) -> Option<&Row> {
        for table in self.users.iter() {
            if let Some(row) = table.field(name) {
                return Some(row);
            }
        }
        self.own.field(name)
    }
}
