//! The table of the C API: of each function, whose its result is, how its arguments are passed, how it shows a failure,
//! and whether Python code may run in it. `api.txt` says what a row means.
#![tactic(auto)]

mod api;
mod fault;
mod line;
mod reading;
mod row;
mod table;
mod tables;
mod words;

pub use fault::{RowFault, TableFault};
pub use row::{Fails, Gives, Row, Takes};
pub use table::Table;
pub use tables::Tables;
