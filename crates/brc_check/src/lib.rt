//! The ownership checker: it accepts a module if every path through every function obeys the ownership rules.
//!
//! The checker has a table of the states of the variables at the points where paths meet, from which those at all other
//! points follow. `infer` fills the table, and `verify`, which trusts no table, compares each entry with what arrives
//! there.
#![tactic(auto)]

mod checked;
mod checker;
mod entries;
mod filling;
mod finding;
mod inferring;
mod instruction;
mod kept_entry;
mod kept_points;
mod path;
mod point_states;
mod refused;
mod refusing;
mod refusing_calls;
mod refusing_host;
mod refusing_items;
mod refusing_locks;
mod state;
mod step;
mod table;
mod trail;
mod variables;
mod verifying;
mod visits;

pub use brc_lang::CheckCode;
pub use brc_model::{Exit, Slot, State};
pub use checked::Checked;
pub use checker::check;
pub use finding::path_to;
pub use inferring::{first_states, infer};
pub use instruction::{apply, target_of};
pub use kept_entry::KeptEntry;
pub use path::Path;
pub use refused::Refused;
pub use state::entry_of;
pub use step::{Step, follow};
pub use table::Table;
pub use verifying::verify;
