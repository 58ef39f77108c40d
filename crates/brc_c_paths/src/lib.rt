//! The paths of a C function's graph: in which stores they come to its nodes, and which rules they break there.
//!
//! A path goes from a store to the normal form of the one after an event. `is_closed` says that a search has found each
//! node in each store to which a path comes; it asks of each alone where paths go on. By this `is_right` says that no
//! path breaks a rule, and `all_listed` which rules paths break.
#![tactic(auto)]

mod breaking;
mod closing;
mod fault;
mod idle_cells;
mod judging;
mod lenders;
mod liveness;
mod names;
mod near;
mod normal;
mod numbering;
mod ordering;
mod point;
mod postorder;
mod reading;
mod registers;
mod replaying;
mod same;
mod settled;
mod sorting;
mod stepping;

pub use breaking::code_of;
pub use closing::is_closed;
pub use fault::{Fault, Step};
pub use judging::{all_listed, are_paths, is_right};
pub use liveness::Liveness;
pub use normal::make_normal;
pub use point::{Point, PointWays};
pub use reading::{name_assigned, names_read};
pub use registers::{MOST_REGISTERS, difference, items_of, known_items};
pub use replaying::is_path_of;
pub use stepping::{MOST_SECTIONS, arrive, ends_items};
