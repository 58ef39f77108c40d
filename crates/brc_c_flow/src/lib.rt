//! From the tree of a C function to its graph: which events happen in which order, and where paths go on.
//!
//! What can't be followed makes its function *not read*, with a place and a reason.
#![tactic(auto)]

mod addresses;
mod arguments;
mod arrays;
mod asserting;
mod assigning;
mod assumed;
mod building;
mod callee;
mod calling;
mod calls;
mod cells;
mod comparing;
mod conditions;
mod constants;
mod elements;
mod entries;
mod exceptions;
mod expressions;
mod facts;
mod flow;
mod formats;
mod habits;
mod jumps;
mod kinds;
mod leaving;
mod loops;
mod losing;
mod names;
mod nulls;
mod operand;
mod orders;
mod outs;
mod own;
mod passing;
mod promoting;
mod purpose;
mod reading;
mod reasons;
mod references;
mod releases;
mod results;
mod returning;
mod settling;
mod singled;
mod slices;
mod statements;
mod stop;
mod storing;
mod streams;
mod strings;
mod surroundings;
mod traits;
mod usage;
mod words;
mod zeros;

pub use flow::{Flow, flow_of, row_flow_of};
pub use own::{Left, LeftObject, NullField, OwnFunctions, OwnOut, OwnRow};
pub use purpose::{ArgumentNames, FieldName, OutNames, Returned, ReturnedValue, RowFlow};
pub use reasons::{FlowReason, Unread, flow_reason_text};
pub use surroundings::Program;
pub use usage::Usage;
