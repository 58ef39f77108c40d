//! What a C function does with references, one event after another: events, stores, and the two functions that say what
//! an event does, `faults` and `after`.
//!
//! Both are total, and neither searches: they know one event and one store, and nothing of a graph or of a text.
#![tactic(auto)]

mod asking;
mod breaking;
mod cell;
mod cells;
mod event;
mod following;
mod giving;
mod keeping;
mod object;
mod questions;
mod register;
mod rules;
mod signs;
mod store;
mod value;

pub use asking::{is_unprotected, left_by};
pub use breaking::faults;
pub use cell::{Cell, Field, Owes, Touched};
pub use cells::left_in;
pub use event::{Calling, Choice, Event, Gives, Source};
pub use following::{Next, after};
pub use object::{Base, Object};
pub use register::{Register, RegisterSet};
pub use rules::Rules;
pub use signs::{Comparison, Signs, Test};
pub use store::{KnownFact, Named, Section, Store};
pub use value::{Fact, Local, ObjectId, Singleton, Value};
