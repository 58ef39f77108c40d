//! The image of a C function: modules that the checker accepts exactly if the function obeys the ownership rules.
//!
//! A module has each node of the function's graph once for each store in which a path reaches it. The search for these
//! is free; that an image says of the graph's paths what they do is checked, and proved of `image_of`.
#![tactic(auto)]

mod arrivals;
mod beginning;
mod block;
mod blocks;
mod breaking;
mod changes;
mod checking;
mod emitting;
mod following;
mod hashing;
mod image;
mod labels;
mod laying;
mod layout;
mod leading;
mod line;
mod matching;
mod naming;
mod order;
mod outlining;
mod parting;
mod path;
mod points;
mod resolving;
mod state;
mod states;
mod tails;
mod taking;
mod writing;

pub use arrivals::{Arrival, arrivals_of};
pub use image::{Image, Size, Text, image_of};
