//! Outlines of modules: points that lead on to points by choices, as a C function's graph does, and the check that a
//! function of a module has exactly their paths.
#![tactic(auto)]

mod breaking;
mod laws;
mod outline;
mod places;
mod showing;
mod trailing;
mod validating;
mod walks;

pub use breaking::is_broken;
pub use laws::{accepted_is_unbroken, every_path_has_its_walk, every_walk_is_a_path};
pub use outline::{Broken, Outline, Point};
pub use showing::shows;
pub use trailing::trail_of;
pub use validating::is_image;
pub use walks::{Label, Trail, Walks};
