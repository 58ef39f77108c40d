//! The picture of a schedule's run, as an SVG document: time runs down, each thread has a lane, and each step a line in
//! it; beside the lanes each object has a bar, whose colour is the object's state.
#![tactic(auto)]

mod arrow;
mod bar;
mod bars;
mod boxes;
mod columns;
mod lane;
mod lanes;
mod legend;
mod life;
mod marked;
mod note;
mod picture;
mod place;
mod reason;
mod recent;
mod seen;
mod shapes;
mod style;
mod svg;
mod tracks;

pub use life::touched_row;
pub use picture::Wrong;
pub use recent::MOST_STEPS;
pub use seen::{Seen, see_run};
pub use svg::svg_text;
