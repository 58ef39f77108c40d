//! What a table keeps.

use brc_model::State;

/// The entry of a point that a table keeps.
#[derive(Clone, Copy, Debug)]
pub struct KeptEntry {
    /// The number of the instruction, from 0.
    pub at: usize,
    /// The state of the variables there, or `None` if no path reaches the point.
    pub state: Option<State>,
}
