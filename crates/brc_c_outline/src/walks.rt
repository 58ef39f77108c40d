use brc_model::{Exit, State};

/// The walks along a module from the first instruction of a point.
#[derive(Drop)]
pub struct Walks {
    /// The exits that lead to the start of the next point, for each way.
    pub ways: Vec<Vec<Exit>>,
    /// The exits that lead to the report of the rule that is broken at the point.
    pub broken: Vec<Exit>,
}

/// To which point an instruction belongs, and in which state paths reach it.
#[derive(Clone, Copy)]
pub struct Label {
    pub point: usize,
    pub state: State,
}

/// Where a function of a module shows an outline. Nothing of it is trusted.
#[derive(Drop)]
pub struct Trail {
    /// The walks from each point.
    pub walks: Vec<Walks>,
    /// The labels of the instructions, by their numbers: those that paths reach have one.
    pub labels: Vec<Option<Label>>,
}
