use brc_lang::CheckCode;
use brc_model::State;

/// The rule that is broken at a point.
#[derive(Clone, Copy)]
pub struct Broken {
    pub code: CheckCode,
    /// The instruction that reports it.
    pub at: usize,
}

/// A point of an outline: a node of a C function's graph in one store.
#[derive(Drop)]
pub struct Point {
    /// Its first instruction.
    pub start: usize,
    /// The state in which paths reach that instruction.
    pub state: State,
    /// The rule that is broken there, if any.
    pub broken: Option<Broken>,
    /// The points where paths go on, by the numbers of the choices.
    pub ways: Vec<usize>,
}

/// What a function of a module is to show. Nothing of it is trusted.
#[derive(Drop)]
pub struct Outline {
    /// Paths begin at the first one.
    pub points: Vec<Point>,
}
