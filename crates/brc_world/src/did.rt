/// The answer of a step: whether it changed the world.
#[derive(Clone, Copy, Debug, PartialEq, Eq)]
pub enum Did {
    /// The step changed the world.
    Moved,
    /// The thread isn't gone, and the step changed nothing.
    Same,
    /// The thread was gone already, and the step changed nothing.
    Gone,
}
