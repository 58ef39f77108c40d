use brc_lang::Sequence;
use brc_model::Exit;

/// How paths lead to a refusal: the exits that a path takes, in order, from the function's first instruction.
#[derive(Drop)]
pub enum Path {
    /// The last of the exits reports the code at the point.
    Reports(Sequence<Exit>),
    /// The two paths reach the point in different states.
    Differ(Sequence<Exit>, Sequence<Exit>),
}
