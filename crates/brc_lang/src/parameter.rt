//! What a function takes, and what a call gives it.

ghost use Rattle.std.specs.Prelude.{◌≡◌};
ghost use Rattle.brc_lang.specs.Grammar.{passing_name};

use crate::kind::Kind;
use crate::variable::Variable;

/// How a reference is passed to a function (Python/C API, Introduction, Reference Count Details).
#[derive(Clone, Copy, Debug, PartialEq, Eq)]
pub enum Passing {
    /// The caller lends the reference, and keeps it.
    Borrow,
    /// The function steals the reference: it owns it from its first instruction on.
    Steal,
}

/// A parameter: how its reference is passed, and the kind of its object, `Any` where each kind is taken.
#[derive(Clone, Copy, Debug)]
pub struct Parameter {
    pub passing: Passing,
    pub kind: Kind,
}

/// An argument of a call: the caller's variable, and the parameter that it is for.
#[derive(Clone, Copy, Debug)]
pub struct Argument {
    pub from: Variable,
    pub parameter: Parameter,
}

impl Passing {
    /// Returns the word for it: `borrow` or `steal`.
    pub fn name(self) -> &'static str
        ensures { result.now ≡ passing_name self }
    {
        match self {
            Passing::Borrow => "borrow",
            Passing::Steal => "steal",
        }
    }
}
