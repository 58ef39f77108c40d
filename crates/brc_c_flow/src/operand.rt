use brc_c_graph::Words;
use brc_c_store::{Local, Signs, Singleton};
use brc_c_text::Place;
use brc_c_tree::ExpressionId;

/// What an expression's value is.
#[derive(Clone, Copy)]
pub(crate) enum Operand {
    /// A value of which nothing is known, and no object.
    Plain,
    Null,
    Number(i64),
    /// The object, or NULL, that a name has.
    Object(Local),
    /// A number, or a pointer that is no object, that a name has.
    Counted(Local),
    Singleton(Singleton),
    /// Where a variable of objects is.
    Address(Local),
}

impl Operand {
    /// Returns the signs that the value may have as a number.
    pub(crate) fn signs(self) -> Signs {
        match self {
            Operand::Null => Signs::ZERO,
            Operand::Number(number) => Signs::exactly(number),
            Operand::Singleton(_) | Operand::Address(_) => Signs::ABOVE,
            Operand::Plain | Operand::Object(_) | Operand::Counted(_) => Signs::ALL,
        }
    }

    /// Returns the name that has the object.
    pub(crate) fn object(self) -> Option<Local> {
        match self {
            Operand::Object(local) => Some(local),
            _ => None,
        }
    }

    /// Returns whether it is NULL, written as such.
    pub(crate) fn is_null(self) -> bool {
        match self {
            Operand::Null => true,
            Operand::Number(number) => number == 0,
            _ => false,
        }
    }
}

/// What an expression's value is for.
#[derive(Clone, Copy)]
pub(crate) struct Want {
    /// Whether it is used as an object.
    pub(crate) is_object: bool,
    /// Whether it matters that it is NULL, or which sign it has.
    pub(crate) is_asked: bool,
    /// The name that it is assigned to.
    pub(crate) into: Option<Local>,
}

impl Want {
    /// Only what happens on the way to it matters.
    pub(crate) const NOTHING: Want = Want {
        is_object: false,
        is_asked: false,
        into: None,
    };

    pub(crate) const OBJECT: Want = Want {
        is_object: true,
        is_asked: false,
        into: None,
    };

    pub(crate) const ASKED: Want = Want {
        is_object: false,
        is_asked: true,
        into: None,
    };

    pub(crate) const ASKED_OBJECT: Want = Want {
        is_object: true,
        is_asked: true,
        into: None,
    };

    /// Returns the same, for an object.
    pub(crate) fn of_object(self) -> Want {
        Want {
            is_object: true,
            ..self
        }
    }

    /// Returns the same, to be assigned to a name.
    pub(crate) fn into(self, local: Local) -> Want {
        Want {
            into: Some(local),
            ..self
        }
    }
}

/// A call: where it is, and the name of what is called.
#[derive(Clone, Copy)]
pub(crate) struct Site {
    pub(crate) id: ExpressionId,
    pub(crate) place: Place,
    pub(crate) words: Words,
}
