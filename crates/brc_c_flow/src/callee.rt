use crate::own::OwnRow;
use brc_c_store::{Gives, Signs};
use brc_c_table::{Fails, Row};

/// What is known of a function that is called.
#[derive(Clone, Copy)]
pub(crate) struct Callee<'a> {
    pub(crate) row: &'a Row,
    /// What is known of it beside the row, if it has a body in the program.
    pub(crate) own: Option<&'a OwnRow>,
}

impl<'a> Callee<'a> {
    /// Returns the signs of a number that says that the call succeeded.
    pub(crate) fn success(self) -> Signs {
        match self.own {
            Some(own) => own.success,
            None => match self.row.fails {
                Fails::Negative => Signs::ZERO,
                Fails::Less => Signs::ZERO_OR_ABOVE,
                Fails::Zero | Fails::Missing => Signs::ABOVE,
                Fails::Null | Fails::Maybe | Fails::Never => Signs::ALL,
            },
        }
    }

    /// Returns the signs of a number that says that the call failed.
    pub(crate) fn failure(self) -> Signs {
        match self.own {
            Some(own) => own.failure,
            None => match self.row.fails {
                Fails::Negative | Fails::Less | Fails::Missing => Signs::MINUS_ONE,
                Fails::Zero => Signs::ZERO,
                Fails::Null | Fails::Maybe | Fails::Never => Signs::ALL,
            },
        }
    }

    /// Returns whether the sign of the number that the call gives says something.
    pub(crate) fn has_signs(self) -> bool {
        self.row.fails != Fails::Never || self.success() != Signs::ALL
    }

    /// Returns what the call makes.
    pub(crate) fn made(self) -> Gives {
        Gives::New {
            is_fresh: true,
            is_assumed: match self.own {
                Some(own) => own.is_assumed,
                None => false,
            },
        }
    }

    /// Returns the numbers of the arguments of which something is assumed.
    pub(crate) fn assumed(self) -> &'a [usize] {
        match self.own {
            Some(own) => own.assumed.as_slice(),
            None => &[],
        }
    }
}
