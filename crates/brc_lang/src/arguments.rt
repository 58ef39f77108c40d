ghost use Rattle.std.specs.Prelude.{◌≡◌, ◌<◌, ◌≤◌, ◌∷◌, ◌++◌, [], length};
ghost use Rattle.brc_lang.specs.Limits.{parameter_limit};

use crate::kind::Kind;
use crate::parameter::{Argument, Parameter, Passing};
use crate::variable::Variable;
use std::marker::Model;

/// The arguments of a call: a copied list of at most `MOST` of them.
#[derive(Clone, Copy, Debug)]
pub struct Arguments {
    items: [Argument; 4],
    len: u8,
}

impl Model for Arguments {
    ghost use Rattle.std.specs.Prelude.{List, ◌≡◌, ◌≤◌, ◌-◌, ◌++◌, take, length, replicate};
    ghost use Rattle.brc_lang.specs.Limits.{parameter_limit};
    ghost use Rattle.brc_lang.specs.Padding.{no_argument};
    ghost use Rattle.brc_lang.specs.declared.parameter.Argument.{Argument};

    ghost Value = { List Argument };

    ghost view = { λ a. take a.len a.items };

    ghost invariant = { λ a. (a.len ≤ parameter_limit) × (length a.items ≡ parameter_limit)
        × (a.items ≡ take a.len a.items ++ replicate (parameter_limit - a.len) no_argument) };

    ghost inverse = { λ items. record {
      items = items ++ replicate (parameter_limit - length items) no_argument;
      len = length items;
    } };

    ghost use Rattle.brc_lang.specs.Padding.{restored_arguments};

    ghost inverse_ok = { λ a h. restored_arguments a h.0 h.1 h.2 };
}

impl Arguments {
    /// The greatest number of arguments.
    pub const MOST: usize = 4;

    /// Returns no arguments.
    pub fn new() -> Arguments
        ensures { result ≡ [] }
    {
        let none = Argument {
            from: Variable::new(0),
            parameter: Parameter {
                passing: Passing::Borrow,
                kind: Kind::None,
            },
        };
        Arguments {
            items: [none; 4],
            len: 0,
        }
    }

    /// Appends the argument. There are fewer than `MOST` before.
    pub fn push(&mut self, argument: Argument)
        requires { length self.old < parameter_limit }
        ensures { self.new ≡ self.old ++ argument ∷ [] }
    {
        self.items[self.len as usize] = argument;
        self.len += 1;
    }

    /// Returns the arguments in order.
    pub fn as_slice(&self) -> &[Argument]
        ensures value { result.now ≡ self.now }
        ensures short { length self.now ≤ parameter_limit }
    {
        &self.items[..self.len as usize]
    }
}
