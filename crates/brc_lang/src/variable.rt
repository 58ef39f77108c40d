ghost use Rattle.std.specs.Prelude.{◌≡◌, ◌<◌};
ghost use Rattle.brc_lang.specs.Limits.{variable_count};

use std::marker::Model;

/// A variable of a function: `v0` to `v15`.
#[derive(Clone, Copy, Debug, PartialEq, Eq)]
pub struct Variable {
    number: u8,
}

impl Model for Variable {
    ghost use Rattle.std.specs.Prelude.{ℕ, ◌<◌};
    ghost use Rattle.brc_lang.specs.Limits.{variable_count};

    ghost Value = { ℕ };

    ghost view = { λ v. v.number };

    ghost invariant = { λ v. v.number < variable_count };

    ghost inverse = { λ n. record { number = n } };
}

impl Variable {
    /// The number of variables of a function.
    pub const COUNT: usize = 16;

    /// Returns the variable of this number, which is below `COUNT`.
    pub fn new(number: u8) -> Variable
        requires { number < variable_count }
        ensures { result ≡ number }
    {
        Variable { number }
    }

    /// Returns the number behind the `v`, which is below `COUNT`.
    pub fn number(self) -> u8
        ensures value { result ≡ self }
        ensures in_range { self < variable_count }
    {
        self.number
    }
}
