ghost use Rattle.std.specs.Prelude.{◌≡◌};
ghost use Rattle.brc_c_store.specs.Signs.{sign_of, exactly, has_no_sign, signs_left, signs_that, mirrored, sought};
ghost use Rattle.brc_c_store.specs.Signs.{is_equal, is_open};

/// Which signs a number may have. Minus one is a sign of its own, since functions of C say by it that they fail.
#[derive(Clone, Copy, PartialEq, Eq)]
pub struct Signs {
    pub minus_one: bool,
    /// Below minus one.
    pub below: bool,
    pub zero: bool,
    pub above: bool,
    /// The number itself, if it is known, and neither 0 nor minus one.
    pub only: Option<i64>,
}

impl Signs {
    pub const NONE: Signs = Signs {
        minus_one: false,
        below: false,
        zero: false,
        above: false,
        only: None,
    };

    pub const ALL: Signs = Signs {
        minus_one: true,
        below: true,
        zero: true,
        above: true,
        only: None,
    };

    pub const MINUS_ONE: Signs = Signs {
        minus_one: true,
        below: false,
        zero: false,
        above: false,
        only: None,
    };

    pub const ZERO: Signs = Signs {
        minus_one: false,
        below: false,
        zero: true,
        above: false,
        only: None,
    };

    pub const ABOVE: Signs = Signs {
        minus_one: false,
        below: false,
        zero: false,
        above: true,
        only: None,
    };

    pub const ZERO_OR_ABOVE: Signs = Signs {
        minus_one: false,
        below: false,
        zero: true,
        above: true,
        only: None,
    };

    /// Returns the sign of a number.
    pub fn of(number: i64) -> Signs
        ensures { result ≡ sign_of number }
    {
        Signs {
            minus_one: number == -1,
            below: number < -1,
            zero: number == 0,
            above: number > 0,
            only: None,
        }
    }

    /// Returns the sign of a number, and the number.
    pub fn exactly(number: i64) -> Signs
        ensures { result ≡ exactly number }
    {
        let only = match number {
            -1 | 0 => None,
            _ => Some(number),
        };
        Signs {
            only,
            ..Signs::of(number)
        }
    }

    pub fn is_empty(self) -> bool
        ensures { result ≡ has_no_sign self }
    {
        !self.minus_one && !self.below && !self.zero && !self.above
    }

    /// Returns those of these signs of which some number passes the test, or fails it if `wanted` is false.
    pub fn that(self, test: Test, wanted: bool) -> Signs
        ensures { result ≡ signs_left self test wanted }
    {
        if let Some(number) = self.only {
            return if test.is_open(number, number, wanted) {
                self
            } else {
                Signs::NONE
            };
        }
        let left = self.signs_that(test, wanted);
        if !left.is_empty() && test.is_equality(wanted) {
            Signs::exactly(test.constant)
        } else {
            left
        }
    }

    fn signs_that(self, test: Test, wanted: bool) -> Signs
        ensures { result ≡ signs_that self test wanted }
    {
        Signs {
            minus_one: self.minus_one && test.is_open(-1, -1, wanted),
            below: self.below && test.is_open(i64::MIN, -2, wanted),
            zero: self.zero && test.is_open(0, 0, wanted),
            above: self.above && test.is_open(1, i64::MAX, wanted),
            only: None,
        }
    }
}

#[derive(Clone, Copy, PartialEq, Eq)]
pub enum Comparison {
    Equal,
    NotEqual,
    Less,
    LessEqual,
    Greater,
    GreaterEqual,
}

impl Comparison {
    /// Returns the comparison that holds for the sides exchanged.
    pub fn mirrored(self) -> Comparison
        ensures { result ≡ mirrored self }
    {
        match self {
            Comparison::Less => Comparison::Greater,
            Comparison::LessEqual => Comparison::GreaterEqual,
            Comparison::Greater => Comparison::Less,
            Comparison::GreaterEqual => Comparison::LessEqual,
            Comparison::Equal | Comparison::NotEqual => self,
        }
    }
}

/// A comparison of a number with a constant.
#[derive(Clone, Copy, PartialEq, Eq)]
pub struct Test {
    pub comparison: Comparison,
    pub constant: i64,
}

impl Test {
    /// Returns whether only the constant passes the test, or fails it if `wanted` is false.
    fn is_equality(self, wanted: bool) -> bool
        ensures { result ≡ is_equal (sought self.comparison wanted) }
    {
        match self.comparison {
            Comparison::Equal => wanted,
            Comparison::NotEqual => !wanted,
            _ => false,
        }
    }

    /// Returns whether some number from `least` to `most` passes the test, or fails it if `wanted` is false.
    fn is_open(self, least: i64, most: i64, wanted: bool) -> bool
        ensures { result ≡ is_open self wanted least most }
    {
        let constant = self.constant;
        match (self.comparison, wanted) {
            (Comparison::Equal, true) | (Comparison::NotEqual, false) => {
                least <= constant && constant <= most
            }
            (Comparison::Equal, false) | (Comparison::NotEqual, true) => {
                least != constant || most != constant
            }
            (Comparison::Less, true) | (Comparison::GreaterEqual, false) => least < constant,
            (Comparison::Less, false) | (Comparison::GreaterEqual, true) => most >= constant,
            (Comparison::LessEqual, true) | (Comparison::Greater, false) => least <= constant,
            (Comparison::LessEqual, false) | (Comparison::Greater, true) => most > constant,
        }
    }
}
