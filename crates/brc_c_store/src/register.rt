ghost use Rattle.std.specs.Prelude.{◌≡◌, ◌&&◌, nat_lt, find};
ghost use Rattle.brc_c_store.specs.Registers.{all_registers, bit_of, has_none, has_register, with_register};
ghost use Rattle.brc_c_store.specs.Registers.{without_register, union_of, first_of, next_of, first_of_two, last_of};
ghost use Rattle.brc_c_store.specs.Registers.{size_of, others_of};

/// A register that holds a reference or a borrowed item: one of the module's variables `v3` to `v15`.
#[derive(Clone, Copy, PartialEq, Eq)]
pub struct Register(u8);

const FIRST: u8 = 3;

const BEHIND: u8 = 16;

impl Register {
    /// Returns the number of its variable.
    pub fn number(self) -> u8
        ensures { result ≡ self.0 }
    {
        self.0
    }

    fn bit(self) -> u16
        ensures { result ≡ bit_of self }
    {
        1u16.wrapping_shl(u32::from(self.0))
    }
}

/// A set of registers.
#[derive(Clone, Copy, PartialEq, Eq)]
pub struct RegisterSet(u16);

impl RegisterSet {
    pub const EMPTY: RegisterSet = RegisterSet(0);

    pub fn is_empty(self) -> bool
        ensures { result ≡ has_none self }
    {
        self.0 == 0
    }

    pub fn contains(self, register: Register) -> bool
        ensures { result ≡ has_register self register }
    {
        self.0 & register.bit() != 0
    }

    pub fn with(self, register: Register) -> RegisterSet
        ensures { result ≡ with_register self register }
    {
        RegisterSet(self.0 | register.bit())
    }

    pub fn without(self, register: Register) -> RegisterSet
        ensures { result ≡ without_register self register }
    {
        RegisterSet(self.0 & !register.bit())
    }

    pub fn union(self, other: RegisterSet) -> RegisterSet
        ensures { result ≡ union_of self other }
    {
        RegisterSet(self.0 | other.0)
    }

    /// Returns whether the set has a register whose number is above this one.
    fn has_above(self, register: Register, above: u8) -> bool
        ensures { result ≡ (nat_lt above register.0 && has_register self register) }
    {
        register.0 > above && self.contains(register)
    }

    /// Returns the first register of the set whose number is above this one.
    #[tactic(auto, using(crate::proofs::RegistersFrom::finding))]
    fn next_above(self, above: u8) -> Option<Register>
        ensures { result ≡ find (λ q. nat_lt above q.0 && has_register self q) all_registers }
    {
        for number in FIRST..BEHIND {
            let register = Register(number);
            if self.has_above(register, above) {
                return Some(register);
            }
        }
        None
    }

    pub fn first(self) -> Option<Register>
        ensures { result ≡ first_of self }
    {
        self.next_above(0)
    }

    /// Returns the next register of the set after another one.
    pub fn behind(self, register: Register) -> Option<Register>
        ensures { result ≡ next_of self register }
    {
        self.next_above(register.0)
    }

    /// Returns the first register of the set, if it has another one too.
    pub(crate) fn first_of_two(self) -> Option<Register>
        ensures { result ≡ first_of_two self }
    {
        let first = self.first()?;
        if self.behind(first).is_some() {
            Some(first)
        } else {
            None
        }
    }

    /// Returns the register of the greatest number.
    #[tactic(auto, using(crate::proofs::RegistersFrom::finding_last))]
    pub fn last(self) -> Option<Register>
        ensures { result ≡ last_of self }
    {
        let mut last = None;
        for number in FIRST..BEHIND {
            let register = Register(number);
            if self.contains(register) {
                last = Some(register);
            }
        }
        last
    }

    /// Returns how many registers the set has.
    pub fn count(self) -> usize
        ensures { result ≡ size_of self }
    {
        let mut count: usize = 0;
        for number in FIRST..BEHIND {
            if self.contains(Register(number)) {
                count = count.saturating_add(1);
            }
        }
        count
    }

    /// Returns the registers that aren't in the set.
    #[tactic(auto, using(crate::proofs::RegistersFrom::gathering))]
    pub fn others(self) -> RegisterSet
        ensures { result ≡ others_of self }
    {
        let mut others = RegisterSet::EMPTY;
        for number in FIRST..BEHIND {
            let register = Register(number);
            if !self.contains(register) {
                others = others.with(register);
            }
        }
        others
    }
}
