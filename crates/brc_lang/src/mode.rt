ghost use Rattle.std.specs.Prelude.{⊤, ◌≡◌, [], ◌∷◌, codes};
ghost use Rattle.brc_lang.specs.Modes.{mode_name};

use bitflags::{Flag, Flags, bitflag_items};

/// How a file is opened: to read it, to write it, and whether it is made if there is none.
#[derive(Clone, Copy, Debug, PartialEq, Eq)]
pub struct Mode(u8);

bitflag_items! {
    impl Mode: u8 {
        /// `r`
        const READ = 1;
        /// `w`
        const WRITE = 2;
        /// `c`
        const CREATE = 4;
    }
}

impl Flags for Mode {
    type Bits = u8;

    ghost exact = { ⊤ };

    ghost table = { (codes "READ", 1) ∷ (codes "WRITE", 2) ∷ (codes "CREATE", 4) ∷ [] };

    ghost set_of = { λ m. m.0 };

    fn flags<'a>() -> &'a [Flag<Mode>] {
        Mode::FLAGS
    }

    fn bits(&self) -> u8 {
        self.0
    }

    fn from_bits_retain(bits: u8) -> Mode {
        Mode(bits)
    }
}

impl Mode {
    /// Returns the mode's word, as in `open v1 0 rw else @3`, or no byte for bits that no mode of the language has.
    pub fn name(self) -> &'static str
        ensures { result.now ≡ mode_name self }
    {
        if self == Mode::READ {
            "r"
        } else if self == Mode::WRITE {
            "w"
        } else if self == Mode::READ.union(Mode::WRITE) {
            "rw"
        } else if self == Mode::WRITE.union(Mode::CREATE) {
            "wc"
        } else if self == Mode::READ.union(Mode::WRITE).union(Mode::CREATE) {
            "rwc"
        } else {
            ""
        }
    }
}
