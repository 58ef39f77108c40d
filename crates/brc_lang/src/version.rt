ghost use Rattle.std.specs.Prelude.{◌≡◌, ◌≤◌};
ghost use Rattle.brc_lang.specs.Grammar.{cells_in};
ghost use Rattle.brc_lang.specs.Limits.{cell_limit};

/// The most cells of a list in versions 1 and 2.
const FEW_CELLS: u8 = 8;

/// The most cells of a list.
pub const MOST_CELLS: u8 = 64;

/// The version of the language in which a module is written.
#[derive(Clone, Copy, Debug, PartialEq, Eq)]
pub enum Version {
    /// `module 1`: no function calls another one.
    One,
    /// `module 2`: functions have parameters, and call functions above them.
    Two,
    /// `module 3`: lists have up to 64 cells, and a module may have static lists.
    Three,
}

impl Version {
    /// Returns the most cells of a list in a module of this version.
    pub fn most_cells(self) -> u8
        ensures value { result ≡ cells_in self }
        ensures low { result ≤ cell_limit }
    {
        match self {
            Version::One | Version::Two => FEW_CELLS,
            Version::Three => MOST_CELLS,
        }
    }
}
