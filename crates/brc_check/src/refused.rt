ghost use Rattle.std.specs.Prelude.{◌≡◌};

use brc_lang::{CheckCode, Name};
use std::str::from_utf8;
use thiserror::Error;

/// Why a module or a table isn't accepted: a function, a point, and the code that is reported there. With the code
/// `NoMemory` the function and the point have no meaning.
#[derive(Clone, Copy, Debug, Error)]
#[error("refused {} @{at} {code}", shown(function))]
pub struct Refused {
    pub function: Name,
    /// The number of the instruction, from 0.
    pub at: usize,
    pub code: CheckCode,
}

/// Returns the name as a text: it has ASCII alone.
fn shown(name: &Name) -> &str {
    from_utf8(name.as_bytes()).unwrap_or("")
}

/// A point of a function and the code that is reported there.
#[derive(Clone, Copy)]
pub struct CodeAt {
    pub at: usize,
    pub code: CheckCode,
}

impl CodeAt {
    /// Returns the refusal for this code in the function.
    pub fn in_function(self, function: Name) -> Refused
        ensures { result ≡ record { function = function; at = self.at; code = self.code } }
    {
        Refused {
            function,
            at: self.at,
            code: self.code,
        }
    }
}
