ghost use Rattle.std.specs.Prelude.{◌≡◌, ◌≤◌, length};
ghost use Rattle.brc_lang.specs.Limits.{name_limit};

use std::marker::Model;

/// The name of a function: a copied text of at most `MOST` bytes.
#[derive(Clone, Copy, Debug)]
pub struct Name {
    bytes: [u8; 16],
    len: u8,
}

impl Model for Name {
    ghost use Rattle.std.specs.Prelude.{List, ℕ, ◌≡◌, ◌≤◌, ◌-◌, ◌++◌, take, length, replicate};
    ghost use Rattle.brc_lang.specs.Limits.{name_limit};

    ghost Value = { List ℕ };

    ghost view = { λ n. take n.len n.bytes };

    ghost invariant = { λ n. (n.len ≤ name_limit) × (length n.bytes ≡ name_limit)
        × (n.bytes ≡ take n.len n.bytes ++ replicate (name_limit - n.len) 0) };

    ghost inverse = { λ text. record { bytes = text ++ replicate (name_limit - length text) 0; len = length text } };

    ghost use Rattle.brc_lang.specs.Padding.{restored};

    ghost inverse_ok = { λ n h. restored n h.0 h.1 h.2 };
}

impl Name {
    /// The greatest number of bytes of a name.
    pub const MOST: usize = 16;

    /// Copies the text, which has at most `MOST` bytes.
    pub fn new(text: &[u8]) -> Name
        requires { length text.now ≤ name_limit }
        ensures { result ≡ text.now }
    {
        let mut bytes = [0u8; 16];
        bytes[..text.len()].copy_from_slice(text);
        Name {
            bytes,
            len: text.len() as u8,
        }
    }

    /// Returns the text.
    pub fn as_bytes(&self) -> &[u8]
        ensures value { result.now ≡ self.now }
        ensures short { length self.now ≤ name_limit }
    {
        &self.bytes[..self.len as usize]
    }
}
