//! A fault that the checker confirms.

ghost use Rattle.std.specs.Prelude.{◌≡◌};
ghost use Rattle.brc_c_judge.specs.Texts.{IsShown, ShowsClaim, claim_of};

use brc_c_image::Text;
use brc_c_paths::Fault;
use std::marker::Model;

/// A fault, and the text of a module in which the checker reports it. Only a verdict makes one.
#[derive(Drop)]
pub struct Confirmed {
    fault: Fault,
    text: Text,
}

impl Model for Confirmed {
    ghost use Rattle.brc_c_judge.specs.Texts.{Shown, ShowsClaim, claim_of};

    ghost Value = { Shown };

    ghost view = { λ c. record { fault = c.fault; text = c.text } };

    ghost invariant = { λ c. ShowsClaim c.text.bytes.items c.text.outline (claim_of c.fault c.text) };
}

impl Confirmed {
    pub(crate) fn new(fault: Fault, text: Text) -> Confirmed
        requires { ShowsClaim text.bytes.items text.outline (claim_of fault text) }
        ensures { result ≡ record { fault = fault; text = text } }
    {
        Confirmed { fault, text }
    }

    /// Returns the fault.
    pub fn fault(&self) -> &Fault
        ensures { result.now ≡ self.now.fault }
    {
        &self.fault
    }

    /// Returns the text in which the checker reports it.
    pub fn text(&self) -> &[u8]
        ensures value { result.now ≡ self.now.text.bytes.items }
        ensures shows { IsShown self.now }
    {
        self.text.bytes.as_slice()
    }
}
