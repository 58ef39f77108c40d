//! A text that the checker accepts.

ghost use Rattle.std.specs.Prelude.{◌≡◌};
ghost use Rattle.brc_c_judge.specs.Texts.{IsRightText};

use brc_c_image::Text;
use std::marker::Model;

/// The text of a module that the checker accepts, and that has exactly the paths of its outline. Only a verdict makes
/// one.
#[derive(Drop)]
pub struct Accepted {
    text: Text,
}

impl Model for Accepted {
    ghost use Rattle.brc_c_image.specs.declared.image.Text.{Text};
    ghost use Rattle.brc_c_judge.specs.Texts.{IsRightText};

    ghost Value = { Text };

    ghost view = { λ a. a.text };

    ghost invariant = { λ a. IsRightText a.text.bytes.items a.text.outline };
}

impl Accepted {
    pub(crate) fn new(text: Text) -> Accepted
        requires { IsRightText text.bytes.items text.outline }
        ensures { result ≡ text }
    {
        Accepted { text }
    }

    /// Returns the text.
    pub fn text(&self) -> &[u8]
        ensures value { result.now ≡ self.now.bytes.items }
        ensures right { IsRightText result.now self.now.outline }
    {
        self.text.bytes.as_slice()
    }
}
