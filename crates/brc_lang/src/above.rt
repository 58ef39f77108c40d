use crate::module::Function;
use crate::sequence::Sequence;
use crate::version::Version;

/// What stands above a line of a text, as far as its reader has to know.
#[derive(Drop)]
pub(crate) struct Above {
    pub version: Version,
    /// The numbers of each static line.
    pub statics: Sequence<Sequence<u32>>,
    /// The functions whose `end` stands above.
    pub functions: Sequence<Function>,
    /// How many calls each of them may have open, with its own, 1 to 8, by its number.
    pub depths: [u8; 64],
}
