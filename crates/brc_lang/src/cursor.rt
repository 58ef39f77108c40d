/// A reader's position between two lines of a text.
#[derive(Clone, Copy)]
pub struct Cursor<'a> {
    /// The text below.
    pub rest: &'a [u8],
    /// The number of the next line, from 1.
    pub line: u64,
}
