/// A comment, with what begins and ends it.
#[derive(Clone, Copy)]
pub struct Comment {
    /// Where its first byte is, and the byte after its last one.
    pub start: usize,
    pub end: usize,
    /// The lines of its first and its last byte, from 1.
    pub line: u32,
    pub last_line: u32,
}
