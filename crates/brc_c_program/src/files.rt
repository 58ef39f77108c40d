use brc_report::Paint;
use std::alloc::AllocError;

/// What gives the bytes of files. It may also be who watches the command.
pub trait Files {
    /// Appends the bytes of the file at a path, and returns whether it can be read.
    fn read(&mut self, path: &str, bytes: &mut Vec<u8>) -> Result<bool, AllocError>;

    /// Returns how the lines of a text are marked. JSON and SARIF are never marked.
    fn paint(&self) -> Paint {
        Paint::Plain
    }

    /// Hears, after each function, how many have been judged so far.
    fn judged(&mut self, _functions: u64) {}
}
