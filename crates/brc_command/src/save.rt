//! Where a picture is saved.

use thiserror::Error;

/// The file can't be written whole.
#[derive(Clone, Copy, Debug, Error)]
#[error("cannot write")]
pub struct SaveError;

/// Files that can be written.
pub trait Save {
    /// Writes these bytes into the file of this path, in place of what it has. It is made if it isn't there.
    fn save(&mut self, path: &str, bytes: &[u8]) -> Result<(), SaveError>;
}
