//! Whole files from a loader.

ghost use Rattle.std.specs.Prelude.{ℕ, List};

use brc_c_program::Files;
use brc_c_text::FILE_LIMIT;
use brc_command::{Load, LoadError, Terminal};
use brc_report::Paint;
use std::alloc::{AllocError, Global};

/// The files of a loader, for a command before a terminal.
#[derive(Drop)]
pub(crate) struct Loaded<'l, L: Load, T: Terminal> {
    pub(crate) alloc: Global,
    pub(crate) load: &'l mut L,
    pub(crate) terminal: &'l mut T,
}

impl<L: Load, T: Terminal> Files for Loaded<'_, L, T> {
    fn read(&mut self, path: &str, bytes: &mut Vec<u8>) -> Result<bool, AllocError> {
        match load_whole(self.alloc, path, self.load) {
            Ok(loaded) => {
                bytes.extend_from_slice(loaded.as_slice())?;
                Ok(true)
            }
            Err(LoadError::Unreadable) => Ok(false),
            Err(LoadError::NoMemory) => Err(AllocError),
        }
    }

    fn paint(&self) -> Paint {
        self.terminal.paint()
    }

    fn judged(&mut self, functions: u64) {
        self.terminal.judged(functions);
    }
}

/// Loads a file to its end, or so far that it is too long for a source.
fn load_whole<L: Load>(alloc: Global, path: &str, load: &mut L) -> Result<Vec<u8>, LoadError> {
    let mut bytes = Vec::new(alloc);
    while !load.load_more(path, &mut bytes)? {
        if bytes.len() > FILE_LIMIT {
            break;
        }
    }
    Ok(bytes)
}
