ghost use Rattle.std.specs.Prelude.{◌≡◌, ⊤, Ok, false};

use brc_case_format::{Answer, Case};
use brc_command::{Load, LoadError, Save, SaveError, Unread, shorten_lines};
use std::alloc::{AllocError, Global};

/// The files of a case, and those that a command has saved.
#[derive(Drop)]
pub struct Shelf<'c> {
    alloc: Global,
    case: &'c Case,
    saved: Vec<(String, Vec<u8>)>,
    /// Why the last file couldn't be read.
    why: Option<Unread>,
}

impl<'c> Shelf<'c> {
    pub fn new(alloc: Global, case: &'c Case) -> Shelf<'c> {
        Shelf {
            alloc,
            case,
            saved: Vec::new(alloc),
            why: None,
        }
    }

    /// Returns what the file of this name answers, and its text.
    fn find(&self, path: &str) -> Option<(Answer, &'c [u8])> {
        for file in &self.case.files {
            if file.name.as_str() == path {
                return Some((file.answer, file.text.as_slice()));
            }
        }
        None
    }

    /// Returns what was saved last under this name, and nothing if nothing was.
    pub fn saved(&self, name: &str) -> &[u8] {
        let mut found: &[u8] = &[];
        for (its, bytes) in &self.saved {
            if its.as_str() == name {
                found = bytes.as_slice();
            }
        }
        found
    }

    fn refuse(&mut self, why: Unread) -> Result<bool, LoadError>
        ensures { result ≡ Ok false → ⊥ }
    {
        self.why = Some(why);
        Err(LoadError::Unreadable)
    }

    fn keep(&mut self, path: &str, bytes: &[u8]) -> Result<(), AllocError> {
        let name = String::from_str(self.alloc, path)?;
        let bytes = Vec::from_slice(self.alloc, bytes)?;
        Ok(self.saved.push((name, bytes))?)
    }
}

// A case may give any bytes for a file, or none.
impl Load for Shelf<'_> {
    ghost may_give = { λ _ _ _. ⊤ };

    ghost may_lack = { λ _ _. ⊤ };

    fn load_more(&mut self, path: &str, bytes: &mut Vec<u8>) -> Result<bool, LoadError> {
        match self.find(path) {
            Some((Answer::NoMemory, _)) => Err(LoadError::NoMemory),
            Some((Answer::Folder, _)) => self.refuse(Unread::Folder),
            Some((Answer::Forbidden, _)) => self.refuse(Unread::Forbidden),
            Some((Answer::Text | Answer::Full, text)) => match bytes.extend_from_slice(text) {
                Ok(()) => Ok(true),
                Err(_) => Err(LoadError::NoMemory),
            },
            None => self.refuse(Unread::Missing),
        }
    }

    // Shortened as a file of the system is.
    fn load_lines(&mut self, path: &str, bytes: &mut Vec<u8>) -> Result<bool, LoadError> {
        let before = bytes.len();
        let ended = self.load_more(path, bytes)?;
        shorten_lines(bytes, before);
        Ok(ended || bytes.len() <= before)
    }

    fn why(&self) -> Option<Unread> {
        self.why
    }
}

impl Save for Shelf<'_> {
    fn save(&mut self, path: &str, bytes: &[u8]) -> Result<(), SaveError> {
        match self.find(path) {
            Some((Answer::Full, _)) => Err(SaveError),
            _ => self.keep(path, bytes).map_err(|_| SaveError),
        }
    }
}
