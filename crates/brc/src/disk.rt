ghost use Rattle.std.specs.Prelude.{◌≡◌, ◌<◌, length, false, Ok, ⊤};

use crate::saving::replace;
use brc_command::{Load, LoadError, STANDARD_INPUT, Save, SaveError, Unread, shorten_lines};
use std::fs::File;
use std::io::{Eprint, Error, ErrorKind, Input, Read};
use std::os::unix::fs::MetadataExt;
use std::rt::Files;
use std::{fs, io};

/// How many bytes the first piece of a file has. Each further piece has as many as all before it.
const FIRST_PIECE: usize = 65_536;

/// Standard input as a file of the system.
const INPUT_FILE: &str = "/dev/stdin";

/// A file's device and its number there (POSIX `st_dev` and `st_ino`), if the system gives them.
type Node = Option<(u64, u64)>;

/// The files of the system, and its standard input.
#[derive(Drop)]
pub struct Disk<'r, R: Files> {
    rt: &'r R,
    /// The number of this process.
    process: u32,
    /// Whether standard error is a terminal.
    is_heard: bool,
    /// The file that was begun last.
    file: Option<R::File>,
    /// The last two files that were begun.
    nodes: (Node, Node),
    /// Why the last file couldn't be read.
    why: Option<Unread>,
}

impl<'r, R: Files + Input + Eprint> Disk<'r, R> {
    /// Returns the files of the system behind `rt`, which is the process of this number. If `is_heard`, standard error
    /// has the reason why a module or a schedule can't be read.
    pub fn new(rt: &'r R, process: u32, is_heard: bool) -> Disk<'r, R> {
        Disk {
            rt,
            process,
            is_heard,
            file: None,
            nodes: (None, None),
            why: None,
        }
    }

    /// Appends the next piece of the file, and returns whether the file has ended.
    fn load_piece(&mut self, path: &str, bytes: &mut Vec<u8>) -> io::Result<bool>
        ensures longer { result ≡ Ok false → length bytes.old.items < length bytes.new.items }
    {
        let before = bytes.len();
        let most = before.max(FIRST_PIECE);
        match self.read(path, most as u64, bytes) {
            Ok(_) => Ok(bytes.len() < before.saturating_add(most)),
            Err(error) => Err(error),
        }
    }

    /// Appends the next bytes of the file, `most` unless it ends before. std makes interrupted reads again.
    fn read(&mut self, path: &str, most: u64, bytes: &mut Vec<u8>) -> io::Result<usize> {
        if bytes.is_empty() {
            self.nodes = (self.nodes.1, self.node_of(path));
        }
        if path == STANDARD_INPUT {
            return self.rt.reader().take(most).read_to_end(bytes);
        }
        if bytes.is_empty() {
            self.file = Some(File::open(self.rt, path)?);
        }
        match &mut self.file {
            Some(file) => file.by_ref().take(most).read_to_end(bytes),
            None => Ok(0),
        }
    }

    fn node_of(&self, path: &str) -> Node {
        let path = if path == STANDARD_INPUT {
            INPUT_FILE
        } else {
            path
        };
        let found = fs::metadata(self.rt, path).ok()?;
        Some((found.dev(), found.ino()))
    }

    /// Keeps the reason why the file can't be read, and reports it to somebody at a terminal.
    fn note(&mut self, path: &str, error: &Error) -> LoadError {
        self.why = match error.kind() {
            ErrorKind::OutOfMemory => return LoadError::NoMemory,
            ErrorKind::NotFound | ErrorKind::NotADirectory => Some(Unread::Missing),
            ErrorKind::IsADirectory => Some(Unread::Folder),
            ErrorKind::PermissionDenied => Some(Unread::Forbidden),
            _ => None,
        };
        if let (true, Some(why)) = (self.is_heard, self.why) {
            let _ = eprintln!(self.rt; "{path}: {}", why.words());
        }
        LoadError::Unreadable
    }
}

fn error_of(error: &Error) -> LoadError {
    if error.kind() == ErrorKind::OutOfMemory {
        LoadError::NoMemory
    } else {
        LoadError::Unreadable
    }
}

// A contract can't say what files hold, so any bytes and any answer are possible.
impl<R: Files + Input + Eprint> Load for Disk<'_, R> {
    ghost may_give = { λ _ _ _. ⊤ };

    ghost may_lack = { λ _ _. ⊤ };

    fn load_more(&mut self, path: &str, bytes: &mut Vec<u8>) -> Result<bool, LoadError> {
        match self.load_piece(path, bytes) {
            Ok(ended) => Ok(ended),
            Err(error) => Err(error_of(&error)),
        }
    }

    // A line without end is read to the end of the file, and takes no more memory.
    fn load_lines(&mut self, path: &str, bytes: &mut Vec<u8>) -> Result<bool, LoadError> {
        let before = bytes.len();
        for _ in 0..u64::MAX {
            match self.load_piece(path, bytes) {
                Ok(ended) => {
                    shorten_lines(bytes, before);
                    if ended {
                        return Ok(true);
                    }
                    if before < bytes.len() {
                        return Ok(false);
                    }
                }
                Err(error) => return Err(self.note(path, &error)),
            }
        }
        Ok(true)
    }

    fn why(&self) -> Option<Unread> {
        self.why
    }
}

impl<R: Files + Input + Eprint + AllocGlobal> Save for Disk<'_, R> {
    fn save(&mut self, path: &str, bytes: &[u8]) -> Result<(), SaveError> {
        let node = self.node_of(path);
        if node.is_some() && (node == self.nodes.0 || node == self.nodes.1) {
            return Err(SaveError);
        }
        match replace(self.rt, self.process, path, bytes) {
            Ok(()) => Ok(()),
            Err(_) => Err(SaveError),
        }
    }
}
