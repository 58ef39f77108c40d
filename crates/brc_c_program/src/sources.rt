//! The sources of a program: its files, and the headers that they include.

use crate::files::Files;
use crate::missing::{Absence, Missing};
use brc_c_macros::Headers;
use brc_c_text::FILE_LIMIT;
use std::alloc::{AllocError, Global};

/// Headers of Python itself, of which the table says what is to be known.
const PYTHONS: [&[u8]; 3] = [b"Python.h", b"structmember.h", b"pythread.h"];

/// The sources that were read, and where others are looked for.
#[derive(Drop)]
pub(crate) struct Sources<'f, 'a, F: Files> {
    alloc: Global,
    files: &'f mut F,
    folders: &'a [&'a str],
    /// The paths of the sources, by their numbers.
    names: Vec<String>,
    missing: Missing,
}

impl<'f, 'a, F: Files> Sources<'f, 'a, F> {
    pub(crate) fn new(alloc: Global, files: &'f mut F, folders: &'a [&'a str]) -> Self {
        Sources {
            alloc,
            files,
            folders,
            names: Vec::new(alloc),
            missing: Missing::new(alloc),
        }
    }

    /// Returns the paths of the sources, by their numbers.
    pub(crate) fn names(&self) -> &[String] {
        self.names.as_slice()
    }

    /// Says how many functions have been judged.
    pub(crate) fn judged(&mut self, functions: u64) {
        self.files.judged(functions);
    }

    /// Returns the number of the source at a path.
    pub(crate) fn number_of(&mut self, path: &str) -> Result<usize, AllocError> {
        for (number, name) in self.names.iter().enumerate() {
            if name.as_str() == path {
                return Ok(number);
            }
        }
        let number = self.names.len();
        self.names.push(String::from_str(self.alloc, path)?)?;
        Ok(number)
    }

    /// Reads the file at a path, and returns its bytes, or `None` if it can't be read.
    pub(crate) fn bytes_of(&mut self, path: &str) -> Result<Option<Vec<u8>>, AllocError> {
        let mut bytes = Vec::new(self.alloc);
        if self.files.read(path, &mut bytes)? {
            Ok(Some(bytes))
        } else {
            Ok(None)
        }
    }

    /// Finds the place where the first header is named that is taken as empty, if a file or its headers name it. The
    /// bytes are the file's, which has this number.
    pub(crate) fn place_missing(&mut self, bytes: &[u8], number: usize) -> Result<(), AllocError> {
        let Some(from) = self.missing.unplaced() else {
            return Ok(());
        };
        if from == number {
            self.missing.place_in(bytes);
            return Ok(());
        }
        let mut header = Vec::new(self.alloc);
        if let Some(path) = self.names.get(from) {
            self.files.read(path.as_str(), &mut header)?;
        }
        self.missing.place_in(header.as_slice());
        Ok(())
    }

    /// Appends a line about the headers that are taken as empty, if there are any.
    pub(crate) fn add_missing(&self, text: &mut String) -> Result<(), AllocError> {
        self.missing.add_note(self.names.as_slice(), text)
    }

    /// Returns the path of a header beside a source.
    fn beside(&self, name: &[u8], from: usize) -> Result<String, AllocError> {
        let source = match self.names.get(from) {
            Some(source) => source.as_str().as_bytes(),
            None => b"",
        };
        let mut path = Vec::new(self.alloc);
        path.extend_from_slice(folder_of(source))?;
        path.extend_from_slice(name)?;
        String::from_utf8_lossy(self.alloc, path.as_slice())
    }

    /// Returns the path of a header in a folder.
    fn under(&self, folder: &str, name: &[u8]) -> Result<String, AllocError> {
        let mut path = Vec::new(self.alloc);
        path.extend_from_slice(folder.as_bytes())?;
        if !folder.as_bytes().ends_with(b"/") {
            path.push(b'/')?;
        }
        path.extend_from_slice(name)?;
        String::from_utf8_lossy(self.alloc, path.as_slice())
    }

    /// Reads the header that a source includes, beside the source or else in a folder, and returns its number.
    fn find(
        &mut self,
        name: &[u8],
        from: usize,
        bytes: &mut Vec<u8>,
    ) -> Result<Option<usize>, AllocError> {
        let path = self.beside(name, from)?;
        if let Some(number) = self.header(path.as_str(), bytes)? {
            return Ok(Some(number));
        }
        let folders = self.folders;
        for folder in folders {
            let path = self.under(folder, name)?;
            if let Some(number) = self.header(path.as_str(), bytes)? {
                return Ok(Some(number));
            }
        }
        Ok(None)
    }

    /// Reads the header at a path, and returns its number, or `None` if it can't be read.
    fn header(&mut self, path: &str, bytes: &mut Vec<u8>) -> Result<Option<usize>, AllocError> {
        bytes.clear();
        if self.files.read(path, bytes)? {
            Ok(Some(self.number_of(path)?))
        } else {
            bytes.clear();
            Ok(None)
        }
    }
}

impl<F: Files> Headers for Sources<'_, '_, F> {
    fn load(
        &mut self,
        name: &[u8],
        from: usize,
        bytes: &mut Vec<u8>,
    ) -> Result<Option<usize>, AllocError> {
        if PYTHONS.contains(&name) {
            return Ok(None);
        }
        let found = self.find(name, from, bytes)?;
        if found.is_none() {
            self.missing.add(name, from, Absence::NotFound)?;
        } else if bytes.len() > FILE_LIMIT {
            self.missing.add(name, from, Absence::TooLong)?;
        }
        Ok(found)
    }
}

/// Returns the folder of a path, with its slash.
fn folder_of(path: &[u8]) -> &[u8] {
    let mut end = 0;
    for (at, byte) in path.iter().enumerate() {
        if *byte == b'/' {
            end = at.saturating_add(1);
        }
    }
    path.get(..end).unwrap_or(b"")
}
