use crate::wanted::{How, Stream, Wanted};
use std::alloc::{AllocError, Global};

/// What a loader or a saver answers for a file.
#[derive(Clone, Copy)]
pub enum Answer {
    Text,
    /// Memory is refused when it is loaded.
    NoMemory,
    /// It can't be saved.
    Full,
    /// It can't be read, because it is a folder.
    Folder,
    /// It can't be read, because there is no permission.
    Forbidden,
}

/// A file that a command finds.
#[derive(Drop)]
pub struct CaseFile {
    pub name: String,
    pub answer: Answer,
    pub text: Vec<u8>,
}

/// A row of a case's table.
#[derive(Drop)]
pub struct Row {
    /// Its line, from 1.
    pub line: usize,
    pub text: Vec<u8>,
    pub answer: Vec<u8>,
}

/// The line on standard error if nothing is wrong but that the output has stopped, ..
const CANNOT_WRITE: &[u8] = b"cannot write\n";

/// .. and the status.
const NOT_WRITTEN: u8 = 2;

/// A command line, the files that it finds, its status, and what it has to write.
#[derive(Drop)]
pub struct Case {
    /// The line of its name, or of its row in a table, from 1.
    pub line: usize,
    pub name: String,
    pub words: Vec<Vec<u8>>,
    /// Whether it is carried out before a terminal.
    pub is_terminal: bool,
    pub files: Vec<CaseFile>,
    /// The exit status: each case that is read has one.
    pub status: Option<u8>,
    pub wanted: Vec<Wanted>,
    /// If there are rows, each makes a case, and this one is only their pattern.
    pub rows: Vec<Row>,
}

impl Case {
    /// Returns a case of this name without anything else.
    pub fn named(alloc: Global, line: usize, name: &str) -> Result<Case, AllocError> {
        Ok(Case {
            line,
            name: String::from_str(alloc, name)?,
            words: Vec::new(alloc),
            is_terminal: false,
            files: Vec::new(alloc),
            status: None,
            wanted: Vec::new(alloc),
            rows: Vec::new(alloc),
        })
    }

    /// Returns the case of a row: `<row>` and `<answer>` are its two fields.
    pub fn of_row(&self, alloc: Global, row: &Row) -> Result<Case, AllocError> {
        let mut made = Case::named(alloc, row.line, self.name.as_str())?;
        made.is_terminal = self.is_terminal;
        made.status = self.status;
        fill_words(alloc, self.words.as_slice(), row, &mut made.words)?;
        fill_files(alloc, self.files.as_slice(), row, &mut made.files)?;
        fill_wanted(alloc, self.wanted.as_slice(), row, &mut made.wanted)?;
        Ok(made)
    }

    /// Returns whether something that the command has to write has no text, though without one it says nothing.
    pub(crate) fn waits_for_text(&self) -> bool {
        for wanted in &self.wanted {
            if wanted.waits_for_text() {
                return true;
            }
        }
        false
    }

    /// Returns whether the command may write this text on the stream. If the case says nothing of a stream or of all of
    /// them, the command writes nothing there.
    pub fn is_met(&self, stream: Stream, name: &str, found: &[u8]) -> bool {
        let mut said = false;
        let mut is_whole = false;
        let mut may_be = false;
        let mut says_all = stream == Stream::All;
        for wanted in &self.wanted {
            says_all |= wanted.stream == Stream::All;
            if wanted.stream != stream || wanted.name.as_str() != name || wanted.is_of_stopped() {
                continue;
            }
            said = true;
            if wanted.how == How::Whole {
                is_whole = true;
                may_be |= wanted.is_met(found);
            } else if !wanted.is_met(found) {
                return false;
            }
        }
        if said {
            !is_whole || may_be
        } else {
            says_all || found.is_empty()
        }
    }

    /// Returns whether the command is also carried out over outputs that stop taking bytes.
    pub fn stops(&self) -> bool {
        for wanted in &self.wanted {
            if wanted.how == How::Stops {
                return true;
            }
        }
        false
    }

    /// Returns whether the command may write this on standard error and end with this status if its output has stopped
    /// before the end.
    pub fn is_stopped(&self, err: &[u8], status: u8) -> bool {
        let own = self.status.unwrap_or(0);
        for wanted in &self.wanted {
            if wanted.is_of_stopped() {
                return err == wanted.text.as_slice() && status == own.max(NOT_WRITTEN);
            }
        }
        if own == 0 {
            return err == CANNOT_WRITE && status == NOT_WRITTEN;
        }
        self.is_met(Stream::Err, "", err) && status == own
    }
}

fn fill_words(
    alloc: Global,
    words: &[Vec<u8>],
    row: &Row,
    made: &mut Vec<Vec<u8>>,
) -> Result<(), AllocError> {
    for word in words {
        made.push(filled(alloc, word.as_slice(), row)?)?;
    }
    Ok(())
}

fn fill_files(
    alloc: Global,
    files: &[CaseFile],
    row: &Row,
    made: &mut Vec<CaseFile>,
) -> Result<(), AllocError> {
    for file in files {
        made.push(CaseFile {
            name: file.name.clone()?,
            answer: file.answer,
            text: filled(alloc, file.text.as_slice(), row)?,
        })?;
    }
    Ok(())
}

fn fill_wanted(
    alloc: Global,
    all: &[Wanted],
    row: &Row,
    made: &mut Vec<Wanted>,
) -> Result<(), AllocError> {
    for wanted in all {
        made.push(Wanted {
            stream: wanted.stream,
            name: wanted.name.clone()?,
            how: wanted.how,
            text: filled(alloc, wanted.text.as_slice(), row)?,
        })?;
    }
    Ok(())
}

const ROW: &[u8] = b"<row>";

const ANSWER: &[u8] = b"<answer>";

/// Returns the text with the row's fields in place of their names.
fn filled(alloc: Global, text: &[u8], row: &Row) -> Result<Vec<u8>, AllocError> {
    let mut made = Vec::new(alloc);
    // How many bytes of a field's name are passed over.
    let mut passed = 0;
    for at in 0..text.len() {
        let rest = &text[at..];
        if passed > 0 {
            passed -= 1;
        } else if rest.starts_with(ROW) {
            made.extend_from_slice(row.text.as_slice())?;
            passed = ROW.len() - 1;
        } else if rest.starts_with(ANSWER) {
            made.extend_from_slice(row.answer.as_slice())?;
            passed = ANSWER.len() - 1;
        } else {
            made.push(text[at])?;
        }
    }
    Ok(made)
}
