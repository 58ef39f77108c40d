//! Headers in quotes that are taken as empty: those that aren't there, and those that are too long.

use std::alloc::{AllocError, Global};

/// Other headers of Python, and those of C, which some name in quotes.
const SYSTEMS: [&[u8]; 39] = [
    b"bytesobject.h",
    b"ceval.h",
    b"code.h",
    b"compile.h",
    b"datetime.h",
    b"descrobject.h",
    b"frameobject.h",
    b"import.h",
    b"longintrepr.h",
    b"marshal.h",
    b"methodobject.h",
    b"modsupport.h",
    b"object.h",
    b"opcode.h",
    b"osdefs.h",
    b"patchlevel.h",
    b"pycapsule.h",
    b"pyconfig.h",
    b"pyerrors.h",
    b"pymem.h",
    b"pystate.h",
    b"structseq.h",
    b"traceback.h",
    b"unicodeobject.h",
    b"assert.h",
    b"ctype.h",
    b"errno.h",
    b"float.h",
    b"limits.h",
    b"math.h",
    b"signal.h",
    b"stdarg.h",
    b"stddef.h",
    b"stdint.h",
    b"stdio.h",
    b"stdlib.h",
    b"string.h",
    b"time.h",
    b"wchar.h",
];

/// Why a header is taken as empty.
#[derive(Clone, Copy)]
pub(crate) enum Absence {
    NotFound,
    TooLong,
}

/// The first header that is taken as empty.
#[derive(Clone, Copy)]
pub(crate) struct First {
    /// The number of the source that includes it.
    pub(crate) from: usize,
    absence: Absence,
    /// The line and the column where its name is, once they are found.
    place: Option<[usize; 2]>,
}

/// The headers of a command that are taken as empty.
#[derive(Drop)]
pub(crate) struct Missing {
    alloc: Global,
    /// Their names, each once.
    names: Vec<String>,
    first: Option<First>,
}

impl Missing {
    pub(crate) fn new(alloc: Global) -> Missing {
        Missing {
            alloc,
            names: Vec::new(alloc),
            first: None,
        }
    }

    /// Notes a header that a source includes, unless it is one of Python's or C's.
    pub(crate) fn add(
        &mut self,
        name: &[u8],
        from: usize,
        absence: Absence,
    ) -> Result<(), AllocError> {
        let is_known = self
            .names
            .iter()
            .any(|known| known.as_str().as_bytes() == name);
        if is_known || SYSTEMS.contains(&name) {
            return Ok(());
        }
        self.names.push(String::from_utf8_lossy(self.alloc, name)?)?;
        if self.first.is_none() {
            self.first = Some(First {
                from,
                absence,
                place: None,
            });
        }
        Ok(())
    }

    /// Returns the number of the source that includes the first header, if the header's place in it isn't found yet.
    pub(crate) fn unplaced(&self) -> Option<usize> {
        match self.first {
            Some(
                First {
                    from,
                    place: None,
                    ..
                },
            ) => Some(from),
            _ => None,
        }
    }

    /// Finds the place of the first header in the bytes of the source that includes it.
    pub(crate) fn place_in(&mut self, bytes: &[u8]) {
        let (Some(first), Some(name)) = (&mut self.first, self.names.first()) else {
            return;
        };
        first.place = Some(place_of(bytes, name.as_str().as_bytes()).unwrap_or([1, 1]));
    }

    /// Appends a line about the headers, if there are any. `names` are the paths of the sources.
    pub(crate) fn add_note(&self, names: &[String], text: &mut String) -> Result<(), AllocError> {
        let (Some(first), Some(name)) = (self.first, self.names.first()) else {
            return Ok(());
        };
        if let Some(path) = names.get(first.from) {
            text.push_str(path.as_str())?;
        }
        let [line, column] = first.place.unwrap_or([1, 1]);
        let name = name.as_str();
        let why = match first.absence {
            Absence::NotFound => "isn't found (-I)",
            Absence::TooLong => "has more than 1 MiB",
        };
        write!(
            text,
            ":{line}:{column}: note: \"{name}\" {why} and is taken as empty"
        )?;
        match self.names.len().saturating_sub(1) {
            0 => text.push_str("\n"),
            1 => text.push_str(", as is 1 other header\n"),
            others => write!(text, ", as are {others} other headers\n"),
        }
    }
}

/// Returns the line and the column where a directive has this name in quotes.
fn place_of(bytes: &[u8], name: &[u8]) -> Option<[usize; 2]> {
    let mut line: usize = 1;
    let mut start: usize = 0;
    for (at, byte) in bytes.iter().enumerate() {
        if *byte == b'\n' {
            if let Some(column) = column_of(bytes.get(start..at).unwrap_or(b""), name) {
                return Some([line, column]);
            }
            line = line.saturating_add(1);
            start = at.saturating_add(1);
        }
    }
    let column = column_of(bytes.get(start..)?, name)?;
    Some([line, column])
}

/// Returns the column where a line that is a directive has this name in quotes.
fn column_of(line: &[u8], name: &[u8]) -> Option<usize> {
    let first = line.iter().find(|byte| **byte != b' ' && **byte != b'\t')?;
    if *first != b'#' {
        return None;
    }
    for at in 0..line.len() {
        if let [b'"', behind @ ..] = line.get(at..)? {
            if behind.starts_with(name) && behind.get(name.len()) == Some(&b'"') {
                return Some(at.saturating_add(1));
            }
        }
    }
    None
}
