//! Lines that are longer than any line of a module or a schedule: a part of each is kept, which has the same fault.
//!
//! The fault of a line is that of its first wrong word, or that of a wrong number of words. A right line has at most 65
//! words (`static` and 64 numbers), so one with 66 spaces has too many, whatever follows. A right word has at most 16
//! bytes (a name). A word of 20 is wrong, and so it is if it goes on: it is no name and no word of the language (L2), or
//! behind a right first byte no number, or one out of range (L3).

/// Of a line that is no longer than this every byte is kept. One that can be read has less than 720.
const LONG: usize = 1000;

/// How many bytes of a word are kept, behind the first `LONG` of its line: any longer word is as wrong.
const MOST_OF_WORD: usize = 20;

/// How many spaces of a line are kept: with more words it is as wrong.
const MOST_SPACES: usize = 66;

/// Leaves out bytes of long lines, of those from the index `from` on, so that each line keeps its fault. What is above
/// has been shortened before. A line without its line feed may go on.
pub fn shorten_lines(bytes: &mut Vec<u8>, from: usize) {
    let mut line = last_line(bytes.as_slice().get(..from).unwrap_or(b""));
    let mut kept = from;
    for at in from..bytes.len() {
        let byte = bytes.as_slice().get(at).copied().unwrap_or(b'\n');
        if line.keeps(byte) {
            if let Some(place) = bytes.as_mut_slice().get_mut(kept) {
                *place = byte;
            }
            kept = kept.saturating_add(1);
        }
    }
    bytes.truncate(kept);
}

/// Returns what is kept of the last line of the bytes.
fn last_line(bytes: &[u8]) -> Line {
    let mut length: usize = 0;
    for byte in bytes.iter().rev() {
        if *byte == b'\n' {
            break;
        }
        length = length.saturating_add(1);
    }
    let begin = bytes.len().saturating_sub(length);
    let mut line = Line::EMPTY;
    for byte in bytes.get(begin..).unwrap_or(b"") {
        line.keeps(*byte);
    }
    line
}

/// What is kept of a line.
#[derive(Clone, Copy)]
struct Line {
    length: usize,
    spaces: usize,
    /// The bytes of its last word.
    word: usize,
}

impl Line {
    const EMPTY: Line = Line {
        length: 0,
        spaces: 0,
        word: 0,
    };

    /// Returns whether the next byte is kept, and counts it then.
    fn keeps(&mut self, byte: u8) -> bool {
        if byte == b'\n' {
            *self = Line::EMPTY;
            return true;
        }
        let is_long = self.length >= LONG;
        let is_space = byte == b' ';
        if is_long && (self.spaces >= MOST_SPACES || !is_space && self.word >= MOST_OF_WORD) {
            return false;
        }
        self.length = self.length.saturating_add(1);
        if is_space {
            self.spaces = self.spaces.saturating_add(1);
            self.word = 0;
        } else {
            self.word = self.word.saturating_add(1);
        }
        true
    }
}
