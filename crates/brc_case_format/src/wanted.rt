/// Where a command writes.
#[derive(Clone, Copy, PartialEq, Eq)]
pub enum Stream {
    Out,
    Err,
    /// What it writes to standard output and then what it writes to standard error.
    All,
    /// A file that it saves.
    Saved,
}

/// How a text has to be met.
#[derive(Clone, Copy, PartialEq, Eq)]
pub enum How {
    /// The whole text is this, or another one that may stand in its place.
    Whole,
    Has,
    Lacks,
    Begins,
    Ends,
    /// No line is wider than 80 columns.
    Narrow,
    /// Of standard output: the whole text is this, if there is content, and the output may stop before its end. Of
    /// standard error: it is this if the output has stopped.
    Stops,
}

/// What a command has to write on a stream.
#[derive(Drop)]
pub struct Wanted {
    pub stream: Stream,
    /// The name of the file that is saved; of the other streams it is empty.
    pub name: String,
    pub how: How,
    pub text: Vec<u8>,
}

impl Wanted {
    /// Returns whether the text is met in this way.
    pub fn is_met(&self, found: &[u8]) -> bool {
        let text = self.text.as_slice();
        match self.how {
            How::Whole => found == text,
            How::Has => contains(found, text),
            How::Lacks => !contains(found, text),
            How::Begins => found.starts_with(text),
            How::Ends => found.ends_with(text),
            How::Narrow => is_narrow(found),
            How::Stops => text.is_empty() || found == text,
        }
    }

    /// Returns whether it says nothing as long as it has no text: any text would do.
    pub(crate) fn waits_for_text(&self) -> bool {
        let is_part = match self.how {
            How::Has | How::Lacks | How::Begins | How::Ends => true,
            How::Stops => self.stream == Stream::Err,
            How::Whole | How::Narrow => false,
        };
        is_part && self.text.is_empty()
    }

    /// Returns whether it says what standard error has if the output has stopped.
    pub fn is_of_stopped(&self) -> bool {
        self.how == How::Stops && self.stream == Stream::Err
    }
}

/// Returns whether the text has the part.
fn contains(text: &[u8], part: &[u8]) -> bool {
    for seen in text.windows(part.len().max(1)) {
        if seen == part {
            return true;
        }
    }
    part.is_empty()
}

/// Returns whether no line of the text is wider than 80 columns.
fn is_narrow(text: &[u8]) -> bool {
    text.split(|byte| *byte == b'\n')
        .all(|line| line.len() <= 80)
}
