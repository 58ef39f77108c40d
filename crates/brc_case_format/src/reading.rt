use crate::case::{Answer, Case, CaseFile, Row};
use crate::content::{Texts, is_content, read_content, unquoted};
use crate::fault::{CaseFault, Why};
use crate::wanted::{How, Stream, Wanted};
use std::alloc::Global;

/// Reads the cases of a file, and adds its texts to those that are known. Returns its first line at fault.
pub fn read_cases(alloc: Global, texts: &mut Texts, source: &str) -> Result<Vec<Case>, CaseFault> {
    let mut reader = Reader {
        alloc,
        cases: Vec::new(alloc),
        place: Place::Between,
    };
    let mut last = 0;
    for (index, line) in source.lines().enumerate() {
        last = index.saturating_add(1);
        if let Err(why) = reader.read_line(texts, last, line) {
            return Err(CaseFault { line: last, why });
        }
    }
    match reader.end_paragraph() {
        Ok(()) => Ok(reader.cases),
        Err(why) => Err(CaseFault { line: last, why }),
    }
}

/// Where the lines of a file have led.
#[derive(Clone, Copy, PartialEq, Eq)]
enum Place {
    /// Between two paragraphs.
    Between,
    Text,
    /// In a case: after its name, ..
    Name,
    /// .. its words, ..
    Words,
    /// .. a file, ..
    File,
    /// .. its status, ..
    Status,
    /// .. something that it has to write, ..
    Wanted,
    /// .. and in its table.
    Rows,
}

#[derive(Drop)]
struct Reader {
    alloc: Global,
    cases: Vec<Case>,
    place: Place,
}

impl Reader {
    fn read_line(&mut self, texts: &mut Texts, number: usize, line: &str) -> Result<(), Why> {
        if line.is_empty() {
            return self.end_paragraph();
        }
        if line.starts_with('#') {
            return Ok(());
        }
        if is_content(line) {
            return self.add_content(texts, line);
        }
        self.ends_content()?;
        let (word, rest) = line.split_once(' ').unwrap_or((line, ""));
        match word {
            "text" => self.begin_text(texts, rest),
            "case" => self.begin_case(number, rest),
            "$" => self.add_words(rest),
            "terminal" => self.set_terminal(rest),
            "file" => self.add_file(rest),
            "status" => self.set_status(rest),
            "out" => self.add_wanted(Stream::Out, "", rest),
            "err" => self.add_wanted(Stream::Err, "", rest),
            "all" => self.add_wanted(Stream::All, "", rest),
            "saved" => {
                let (name, how) = rest.split_once(' ').ok_or(Why::WrongWords)?;
                self.add_wanted(Stream::Saved, name, how)
            }
            "or" => self.add_alternative(rest),
            "rows" => self.begin_rows(rest),
            "-" => self.add_row(number, rest),
            _ => Err(Why::UnknownLine),
        }
    }

    /// Fails if what the case last has to write waits for its content.
    fn ends_content(&self) -> Result<(), Why> {
        match self.cases.last() {
            Some(case) if self.place == Place::Wanted && case.waits_for_text() => {
                Err(Why::NoContent)
            }
            _ => Ok(()),
        }
    }

    fn end_paragraph(&mut self) -> Result<(), Why> {
        self.ends_content()?;
        let place = self.place;
        self.place = Place::Between;
        match place {
            Place::Name | Place::Words | Place::File => Err(Why::NoStatus),
            _ => Ok(()),
        }
    }

    fn begin_text(&mut self, texts: &mut Texts, name: &str) -> Result<(), Why> {
        if self.place != Place::Between {
            return Err(Why::NoBlankLine);
        }
        if name.is_empty() {
            return Err(Why::NoName);
        }
        if texts.get(name).is_some() {
            return Err(Why::NameTwice);
        }
        let name = String::from_str(self.alloc, name)?;
        texts.entries.push((name, Vec::new(self.alloc)))?;
        self.place = Place::Text;
        Ok(())
    }

    fn begin_case(&mut self, line: usize, name: &str) -> Result<(), Why> {
        if self.place != Place::Between {
            return Err(Why::NoBlankLine);
        }
        if name.is_empty() {
            return Err(Why::NoName);
        }
        let case = Case::named(self.alloc, line, name)?;
        self.cases.push(case)?;
        self.place = Place::Name;
        Ok(())
    }

    /// Returns the case that is being read, if the lines before have led to one of these places of it.
    fn case(&mut self, places: &[Place]) -> Result<&mut Case, Why> {
        if self.place == Place::Between || self.place == Place::Text {
            return Err(Why::NoCase);
        }
        if !places.contains(&self.place) {
            return Err(Why::OutOfOrder);
        }
        self.cases.last_mut().ok_or(Why::NoCase)
    }

    fn add_words(&mut self, line: &str) -> Result<(), Why> {
        let words = words_of(self.alloc, line)?;
        let case = self.case(&[Place::Name])?;
        case.words = words;
        self.place = Place::Words;
        Ok(())
    }

    fn set_terminal(&mut self, rest: &str) -> Result<(), Why> {
        if !rest.is_empty() {
            return Err(Why::UnknownLine);
        }
        let case = self.case(&[Place::Words])?;
        case.is_terminal = true;
        Ok(())
    }

    fn add_file(&mut self, rest: &str) -> Result<(), Why> {
        let (name, answer) = rest.split_once(' ').unwrap_or((rest, ""));
        let answer = match answer {
            "" => Answer::Text,
            "no memory" => Answer::NoMemory,
            "full" => Answer::Full,
            "folder" => Answer::Folder,
            "no permission" => Answer::Forbidden,
            _ => return Err(Why::WrongWords),
        };
        let file = CaseFile {
            name: word_of(self.alloc, name)?,
            answer,
            text: Vec::new(self.alloc),
        };
        let case = self.case(&[Place::Words, Place::File])?;
        case.files.push(file)?;
        self.place = Place::File;
        Ok(())
    }

    fn set_status(&mut self, number: &str) -> Result<(), Why> {
        let Ok(status) = number.parse::<u8>() else {
            return Err(Why::Number);
        };
        let case = self.case(&[Place::Words, Place::File])?;
        case.status = Some(status);
        self.place = Place::Status;
        Ok(())
    }

    fn add_wanted(&mut self, stream: Stream, name: &str, how: &str) -> Result<(), Why> {
        let how = match how {
            "" if stream != Stream::Saved => How::Whole,
            "has" => How::Has,
            "lacks" => How::Lacks,
            "begins" => How::Begins,
            "ends" => How::Ends,
            "narrow" => How::Narrow,
            "stops" if stream == Stream::Out || stream == Stream::Err => How::Stops,
            _ => return Err(Why::WrongWords),
        };
        let wanted = Wanted {
            stream,
            name: word_of(self.alloc, name)?,
            how,
            text: Vec::new(self.alloc),
        };
        let case = self.case(&[Place::Status, Place::Wanted])?;
        case.wanted.push(wanted)?;
        self.place = Place::Wanted;
        Ok(())
    }

    /// Another whole text may stand in place of the last one.
    fn add_alternative(&mut self, rest: &str) -> Result<(), Why> {
        if !rest.is_empty() {
            return Err(Why::UnknownLine);
        }
        let case = self.case(&[Place::Wanted])?;
        let stream = match case.wanted.last() {
            Some(last) if last.how == How::Whole => last.stream,
            _ => return Err(Why::NoAlternative),
        };
        self.add_wanted(stream, "", "")
    }

    fn begin_rows(&mut self, rest: &str) -> Result<(), Why> {
        if !rest.is_empty() {
            return Err(Why::UnknownLine);
        }
        self.case(&[Place::Status, Place::Wanted])?;
        self.place = Place::Rows;
        Ok(())
    }

    fn add_row(&mut self, line: usize, rest: &str) -> Result<(), Why> {
        let (text, answer) = rest.split_once(" => ").unwrap_or((rest, ""));
        let row = Row {
            line,
            text: field_of(self.alloc, text)?,
            answer: field_of(self.alloc, answer)?,
        };
        let alloc = self.alloc;
        let case = self.case(&[Place::Rows])?;
        // With an empty field, `has` would be met by any text.
        if case.of_row(alloc, &row)?.waits_for_text() {
            return Err(Why::NoContent);
        }
        Ok(case.rows.push(row)?)
    }

    fn add_content(&mut self, texts: &mut Texts, line: &str) -> Result<(), Why> {
        let mut piece = Vec::new(self.alloc);
        read_content(self.alloc, texts, line, &mut piece)?;
        let piece = piece.as_slice();
        match self.place {
            Place::Text => match texts.entries.last_mut() {
                Some((_, text)) => Ok(text.extend_from_slice(piece)?),
                None => Err(Why::NoPlace),
            },
            Place::File => match self.last_file() {
                Some(text) => Ok(text.extend_from_slice(piece)?),
                None => Err(Why::NoPlace),
            },
            Place::Wanted => match self.last_wanted() {
                Some(text) => Ok(text.extend_from_slice(piece)?),
                None => Err(Why::NoPlace),
            },
            _ => Err(Why::NoPlace),
        }
    }

    fn last_file(&mut self) -> Option<&mut Vec<u8>> {
        let file = self.cases.last_mut()?.files.last_mut()?;
        Some(&mut file.text)
    }

    /// Returns the text that content is added to; `narrow` has none.
    fn last_wanted(&mut self) -> Option<&mut Vec<u8>> {
        let wanted = self.cases.last_mut()?.wanted.last_mut()?;
        if wanted.how == How::Narrow {
            return None;
        }
        Some(&mut wanted.text)
    }
}

/// Returns the bytes of a field, which is bare or in quotes.
fn field_of(alloc: Global, field: &str) -> Result<Vec<u8>, Why> {
    if field.starts_with('"') {
        unquoted(alloc, field)
    } else {
        Ok(Vec::from_slice(alloc, field.as_bytes())?)
    }
}

/// Returns the text of a field.
fn word_of(alloc: Global, field: &str) -> Result<String, Why> {
    let bytes = field_of(alloc, field)?;
    match str::from_utf8(bytes.as_slice()) {
        Ok(text) => Ok(String::from_str(alloc, text)?),
        Err(_) => Err(Why::Quoted),
    }
}

/// Appends the bytes of a field.
fn add_field(alloc: Global, field: Option<&str>, words: &mut Vec<Vec<u8>>) -> Result<(), Why> {
    let bytes = field_of(alloc, field.unwrap_or(""))?;
    Ok(words.push(bytes)?)
}

/// Returns the words of a command line. A blank within quotes parts no words.
fn words_of(alloc: Global, line: &str) -> Result<Vec<Vec<u8>>, Why> {
    let mut words = Vec::new(alloc);
    let mut begin = 0;
    let mut is_quoted = false;
    let mut is_escaped = false;
    for (at, byte) in line.as_bytes().iter().enumerate() {
        match byte {
            _ if is_escaped => is_escaped = false,
            b'\\' if is_quoted => is_escaped = true,
            b'"' => is_quoted = !is_quoted,
            b' ' if !is_quoted => {
                add_field(alloc, line.get(begin..at), &mut words)?;
                begin = at.saturating_add(1);
            }
            _ => {}
        }
    }
    add_field(alloc, line.get(begin..), &mut words)?;
    match words.first() {
        Some(first) if first.as_slice() == b"brc".as_slice() => Ok(words),
        _ => Err(Why::NoCommand),
    }
}
