use crate::level::Level;
use brc_report::Paint;

/// What a line says of its place: the word behind it. At a terminal it has the colour that gcc gives it.
#[derive(Clone, Copy)]
pub enum LineKind {
    Error,
    Warning,
    Possible,
    Note,
    /// A function isn't read.
    NotRead,
}

impl LineKind {
    /// Returns the kind of a finding's first line.
    pub(crate) fn of(level: Level) -> LineKind {
        match level {
            Level::Error => LineKind::Error,
            Level::Warning(_) => LineKind::Warning,
            Level::Possible => LineKind::Possible,
        }
    }

    pub(crate) fn text(self) -> &'static str {
        match self {
            LineKind::Error => "error",
            LineKind::Warning => "warning",
            LineKind::Possible => "possible",
            LineKind::Note => "note",
            LineKind::NotRead => "not read",
        }
    }

    /// Returns what switches its colour on, which is empty in a plain text.
    pub(crate) fn on(self, paint: Paint) -> &'static str {
        match paint {
            Paint::Plain => "",
            Paint::Ansi => self.mark(),
        }
    }

    /// Returns the mark of ECMA-48: bold, and red, magenta or cyan.
    fn mark(self) -> &'static str {
        match self {
            LineKind::Error => "\x1b[1;31m",
            LineKind::Warning | LineKind::NotRead => "\x1b[1;35m",
            LineKind::Possible | LineKind::Note => "\x1b[1;36m",
        }
    }
}
