/// The rules that a command asks for.
#[derive(Clone, Copy, PartialEq, Eq)]
pub enum AskedRules {
    Both,
    GlobalLock,
    FreeThreaded,
}

/// The form in which a command writes what is found.
#[derive(Clone, Copy)]
pub enum AskedFormat {
    /// Lines for people, as a compiler writes them.
    Text,
    /// A JSON object on each line.
    Json,
    /// One document of SARIF.
    Sarif,
}

/// What a command asks for.
#[derive(Clone, Copy)]
pub struct Asked<'a> {
    /// The files of the program.
    pub files: &'a [&'a str],
    /// The name of the functions that are judged, or `None` for all.
    pub function: Option<&'a str>,
    pub rules: AskedRules,
    pub format: AskedFormat,
    /// The version of the program, which a document of SARIF names.
    pub version: &'a str,
    /// Where headers in quotes are looked for that aren't beside the file.
    pub folders: &'a [&'a str],
    /// Macros, as `NAME` or `NAME=VALUE`.
    pub macros: &'a [&'a str],
    /// The files of further tables, whose rows come before those of the program's own one.
    pub tables: &'a [&'a str],
    /// Whether findings are shown in which something is assumed.
    pub shows_possible: bool,
    /// Whether warnings count as errors do.
    pub denies_warnings: bool,
    /// Whether functions that are right by assumptions only count as errors do.
    pub denies_assumed: bool,
    /// Whether functions that aren't read count for nothing.
    pub allows_not_read: bool,
    /// Whether the modules of the functions are shown.
    pub shows_modules: bool,
}

impl Asked<'_> {
    /// Returns whether the rules of a global lock are asked for.
    pub(crate) fn asks_for_global_lock(&self) -> bool {
        self.rules != AskedRules::FreeThreaded
    }

    /// Returns whether the free-threaded rules are asked for.
    pub(crate) fn asks_for_free_threaded(&self) -> bool {
        self.rules != AskedRules::GlobalLock
    }
}
