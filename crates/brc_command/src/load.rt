ghost use Rattle.std.specs.Prelude.{◌≡◌, ◌<◌, ℕ, List, length, true, false, Ok, OnOk, IsErrOf};
ghost use Rattle.brc_command.specs.declared.load.LoadError.TheVariants.{Unreadable};
ghost use Rattle.brc_command.specs.Loading.{IsGivenPrefix, IsReadSoFar};

use thiserror::Error;

/// The path that means standard input.
pub const STANDARD_INPUT: &str = "-";

/// Why a file can't be loaded.
#[derive(Clone, Copy, Debug, Error)]
pub enum LoadError {
    /// The file can't be read.
    #[error("unreadable file")]
    Unreadable,
    /// Memory was refused.
    #[error("no memory")]
    NoMemory,
}

/// Why a file can't be read, if it is one of the reasons that people meet.
#[derive(Clone, Copy)]
pub enum Unread {
    Missing,
    Folder,
    Forbidden,
}

impl Unread {
    /// Returns the reason in words.
    pub fn words(self) -> &'static str {
        match self {
            Unread::Missing => "there is no such file",
            Unread::Folder => "it is a folder",
            Unread::Forbidden => "there is no permission to read it",
        }
    }
}

/// A source of the bytes of files.
pub trait Load {
    // The bytes that a path's file may have, now or later.
    ghost may_give: { Self → List ℕ → List ℕ → Type 0 };

    // Whether it may return `Unreadable` for a path, now or later.
    ghost may_lack: { Self → List ℕ → Type 0 };

    /// Appends the next piece of the path's file to those that were read of it, and returns whether the file has ended.
    /// If there are none, it begins the file.
    ///
    /// After each piece the text is read again from the top, so a piece had better be as long as all before it.
    ///
    /// # Errors
    ///
    /// `Unreadable` or `NoMemory`.
    fn load_more(&mut self, path: &str, bytes: &mut Vec<u8>) -> Result<bool, LoadError>
        requires { IsReadSoFar (may_give self.old) path.now bytes.old.items }
        ensures begun { OnOk result (IsGivenPrefix (may_give self.new) path.now bytes.new.items) }
        ensures ended { result ≡ Ok true → may_give self.old path.now bytes.new.items }
        ensures longer { result ≡ Ok false → length bytes.old.items < length bytes.new.items }
        ensures lacking { IsErrOf result Unreadable → may_lack self.old path.now }
        ensures gives_no_more { (p bytes : List ℕ) → may_give self.new p bytes → may_give self.old p bytes }
        ensures lacks_no_more { (p : List ℕ) → may_lack self.new p → may_lack self.old p };

    /// Does what `load_more` does for a module or a schedule, whose long lines it may shorten by `shorten_lines`.
    ///
    /// # Errors
    ///
    /// `Unreadable` or `NoMemory`.
    fn load_lines(&mut self, path: &str, bytes: &mut Vec<u8>) -> Result<bool, LoadError>
        requires { IsReadSoFar (may_give self.old) path.now bytes.old.items }
        ensures begun { OnOk result (IsGivenPrefix (may_give self.new) path.now bytes.new.items) }
        ensures ended { result ≡ Ok true → may_give self.old path.now bytes.new.items }
        ensures longer { result ≡ Ok false → length bytes.old.items < length bytes.new.items }
        ensures lacking { IsErrOf result Unreadable → may_lack self.old path.now }
        ensures gives_no_more { (p bytes : List ℕ) → may_give self.new p bytes → may_give self.old p bytes }
        ensures lacks_no_more { (p : List ℕ) → may_lack self.new p → may_lack self.old p }
    {
        self.load_more(path, bytes)
    }

    /// Returns why the file couldn't be read that was asked for last, if that is known.
    fn why(&self) -> Option<Unread> {
        None
    }
}
