//! What can be explained by its code alone.

ghost use Rattle.std.specs.Prelude.{◌≡◌};
ghost use Rattle.brc_pages.specs.Topics.{topic_named, read_topic_named};

use brc_lang::{CheckCode, FaultCode, is_word};

/// A code that can be explained.
#[derive(Clone, Copy)]
pub enum Topic {
    /// Why a module is refused: C1 to C12.
    Check(CheckCode),
    /// Why a text can't be read: L1 to L10.
    Read(FaultCode),
}

/// Returns the code that the word names, `C1` to `C12` or `L1` to `L10`, or `None`.
pub fn topic_named(word: &[u8]) -> Option<Topic>
    ensures { result ≡ topic_named word.now }
{
    if is_word(word, b"C1") {
        Some(Topic::Check(CheckCode::EmptyUsed))
    } else if is_word(word, b"C2") {
        Some(Topic::Check(CheckCode::WrongKind))
    } else if is_word(word, b"C3") {
        Some(Topic::Check(CheckCode::NotOwned))
    } else if is_word(word, b"C4") {
        Some(Topic::Check(CheckCode::StillOwns))
    } else if is_word(word, b"C5") {
        Some(Topic::Check(CheckCode::LeftOwned))
    } else if is_word(word, b"C6") {
        Some(Topic::Check(CheckCode::LeftLocked))
    } else if is_word(word, b"C7") {
        Some(Topic::Check(CheckCode::SecondLock))
    } else if is_word(word, b"C8") {
        Some(Topic::Check(CheckCode::NotLocked))
    } else if is_word(word, b"C9") {
        Some(Topic::Check(CheckCode::LockedChanged))
    } else if is_word(word, b"C10") {
        Some(Topic::Check(CheckCode::StatesDiffer))
    } else if is_word(word, b"C11") {
        Some(Topic::Check(CheckCode::RunsOff))
    } else if is_word(word, b"C12") {
        Some(Topic::Check(CheckCode::NoMemory))
    } else {
        read_topic_named(word)
    }
}

fn read_topic_named(word: &[u8]) -> Option<Topic>
    ensures { result ≡ read_topic_named word.now }
{
    if is_word(word, b"L1") {
        Some(Topic::Read(FaultCode::FirstLine))
    } else if is_word(word, b"L2") {
        Some(Topic::Read(FaultCode::UnknownWord))
    } else if is_word(word, b"L3") {
        Some(Topic::Read(FaultCode::Number))
    } else if is_word(word, b"L4") {
        Some(Topic::Read(FaultCode::Target))
    } else if is_word(word, b"L5") {
        Some(Topic::Read(FaultCode::NameTwice))
    } else if is_word(word, b"L6") {
        Some(Topic::Read(FaultCode::OverLimit))
    } else if is_word(word, b"L7") {
        Some(Topic::Read(FaultCode::CutOff))
    } else if is_word(word, b"L8") {
        Some(Topic::Read(FaultCode::NoMemory))
    } else if is_word(word, b"L9") {
        Some(Topic::Read(FaultCode::Callee))
    } else if is_word(word, b"L10") {
        Some(Topic::Read(FaultCode::StaticList))
    } else {
        None
    }
}
