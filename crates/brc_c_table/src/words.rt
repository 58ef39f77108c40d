//! The words of a line, and what each may be.

ghost use Rattle.std.specs.Prelude.{◌≡◌, ◌∷◌, [], MatchOption, position};
ghost use Rattle.std.specs.List.{list_all};
ghost use Rattle.brc_c_table.specs.Words.{words, is_blank, begins_comment, without_comment, begins_name, is_name_byte};
ghost use Rattle.brc_c_table.specs.Words.{is_written_byte, is_name, gives_of, gives_by, takes_of, fails_of, runs_of};

use crate::row::{Fails, Gives, Takes};
use brc_lang::is_word;

/// Returns the first word and what is after it, or `None` if only blanks are left.
pub fn next_word(text: &[u8]) -> Option<(&[u8], &[u8])>
    ensures { MatchOption result (words text.now ≡ []) (λ w. words text.now ≡ w.0.now ∷ words w.1.now) }
{
    let start = start_of_word(text)?;
    let word = &text[start..];
    match end_of_word(word) {
        Some(end) => Some((&word[..end], &word[end + 1..])),
        None => Some((word, b"")),
    }
}

fn start_of_word(text: &[u8]) -> Option<usize>
    ensures { result ≡ position is_written_byte text.now }
{
    text.iter().position(|byte| !is_blank(*byte))
}

fn end_of_word(text: &[u8]) -> Option<usize>
    ensures { result ≡ position is_blank text.now }
{
    text.iter().position(|byte| is_blank(*byte))
}

/// A space, a tab, or the carriage return of a line that ends with two characters.
fn is_blank(byte: u8) -> bool
    ensures { result ≡ is_blank byte }
{
    byte == b' ' || byte == b'\t' || byte == b'\r'
}

/// Returns the line without its comment, which begins with `#`.
pub fn without_comment(line: &[u8]) -> &[u8]
    ensures { result.now ≡ without_comment line.now }
{
    match start_of_comment(line) {
        Some(end) => &line[..end],
        None => line,
    }
}

fn start_of_comment(line: &[u8]) -> Option<usize>
    ensures { result ≡ position begins_comment line.now }
{
    line.iter().position(|byte| *byte == b'#')
}

/// Returns whether the word is a name of C: a letter or `_`, then letters, digits and `_`.
pub fn is_name(word: &[u8]) -> bool
    ensures { result ≡ is_name word.now }
{
    match word {
        [] => false,
        [first, others @ ..] => begins_name(*first) && are_name_bytes(others),
    }
}

fn are_name_bytes(bytes: &[u8]) -> bool
    ensures { result ≡ list_all is_name_byte bytes.now }
{
    bytes.iter().all(|byte| is_name_byte(*byte))
}

fn is_name_byte(byte: u8) -> bool
    ensures { result ≡ is_name_byte byte }
{
    begins_name(byte) || byte.is_ascii_digit()
}

fn begins_name(byte: u8) -> bool
    ensures { result ≡ begins_name byte }
{
    byte.is_ascii_alphabetic() || byte == b'_'
}

/// Returns what a word of RESULT says that has no number after it, or `None` for another word.
pub fn gives_of(word: &[u8]) -> Option<Gives>
    ensures { result ≡ gives_of word.now }
{
    if is_word(word, b"new") {
        Some(Gives::New)
    } else if is_word(word, b"lent") {
        Some(Gives::Lent)
    } else if is_word(word, b"null") {
        Some(Gives::Null)
    } else if is_word(word, b"int") {
        Some(Gives::Number)
    } else if is_word(word, b"other") {
        Some(Gives::Other)
    } else if is_word(word, b"void") {
        Some(Gives::Void)
    } else if is_word(word, b"free") {
        Some(Gives::Free)
    } else {
        None
    }
}

/// Returns what a word of RESULT says that has a number after it, or `None` for another word. `argument` is an index.
pub fn gives_by(word: &[u8], argument: u8) -> Option<Gives>
    ensures { result ≡ gives_by word.now argument }
{
    if is_word(word, b"item") {
        Some(Gives::Item { argument })
    } else if is_word(word, b"part") {
        Some(Gives::Part { argument })
    } else if is_word(word, b"same") {
        Some(Gives::Same { argument })
    } else {
        None
    }
}

/// Returns what a letter of ARGUMENTS says, or `None` for another byte.
pub fn takes_of(letter: u8) -> Option<Takes>
    ensures { result ≡ takes_of letter }
{
    match letter {
        b'b' => Some(Takes::Borrowed),
        b'n' => Some(Takes::BorrowedOrNull),
        b's' => Some(Takes::Stolen),
        b't' => Some(Takes::StolenOnSuccess),
        b'e' => Some(Takes::StolenOnFailure),
        b'k' => Some(Takes::Kept),
        b'S' => Some(Takes::StolenAndKept),
        b'T' => Some(Takes::KeptOnSuccess),
        b'N' => Some(Takes::BorrowedOrFails),
        b'Z' => Some(Takes::StolenOrFails),
        b'o' => Some(Takes::Out),
        b'O' => Some(Takes::OutBorrowed),
        b'x' => Some(Takes::InOut),
        b'X' => Some(Takes::InOutOrNull),
        b'-' => Some(Takes::NoObject),
        b'p' => Some(Takes::ParseFormat),
        b'f' => Some(Takes::BuildFormat),
        b'+' => Some(Takes::RestBorrowed),
        b'*' => Some(Takes::RestNoObjects),
        b'=' => Some(Takes::RestFormatted),
        b'&' => Some(Takes::Array),
        b'u' => Some(Takes::RestOut),
        _ => None,
    }
}

/// Returns what a word of FAILURE says, or `None` for another word.
pub fn fails_of(word: &[u8]) -> Option<Fails>
    ensures { result ≡ fails_of word.now }
{
    if is_word(word, b"null") {
        Some(Fails::Null)
    } else if is_word(word, b"maybe") {
        Some(Fails::Maybe)
    } else if is_word(word, b"neg") {
        Some(Fails::Negative)
    } else if is_word(word, b"less") {
        Some(Fails::Less)
    } else if is_word(word, b"zero") {
        Some(Fails::Zero)
    } else if is_word(word, b"miss") {
        Some(Fails::Missing)
    } else if is_word(word, b"none") {
        Some(Fails::Never)
    } else {
        None
    }
}

/// Returns whether Python code may run by a word of CODE, or `None` for another word.
pub fn runs_of(word: &[u8]) -> Option<bool>
    ensures { result ≡ runs_of word.now }
{
    if is_word(word, b"runs") {
        Some(true)
    } else if is_word(word, b"pure") {
        Some(false)
    } else {
        None
    }
}
