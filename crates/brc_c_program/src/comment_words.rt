//! What comments say to brc: `/* brc: allow C8 REASON */`.

use brc_lang::CheckCode;

/// The codes that a comment may name.
const CODES: [CheckCode; 12] = [
    CheckCode::EmptyUsed,
    CheckCode::WrongKind,
    CheckCode::NotOwned,
    CheckCode::StillOwns,
    CheckCode::LeftOwned,
    CheckCode::LeftLocked,
    CheckCode::SecondLock,
    CheckCode::NotLocked,
    CheckCode::LockedChanged,
    CheckCode::StatesDiffer,
    CheckCode::RunsOff,
    CheckCode::NoMemory,
];

/// What a comment says that begins with `brc:`.
#[derive(Clone, Copy)]
pub(crate) enum Said<'a> {
    /// Findings of the code are taken away, for the reason.
    Allows { code: CheckCode, reason: &'a str },
    /// The same without a reason.
    NoReason,
    /// It has another form.
    Other,
}

/// Returns what a comment says, which has its opening and its end. Returns `None` if it doesn't begin with `brc:`.
pub(crate) fn said_by(comment: &str) -> Option<Said<'_>> {
    let words = inside(comment).trim().strip_prefix("brc:")?;
    let (verb, rest) = first_word(words);
    let (name, reason) = first_word(rest);
    if verb != "allow" {
        return Some(Said::Other);
    }
    let Some(code) = code_named(name) else {
        return Some(Said::Other);
    };
    if reason.is_empty() {
        Some(Said::NoReason)
    } else {
        Some(Said::Allows { code, reason })
    }
}

/// Returns a comment without its opening and its end.
fn inside(comment: &str) -> &str {
    match comment.strip_prefix("/*") {
        Some(text) => text.strip_suffix("*/").unwrap_or(text),
        None => comment.strip_prefix("//").unwrap_or(comment),
    }
}

/// Returns the first word of a text, and what is behind it without the blanks around.
fn first_word(text: &str) -> (&str, &str) {
    let text = text.trim();
    for end in [" ", "\t", "\n", "\r"] {
        if let Some((word, rest)) = text.split_once(end) {
            if !has_blank(word) {
                return (word, rest.trim());
            }
        }
    }
    (text, "")
}

fn has_blank(word: &str) -> bool {
    word.as_bytes().iter().any(u8::is_ascii_whitespace)
}

fn code_named(name: &str) -> Option<CheckCode> {
    for code in CODES {
        if code.name() == name {
            return Some(code);
        }
    }
    None
}
