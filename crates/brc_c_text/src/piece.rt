//! Pieces: what a source is cut into, from left to right. Each has at least one byte.

ghost use Rattle.std.specs.Prelude.{◌≡◌, ◌<◌, ◌≤◌, length};

use crate::punctuator::punctuator_at;
use crate::quoted::{past_block_comment, past_line_comment, past_quoted};
use crate::token::TokenKind;

#[derive(Clone, Copy)]
pub(crate) enum PieceKind {
    /// Blanks, or a backslash and the end of its line.
    Blank,
    /// A line feed.
    LineEnd,
    Comment,
    Token(TokenKind),
}

/// What a piece is, and the place after it.
#[derive(Clone, Copy)]
pub(crate) struct Piece {
    pub(crate) kind: PieceKind,
    pub(crate) end: usize,
}

/// Returns the piece at this place.
pub(crate) fn piece_at(source: &[u8], at: usize) -> Piece
    requires { at < length source.now }
    ensures some { at < result.end }
    ensures most { result.end ≤ length source.now }
{
    let kind = PieceKind::Token(TokenKind::Number);
    match (source[at], byte_at(source, at + 1)) {
        (b'\n', _) => Piece {
            kind: PieceKind::LineEnd,
            end: at + 1,
        },
        (b' ' | b'\t' | b'\r' | 11 | 12, _) => Piece {
            kind: PieceKind::Blank,
            end: past_blanks(source, at + 1),
        },
        (b'\\', _) => continuation(source, at),
        (b'/', Some(b'/' | b'*')) => comment(source, at),
        (b'"' | b'\'', _) => quoted(source, at, at),
        (b'0'..=b'9', _) => Piece {
            kind,
            end: past_number(source, at + 1),
        },
        (b'.', Some(b'0'..=b'9')) => Piece {
            kind,
            end: past_number(source, at + 1),
        },
        (byte, _) if is_in_name(byte) => named(source, at),
        _ => other(source, at),
    }
}

fn byte_at(source: &[u8], at: usize) -> Option<u8> {
    source.get(at).copied()
}

fn is_blank(byte: u8) -> bool {
    byte == b' ' || byte == b'\t' || byte == b'\r' || byte == 11 || byte == 12
}

fn is_in_name(byte: u8) -> bool {
    byte.is_ascii_alphanumeric() || byte == b'_' || byte == b'$'
}

fn past_blanks(source: &[u8], start: usize) -> usize
    requires { start ≤ length source.now }
    ensures least { start ≤ result }
    ensures most { result ≤ length source.now }
{
    for at in start..source.len() {
        if !is_blank(source[at]) {
            return at;
        }
    }
    source.len()
}

fn past_name(source: &[u8], start: usize) -> usize
    requires { start ≤ length source.now }
    ensures least { start ≤ result }
    ensures most { result ≤ length source.now }
{
    for at in start..source.len() {
        if !is_in_name(source[at]) {
            return at;
        }
    }
    source.len()
}

/// Returns the place after a number, which has letters, digits, points, and signs after the letter of an exponent.
fn past_number(source: &[u8], start: usize) -> usize
    requires { start ≤ length source.now }
    ensures least { start ≤ result }
    ensures most { result ≤ length source.now }
{
    let mut is_exponent = false;
    for at in start..source.len() {
        let byte = source[at];
        let is_sign = byte == b'+' || byte == b'-';
        if !is_in_name(byte) && byte != b'.' && !(is_sign && is_exponent) {
            return at;
        }
        is_exponent = byte == b'e' || byte == b'E' || byte == b'p' || byte == b'P';
    }
    source.len()
}

/// Returns the piece at a backslash, which continues the line if only blanks are between it and the line's end.
fn continuation(source: &[u8], at: usize) -> Piece
    requires { at < length source.now }
    ensures some { at < result.end }
    ensures most { result.end ≤ length source.now }
{
    let end = past_blanks(source, at + 1);
    if end < source.len() && source[end] == b'\n' {
        Piece {
            kind: PieceKind::Blank,
            end: end + 1,
        }
    } else {
        unknown(at + 1)
    }
}

fn unknown(end: usize) -> Piece
    ensures { result.end ≡ end }
{
    Piece {
        kind: PieceKind::Token(TokenKind::Unknown),
        end,
    }
}

/// Returns the comment at this place, of which two bytes are known.
fn comment(source: &[u8], at: usize) -> Piece
    requires { at < length source.now }
    ensures some { at < result.end }
    ensures most { result.end ≤ length source.now }
{
    let inside = (at + 2).min(source.len());
    let end = if byte_at(source, at + 1) == Some(b'*') {
        past_block_comment(source, inside)
    } else {
        past_line_comment(source, inside)
    };
    Piece {
        kind: PieceKind::Comment,
        end,
    }
}

/// Returns the string or the character that begins at `at` and has its first quote at `quote`.
fn quoted(source: &[u8], at: usize, quote: usize) -> Piece
    requires before { at ≤ quote }
    requires within { quote < length source.now }
    ensures some { at < result.end }
    ensures most { result.end ≤ length source.now }
{
    let mark = source[quote];
    let Some(end) = past_quoted(source, quote + 1, mark) else {
        return unknown(at + 1);
    };
    let kind = if mark == b'"' {
        TokenKind::Text
    } else {
        TokenKind::Character
    };
    Piece {
        kind: PieceKind::Token(kind),
        end,
    }
}

/// Returns the name at this place, or the string or the character that the name is the prefix of.
fn named(source: &[u8], at: usize) -> Piece
    requires { at < length source.now }
    ensures some { at < result.end }
    ensures most { result.end ≤ length source.now }
{
    let end = past_name(source, at + 1);
    if is_prefix(&source[at..end])
        && end < source.len()
        && (source[end] == b'"' || source[end] == b'\'')
    {
        return quoted(source, at, end);
    }
    Piece {
        kind: PieceKind::Token(TokenKind::Name),
        end,
    }
}

/// Returns whether the name may come before a string's first quote.
fn is_prefix(name: &[u8]) -> bool {
    matches!(name, b"L" | b"u" | b"U" | b"u8")
}

fn other(source: &[u8], at: usize) -> Piece
    requires { at < length source.now }
    ensures some { at < result.end }
    ensures most { result.end ≤ length source.now }
{
    match punctuator_at(&source[at..]) {
        Some((found, length)) => Piece {
            kind: PieceKind::Token(TokenKind::Punctuator(found)),
            end: at + length,
        },
        None => unknown(at + 1),
    }
}
