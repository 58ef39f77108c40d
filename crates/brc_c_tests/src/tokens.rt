use crate::reading::same;
use brc_c_text::{Comment, Token, TokenKind, scan};
use std::alloc::{AllocError, Global};
use std::test::Fail;

/// Appends a token: a letter for its kind, its text, its line and its column.
fn add_token(
    alloc: Global,
    all: &mut String,
    source: &[u8],
    token: &Token,
) -> Result<(), AllocError> {
    let text = String::from_utf8_lossy(alloc, token.text(source))?;
    let kind = letter_of(token);
    let line = token.line;
    let column = token.column;
    write!(all, "{kind}{text}@{line}:{column} ")
}

/// Fails unless these are the tokens of a source, and behind them its comments.
pub fn has_tokens(alloc: Global, source: &[u8], wanted: &str) -> Result<(), Fail> {
    let scanned = scan(alloc, source)?;
    let mut all = String::new(alloc);
    for token in &scanned.tokens {
        add_token(alloc, &mut all, source, token)?;
    }
    for comment in &scanned.comments {
        add_comment(&mut all, comment)?;
    }
    same(wanted, all.as_str(), wanted)
}

fn add_comment(all: &mut String, comment: &Comment) -> Result<(), AllocError> {
    let line = comment.line;
    let last = comment.last_line;
    let length = comment.end.saturating_sub(comment.start);
    write!(all, "/*{length}@{line}-{last} ")
}

fn letter_of(token: &Token) -> char {
    match token.kind {
        TokenKind::Name => 'n',
        TokenKind::Number => '0',
        TokenKind::Text => 't',
        TokenKind::Character => 'c',
        TokenKind::Punctuator(_) => 'p',
        TokenKind::Unknown => '?',
    }
}

/// A source, its tokens, and behind them its comments.
pub const ROWS: [(&[u8], &str); 18] = [
    (b"", ""),
    (b"a b", "na@1:1 nb@1:3 "),
    (b"a\n b", "na@1:1 nb@2:2 "),
    (b"a\\\nb", "na@1:1 nb@2:1 "),
    (b"a\\ b", "na@1:1 ?\\@1:2 nb@1:4 "),
    (
        b"0x1F 1e+5 .5 1.e-3f",
        "00x1F@1:1 01e+5@1:6 0.5@1:11 01.e-3f@1:14 ",
    ),
    (b"\"a\\\"b\" L'x'", "t\"a\\\"b\"@1:1 cL'x'@1:8 "),
    (b"don't", "ndon@1:1 ?'@1:4 nt@1:5 "),
    (b"u8\"x\" ux", "tu8\"x\"@1:1 nux@1:7 "),
    (
        b"a<<=b>>c->d--",
        "na@1:1 p<<=@1:2 nb@1:5 p>>@1:6 nc@1:8 p->@1:9 nd@1:11 p--@1:12 ",
    ),
    (b"...", "p...@1:1 "),
    (b"..", "p.@1:1 p.@1:2 "),
    (b"a/* x\n */b // y", "na@1:1 nb@2:4 /*8@1-2 /*4@2-2 "),
    (b"// a\\\nb\nc", "nc@3:1 /*7@1-2 "),
    (b"/* open", "/*7@1-1 "),
    (
        b"#define A(x) x##x",
        "p#@1:1 ndefine@1:2 nA@1:9 p(@1:10 nx@1:11 p)@1:12 nx@1:14 p##@1:15 nx@1:17 ",
    ),
    (b"\x00\xff@", "?\x00@1:1 ?\u{fffd}@1:2 ?@@1:3 "),
    (b"\r\n\t x", "nx@2:3 "),
];
