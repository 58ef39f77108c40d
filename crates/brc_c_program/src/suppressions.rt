//! Findings that comments take away.

use crate::comment_words::{Said, said_by};
use crate::seen::Seen;
use brc_c_macros::Lost;
use brc_c_report::Finding;
use brc_c_text::{Comment, Place, Punctuator, TextFault, Token, TokenKind, scan};
use brc_c_tree::Function;
use brc_lang::CheckCode;
use std::alloc::{AllocError, Global};

/// A comment that begins with `brc:`.
#[derive(Drop)]
pub(crate) struct Suppression {
    /// Where it begins.
    pub(crate) place: Place,
    /// The line on which it ends.
    last_line: u32,
    /// The brace that begins the body of a function, if there is only the function's head between the comment and it.
    brace: Option<Place>,
    order: Order,
    /// Whether it has taken a finding away, or can't, since what is below it isn't read.
    is_done: bool,
}

/// What a comment asks for.
#[derive(Drop)]
enum Order {
    /// Findings of this code are taken away, for a reason.
    Allows(CheckCode, String),
    /// Nothing, since the comment isn't right. The words say what to write.
    Nothing(&'static str),
}

/// A source, of which comments are read.
#[derive(Clone, Copy)]
struct Source<'a> {
    alloc: Global,
    bytes: &'a [u8],
    tokens: &'a [Token],
    number: usize,
}

/// Returns the comments of a source that begin with `brc:`.
pub(crate) fn suppressions_in(
    alloc: Global,
    bytes: &[u8],
    number: usize,
) -> Result<Vec<Suppression>, AllocError> {
    let mut found = Vec::new(alloc);
    if !has_mark(bytes) {
        return Ok(found);
    }
    let scanned = match scan(alloc, bytes) {
        Ok(scanned) => scanned,
        Err(TextFault::TooLong) => return Ok(found),
        Err(TextFault::NoMemory) => return Err(AllocError),
    };
    let source = Source {
        alloc,
        bytes,
        tokens: scanned.tokens.as_slice(),
        number,
    };
    let mut token = 0;
    for comment in scanned.comments.iter() {
        if source.is_marked(comment) {
            token = source.token_behind(comment, token);
            if let Some(suppression) = source.suppression(comment, token)? {
                found.push(suppression)?;
            }
        }
    }
    Ok(found)
}

/// Returns whether the bytes have `brc:` anywhere.
fn has_mark(bytes: &[u8]) -> bool {
    for (at, byte) in bytes.iter().enumerate() {
        if *byte == b'b' && bytes.get(at..).unwrap_or(b"").starts_with(b"brc:") {
            return true;
        }
    }
    false
}

fn order_of(alloc: Global, said: Said<'_>) -> Result<Order, AllocError> {
    match said {
        Said::Allows { code, reason } => {
            Ok(Order::Allows(code, String::from_str(alloc, reason)?))
        }
        Said::NoReason => Ok(Order::Nothing(NO_REASON)),
        Said::Other => Ok(Order::Nothing(NO_FORM)),
    }
}

const NO_REASON: &str =
    "this suppression has no reason, so it takes nothing away: write why behind the code";

const NO_FORM: &str =
    "a suppression has the form `brc: allow CODE REASON`, where CODE is C1 to C12";

const IDLE: &str = "this suppression takes nothing away: delete it";

impl<'a> Source<'a> {
    fn bytes_of(&self, comment: &Comment) -> &'a [u8] {
        let bytes = self.bytes;
        bytes.get(comment.start..comment.end).unwrap_or(&[])
    }

    fn is_marked(&self, comment: &Comment) -> bool {
        has_mark(self.bytes_of(comment))
    }

    /// Returns the number of the first token behind a comment. No token before this number is behind it.
    fn token_behind(&self, comment: &Comment, first: usize) -> usize {
        for at in first..self.tokens.len() {
            if let Some(token) = self.tokens.get(at) {
                if token.start as usize >= comment.end {
                    return at;
                }
            }
        }
        self.tokens.len()
    }

    /// Returns a comment, if it begins with `brc:`. The number is that of the first token behind it.
    fn suppression(
        &self,
        comment: &Comment,
        token: usize,
    ) -> Result<Option<Suppression>, AllocError> {
        let text = String::from_utf8_lossy(self.alloc, self.bytes_of(comment))?;
        let Some(said) = said_by(text.as_str()) else {
            return Ok(None);
        };
        Ok(Some(Suppression {
            place: self.place_of(comment),
            last_line: comment.last_line,
            brace: self.brace_behind(token),
            order: order_of(self.alloc, said)?,
            is_done: false,
        }))
    }

    /// Returns where a comment begins.
    fn place_of(&self, comment: &Comment) -> Place {
        let mut column: u32 = 1;
        for byte in self.bytes.get(..comment.start).unwrap_or(b"").iter().rev() {
            if *byte == b'\n' {
                break;
            }
            column = column.saturating_add(1);
        }
        Place {
            source: self.number,
            line: comment.line,
            column,
        }
    }

    /// Returns the first brace from a token on, if it is an opening one and no declaration or directive is between.
    fn brace_behind(&self, first: usize) -> Option<Place> {
        for token in self.tokens.get(first..).unwrap_or(&[]) {
            if ends_head(token.kind) {
                return self.brace(token);
            }
        }
        None
    }

    /// Returns the place of a token that is an opening brace.
    fn brace(&self, token: &Token) -> Option<Place> {
        if token.kind != TokenKind::Punctuator(Punctuator::LeftBrace) {
            return None;
        }
        Some(Place {
            source: self.number,
            line: token.line,
            column: token.column,
        })
    }
}

/// Returns whether the head of a function ends before such a token.
fn ends_head(kind: TokenKind) -> bool {
    match kind {
        TokenKind::Punctuator(punctuator) => matches!(
            punctuator,
            Punctuator::LeftBrace
                | Punctuator::RightBrace
                | Punctuator::Semicolon
                | Punctuator::Hash
        ),
        _ => false,
    }
}

impl Suppression {
    /// Returns the reason, if the comment takes the finding of a function away.
    fn reason_for(&self, function: &Function, finding: &Finding) -> Option<&str> {
        let Order::Allows(code, reason) = &self.order else {
            return None;
        };
        if *code == finding.code && (self.is_at(finding.place) || self.is_above(function)) {
            Some(reason.as_str())
        } else {
            None
        }
    }

    /// Returns whether the place is on the comment's lines or on the next one.
    fn is_at(&self, place: Place) -> bool {
        place.source == self.place.source
            && place.line >= self.place.line
            && place.line <= self.last_line.saturating_add(1)
    }

    /// Returns whether the comment is above the function's head.
    fn is_above(&self, function: &Function) -> bool {
        match self.brace {
            Some(brace) => {
                is_before(self.place, function.place) && is_before(function.place, brace)
            }
            None => false,
        }
    }

    /// Returns whether the comment is in the function, or above its head.
    fn is_about(&self, function: &Function) -> bool {
        let line = self.place.line;
        let is_inside = function.place.source == self.place.source
            && function.place.line <= line
            && line <= function.end.line;
        is_inside || self.is_above(function)
    }

    /// Returns what is wrong with the comment. `counts` says whether a finding would have been seen.
    pub(crate) fn complaint(&self, counts: bool) -> Option<&'static str> {
        match &self.order {
            Order::Nothing(words) => Some(*words),
            Order::Allows(_, _) if counts && !self.is_done => Some(IDLE),
            Order::Allows(_, _) => None,
        }
    }

    /// Notes that the comment's own lines are left out, if they are.
    pub(crate) fn excuse(&mut self, lost: &[Lost]) {
        let place = self.place;
        let is_lost = lost.iter().any(|lost| {
            lost.source == place.source && lost.first <= place.line && place.line <= lost.last
        });
        if is_lost {
            self.is_done = true;
        }
    }

    /// Takes the finding of a function away, if the comment allows it.
    fn take(
        &mut self,
        alloc: Global,
        function: &Function,
        finding: &mut Finding,
    ) -> Result<(), AllocError> {
        let Some(reason) = self.reason_for(function, finding) else {
            return Ok(());
        };
        if finding.suppressed.is_none() {
            finding.suppressed = Some(String::from_str(alloc, reason)?);
        }
        self.is_done = true;
        Ok(())
    }
}

fn is_before(place: Place, other: Place) -> bool {
    place.source == other.source
        && (place.line < other.line || place.line == other.line && place.column < other.column)
}

/// Takes away what comments allow of a function.
pub(crate) fn suppress(
    alloc: Global,
    suppressions: &mut [Suppression],
    function: &Function,
    seen: &mut Seen,
) -> Result<(), AllocError> {
    for suppression in suppressions {
        if seen.obstacle.is_some() && suppression.is_about(function) {
            suppression.is_done = true;
        }
        for finding in seen.findings.iter_mut() {
            suppression.take(alloc, function, finding)?;
        }
    }
    Ok(())
}
