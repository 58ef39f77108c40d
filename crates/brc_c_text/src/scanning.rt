ghost use Rattle.std.specs.Prelude.{◌≡◌, ◌<◌, ◌≤◌, ◌^◌, ◌↔◌, length, IfOk, IsErrOf, OnOk};
ghost use Rattle.brc_c_text.specs.Spans.{Follow};
ghost use Rattle.brc_c_text.specs.declared.fault.TextFault.TheVariants.{TooLong};

use crate::comment::Comment;
use crate::fault::TextFault;
use crate::piece::{Piece, PieceKind, piece_at};
use crate::token::{Token, TokenKind};
use std::alloc::{AllocError, Global};

/// The greatest length of a source, in bytes.
pub const FILE_LIMIT: usize = 1048576;

/// The tokens and the comments of a source, each in their order.
#[derive(Drop)]
pub struct Scanned {
    pub tokens: Vec<Token>,
    pub comments: Vec<Comment>,
}

/// Cuts a source into tokens. Any bytes are a source.
///
/// # Errors
///
/// `TooLong` if it has more than `FILE_LIMIT` bytes, or `NoMemory`.
#[tactic(auto, using(crate::proofs::Spans::follow_to))]
pub fn scan(alloc: Global, source: &[u8]) -> Result<Scanned, TextFault>
    ensures spans { IfOk result (λ s. Follow 0 s.tokens.items (length source.now)) }
    ensures long { IsErrOf result TooLong ↔ FILE_LIMIT < length source.now }
{
    if source.len() > FILE_LIMIT {
        return Err(TextFault::TooLong);
    }
    let mut scan = Scanned {
        tokens: Vec::new(alloc),
        comments: Vec::new(alloc),
    };
    let mut lines = Lines::first();
    let mut at = 0;
    // Each turn passes at least one byte.
    for _turn in 0..source.len() {
        if at == source.len() {
            break;
        }
        let piece = piece_at(source, at);
        scan.add(piece, at, &mut lines, source)?;
        at = piece.end;
    }
    Ok(scan)
}

impl Scanned {
    /// Adds the piece that begins at this place, and passes its lines.
    #[tactic(auto, using(crate::proofs::Spans::follow_to, crate::proofs::Spans::follow_more))]
    fn add(
        &mut self,
        piece: Piece,
        at: usize,
        lines: &mut Lines,
        source: &[u8],
    ) -> Result<(), AllocError>
        requires some { at ≤ piece.end }
        requires most { piece.end < 2 ^ 32 }
        requires spans { Follow 0 self.old.tokens.items at }
        ensures { OnOk result (Follow 0 self.new.tokens.items piece.end) }
    {
        let before = *lines;
        lines.pass(source.get(at..piece.end).unwrap_or(b""), at, piece.kind);
        match piece.kind {
            PieceKind::Token(kind) => {
                self.tokens.push(before.token(kind, at, piece.end))?;
                Ok(())
            }
            PieceKind::Comment => {
                self.comments.push(Comment {
                    start: at,
                    end: piece.end,
                    line: before.number,
                    last_line: lines.number,
                })?;
                Ok(())
            }
            PieceKind::Blank | PieceKind::LineEnd => Ok(()),
        }
    }
}

/// Where a place is among lines.
#[derive(Clone, Copy)]
struct Lines {
    /// The number of its line, from 1. A source has fewer bytes than numbers have values, so no number is ever full.
    number: u32,
    /// Where the line begins.
    start: usize,
    /// Whether no token comes before it, on its line or on those that it continues.
    is_fresh: bool,
    /// Whether the piece before it is no token.
    is_apart: bool,
}

impl Lines {
    fn first() -> Lines {
        Lines {
            number: 1,
            start: 0,
            is_fresh: true,
            is_apart: true,
        }
    }

    fn token(&self, kind: TokenKind, start: usize, end: usize) -> Token
        requires order { start ≤ end }
        requires small { end < 2 ^ 32 }
        ensures start { result.start ≡ start }
        ensures end { result.end ≡ end }
    {
        Token {
            kind,
            begins_line: self.is_fresh,
            is_apart: self.is_apart,
            line: self.number,
            column: (start.saturating_sub(self.start) as u32).saturating_add(1),
            start: start as u32,
            end: end as u32,
        }
    }

    /// Passes the bytes of a piece that begins at this place.
    fn pass(&mut self, bytes: &[u8], at: usize, kind: PieceKind) {
        let mut next = at;
        for byte in bytes {
            next = next.saturating_add(1);
            if *byte == b'\n' {
                self.number = self.number.saturating_add(1);
                self.start = next;
            }
        }
        match kind {
            PieceKind::Token(_) => {
                self.is_fresh = false;
                self.is_apart = false;
            }
            PieceKind::LineEnd => {
                self.is_fresh = true;
                self.is_apart = true;
            }
            PieceKind::Blank | PieceKind::Comment => self.is_apart = true,
        }
    }
}
