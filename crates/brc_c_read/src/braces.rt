//! Which braces belong together.

use brc_c_text::{Keyword, Lexeme, LexemeKind, Punctuator};
use std::alloc::{AllocError, Global};

/// Returns for each lexeme the place of the brace that closes it, or `None` if it is no brace or isn't closed.
pub(crate) fn closing(alloc: Global, lexemes: &[Lexeme]) -> Result<Vec<Option<usize>>, AllocError> {
    let (found, is_balanced) = matched(alloc, lexemes, false)?;
    if is_balanced {
        return Ok(found);
    }
    // Half a statement may hide in a macro or after an `#if`: a brace that begins a line then ends a function.
    let (found, _) = matched(alloc, lexemes, true)?;
    Ok(found)
}

/// Returns the closing braces, and whether each brace is closed. If `ends_at_margin`, a brace in the first column
/// closes all that are open.
fn matched(
    alloc: Global,
    lexemes: &[Lexeme],
    ends_at_margin: bool,
) -> Result<(Vec<Option<usize>>, bool), AllocError> {
    let mut found = Vec::new(alloc);
    found.resize(lexemes.len(), None)?;
    let mut open: Vec<usize> = Vec::new(alloc);
    let mut is_linkage = false;
    let mut before = LexemeKind::End;
    for (at, lexeme) in lexemes.iter().enumerate() {
        if lexeme.is(Punctuator::LeftBrace) && !is_linkage {
            open.push(at)?;
        } else if lexeme.is(Punctuator::RightBrace) {
            let last = if ends_at_margin && lexeme.place.column == 1 {
                let first = open.first().copied();
                open.clear();
                first
            } else {
                open.pop()
            };
            close(&mut found, last, at);
        }
        // `extern "C"` encloses whole functions.
        is_linkage = before == LexemeKind::Keyword(Keyword::Extern)
            && lexeme.kind == LexemeKind::Text;
        before = lexeme.kind;
    }
    let is_balanced = open.is_empty();
    Ok((found, is_balanced))
}

fn close(found: &mut Vec<Option<usize>>, open: Option<usize>, at: usize) {
    if let Some(open) = open {
        if open < found.len() {
            found[open] = Some(at);
        }
    }
}
