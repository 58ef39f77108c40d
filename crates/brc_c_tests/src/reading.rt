//! Sources as they are read from a text: their tokens, what the preprocessor leaves, what they declare, the bodies of
//! their functions, and the types of expressions.

use crate::rendering::body_text;
use crate::{bodies, macros, outside, tokens, types};
use brc_c_macros::{Headers, Macros, Preprocessed, preprocess};
use brc_c_read::{TypeNames, read_source};
use brc_c_text::{Symbols, lexemes_of, scan};
use brc_c_tree::SourceTree;
use std::alloc::{AllocError, Global};
use std::test::Fail;

/// The headers of `HEADERS`.
#[derive(Drop)]
pub struct TwoHeaders;

/// Two headers: `a.h`, and `self.h`, which includes itself.
const HEADERS: [(&[u8], &[u8]); 2] = [
    (b"a.h", b"#define SIX 6\nheader;\n"),
    (b"self.h", b"y\n#include \"self.h\"\n"),
];

impl Headers for TwoHeaders {
    fn load(
        &mut self,
        name: &[u8],
        _from: usize,
        bytes: &mut Vec<u8>,
    ) -> Result<Option<usize>, AllocError> {
        for (known, text) in &HEADERS {
            if *known == name {
                bytes.extend_from_slice(text)?;
                return Ok(Some(1));
            }
        }
        Ok(None)
    }
}

/// Fails, and says what was found for which source, unless that is what is wanted.
pub fn same(source: &str, found: &str, wanted: &str) -> Result<(), Fail> {
    if found == wanted {
        return Ok(());
    }
    Err(Fail::new(format_args!("found {found:?}, where {wanted:?} is wanted, in {source:?}")))
}

/// Preprocesses a text.
pub fn preprocessed(
    alloc: Global,
    symbols: &mut Symbols,
    source: &[u8],
) -> Result<Preprocessed, Fail> {
    let scanned = scan(alloc, source)?;
    let lexemes = lexemes_of(alloc, symbols, scanned.tokens.as_slice(), source, 0)?;
    let macros = Macros::new(alloc, symbols, false)?;
    Ok(preprocess(alloc, symbols, &mut TwoHeaders, macros, lexemes, 0)?)
}

/// Reads the functions of a text.
pub fn read(alloc: Global, symbols: &mut Symbols, source: &[u8]) -> Result<SourceTree, Fail> {
    let done = preprocessed(alloc, symbols, source)?;
    let mut types = TypeNames::new(alloc, symbols)?;
    Ok(read_source(alloc, symbols, &mut types, done.lexemes.as_slice())?)
}

/// Returns the bodies of a text's functions, each on a line. What is read stays here, since a test that owns it would
/// have its end proved at each assertion.
pub fn bodies_of(alloc: Global, source: &[u8]) -> Result<String, Fail> {
    let mut symbols = Symbols::new(alloc)?;
    bodies_with(alloc, &mut symbols, source)
}

fn bodies_with(alloc: Global, symbols: &mut Symbols, source: &[u8]) -> Result<String, Fail> {
    let tree = read(alloc, symbols, source)?;
    Ok(body_lines(alloc, symbols, &tree)?)
}

fn body_lines(alloc: Global, symbols: &Symbols, tree: &SourceTree) -> Result<String, AllocError> {
    let mut lines = String::new(alloc);
    for function in &tree.functions {
        let body = body_text(alloc, symbols, function)?;
        lines.push_str(body.as_str())?;
        lines.push('\n')?;
    }
    Ok(lines)
}

#[test]
fn sources_are_read(rt: HostRuntime) -> Result<(), Fail> {
    let alloc = rt.alloc();
    for (source, wanted) in &tokens::ROWS {
        tokens::has_tokens(alloc, source, wanted)?;
    }
    for (source, wanted) in &macros::ROWS {
        macros::leaves(alloc, source, wanted)?;
    }
    for (source, wanted) in &outside::ROWS {
        outside::declares(alloc, source, wanted)?;
    }
    for (source, wanted) in &bodies::ROWS {
        bodies::body(alloc, source, wanted)?;
    }
    for (source, wanted) in &types::ROWS {
        types::has_type(alloc, source, wanted)?;
    }
    assert_eq!(rt; macros::included(alloc)?, 64);
    Ok(())
}
