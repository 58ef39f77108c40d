//! Names of C, as names of the language.

use brc_lang::is_name;
use std::alloc::{AllocError, Global};

/// The greatest number of bytes of a name of the language.
const MOST_BYTES: usize = 16;

/// The function that calls make a reference by.
const TAKEN: &[u8] = b"new";

/// Returns a name of the language for a function of C: in lower case, and as long as it may be.
pub(crate) fn name_of(alloc: Global, name: &[u8]) -> Result<String, AllocError> {
    let plain = plain_bytes(alloc, b"", name)?;
    if is_name(plain.as_slice()) && plain.as_slice() != TAKEN {
        return text_of(alloc, plain.as_slice());
    }
    let prefixed = plain_bytes(alloc, b"f_", name)?;
    text_of(alloc, prefixed.as_slice())
}

/// Returns the bytes that a name of the language may have, after some that come first.
fn plain_bytes(alloc: Global, first: &[u8], name: &[u8]) -> Result<Vec<u8>, AllocError> {
    let mut bytes = Vec::from_slice(alloc, first)?;
    for byte in name {
        let small = byte.to_ascii_lowercase();
        let fits = small.is_ascii_lowercase() || small.is_ascii_digit() || small == b'_';
        if fits && bytes.len() < MOST_BYTES {
            bytes.push(small)?;
        }
    }
    Ok(bytes)
}

fn text_of(alloc: Global, name: &[u8]) -> Result<String, AllocError> {
    let mut text = String::new(alloc);
    for byte in name {
        text.push(char::from(*byte))?;
    }
    Ok(text)
}
