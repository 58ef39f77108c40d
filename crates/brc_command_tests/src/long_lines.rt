//! Lines that are too long lose bytes, and none loses its fault, however the text is cut into pieces.

use brc_command::shorten_lines;
use brc_lang::{FaultCode, read};
use std::alloc::{AllocError, Global};
use std::test::Fail;

/// What is before and behind a byte that is there many times, in a line below `func f` and in the lines that follow.
const LINES: &[(&[u8], u8, &[u8])] = &[
    (b"num v1 ", b'0', b" else @1\nfail\nend\n"),
    (b"num v1 ", b'9', b" else @1 x\nfail\nend\n"),
    (b"num v1 ", b'1', b" elsewhere @1\nfail\nend\n"),
    (b"drop v", b'1', b"\nfail\nend\n"),
    (b"drop ", b' ', b"v1\nfail\nend\n"),
    (b"fai", b'l', b"\nend\n"),
    (b"fai", b'l', b""),
];

const TIMES: &[usize] = &[980, 995, 1100, 3000];

const PIECES: &[usize] = &[1, 2, 7, 20, 21, 999, 1000, 1001, 4096];

/// No more is kept of a text with one long line.
const MOST_KEPT: usize = 2500;

fn text_of(alloc: Global, line: &(&[u8], u8, &[u8]), times: usize) -> Result<Vec<u8>, AllocError> {
    let (before, byte, behind) = line;
    let mut text = Vec::from_slice(alloc, b"module 1\nfunc f\n")?;
    text.extend_from_slice(before)?;
    for _ in 0..times {
        text.push(*byte)?;
    }
    text.extend_from_slice(behind)?;
    Ok(text)
}

/// Returns what is kept of the text if it is read in pieces of this length.
fn kept_of(alloc: Global, text: &[u8], length: usize) -> Result<Vec<u8>, AllocError> {
    let mut kept = Vec::new(alloc);
    let mut rest = text;
    for _ in 0..text.len() {
        if rest.is_empty() {
            break;
        }
        let before = kept.len();
        let piece = rest.get(..length).unwrap_or(rest);
        rest = rest.get(piece.len()..).unwrap_or(b"");
        kept.extend_from_slice(piece)?;
        shorten_lines(&mut kept, before);
    }
    Ok(kept)
}

fn fault_of(alloc: Global, text: &[u8]) -> Option<(u64, FaultCode)> {
    match read(alloc, text) {
        Ok(_) => None,
        Err(fault) => Some((fault.line, fault.code)),
    }
}

/// Returns whether what is kept of the text is short and has its fault, in pieces of each length.
fn keeps_its_fault(alloc: Global, text: &[u8]) -> Result<bool, AllocError> {
    let fault = fault_of(alloc, text);
    let whole = kept_of(alloc, text, text.len())?;
    let mut is_same = true;
    for length in PIECES {
        is_same &= kept_of(alloc, text, *length)? == whole;
    }
    let is_short = whole.len() <= MOST_KEPT;
    Ok(is_same && is_short && fault.is_some() && fault_of(alloc, whole.as_slice()) == fault)
}

#[test]
fn long_lines_keep_their_faults(rt: HostRuntime) -> Result<(), Fail> {
    for line in LINES {
        for times in TIMES {
            let text = text_of(rt.alloc(), line, *times)?;
            assert!(rt;
                keeps_its_fault(rt.alloc(), text.as_slice())?,
                "{line:?} {times}"
            );
        }
    }
    Ok(())
}
