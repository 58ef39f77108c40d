//! Sources that are put together at random, and are read to their end.

ghost use Rattle.std.specs.Prelude.{◌<◌};

use crate::reading::read;
use brc_c_text::{Symbols, scan};
use std::alloc::Global;
use std::test::Fail;

/// Returns a number below the end that looks random, and goes on.
pub fn below(state: &mut u64, end: usize) -> usize
    requires { 0 < end }
    ensures { result < end }
{
    *state = state
        .wrapping_mul(6364136223846793005)
        .wrapping_add(1442695040888963407);
    ((*state >> 33) as usize) % end
}

const PIECES: [&str; 40] = [
    "int ",
    "a",
    "b ",
    "f(",
    ")",
    "{",
    "}\n",
    ";",
    ",",
    "*",
    "&",
    "=",
    "==",
    "? ",
    ": ",
    "[",
    "]",
    "->",
    ".",
    "if (",
    "else ",
    "while (",
    "for (",
    "return ",
    "goto a;",
    "switch (",
    "case 1:",
    "struct ",
    "typedef ",
    "static ",
    "\"text\"",
    "'c'",
    "12",
    "#define A ",
    "\n#if ",
    "\n#else\n",
    "\n#endif\n",
    "A(",
    "/* ",
    " */",
];

/// Reads a function of random pieces.
pub fn reads_pieces(alloc: Global, state: &mut u64) -> Result<(), Fail> {
    let mut source = String::from_str(alloc, "int f(int a) {")?;
    for _piece in 0..60 {
        source.push_str(PIECES[below(state, PIECES.len())])?;
    }
    source.push_str("\n}\nint last(void)\n{\n}\n")?;
    check(alloc, source.as_bytes())
}

/// Reads random bytes.
pub fn reads_bytes(alloc: Global, state: &mut u64) -> Result<(), Fail> {
    let mut source = Vec::new(alloc);
    for _byte in 0..80 {
        source.push((below(state, 256) & 255) as u8)?;
    }
    check(alloc, source.as_slice())
}

/// Reads a source, and looks at its tokens.
fn check(alloc: Global, source: &[u8]) -> Result<(), Fail> {
    let mut symbols = Symbols::new(alloc)?;
    read(alloc, &mut symbols, source)?;
    scan(alloc, source)?;
    Ok(())
}
