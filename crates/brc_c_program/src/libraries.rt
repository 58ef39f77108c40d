//! Macros of widely used C libraries, whose headers aren't read: those that return, that end the process, or that only
//! say how often a condition holds. What a file or a header defines itself takes their place.

use crate::files::Files;
use crate::sources::Sources;
use brc_c_macros::{MacroFault, Macros, preprocess};
use brc_c_text::{Symbols, TextFault, lexemes_of, scan};
use std::alloc::Global;

/// The lines that define them: GLib's, then NumPy's.
const LINES: [&[u8]; 13] = [
    b"#define g_return_if_fail(c) do { if (!(c)) return; } while (0)\n",
    b"#define g_return_val_if_fail(c, v) do { if (!(c)) return (v); } while (0)\n",
    b"#define g_return_if_reached() return\n",
    b"#define g_return_val_if_reached(v) return (v)\n",
    b"#define g_assert_false(c) assert(!(c))\n",
    b"#define g_assert_null(p) assert((p) == NULL)\n",
    b"#define g_assert_nonnull(p) assert((p) != NULL)\n",
    b"#define g_assert_cmpint(a, o, b) assert((a) o (b))\n",
    b"#define g_assert_cmpuint(a, o, b) assert((a) o (b))\n",
    b"#define G_LIKELY(c) (c)\n",
    b"#define G_UNLIKELY(c) (c)\n",
    b"#define NPY_LIKELY(c) (c)\n",
    b"#define NPY_UNLIKELY(c) (c)\n",
];

/// Adds the macros of libraries.
pub(crate) fn with_libraries<F: Files>(
    alloc: Global,
    symbols: &mut Symbols,
    sources: &mut Sources<'_, '_, F>,
    macros: Macros,
    number: usize,
) -> Result<Macros, MacroFault> {
    let mut text = Vec::new(alloc);
    for line in LINES {
        text.extend_from_slice(line)?;
    }
    let scanned = match scan(alloc, text.as_slice()) {
        Ok(scanned) => scanned,
        Err(TextFault::TooLong) => return Err(MacroFault::TooLong),
        Err(TextFault::NoMemory) => return Err(MacroFault::NoMemory),
    };
    let tokens = scanned.tokens.as_slice();
    let lexemes = lexemes_of(alloc, symbols, tokens, text.as_slice(), number)?;
    let done = preprocess(alloc, symbols, sources, macros, lexemes, number)?;
    Ok(done.macros)
}
