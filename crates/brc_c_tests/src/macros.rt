use crate::reading::{preprocessed, same};
use brc_c_macros::Preprocessed;
use brc_c_text::Symbols;
use std::alloc::{AllocError, Global};
use std::test::Fail;

/// Returns the lexemes that are left of a source, with a blank after each, and the names that were lost.
fn left_of(alloc: Global, symbols: &Symbols, done: &Preprocessed) -> Result<Vec<u8>, AllocError> {
    let mut all = Vec::new(alloc);
    for lexeme in &done.lexemes {
        all.extend_from_slice(lexeme.text(symbols))?;
        all.push(b' ')?;
    }
    for lost in &done.lost {
        all.extend_from_slice(b"LOST ")?;
        all.extend_from_slice(symbols.text(lost.name))?;
        all.push(b' ')?;
    }
    Ok(all)
}

/// Fails unless this is left of the source.
pub fn leaves(alloc: Global, source: &str, wanted: &str) -> Result<(), Fail> {
    let left = left_in(alloc, source.as_bytes())?;
    same(source, str::from_utf8(left.as_slice())?, wanted)
}

fn left_in(alloc: Global, source: &[u8]) -> Result<Vec<u8>, Fail> {
    let mut symbols = Symbols::new(alloc)?;
    let done = preprocessed(alloc, &mut symbols, source)?;
    Ok(left_of(alloc, &symbols, &done)?)
}

/// Returns how many lexemes a header leaves that includes itself.
pub fn included(alloc: Global) -> Result<usize, Fail> {
    let mut symbols = Symbols::new(alloc)?;
    let done = preprocessed(alloc, &mut symbols, b"#include \"self.h\"\nx")?;
    Ok(done.lexemes.len())
}

/// A source, and what is left of it.
pub const ROWS: [(&str, &str); 29] = [
    ("a\nb", "a b "),
    ("#define X 1 + 2\nX X", "1 + 2 1 + 2 "),
    ("#define X X Y\nX", "X Y "),
    ("#define F(a, b) b a\nF(1, (2, 3))", "( 2 , 3 ) 1 "),
    ("#define F(a) a\nF(F(1)) F", "1 F "),
    ("#define F(a) a\nF(1", "F ( 1 "),
    ("#define F(a) #a\nF(x + \"y\")", "\"x + \\\"y\\\"\" "),
    ("#define F(a, b) a ## b ## _c\nF(x, y)", "xy_c "),
    ("#define F(a, b) [a ## b]\nF(, y) F(x,)", "[ y ] [ x ] "),
    ("#define F(a, ...) a\nF(1, 2)", "1 "),
    (
        "#define F(...) [__VA_ARGS__]\nF() F(1, (2, 3), 4)",
        "[ ] [ 1 , ( 2 , 3 ) , 4 ] ",
    ),
    ("#define F(a, b...) a b\nF(1, 2, 3) F(4)", "1 2 , 3 4 "),
    (
        "#define F(a, ...) g(a, ## __VA_ARGS__)\nF(1) F(1, 2)",
        "g ( 1 ) g ( 1 , 2 ) ",
    ),
    ("#define F(...) #__VA_ARGS__\nF(a, b)", "\"a, b\" "),
    ("#define F() 5\nF()", "5 "),
    ("#define A B\n#define B A\nA", "A "),
    ("#define Py_INCREF(x) x\nPy_INCREF(1)", "Py_INCREF ( 1 ) "),
    (
        "PyFPE_START_PROTECT(\"add\", return 0)\nx PyFPE_END_PROTECT(x)",
        "x ",
    ),
    ("#define G (*(int (*)(int))T[0])\nG(1)", "G ( 1 ) "),
    ("#if 1\na\n#else\nb\n#endif", "a "),
    (
        "#if 0x10 == 16 && !defined(X) && (2 + 3) * 4 == 20\na\n#endif",
        "a ",
    ),
    ("#ifdef HAVE_X\na\n#else\nb\n#endif", "b LOST HAVE_X "),
    ("#ifndef HAVE_X\na\n#else\nb\n#endif", "a LOST HAVE_X "),
    (
        "#if PY_VERSION_HEX < 0x03000000\na\n#elif defined Z\nb\n#elif 1\nc\n#else\nd\n#endif",
        "c LOST Z ",
    ),
    ("#if 0\n#if HAVE_Y\na\n#endif\n#endif\nb", "b "),
    (
        "#include \"a.h\"\nSIX\n#include \"b.h\"\n#include <a.h>",
        "header ; 6 ",
    ),
    ("\"a\" \"b\" x", "\"ab\" x "),
    ("f(\"a\" PRIu64 \"b\" X)", "f ( \"ab\" ) "),
    (
        "#define X \\\n 7 // seven\n#undef Y\nX /* 8 */\n#undef X\nX",
        "7 X ",
    ),
];
