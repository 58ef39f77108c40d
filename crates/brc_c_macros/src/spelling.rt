//! Symbols and lexemes of texts that no source has.

use brc_c_text::{Lexeme, Symbols, TextFault, lexemes_of, scan};
use std::alloc::{AllocError, Global};

/// Returns the lexemes of a text. One that is too long has none.
pub(crate) fn lexemes_in(
    alloc: Global,
    symbols: &mut Symbols,
    text: &[u8],
) -> Result<Vec<Lexeme>, AllocError> {
    match scan(alloc, text) {
        Ok(scanned) => lexemes_of(alloc, symbols, scanned.tokens.as_slice(), text, 0),
        Err(TextFault::TooLong) => Ok(Vec::new(alloc)),
        Err(TextFault::NoMemory) => Err(AllocError),
    }
}

/// Returns whether Python's own headers have the name, so that no other definition of it is read.
pub(crate) fn is_pythons(name: &[u8]) -> bool {
    name.starts_with(b"Py_")
        || name.starts_with(b"_Py_")
        || name.starts_with(b"PyObject_")
        || name.starts_with(b"PyList_")
        || name.starts_with(b"PyTuple_")
        || name.starts_with(b"PyDict_")
        || name.starts_with(b"PyDoc_")
        || name.starts_with(b"PyUnicode_")
        || name.starts_with(b"PyBytes_")
        || name.starts_with(b"PyLong_")
        || name.starts_with(b"PyModule_")
        || name.starts_with(b"PyMODINIT")
        || name == b"NULL".as_slice()
}

/// Returns whether a name is the compiler's or Python's, so that it is no option of a build.
pub(crate) fn is_reserved(name: &[u8]) -> bool {
    name.starts_with(b"Py")
        || name.starts_with(b"PY_")
        || name.starts_with(b"_PY")
        || name.starts_with(b"__")
        || is_compilers(name)
        || OTHERS.contains(&name)
}

/// Returns whether C keeps the name for compilers, as `_WIN32`.
fn is_compilers(name: &[u8]) -> bool {
    match name {
        [b'_', next, ..] => next.is_ascii_uppercase(),
        _ => false,
    }
}

/// Names of other systems, and of other implementations of Python.
const OTHERS: [&[u8]; 6] = [
    b"WIN32",
    b"MS_WIN32",
    b"MS_WIN64",
    b"MS_WINDOWS",
    b"PYPY_VERSION",
    b"GRAALVM_PYTHON",
];
