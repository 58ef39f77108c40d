//! Functions that are put together at random: each ends with a verdict or a reason.

use crate::judged::said_of;
use crate::random::{below, reads_bytes, reads_pieces};
use std::alloc::{AllocError, Global};
use std::test::Fail;

const TOKENS: [&str; 48] = [
    "a",
    "b",
    "n",
    "self->f",
    "PyObject *",
    "int ",
    "NULL",
    "0",
    "1",
    "Py_None",
    "\"O\"",
    "PyObject_Repr(",
    "PyList_GetItem(",
    "PyTuple_SET_ITEM(",
    "PyArg_ParseTuple(",
    "Py_INCREF(",
    "Py_DECREF(",
    "Py_CLEAR(",
    "Py_NewRef(",
    "Py_RETURN_NONE;",
    "Py_BEGIN_ALLOW_THREADS",
    "f(",
    "(",
    ")",
    ");\n",
    "{",
    "}",
    ";\n",
    ", ",
    " = ",
    " == ",
    " < ",
    " ? ",
    " : ",
    "&",
    "*",
    "!",
    "[0]",
    "->",
    "if (",
    "else ",
    "while (",
    "for (",
    "switch (",
    "case 1: ",
    "goto a;",
    "a: ",
    "return ",
];

/// Whole statements, and what begins or ends one with a block.
const STATEMENTS: [&str; 44] = [
    "x = PyObject_Repr(a);",
    "y = PyObject_Str(x);",
    "y = PyList_GetItem(a, n);",
    "y = PyTuple_GET_ITEM(x, 0);",
    "x = y;",
    "x = NULL;",
    "x = g(a, y);",
    "x = Py_NewRef(y);",
    "x = Py_None;",
    "n = PyObject_IsTrue(x);",
    "n = PyDict_GetItemRef(a, x, &y);",
    "n = PyArg_ParseTuple(a, \"O|O\", &x, &y);",
    "n = PyDict_SetItem(a, x, y);",
    "n++;",
    "PyTuple_SET_ITEM(x, 0, y);",
    "PyModule_AddObject(a, \"x\", x);",
    "Py_INCREF(x);",
    "Py_XINCREF(y);",
    "Py_DECREF(x);",
    "Py_XDECREF(y);",
    "Py_CLEAR(x);",
    "Py_XSETREF(y, Py_NewRef(a));",
    "y = self->f;",
    "self->f = x;",
    "Py_CLEAR(self->f);",
    "if (x == NULL) goto done;",
    "if (y == NULL) return NULL;",
    "if (n < 0) Py_XDECREF(x);",
    "if (n) x = NULL; else y = NULL;",
    "return x;",
    "return Py_NewRef(y);",
    "Py_RETURN_NONE;",
    "if (n > 1) {",
    "if (x != NULL) {",
    "while (n) {",
    "for (n = 0; n < 3; n++) {",
    "switch (n) { case 1:",
    "do {} while (n); {",
    "}",
    "}",
    "}",
    "Py_BEGIN_CRITICAL_SECTION(a); Py_XINCREF(y); Py_END_CRITICAL_SECTION();",
    "Py_BEGIN_ALLOW_THREADS n = wait(); Py_END_ALLOW_THREADS",
    "(void)n;",
];

const HEAD: &str = "(CardObject *self, PyObject *a, int n)\n{\nPyObject *x = NULL, *y = NULL;\n";

const END: &str = "done:\nreturn x;\n}\n";

/// How many functions a file has. A command reads the table of the C API once.
const FUNCTIONS: u32 = 20;

/// How many files there are of each sort.
const FILES: u32 = 50;

/// Appends the tokens of a function.
fn add_tokens(source: &mut String, state: &mut u64) -> Result<(), AllocError> {
    for _token in 0..40 {
        source.push_str(TOKENS[below(state, TOKENS.len())])?;
    }
    source.push_str("\n}\n")
}

/// Appends the statements of a function, and closes its blocks.
fn add_statements(source: &mut String, state: &mut u64) -> Result<(), AllocError> {
    let mut open: u32 = 0;
    for _statement in 0..14 {
        let statement = STATEMENTS[below(state, STATEMENTS.len())];
        let is_end = statement == "}";
        if is_end && open == 0 {
            continue;
        }
        if is_end {
            open = open.saturating_sub(1);
        } else if statement.ends_with("{") || statement.ends_with("case 1:") {
            open = open.saturating_add(1);
        }
        source.push_str(statement)?;
        source.push('\n')?;
    }
    for _block in 0..open {
        source.push_str("}\n")?;
    }
    source.push_str(END)
}

/// Returns a file of functions that are made of whole statements, or of tokens.
fn file(alloc: Global, is_of_statements: bool, state: &mut u64) -> Result<String, AllocError> {
    let mut source = String::from_str(
        alloc,
        "typedef struct { PyObject_HEAD PyObject *f; } CardObject;\n",
    )?;
    for number in 0..FUNCTIONS {
        write!(source, "static PyObject *\nf{number}")?;
        source.push_str(HEAD)?;
        if is_of_statements {
            add_statements(&mut source, state)?;
        } else {
            add_tokens(&mut source, state)?;
        }
    }
    Ok(source)
}

/// Judges a file, and returns how many of its functions aren't read. Fails if brc is at fault.
fn not_read(alloc: Global, source: &str) -> Result<u32, Fail> {
    let said = said_of(alloc, source)?;
    let text = said.as_str();
    let mut count: u32 = 0;
    for line in text.lines() {
        if line.contains(": not read: ") {
            count = count.saturating_add(1);
        }
    }
    if text.contains("a fault of brc") || !text.contains(" right") {
        return Err(Fail::new(format_args!("{text} of {source}")));
    }
    Ok(count)
}

/// Judges the functions of all files, and returns how many aren't read.
fn all_not_read(alloc: Global, is_of_statements: bool) -> Result<u32, Fail> {
    let mut state = 3;
    let mut count: u32 = 0;
    for _file in 0..FILES {
        let source = file(alloc, is_of_statements, &mut state)?;
        count = count.saturating_add(not_read(alloc, source.as_str())?);
    }
    Ok(count)
}

/// Sources of pieces and of bytes are read too.
#[test]
fn random_sources_and_functions(rt: HostRuntime) -> Result<(), Fail> {
    let alloc = rt.alloc();
    let mut state = 1;
    for _time in 0..300 {
        reads_pieces(alloc, &mut state)?;
    }
    state = 7;
    for _time in 0..300 {
        reads_bytes(alloc, &mut state)?;
    }
    let of_tokens = all_not_read(alloc, false)?;
    let of_statements = all_not_read(alloc, true)?;
    assert!(rt;
        of_tokens > 500 && of_statements < 100,
        "{of_tokens} and {of_statements}"
    );
    Ok(())
}
