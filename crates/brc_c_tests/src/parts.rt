//! Functions that are too long for one module: wherever they are cut, the verdict is the one on the short function.

use crate::judged::said_of;
use crate::reading::same;
use std::alloc::{AllocError, Global};
use std::test::Fail;

/// Functions. What makes them long is put at each `@`.
pub const FUNCTIONS: [&str; 7] = [
    "static PyObject *f(PyObject *self, PyObject *o)\n{\n@PyObject *x = PyObject_Repr(o);\n\
    if (x == NULL)\nreturn NULL;\nif (PyObject_Size(x) < 0) {\nPy_DECREF(x);\nreturn NULL;\n}\n@return x;\n}\n",
    "static PyObject *f(PyObject *self, PyObject *o)\n{\n@PyObject *x = PyObject_Repr(o);\n\
    if (x == NULL)\nreturn NULL;\nif (PyObject_Size(x) < 0)\nreturn NULL;\n@return x;\n}\n",
    "static PyObject *f(PyObject *self, PyObject *o)\n{\n@PyObject *x = PyObject_Repr(o);\n\
    if (x == NULL)\nreturn NULL;\nx = PyObject_Str(o);\n@return x;\n}\n",
    "static int f(PyObject *o)\n{\n@PyObject *x = PyObject_Repr(o);\nif (x == NULL)\nreturn -1;\n\
    Py_DECREF(x);\nif (PyObject_Size(o) < 0)\nPy_DECREF(x);\n@return 0;\n}\n",
    "static PyObject *f(PyObject *self, PyObject *o)\n{\n@PyObject *list = PySequence_List(o);\n\
    if (list == NULL)\nreturn NULL;\nPyObject *item = PyList_GET_ITEM(list, 0);\n\
    PyObject *r = PyObject_Repr(item);\nPy_DECREF(list);\nif (r == NULL)\nreturn NULL;\n\
    @Py_DECREF(r);\nreturn item;\n}\n",
    "static Py_ssize_t f(PyObject *o, Py_ssize_t n)\n{\n@for (Py_ssize_t i = 0; i < n; i++) {\n\
    PyObject *item = PySequence_GetItem(o, i);\nif (item == NULL)\nreturn -1;\n\
    if (!PyUnicode_Check(item))\ncontinue;\nPy_DECREF(item);\n}\n@return 0;\n}\n",
    "static Py_ssize_t f(PyObject *o, Py_ssize_t n)\n{\n@for (Py_ssize_t i = 0; i < n; i++) {\n\
    PyObject *item = PySequence_GetItem(o, i);\nif (item == NULL)\nreturn -1;\nPy_DECREF(item);\n}\n@return 0;\n}\n",
];

/// Two instructions that change nothing.
const FILLER: &str = "Py_INCREF(o);\nPy_DECREF(o);\n";

/// How often they are at the first `@`: with one more the first module ends an instruction or two earlier, ..
const BEFORE: [usize; 2] = [92, 114];

/// .. and how often at the second one: no function fits into one module.
const BEHIND: usize = 70;

/// How often they are at the first `@` where nothing is at the second one: the function just fits into one module, or
/// just doesn't, and a fault may need the room that is left.
const ALONE: [usize; 2] = [108, 130];

/// Returns the function with the instructions this often at the first `@` and at the second one.
fn filled(alloc: Global, marked: &str, times: [usize; 2]) -> Result<String, AllocError> {
    let mut source = String::new(alloc);
    for (number, piece) in marked.split('@').enumerate() {
        let count = match number {
            1 => times[0],
            2 => times[1],
            _ => 0,
        };
        for _time in 0..count {
            source.push_str(FILLER)?;
        }
        source.push_str(piece)?;
    }
    Ok(source)
}

/// Returns the codes of what is found, and the counts.
fn verdict_on(alloc: Global, source: &str) -> Result<String, AllocError> {
    let said = said_of(alloc, source)?;
    let mut verdict = String::new(alloc);
    for line in said.as_str().lines() {
        if line.starts_with("1 function") {
            verdict.push_str(line)?;
        } else if let Some((_, code)) = line.rsplit_once(" [") {
            verdict.push_str(code)?;
        }
    }
    Ok(verdict)
}

/// Fails unless the verdict on the function is the same wherever it is cut.
pub fn same_wherever_cut(alloc: Global, marked: &str) -> Result<(), Fail> {
    let short = filled(alloc, marked, [0, 0])?;
    let wanted = verdict_on(alloc, short.as_str())?;
    same_with(alloc, marked, BEFORE, BEHIND, wanted.as_str())?;
    same_with(alloc, marked, ALONE, 0, wanted.as_str())
}

/// Fails unless the verdict is the wanted one for each number of statements before the function's own.
fn same_with(
    alloc: Global,
    marked: &str,
    before: [usize; 2],
    behind: usize,
    wanted: &str,
) -> Result<(), Fail> {
    for times in before[0]..before[1] {
        let source = filled(alloc, marked, [times, behind])?;
        let found = verdict_on(alloc, source.as_str())?;
        same(source.as_str(), found.as_str(), wanted)?;
    }
    Ok(())
}
