//! What is declared outside functions.

use crate::reading::{read, same};
use crate::rendering::{add_type, either, spelled};
use brc_c_text::{Symbol, Symbols};
use brc_c_tree::{Parameter, Record, SourceTree, TypeName};
use std::alloc::{AllocError, Global};
use std::test::Fail;

/// Returns what a source declares outside functions, and the heads of its functions.
fn declared(alloc: Global, symbols: &Symbols, tree: &SourceTree) -> Result<String, AllocError> {
    let mut text = String::new(alloc);
    add_records(symbols, &mut text, tree)?;
    add_names(symbols, &mut text, tree)?;
    add_heads(symbols, &mut text, tree)?;
    Ok(text)
}

fn add_records(symbols: &Symbols, text: &mut String, tree: &SourceTree) -> Result<(), AllocError> {
    for named in &tree.record_names {
        let name = spelled(symbols, named.name);
        let stars = named.stars;
        write!(text, "record {name}/{stars}")?;
        if let Some(record) = tree.records.get(named.record) {
            add_record(symbols, text, record)?;
        }
        text.push_str("; ")?;
    }
    Ok(())
}

fn add_record(symbols: &Symbols, text: &mut String, record: &Record) -> Result<(), AllocError> {
    text.push_str(either(record.is_object, " object", ""))?;
    for field in &record.fields {
        let name = spelled(symbols, field.name);
        write!(text, " {name}:")?;
        add_type(text, symbols, field.type_name)?;
    }
    Ok(())
}

fn add_names(symbols: &Symbols, text: &mut String, tree: &SourceTree) -> Result<(), AllocError> {
    for alias in &tree.aliases {
        add(symbols, text, "alias ", alias.name, alias.type_name)?;
    }
    for prototype in &tree.prototypes {
        add(
            symbols,
            text,
            "prototype ",
            prototype.name,
            prototype.result,
        )?;
    }
    for variable in &tree.variables {
        add(
            symbols,
            text,
            "variable ",
            variable.name,
            variable.type_name,
        )?;
    }
    Ok(())
}

fn add_heads(symbols: &Symbols, text: &mut String, tree: &SourceTree) -> Result<(), AllocError> {
    for function in &tree.functions {
        let word = either(function.is_static, "static ", "function ");
        add(symbols, text, word, function.name, function.result)?;
        for parameter in &function.parameters {
            add_parameter(symbols, text, parameter)?;
        }
    }
    Ok(())
}

fn add_parameter(
    symbols: &Symbols,
    text: &mut String,
    parameter: &Parameter,
) -> Result<(), AllocError> {
    let name = name_of(symbols, parameter);
    write!(text, "({name}:")?;
    add_type(text, symbols, parameter.type_name)?;
    text.push_str(either(parameter.is_variadic, "...) ", ") "))
}

fn name_of<'s>(symbols: &'s Symbols, parameter: &Parameter) -> &'s str {
    match parameter.name {
        Some(name) => spelled(symbols, name),
        None => "-",
    }
}

fn add(
    symbols: &Symbols,
    text: &mut String,
    what: &str,
    name: Symbol,
    of: TypeName,
) -> Result<(), AllocError> {
    let name = spelled(symbols, name);
    write!(text, "{what}{name}:")?;
    add_type(text, symbols, of)?;
    text.push_str("; ")
}

/// A text, and what it declares.
pub const ROWS: [(&str, &str); 24] = [
    (
        "typedef struct { PyObject_HEAD PyObject *owner; int n; } CardObject;",
        "record CardObject/0 object owner:PyObject* n:int; ",
    ),
    (
        "struct s { int a, *b, c[2][3]; unsigned d : 3; char *(*f)(int); };",
        "record s/0 a:int b:int* c:int** d:unsigned f:char*(); ",
    ),
    (
        "typedef struct t { struct { PyObject *in; } x; union { int u; }; struct t *next; } *T, U;",
        "record t/0 in:PyObject* u:int next:t*; record T/1 in:PyObject* u:int next:t*; \
         record U/0 in:PyObject* u:int next:t*; ",
    ),
    (
        "struct o { PyVarObject ob_base; };",
        "record o/0 object ob_base:PyVarObject; ",
    ),
    (
        "typedef unsigned long size; typedef PyObject *Ref; typedef int (*Callback)(void *);",
        "alias size:long; alias Ref:PyObject*; alias Callback:int(); ",
    ),
    (
        "typedef struct s s_t; typedef struct s *s_p;",
        "alias s_t:s; alias s_p:s*; ",
    ),
    (
        "enum e { A, B = 2 }; typedef enum { C } E;",
        "alias E:int; ",
    ),
    (
        "PyObject *f(int, PyObject *); extern void g(void), *h(int a);",
        "prototype f:PyObject*; prototype g:void; prototype h:void*; ",
    ),
    (
        "static PyObject *one = NULL, *two; int three[2] = {1, 2}, four;",
        "variable one:PyObject*; variable two:PyObject*; variable three:int*; variable four:int; ",
    ),
    (
        "static PyMethodDef methods[] = { {\"a\", a}, {0} }; struct s v = { 1 };",
        "variable methods:PyMethodDef*; variable v:s; ",
    ),
    ("int (*handler)(int) = 0;", "variable handler:int(); "),
    (
        "static inline PyObject * f(PyObject *self, int n, ...) { }",
        "static f:PyObject*; (self:PyObject*) (n:int) (-:int...) ",
    ),
    (
        "void f(void) { } int g() { }",
        "function f:void; function g:int; ",
    ),
    (
        "int f(const char *Py_UNUSED(s), PyObject *const *args, int a[], int (*c)(int, int)) { }",
        "function f:int; (s:char*) (args:PyObject**) (a:int*) (c:int()) ",
    ),
    (
        "struct s *f(struct s *, unsigned) { }",
        "function f:s*; (-:s*) (-:unsigned) ",
    ),
    (
        "PyMODINIT_FUNC PyInit_x(void) { }",
        "function PyInit_x:PyMODINIT_FUNC; ",
    ),
    (
        "int f(int a) __attribute__((noinline)) { }",
        "function f:int; (a:int) ",
    ),
    (
        "#define BEGIN(x) static PyObject *x##_new(PyObject *self)\nBEGIN(card) { }",
        "static card_new:PyObject*; (self:PyObject*) ",
    ),
    (
        "extern \"C\" { int f(void) { } int g; }",
        "variable g:int; function f:int; ",
    ),
    (
        "PyDoc_STRVAR(doc, \"a\"); int f(void) { }",
        "function f:int; ",
    ),
    (
        "int a; } int f(void) { } ) int b;",
        "variable a:int; function f:int; ",
    ),
    ("UNKNOWN(x)\nint f(void) { }", "function f:int; "),
    (
        "int f(a, b) int a; PyObject *b; { } int g(void) { }",
        "function f:int; (a:int) (b:PyObject*) function g:int; ",
    ),
    (
        "static PyObject *f(o, c, n) struct s *o, **n; int (*c)(); { }",
        "static f:PyObject*; (o:s*) (c:int()) (n:s**) ",
    ),
];

/// Fails unless this is what a text declares.
pub fn declares(alloc: Global, source: &str, wanted: &str) -> Result<(), Fail> {
    let found = declared_in(alloc, source.as_bytes())?;
    same(source, found.as_str(), wanted)
}

fn declared_in(alloc: Global, source: &[u8]) -> Result<String, Fail> {
    let mut symbols = Symbols::new(alloc)?;
    let tree = read(alloc, &mut symbols, source)?;
    Ok(declared(alloc, &symbols, &tree)?)
}
