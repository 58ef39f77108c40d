//! The bodies of functions as trees.

use crate::reading::{bodies_of, same};
use std::alloc::Global;
use std::test::Fail;

/// The body of a function with the parameters `a` and `b`, and the text of its tree.
pub const ROWS: [(&str, &str); 43] = [
    ("", "{ }"),
    (";", "{ { } }"),
    ("a = 1;", "{ (a = 1); }"),
    (
        "a = b = 1 + 2 * 3 - 4;",
        "{ (a = (b = ((1 Add (2 Multiply 3)) Subtract 4))); }",
    ),
    (
        "a += f(b, 1)(2)[3].x->y++;",
        "{ (a Add= (f(b, 1)(2)[3].x->y++)); }",
    ),
    (
        "a = !b && -1 < ~b || *a == &b;",
        "{ (a = (((Not b) And ((Minus 1) Less (Complement b))) Or ((Dereference a) Equal (Address b)))); }",
    ),
    (
        "a = b ? 1 : a ? 2 : 3, b = 4;",
        "{ ((a = (b ? 1 : (a ? 2 : 3))), (b = 4)); }",
    ),
    ("a = b ? (1, 2) : 3;", "{ (a = (b ? (1, 2) : 3)); }"),
    ("++a; b--;", "{ (++a); (b--); }"),
    (
        "a = sizeof(int) + sizeof b;",
        "{ (a = (sizeof Add sizeof)); }",
    ),
    (
        "a = (int)b + (PyObject *)b;",
        "{ (a = ([int]b Add [PyObject*]b)); }",
    ),
    (
        "a = (foo)b; a = (b)(1); a = (Unknown *)b;",
        "{ (a = [foo]b); (a = b(1)); (a = [Unknown*]b); }",
    ),
    (
        "a = (unsigned LONG)b; a = (int (*)(void))b;",
        "{ (a = [LONG]b); (a = [int()]b); }",
    ),
    ("a = (struct s){1, 2};", "{ (a = [s]opaque); }"),
    (
        "a = PyObject_New(FooObject, b); f(va, int *);",
        "{ (a = PyObject_New(opaque, b)); f(va, opaque); }",
    ),
    (
        "int x = 1, *y, z[2][3];",
        "{ let int x = 1;let int* y;let int** z; }",
    ),
    (
        "static const char *s = \"a\" \"b\";",
        "{ static char* s = \"ab\"; }",
    ),
    (
        "unsigned long n; struct s *p; Foo *q; Foo r = 1;",
        "{ let long n; let s* p; let Foo* q; let Foo r = 1; }",
    ),
    (
        "PyObject *v[2] = {a, b}, *w[] = {{1}};",
        "{ let PyObject** v = {a, b};let PyObject** w = opaque; }",
    ),
    (
        "int (*f)(int) = b; PyObject *(*g)(void);",
        "{ let int() f = b; let PyObject*() g; }",
    ),
    ("a * b; c * d;", "{ (a Multiply b); let c* d; }"),
    ("int x __attribute__((unused)) = 1;", "{ let int x = 1; }"),
    ("if (a) b = 1;", "{ if a (b = 1); }"),
    (
        "if (a) ; else if (b) ; else ;",
        "{ if a { } else if b { } else { } }",
    ),
    ("if FAILED(a) return;", "{ if FAILED(a) return ; }"),
    (
        "while (a) { break; continue; }",
        "{ while a { break; continue; } }",
    ),
    ("do a++; while (a < 3);", "{ do-while (a Less 3) (a++); }"),
    ("for (;;) ;", "{ for ( ; ) { } }"),
    (
        "for (int i = 0; i < 3; i++) f(i);",
        "{ for (let int i = 0; (i Less 3); (i++)) f(i); }",
    ),
    (
        "for (a = 0, b = 1; a; ) ;",
        "{ for (((a = 0), (b = 1)); a; ) { } }",
    ),
    (
        "switch (a) { case 1: case 'x': b = 1; break; default: ; }",
        "{ switch a { case 1; case 'x'; (b = 1); break; default; { } } }",
    ),
    (
        "switch (a) { case 1 ... 5: ; }",
        "{ switch a { case 1; { } } }",
    ),
    (
        "goto done; done: return a;",
        "{ goto done; done: return a; }",
    ),
    (
        "Py_BEGIN_ALLOW_THREADS a = 1; Py_END_ALLOW_THREADS",
        "{ BeginAllowThreads(); (a = 1); EndAllowThreads(); }",
    ),
    (
        "Py_BEGIN_CRITICAL_SECTION(a); Py_RETURN_NONE;",
        "{ BeginCriticalSection(a); ReturnNone(); }",
    ),
    (
        "Py_VISIT(a->b);\nFOO(a)\nb = 1;",
        "{ Visit(a->b); FOO(a); (b = 1); }",
    ),
    (
        "typedef unsigned UINT T; T x = (T)(b); x * b;",
        "{  let T x = [T]b; (x Multiply b); }",
    ),
    (
        "unsigned UINT t; union { int i; float f; } u;",
        "{ let UINT t; let int u; }",
    ),
    ("{ a; } { { b; } }", "{ { a; } { { b; } } }"),
    (
        "int x __attribute__((cleanup(g))) = b; if (b) return b; return x + 1;",
        "{ let int x = b; if b { g((Address x)); return b; } \
        { let int result = (x Add 1); g((Address x)); return result; } g((Address x)); }",
    ),
    (
        "while (b) { int x __attribute__((unused, cleanup(g))); if (a) break; continue; } return;",
        "{ while b { let int x; if a { g((Address x)); break; } { g((Address x)); continue; } \
        g((Address x)); } return ; }",
    ),
    (
        "int x __attribute__((cleanup(g))), y; for (;;) switch (b) { case 1: break; default: continue; }",
        "{ let int x;let int y; for ( ; ) switch b { case 1; break; default; continue; } g((Address x)); }",
    ),
    (
        "__attribute__((cleanup(g))) int x, y; goto done;",
        "{ let int x;let int y; { g((Address y)); g((Address x)); goto done; } \
        g((Address y)); g((Address x)); }",
    ),
];

/// Fails unless the body has this tree.
pub fn body(alloc: Global, body: &str, wanted: &str) -> Result<(), Fail> {
    let source = format!(in alloc; "static int f(PyObject *a, int b) {{ {body} }}")?;
    let found = bodies_of(alloc, source.as_bytes())?;
    same(body, found.as_str().trim_end(), wanted)
}
