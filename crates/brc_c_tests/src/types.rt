//! The types of expressions.

use crate::reading::{read, same};
use crate::rendering::{add_type, either};
use brc_c_text::Symbols;
use brc_c_tree::{SourceTree, TypeName};
use brc_c_types::{Types, types_of};
use std::alloc::{AllocError, Global};
use std::test::Fail;

const BEFORE: &str =
    "typedef struct node { PyObject_HEAD PyObject *owner; struct node *next; int n; PyObject *(*make)(int); \
    PyObject *items[4]; } NodeObject;\n\
    typedef struct { int n; } PlainObject;\n\
    typedef NodeObject *Ref; typedef PyObject *Any; typedef struct node Node;\n\
    static PyObject *global; PyObject *make(int); Ref other(void); PlainObject *plain(void);\n";

/// An expression and its type, and behind that whether it is an object.
pub const ROWS: [(&str, &str); 27] = [
    ("self", "NodeObject* object"),
    ("n", "int"),
    ("args", "PyObject**"),
    ("args[0]", "PyObject* object"),
    ("*args", "PyObject* object"),
    ("*(args + 1)", "PyObject* object"),
    ("&n", "int*"),
    ("self->owner", "PyObject* object"),
    ("self->next->owner", "PyObject* object"),
    ("self->next", "node* object"),
    ("self->n", "int"),
    ("self->items[1]", "PyObject* object"),
    ("self->make", "PyObject*()"),
    ("self->make(1)", "PyObject* object"),
    ("(*self).owner", "PyObject* object"),
    ("ref->owner", "PyObject* object"),
    ("ref", "Ref object"),
    ("(Any)n", "Any object"),
    ("(PlainObject *)n", "PlainObject*"),
    ("(UnseenObject *)n", "UnseenObject* object"),
    ("(Node *)n", "Node* object"),
    ("global", "PyObject* object"),
    ("make(1)", "PyObject* object"),
    ("plain()", "PlainObject*"),
    ("other()->next", "node* object"),
    ("n ? global : 0", "PyObject* object"),
    ("local = self->owner", "PyObject* object"),
];

/// Returns the type of the last expression of a text's first function, and whether it is an object.
fn last_type(alloc: Global, symbols: &Symbols, tree: &SourceTree) -> Result<String, Fail> {
    let types = Types::new(alloc, tree)?;
    let Some(function) = tree.functions.as_slice().first() else {
        return Err("there is no function")?;
    };
    let found = types_of(alloc, &types, function)?;
    // The whole expression is the last of the tree.
    match found.last() {
        Some(Some(last)) => Ok(type_text(alloc, symbols, &types, *last)?),
        _ => Err("it has no type")?,
    }
}

fn type_text(
    alloc: Global,
    symbols: &Symbols,
    types: &Types,
    of: TypeName,
) -> Result<String, AllocError> {
    let mut text = String::new(alloc);
    add_type(&mut text, symbols, of)?;
    let is_object = types.is_object(symbols, of);
    text.push_str(either(is_object, " object", ""))?;
    Ok(text)
}

/// Fails unless this is the type of an expression, behind `BEFORE` and a local variable.
pub fn has_type(alloc: Global, expression: &str, wanted: &str) -> Result<(), Fail> {
    let source = format!(in alloc;
        "{BEFORE}int f(NodeObject *self, PyObject **args, int n, Ref ref) {{ PyObject *local; {expression}; }}"
    )?;
    let found = type_in(alloc, source.as_bytes())?;
    same(expression, found.as_str(), wanted)
}

/// Returns the type of the last expression of a text's first function, and whether it is an object.
fn type_in(alloc: Global, source: &[u8]) -> Result<String, Fail> {
    let mut symbols = Symbols::new(alloc)?;
    let tree = read(alloc, &mut symbols, source)?;
    last_type(alloc, &symbols, &tree)
}
