//! The kinds of objects that calls make: what is made as bytes needs no question whether it is.

use crate::building::Builder;
use crate::references::Counting;
use brc_c_text::Symbol;
use brc_c_tree::{Expression, ExpressionId, List, Statement};

/// What an object is.
#[derive(Clone, Copy, PartialEq, Eq)]
enum Kind {
    Bytes,
    Dict,
    Float,
    List,
    Long,
    Tuple,
    Text,
}

impl<'a> Builder<'a> {
    /// Returns whether a call asks for the kind of a variable that never has another one, as `PyLong_Check`.
    pub(crate) fn is_known_kind(&self, call: ExpressionId) -> bool {
        self.is_of_kind(call, asked_kind(self.called_text(call)))
    }

    /// Returns whether a call gives the memory of an object that has some, since it is of the right kind.
    pub(crate) fn gives_memory(&self, call: ExpressionId) -> bool {
        self.is_of_kind(call, kind_with_memory(self.called_text(call)))
    }

    /// Returns the name of the function that is called, or no bytes.
    fn called_text(&self, call: ExpressionId) -> &'a [u8] {
        let symbols = self.symbols;
        match self.called_symbol(call) {
            Some(name) => symbols.text(name),
            None => b"",
        }
    }

    /// Returns whether the first argument of a call is a variable that always has a kind.
    fn is_of_kind(&self, call: ExpressionId, kind: Option<Kind>) -> bool {
        let (Some(kind), Some(Expression::Call { arguments, .. })) = (
            kind,
            self.tree.expression(call),
        ) else {
            return false;
        };
        match self.tree.operands(arguments).first() {
            Some(first) => match self.name_in(*first) {
                Some(name) => self.always_has(name, kind),
                None => false,
            },
            None => false,
        }
    }

    /// Returns whether each object that is assigned to a variable is of a kind.
    fn always_has(&self, name: Symbol, kind: Kind) -> bool {
        match self.variable(name) {
            Some(variable) if variable.local.is_some() && !variable.is_parameter => {}
            _ => return false,
        }
        !self.is_addressed(name) && self.are_assigned(name, kind) && self.are_declared(name, kind)
    }

    fn are_assigned(&self, name: Symbol, kind: Kind) -> bool {
        for (expression, _) in self.tree.expressions() {
            let is_right = match *expression {
                Expression::Assign { left, right, .. } => {
                    self.name_in(left) != Some(name) || self.makes(right, kind)
                }
                Expression::Call {
                    function,
                    arguments,
                } => !self.replaces(function, arguments, name),
                _ => true,
            };
            if !is_right {
                return false;
            }
        }
        true
    }

    /// Returns whether a call gives a variable another object, as `Py_SETREF`.
    fn replaces(&self, function: ExpressionId, arguments: List, name: Symbol) -> bool {
        let is_one = match Counting::of(self.symbols.text(self.last_name(function))) {
            Some(counting) => counting.replaces(),
            None => false,
        };
        match self.tree.operands(arguments) {
            [first, _] => is_one && self.name_in(*first) == Some(name),
            _ => false,
        }
    }

    fn are_declared(&self, name: Symbol, kind: Kind) -> bool {
        for (statement, _) in self.tree.statements() {
            if let Statement::Declare(list) = statement {
                for declared in self.tree.declarations(*list) {
                    if let (true, Some(value)) = (declared.name == name, declared.value) {
                        if !self.makes(value, kind) {
                            return false;
                        }
                    }
                }
            }
        }
        true
    }

    /// Returns whether an expression has an object of a kind, or NULL.
    fn makes(&self, value: ExpressionId, kind: Kind) -> bool {
        let value = self.without_casts(value);
        match self.tree.expression(value) {
            Some(Expression::Call { function, .. }) => {
                made_kind(self.symbols.text(self.last_name(function))) == Some(kind)
            }
            _ => self.constant_in(value) == Some(0),
        }
    }
}

/// Returns the kind for which a function of this name asks.
fn asked_kind(name: &[u8]) -> Option<Kind> {
    match name {
        b"PyBytes_Check" => Some(Kind::Bytes),
        b"PyDict_Check" => Some(Kind::Dict),
        b"PyFloat_Check" => Some(Kind::Float),
        b"PyList_Check" => Some(Kind::List),
        b"PyLong_Check" => Some(Kind::Long),
        b"PyTuple_Check" => Some(Kind::Tuple),
        b"PyUnicode_Check" => Some(Kind::Text),
        _ => None,
    }
}

/// Returns the kind of which an object gives its memory to a function of this name.
fn kind_with_memory(name: &[u8]) -> Option<Kind> {
    match name {
        b"PyBytes_AsString" => Some(Kind::Bytes),
        _ => None,
    }
}

/// The functions that make objects of one kind. A `match` over texts would have a branch for each of their bytes in its
/// proof.
const MADE: [(&[u8], Kind); 38] = [
    (b"PyBytes_FromStringAndSize", Kind::Bytes),
    (b"PyBytes_FromString", Kind::Bytes),
    (b"PyBytes_FromFormat", Kind::Bytes),
    (b"PyBytes_FromObject", Kind::Bytes),
    (b"PyObject_Bytes", Kind::Bytes),
    (b"PyUnicode_AsUTF8String", Kind::Bytes),
    (b"PyUnicode_AsASCIIString", Kind::Bytes),
    (b"PyUnicode_AsLatin1String", Kind::Bytes),
    (b"PyDict_New", Kind::Dict),
    (b"PyDict_Copy", Kind::Dict),
    (b"PyNumber_Float", Kind::Float),
    (b"PyFloat_FromDouble", Kind::Float),
    (b"PyFloat_FromString", Kind::Float),
    (b"PyList_New", Kind::List),
    (b"PySequence_List", Kind::List),
    (b"PyDict_Keys", Kind::List),
    (b"PyDict_Values", Kind::List),
    (b"PyDict_Items", Kind::List),
    (b"PyNumber_Long", Kind::Long),
    (b"PyNumber_Index", Kind::Long),
    (b"PyLong_FromLong", Kind::Long),
    (b"PyLong_FromLongLong", Kind::Long),
    (b"PyLong_FromSsize_t", Kind::Long),
    (b"PyLong_FromSize_t", Kind::Long),
    (b"PyLong_FromUnsignedLong", Kind::Long),
    (b"PyLong_FromUnsignedLongLong", Kind::Long),
    (b"PyLong_FromDouble", Kind::Long),
    (b"PyTuple_New", Kind::Tuple),
    (b"PyTuple_Pack", Kind::Tuple),
    (b"PySequence_Tuple", Kind::Tuple),
    (b"PyList_AsTuple", Kind::Tuple),
    (b"PyObject_Str", Kind::Text),
    (b"PyObject_Repr", Kind::Text),
    (b"PyObject_ASCII", Kind::Text),
    (b"PyUnicode_FromString", Kind::Text),
    (b"PyUnicode_FromStringAndSize", Kind::Text),
    (b"PyUnicode_FromFormat", Kind::Text),
    (b"PyUnicode_FromObject", Kind::Text),
];

/// Returns the kind of what a function of this name makes.
fn made_kind(name: &[u8]) -> Option<Kind> {
    for (known, kind) in MADE {
        if known == name {
            return Some(kind);
        }
    }
    None
}
