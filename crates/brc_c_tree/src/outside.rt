//! What is outside functions.

use crate::function::Function;
use crate::type_name::TypeName;
use brc_c_text::{Place, Symbol};
use std::alloc::Global;

/// A field of a struct or a union. Those of one inside it are fields of both.
#[derive(Clone, Copy)]
pub struct Field {
    pub name: Symbol,
    pub type_name: TypeName,
}

/// A struct or a union with its fields.
#[derive(Drop)]
pub struct Record {
    /// Whether it begins as an object does: with `PyObject_HEAD`, `PyObject_VAR_HEAD`, `ob_base` or an object's struct.
    pub is_object: bool,
    pub fields: Vec<Field>,
}

/// A name of a record: its tag, or one that `typedef` gives it.
#[derive(Clone, Copy)]
pub struct RecordName {
    pub name: Symbol,
    /// How many stars the type of this name has before the record.
    pub stars: u32,
    /// The number of its record.
    pub record: usize,
}

/// A name that `typedef` gives to another type.
#[derive(Clone, Copy)]
pub struct Alias {
    pub name: Symbol,
    pub type_name: TypeName,
}

/// A function that is declared without a body.
#[derive(Clone, Copy)]
pub struct Prototype {
    pub name: Symbol,
    pub result: TypeName,
    pub place: Place,
}

/// A variable outside functions.
#[derive(Clone, Copy)]
pub struct Variable {
    pub name: Symbol,
    pub type_name: TypeName,
    pub place: Place,
    /// The string, with its quotes, that it always has.
    pub string: Option<Symbol>,
}

/// What is read of a source.
#[derive(Drop)]
pub struct SourceTree {
    pub functions: Vec<Function>,
    pub records: Vec<Record>,
    pub record_names: Vec<RecordName>,
    pub aliases: Vec<Alias>,
    pub prototypes: Vec<Prototype>,
    pub variables: Vec<Variable>,
}

impl SourceTree {
    /// Returns that nothing is read.
    pub fn new(alloc: Global) -> SourceTree {
        SourceTree {
            functions: Vec::new(alloc),
            records: Vec::new(alloc),
            record_names: Vec::new(alloc),
            aliases: Vec::new(alloc),
            prototypes: Vec::new(alloc),
            variables: Vec::new(alloc),
        }
    }
}
