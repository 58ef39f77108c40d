use brc_c_text::Symbol;
use brc_c_tree::{SourceTree, TypeName};
use std::alloc::{AllocError, Global};
use std::collections::HashMap;

/// What a name of a record says.
#[derive(Clone, Copy)]
pub(crate) struct Named {
    /// How many stars the type of this name has before the record.
    pub(crate) stars: u32,
    pub(crate) record: usize,
    pub(crate) is_object: bool,
}

/// A field, by the number of its record and its name.
#[derive(Clone, Copy, PartialEq, Eq, Hash)]
pub(crate) struct FieldKey {
    pub(crate) record: usize,
    pub(crate) name: Symbol,
}

/// What a source and its headers declare outside functions. Of two declarations of a name the first one holds.
#[derive(Drop)]
pub struct Types {
    pub(crate) records: HashMap<Symbol, Named>,
    pub(crate) fields: HashMap<FieldKey, TypeName>,
    pub(crate) aliases: HashMap<Symbol, TypeName>,
    results: HashMap<Symbol, TypeName>,
    variables: HashMap<Symbol, TypeName>,
    /// The strings that variables always have.
    strings: HashMap<Symbol, Symbol>,
}

impl Types {
    /// Returns the types of a source.
    pub fn new(alloc: Global, tree: &SourceTree) -> Result<Types, AllocError> {
        let mut types = Types {
            records: HashMap::new(alloc),
            fields: HashMap::new(alloc),
            aliases: HashMap::new(alloc),
            results: HashMap::new(alloc),
            variables: HashMap::new(alloc),
            strings: HashMap::new(alloc),
        };
        types.add_records(tree)?;
        for alias in &tree.aliases {
            add(&mut types.aliases, alias.name, alias.type_name)?;
        }
        for function in &tree.functions {
            add(&mut types.results, function.name, function.result)?;
        }
        for prototype in &tree.prototypes {
            add(&mut types.results, prototype.name, prototype.result)?;
        }
        for variable in &tree.variables {
            add(&mut types.variables, variable.name, variable.type_name)?;
            if let Some(string) = variable.string {
                types.strings.insert(variable.name, string)?;
            }
        }
        Ok(types)
    }

    fn add_records(&mut self, tree: &SourceTree) -> Result<(), AllocError> {
        for named in &tree.record_names {
            let is_object = match tree.records.get(named.record) {
                Some(record) => record.is_object,
                None => false,
            };
            if self.records.get(&named.name).is_none() {
                self.records.insert(
                    named.name,
                    Named {
                        stars: named.stars,
                        record: named.record,
                        is_object,
                    },
                )?;
            }
        }
        for (record, inside) in tree.records.iter().enumerate() {
            for field in &inside.fields {
                let key = FieldKey {
                    record,
                    name: field.name,
                };
                if self.fields.get(&key).is_none() {
                    self.fields.insert(key, field.type_name)?;
                }
            }
        }
        Ok(())
    }

    /// Says what a function gives that isn't declared, as one that a macro takes from a table.
    pub fn add_result(&mut self, name: Symbol, given: TypeName) -> Result<(), AllocError> {
        add(&mut self.results, name, given)
    }

    /// Returns what a function of the source gives.
    pub fn result_of(&self, function: Symbol) -> Option<TypeName> {
        self.results.get(&function).copied()
    }

    /// Returns the string, with its quotes, that a variable outside functions always has.
    pub fn string_of(&self, name: Symbol) -> Option<Symbol> {
        self.strings.get(&name).copied()
    }

    /// Returns the type of a variable outside functions.
    pub fn variable(&self, name: Symbol) -> Option<TypeName> {
        self.variables.get(&name).copied()
    }
}

/// Adds a type, unless the name has one.
fn add(
    types: &mut HashMap<Symbol, TypeName>,
    name: Symbol,
    type_name: TypeName,
) -> Result<(), AllocError> {
    if types.get(&name).is_none() {
        types.insert(name, type_name)?;
    }
    Ok(())
}
