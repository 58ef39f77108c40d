//! Which types are pointers to objects.

use crate::types::{FieldKey, Named, Types};
use brc_c_text::{Symbol, Symbols};
use brc_c_tree::{TypeName, names_objects};

/// How many names of a type are followed.
const ALIAS_LIMIT: usize = 8;

impl Types {
    /// Returns whether the type is that of a pointer to an object: to a struct that begins as an object does, or to one
    /// that no declaration shows and whose name ends with `Object`.
    pub fn is_object(&self, symbols: &Symbols, type_name: TypeName) -> bool {
        if type_name.is_function {
            return false;
        }
        match self.record(type_name.symbol) {
            Some(named) => { named.is_object && type_name.stars.saturating_add(named.stars) == 1 }
            None => {
                let last = self.resolved(type_name);
                let is_pythons = symbols.text(last.symbol) == b"PyObject".as_slice()
                    || names_objects(symbols.text(last.symbol));
                match self.record(last.symbol) {
                    Some(named) => {
                        named.is_object && last.stars.saturating_add(named.stars) == 1
                    }
                    None => !last.is_function && last.stars == 1 && is_pythons,
                }
            }
        }
    }

    /// Returns the type without names that `typedef` gives it.
    pub(crate) fn resolved(&self, type_name: TypeName) -> TypeName {
        let mut found = type_name;
        for _turn in 0..ALIAS_LIMIT {
            let Some(next) = self.aliases.get(&found.symbol) else {
                break;
            };
            // A tag's name isn't one that `typedef` gives.
            if found.tag.is_some() {
                break;
            }
            found = TypeName {
                stars: found.stars.saturating_add(next.stars),
                is_function: found.is_function || next.is_function,
                ..*next
            };
        }
        found
    }

    /// Returns what the functions give to which a type's values point, if the type is one of pointers to functions.
    pub(crate) fn result_of_pointer(&self, pointer: Symbol) -> Option<TypeName> {
        let found = self.resolved(TypeName {
            symbol: pointer,
            tag: None,
            stars: 0,
            is_function: false,
        });
        if !found.is_function {
            return None;
        }
        Some(TypeName {
            is_function: false,
            ..found
        })
    }

    fn record(&self, name: Symbol) -> Option<Named> {
        self.records.get(&name).copied()
    }

    /// Returns the type of a field of a struct, or of what points to the struct.
    pub fn field(&self, of: TypeName, name: Symbol) -> Option<TypeName> {
        let named = match self.record(of.symbol) {
            Some(named) => named,
            None => self.record(self.resolved(of).symbol)?,
        };
        let key = FieldKey {
            record: named.record,
            name,
        };
        self.fields.get(&key).copied()
    }

    /// Returns what a pointer of this type points to.
    pub(crate) fn pointee(&self, type_name: TypeName) -> Option<TypeName> {
        let pointer = if type_name.stars == 0 {
            self.resolved(type_name)
        } else {
            type_name
        };
        Some(TypeName {
            stars: pointer.stars.checked_sub(1)?,
            ..pointer
        })
    }
}
