use brc_c_text::{Symbol, Symbols};
use brc_c_tree::TypeName;
use std::alloc::{AllocError, Global};
use std::collections::HashSet;

/// The types that C and Python name by a word of their own.
const BASIC: [&[u8]; 49] = [
    b"void",
    b"char",
    b"short",
    b"int",
    b"long",
    b"float",
    b"double",
    b"signed",
    b"unsigned",
    b"size_t",
    b"Py_ssize_t",
    b"Py_hash_t",
    b"FILE",
    b"wchar_t",
    b"bool",
    b"_Bool",
    b"Py_UCS4",
    b"Py_UCS2",
    b"Py_UCS1",
    b"Py_UNICODE",
    b"uint8_t",
    b"uint16_t",
    b"uint32_t",
    b"uint64_t",
    b"int8_t",
    b"int16_t",
    b"int32_t",
    b"int64_t",
    b"uintptr_t",
    b"intptr_t",
    b"ssize_t",
    b"off_t",
    b"visitproc",
    b"destructor",
    b"PyGILState_STATE",
    b"Py_buffer",
    b"PyThreadState",
    b"Py_complex",
    b"time_t",
    b"va_list",
    b"clock_t",
    b"ptrdiff_t",
    b"uint_fast32_t",
    b"Py_uintptr_t",
    b"Py_intptr_t",
    b"wint_t",
    b"pid_t",
    b"uid_t",
    b"mode_t",
];

/// The names that are types.
#[derive(Drop)]
pub struct TypeNames {
    basic: HashSet<Symbol>,
    declared: HashSet<Symbol>,
    /// `int`, which a type without a symbol is.
    int: Symbol,
    /// `result`, the name of what is computed to be returned.
    result: Symbol,
}

impl TypeNames {
    /// Returns the types of C and Python.
    pub fn new(alloc: Global, symbols: &mut Symbols) -> Result<TypeNames, AllocError> {
        let mut basic = HashSet::new(alloc);
        for name in BASIC {
            basic.insert(symbols.symbol(name)?)?;
        }
        Ok(TypeNames {
            basic,
            declared: HashSet::new(alloc),
            int: symbols.symbol(b"int")?,
            result: symbols.symbol(b"result")?,
        })
    }

    pub fn add(&mut self, name: Symbol) -> Result<(), AllocError> {
        self.declared.insert(name)?;
        Ok(())
    }

    /// Returns the symbol of a type that has none.
    pub fn int(&self) -> Symbol {
        self.int
    }

    /// Returns the name of what is computed to be returned.
    pub(crate) fn result(&self) -> Symbol {
        self.result
    }

    /// Returns the type `int`.
    pub(crate) fn whole_number(&self) -> TypeName {
        TypeName {
            symbol: self.int,
            tag: None,
            stars: 0,
            is_function: false,
        }
    }

    /// Returns whether the symbol is one of a basic type, of which a type may have several.
    pub fn is_basic(&self, symbol: Symbol) -> bool {
        self.basic.contains(&symbol)
    }

    /// Returns whether a declaration or C itself makes the symbol a type.
    pub fn is_declared(&self, symbol: Symbol) -> bool {
        self.is_basic(symbol) || self.declared.contains(&symbol)
    }
}
