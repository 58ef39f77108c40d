use crate::fault::MacroFault;
use crate::spelling::{is_pythons, lexemes_in};
use brc_c_text::{Lexeme, LexemeKind, Punctuator, Symbol, Symbols};
use std::alloc::{AllocError, Global};
use std::collections::{HashMap, HashSet};

/// A macro.
#[derive(Clone, Copy)]
pub struct Macro {
    /// How many parameters it has, or `None` if it has no parentheses.
    pub parameters: Option<usize>,
    /// Whether it has `...`: its last parameter has all arguments that are left.
    pub is_variadic: bool,
    /// Whether it casts to a pointer to a function. Its name is a function then, and isn't expanded.
    pub is_cast: bool,
    start: usize,
    end: usize,
}

/// A lexeme of a macro's body, and the parameter that it is.
#[derive(Clone, Copy)]
pub(crate) struct Part {
    pub(crate) lexeme: Lexeme,
    pub(crate) parameter: Option<usize>,
}

/// The macros that are defined.
#[derive(Drop)]
pub struct Macros {
    alloc: Global,
    by_name: HashMap<Symbol, Macro>,
    /// The bodies of all macros.
    parts: Vec<Part>,
    /// Names that are never expanded: those of functions that are known.
    kept: HashSet<Symbol>,
}

/// What the compiler and Python's own headers define.
const PREDEFINED: [(&[u8], &[u8]); 17] = [
    (b"__linux__", b"1"),
    (b"__unix__", b"1"),
    (b"__unix", b"1"),
    (b"PY_VERSION_HEX", b"0x030d00f0"),
    (b"PY_MAJOR_VERSION", b"3"),
    (b"PY_MINOR_VERSION", b"13"),
    (b"PY_SSIZE_T_CLEAN", b"1"),
    (b"WITH_THREAD", b""),
    (b"SIZEOF_SHORT", b"2"),
    (b"SIZEOF_INT", b"4"),
    (b"SIZEOF_LONG", b"8"),
    (b"SIZEOF_LONG_LONG", b"8"),
    (b"SIZEOF_VOID_P", b"8"),
    (b"SIZEOF_SIZE_T", b"8"),
    (b"SIZEOF_TIME_T", b"8"),
    (b"SIZEOF_WCHAR_T", b"4"),
    (b"SIZEOF_DOUBLE", b"8"),
];

/// Macros of Python's headers that make nothing, and whose arguments may be statements.
const EMPTY: [&[u8]; 2] = [b"PyFPE_START_PROTECT", b"PyFPE_END_PROTECT"];

impl Macros {
    /// Returns the macros of a compiler for Linux and Python 3.13, with a global lock or without one.
    pub fn new(
        alloc: Global,
        symbols: &mut Symbols,
        is_free_threaded: bool,
    ) -> Result<Macros, MacroFault> {
        let mut macros = Macros {
            alloc,
            by_name: HashMap::new(alloc),
            parts: Vec::new(alloc),
            kept: HashSet::new(alloc),
        };
        for (name, value) in PREDEFINED {
            macros.define(symbols, name, value)?;
        }
        for name in EMPTY {
            let name = symbols.symbol(name)?;
            let parameters = [Symbol::EMPTY, Symbol::EMPTY];
            macros.add(symbols, name, Some(parameters.as_slice()), false, &[])?;
        }
        if is_free_threaded {
            macros.define(symbols, b"Py_GIL_DISABLED", b"1")?;
        }
        Ok(macros)
    }

    /// Defines a macro without parameters, as `-D` does.
    pub fn define(
        &mut self,
        symbols: &mut Symbols,
        name: &[u8],
        value: &[u8],
    ) -> Result<(), MacroFault> {
        let name = symbols.symbol(name)?;
        let body = lexemes_in(self.alloc, symbols, value)?;
        self.add(symbols, name, None, false, body.as_slice())
    }

    /// Keeps a name from being expanded.
    pub fn keep(&mut self, name: Symbol) -> Result<(), AllocError> {
        self.kept.insert(name)?;
        Ok(())
    }

    /// Returns the macro of this name.
    pub fn find(&self, name: Symbol) -> Option<Macro> {
        self.by_name.get(&name).copied()
    }

    /// Returns the body of a macro.
    pub fn body(&self, found: &Macro) -> Result<Vec<Lexeme>, AllocError> {
        let mut body = Vec::new(self.alloc);
        for part in self.parts_of(found) {
            body.push(part.lexeme)?;
        }
        Ok(body)
    }

    /// Returns the parameter that has all arguments that are left.
    pub(crate) fn rest_of(&self, found: &Macro) -> Option<usize> {
        if found.is_variadic {
            found.parameters?.checked_sub(1)
        } else {
            None
        }
    }

    pub(crate) fn parts_of(&self, found: &Macro) -> &[Part] {
        self.parts.get(found.start..found.end).unwrap_or(&[])
    }

    /// Returns the macro that a name is expanded as.
    pub(crate) fn expanded(&self, symbols: &Symbols, lexeme: &Lexeme) -> Option<Macro> {
        if lexeme.kind != LexemeKind::Name {
            return None;
        }
        let found = self.find(lexeme.symbol)?;
        let is_kept = found.is_cast
            || self.kept.contains(&lexeme.symbol)
            || is_pythons(symbols.text(lexeme.symbol));
        if is_kept { None } else { Some(found) }
    }

    /// Defines a macro. The last definition of a name holds.
    pub(crate) fn add(
        &mut self,
        symbols: &Symbols,
        name: Symbol,
        parameters: Option<&[Symbol]>,
        is_variadic: bool,
        body: &[Lexeme],
    ) -> Result<(), MacroFault> {
        let start = self.parts.len();
        let names = parameters.unwrap_or(&[]);
        for lexeme in body {
            let parameter = names.iter().position(|name| *name == lexeme.symbol);
            let is_name = lexeme.kind == LexemeKind::Name;
            self.parts.push(Part {
                lexeme: *lexeme,
                parameter: if is_name { parameter } else { None },
            })?;
        }
        let found = Macro {
            parameters: parameters.map(|names| names.len()),
            is_variadic,
            is_cast: parameters.is_none() && casts(symbols, body),
            start,
            end: self.parts.len(),
        };
        self.by_name.insert(name, found)?;
        Ok(())
    }

    pub(crate) fn remove(&mut self, name: Symbol) {
        let _ = self.by_name.remove(&name);
    }
}

/// Returns whether a body has `(*)`, or takes a slot of a table of functions.
fn casts(symbols: &Symbols, body: &[Lexeme]) -> bool {
    for three in body.windows(3) {
        if let [open, star, close] = three {
            if open.is(Punctuator::LeftParen)
                && star.is(Punctuator::Star)
                && close.is(Punctuator::RightParen)
            {
                return true;
            }
        }
    }
    for lexeme in body {
        if lexeme.kind == LexemeKind::Name && has_slot(symbols.text(lexeme.symbol)) {
            return true;
        }
    }
    false
}

fn has_slot(name: &[u8]) -> bool {
    for part in name.windows(4) {
        if part == b"SLOT".as_slice() {
            return true;
        }
    }
    false
}
