use crate::keyword::Keyword;
use std::alloc::{AllocError, Global};
use std::collections::HashMap;

/// A symbol of a program: what a token spells. Two tokens have the same symbol exactly if they have the same bytes.
/// Where several variables of a function have one name, each has a symbol of its own.
#[derive(Clone, Copy, PartialEq, Eq, Hash)]
pub struct Symbol {
    number: usize,
    variable: u32,
}

impl Symbol {
    /// The symbol without any bytes.
    pub const EMPTY: Symbol = Symbol {
        number: 0,
        variable: 0,
    };

    /// Returns the symbol of one of a function's variables that have this name: they are counted from 0, which is the
    /// symbol of the name itself.
    pub fn of_variable(self, variable: u32) -> Symbol {
        Symbol {
            number: self.number,
            variable,
        }
    }

    /// Returns which of the variables of its name it is.
    pub fn variable(self) -> u32 {
        self.variable
    }
}

/// Where a symbol's bytes are, and the keyword that they spell.
#[derive(Clone, Copy)]
struct Entry {
    start: usize,
    end: usize,
    keyword: Option<Keyword>,
}

/// The symbols of a program, each once.
#[derive(Drop)]
pub struct Symbols {
    bytes: Vec<u8>,
    entries: Vec<Entry>,
    by_text: HashMap<Vec<u8>, Symbol>,
}

impl Symbols {
    /// Returns symbols of which only `EMPTY` is known.
    pub fn new(alloc: Global) -> Result<Symbols, AllocError> {
        let mut symbols = Symbols {
            bytes: Vec::new(alloc),
            entries: Vec::new(alloc),
            by_text: HashMap::new(alloc),
        };
        symbols.symbol(b"")?;
        Ok(symbols)
    }

    /// Returns the symbol with these bytes, and adds it if the program doesn't have it yet.
    pub fn symbol(&mut self, text: &[u8]) -> Result<Symbol, AllocError> {
        if let Some(symbol) = self.by_text.get(text) {
            return Ok(*symbol);
        }
        let alloc = *self.bytes.allocator();
        let symbol = Symbol {
            number: self.entries.len(),
            variable: 0,
        };
        let start = self.bytes.len();
        self.bytes.extend_from_slice(text)?;
        self.entries.push(Entry {
            start,
            end: self.bytes.len(),
            keyword: Keyword::of(text),
        })?;
        self.by_text.insert(Vec::from_slice(alloc, text)?, symbol)?;
        Ok(symbol)
    }

    /// Returns the symbol with these bytes, if the program has it.
    pub fn find(&self, text: &[u8]) -> Option<Symbol> {
        self.by_text.get(text).copied()
    }

    /// Returns the bytes of a symbol. A symbol of another program may have none.
    pub fn text(&self, symbol: Symbol) -> &[u8] {
        match self.entries.get(symbol.number) {
            Some(entry) => self.bytes.get(entry.start..entry.end).unwrap_or(b""),
            None => b"",
        }
    }

    /// Returns the keyword that a symbol is.
    pub fn keyword(&self, symbol: Symbol) -> Option<Keyword> {
        self.entries.get(symbol.number)?.keyword
    }
}
