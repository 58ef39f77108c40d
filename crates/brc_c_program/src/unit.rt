//! A file as it is read by one set of rules.

use crate::files::Files;
use crate::libraries::with_libraries;
use crate::sources::Sources;
use brc_c_flow::Usage;
use brc_c_infer::{Own, Uses, uses_of};
use brc_c_macros::{Lost, MacroFault, Macros, preprocess};
use brc_c_read::{TypeNames, read_source};
use brc_c_store::Rules;
use brc_c_table::Tables;
use brc_c_text::{Lexeme, LexemeKind, Symbol, Symbols, TextFault, lexemes_of, scan};
use brc_c_tree::{Function, SourceTree};
use brc_c_types::Types;
use std::alloc::{AllocError, AllocFailed, Global};
use std::collections::HashSet;

/// Why a file isn't read at all.
#[derive(Clone, Copy)]
pub(crate) enum UnitFault {
    Text(TextFault),
    Macro(MacroFault),
    NoMemory,
}

impl From<AllocError> for UnitFault {
    fn from(_e: AllocError) -> UnitFault {
        UnitFault::NoMemory
    }
}

impl<T: Drop> From<AllocFailed<T>> for UnitFault {
    fn from(_e: AllocFailed<T>) -> UnitFault {
        UnitFault::NoMemory
    }
}

/// What is read of a file and its headers.
#[derive(Drop)]
pub(crate) struct Unit {
    pub(crate) tree: SourceTree,
    pub(crate) types: Types,
    /// How the functions are used that the file declares.
    pub(crate) uses: Uses,
    /// Macros that take a function from a table of functions.
    pub(crate) casts: HashSet<Symbol>,
    pub(crate) usage: Usage,
    /// What is left out for want of a name.
    pub(crate) lost: Vec<Lost>,
}

/// What all files of a program are read with.
#[derive(Drop)]
pub(crate) struct Known {
    pub(crate) alloc: Global,
    pub(crate) symbols: Symbols,
    pub(crate) tables: Tables,
    /// What is known of the functions of the program, once all files are read.
    pub(crate) own: Own,
}

/// Reads a file, whose bytes these are, by a set of rules. `defined` are macros, as `NAME` or `NAME=VALUE`.
pub(crate) fn read_unit<F: Files>(
    known: &mut Known,
    sources: &mut Sources<'_, '_, F>,
    bytes: &[u8],
    number: usize,
    rules: Rules,
    defined: &[&str],
) -> Result<Unit, UnitFault> {
    let alloc = known.alloc;
    let lexemes = lexemes_in(known, bytes, number)?;
    let macros = macros_for(known, sources, lexemes.as_slice(), number, rules, defined)?;
    let done = match preprocess(alloc, &mut known.symbols, sources, macros, lexemes, number) {
        Ok(done) => done,
        Err(fault) => return Err(UnitFault::Macro(fault)),
    };
    let mut names = TypeNames::new(alloc, &mut known.symbols)?;
    let tree = read_source(alloc, &known.symbols, &mut names, done.lexemes.as_slice())?;
    let usage = Usage::of(alloc, &known.symbols, &tree)?;
    let mut types = Types::new(alloc, &tree)?;
    let mut casts = HashSet::new(alloc);
    add_casts(
        &mut types,
        &mut casts,
        &done.macros,
        done.lexemes.as_slice(),
    )?;
    let uses = uses_of(alloc, &tree, done.lexemes.as_slice())?;
    Ok(Unit {
        tree,
        types,
        uses,
        casts,
        usage,
        lost: done.lost,
    })
}

fn lexemes_in(known: &mut Known, bytes: &[u8], number: usize) -> Result<Vec<Lexeme>, UnitFault> {
    let scanned = match scan(known.alloc, bytes) {
        Ok(scanned) => scanned,
        Err(fault) => return Err(UnitFault::Text(fault)),
    };
    let tokens = scanned.tokens.as_slice();
    Ok(lexemes_of(known.alloc, &mut known.symbols, tokens, bytes, number)?)
}

/// Returns the macros that a file begins with. What the table knows stays a function.
fn macros_for<F: Files>(
    known: &mut Known,
    sources: &mut Sources<'_, '_, F>,
    lexemes: &[Lexeme],
    number: usize,
    rules: Rules,
    defined: &[&str],
) -> Result<Macros, UnitFault> {
    let mut macros = match first_macros(known, sources, number, rules) {
        Ok(macros) => macros,
        Err(fault) => return Err(UnitFault::Macro(fault)),
    };
    for text in defined {
        define(known, &mut macros, text.as_bytes())?;
    }
    keep(known, &mut macros, lexemes)?;
    Ok(macros)
}

/// Returns the macros of the compiler, of Python, and of libraries.
fn first_macros<F: Files>(
    known: &mut Known,
    sources: &mut Sources<'_, '_, F>,
    number: usize,
    rules: Rules,
) -> Result<Macros, MacroFault> {
    let alloc = known.alloc;
    let is_free_threaded = rules == Rules::FreeThreaded;
    let macros = Macros::new(alloc, &mut known.symbols, is_free_threaded)?;
    with_libraries(alloc, &mut known.symbols, sources, macros, number)
}

fn define(known: &mut Known, macros: &mut Macros, text: &[u8]) -> Result<(), UnitFault> {
    let mut end = text.len();
    for (at, byte) in text.iter().enumerate() {
        if *byte == b'=' {
            end = at;
            break;
        }
    }
    let name = text.get(..end).unwrap_or(b"");
    let value = text.get(end.saturating_add(1)..).unwrap_or(b"1");
    match macros.define(&mut known.symbols, name, value) {
        Ok(()) => Ok(()),
        Err(fault) => Err(UnitFault::Macro(fault)),
    }
}

fn keep(known: &Known, macros: &mut Macros, lexemes: &[Lexeme]) -> Result<(), AllocError> {
    for lexeme in lexemes {
        if lexeme.kind == LexemeKind::Name {
            let name = known.symbols.text(lexeme.symbol);
            if known.tables.row(name).is_some() {
                macros.keep(lexeme.symbol)?;
            }
        }
    }
    Ok(())
}

/// Adds what functions give that macros take from tables of functions.
fn add_casts(
    types: &mut Types,
    casts: &mut HashSet<Symbol>,
    macros: &Macros,
    lexemes: &[Lexeme],
) -> Result<(), AllocError> {
    for lexeme in lexemes {
        if lexeme.kind == LexemeKind::Name && types.result_of(lexeme.symbol).is_none() {
            if let Some(found) = macros.find(lexeme.symbol) {
                if found.is_cast {
                    casts.insert(lexeme.symbol)?;
                    let body = macros.body(&found)?;
                    if let Some(given) = types.cast_result(body.as_slice()) {
                        types.add_result(lexeme.symbol, given)?;
                    }
                }
            }
        }
    }
    Ok(())
}

impl Known {
    /// Returns whether a source that was read has the name by which the free-threaded rules read another text.
    pub(crate) fn has_other_text(&self) -> bool {
        self.symbols.find(b"Py_GIL_DISABLED").is_some()
    }
}

impl Unit {
    /// Returns the function of the same name at the same place.
    pub(crate) fn partner(&self, function: &Function) -> Option<&Function> {
        for other in self.tree.functions.iter() {
            if other.name == function.name && other.place == function.place {
                return Some(other);
            }
        }
        None
    }
}
