use crate::uses::Uses;
use brc_c_flow::Usage;
use brc_c_table::Tables;
use brc_c_text::{Symbol, Symbols};
use brc_c_tree::{Function, SourceTree};
use brc_c_types::Types;
use std::alloc::Global;
use std::collections::HashSet;

/// A file of a program with its headers, as it is read.
#[derive(Clone, Copy)]
pub struct File<'a> {
    pub tree: &'a SourceTree,
    pub types: &'a Types,
    pub uses: &'a Uses,
    pub usage: &'a Usage,
    /// Macros that take a function from a table of functions, by the names of these.
    pub casts: &'a HashSet<Symbol>,
}

/// All files of a program, and what is known beside them.
#[derive(Clone, Copy)]
pub(crate) struct Files<'a> {
    pub(crate) alloc: Global,
    pub(crate) symbols: &'a Symbols,
    pub(crate) tables: &'a Tables,
    pub(crate) files: &'a [File<'a>],
}

/// A function of a program: the number of its file, and its place there.
#[derive(Clone, Copy)]
pub(crate) struct Numbered {
    pub(crate) file: usize,
    pub(crate) place: usize,
}

impl<'a> Files<'a> {
    /// Returns the file and the tree of a function.
    pub(crate) fn function(&self, numbered: Numbered) -> Option<(File<'a>, &'a Function)> {
        let files = self.files;
        let file = *files.get(numbered.file)?;
        let function = file.tree.functions.get(numbered.place)?;
        Some((file, function))
    }
}
