//! How the functions that a file declares are used in it.

use brc_c_text::{Lexeme, LexemeKind, Punctuator, Symbol};
use brc_c_tree::SourceTree;
use std::alloc::{AllocError, Global};
use std::collections::HashSet;

/// The functions that a file calls by name, and those that it takes as values, as a method table does.
#[derive(Drop)]
pub struct Uses {
    called: HashSet<Symbol>,
    taken: HashSet<Symbol>,
}

impl Uses {
    pub(crate) fn calls(&self, name: Symbol) -> bool {
        self.called.contains(&name)
    }

    pub(crate) fn takes(&self, name: Symbol) -> bool {
        self.taken.contains(&name)
    }

    fn add(&mut self, name: Symbol, is_called: bool, is_inside: bool) -> Result<(), AllocError> {
        if !is_called {
            self.taken.insert(name)?;
        } else if is_inside {
            self.called.insert(name)?;
        }
        Ok(())
    }
}

/// Returns how a file, of which these are the lexemes, uses the functions of its tree.
pub fn uses_of(alloc: Global, tree: &SourceTree, lexemes: &[Lexeme]) -> Result<Uses, AllocError> {
    let declared = declared_in(alloc, tree)?;
    let mut uses = Uses {
        called: HashSet::new(alloc),
        taken: HashSet::new(alloc),
    };
    let mut depth: usize = 0;
    let mut before = None;
    for (at, lexeme) in lexemes.iter().enumerate() {
        if lexeme.is(Punctuator::LeftBrace) {
            depth = depth.saturating_add(1);
        } else if lexeme.is(Punctuator::RightBrace) {
            depth = depth.saturating_sub(1);
        } else if is_use(&declared, before, lexeme) {
            let is_called = match lexemes.get(at.saturating_add(1)) {
                Some(next) => next.is(Punctuator::LeftParen),
                None => false,
            };
            uses.add(lexeme.symbol, is_called, depth > 0)?;
        }
        before = Some(lexeme.kind);
    }
    Ok(uses)
}

/// Returns whether a lexeme is the name of a function, and not that of a field.
fn is_use(declared: &HashSet<Symbol>, before: Option<LexemeKind>, lexeme: &Lexeme) -> bool {
    let is_field = matches!(
        before,
        Some(LexemeKind::Punctuator(Punctuator::Dot | Punctuator::Arrow))
    );
    lexeme.kind == LexemeKind::Name && !is_field && declared.contains(&lexeme.symbol)
}

fn declared_in(alloc: Global, tree: &SourceTree) -> Result<HashSet<Symbol>, AllocError> {
    let mut declared = HashSet::new(alloc);
    for function in tree.functions.iter() {
        declared.insert(function.name)?;
    }
    for prototype in tree.prototypes.iter() {
        declared.insert(prototype.name)?;
    }
    Ok(declared)
}
