//! Declarations outside functions.

use crate::cursor::Cursor;
use crate::fields::record_of;
use crate::parsing::Parser;
use crate::specifying::Specifiers;
use crate::stop::Stop;
use crate::type_names::TypeNames;
use brc_c_text::{Keyword, Lexeme, LexemeKind, Place, Punctuator, Symbol, Symbols};
use brc_c_tree::{Alias, Prototype, RecordName, SourceTree, TypeName, Variable};
use std::alloc::Global;

/// A name that is declared outside functions.
#[derive(Clone, Copy)]
struct Declared {
    name: Symbol,
    type_name: TypeName,
    place: Place,
    /// Whether parentheses come after it.
    is_prototype: bool,
    /// Whether it never has another value than its first one.
    is_constant: bool,
    /// The string that is its first value.
    string: Option<Symbol>,
}

/// Adds what a declaration declares, as far as it is understood. `inside` is what its first braces enclose.
pub(crate) fn declare(
    alloc: Global,
    symbols: &Symbols,
    types: &mut TypeNames,
    tree: &mut SourceTree,
    whole: &[Lexeme],
    inside: Option<&[Lexeme]>,
) -> Result<(), Stop> {
    let Some(first) = whole.first() else {
        return Ok(());
    };
    let is_typedef = first.kind == LexemeKind::Keyword(Keyword::Typedef);
    let rest = if is_typedef {
        whole.get(1..).unwrap_or(&[])
    } else {
        whole
    };
    let record = match inside {
        Some(inside) if has_record(rest) => {
            let record = tree.records.len();
            let read = record_of(alloc, symbols, types, inside, first.place)?;
            tree.records.push(read)?;
            add_tag(tree, rest, record)?;
            Some(record)
        }
        _ => None,
    };
    let declared = declared_by(alloc, symbols, types, rest)?;
    for one in &declared {
        if is_typedef {
            types.add(one.name)?;
            add_type(tree, one, record)?;
        } else {
            add_value(tree, one)?;
        }
    }
    Ok(())
}

/// Gives a record the tag of its declaration, if it has one.
fn add_tag(tree: &mut SourceTree, whole: &[Lexeme], record: usize) -> Result<(), Stop> {
    let mut follows_keyword = false;
    for lexeme in whole {
        if lexeme.is(Punctuator::LeftBrace) {
            break;
        }
        if follows_keyword && lexeme.kind == LexemeKind::Name {
            tree.record_names.push(RecordName {
                name: lexeme.symbol,
                stars: 0,
                record,
            })?;
            break;
        }
        follows_keyword |= is_record_keyword(lexeme);
    }
    Ok(())
}

/// Adds a name that `typedef` gives: to the record of its declaration, or to another type.
fn add_type(tree: &mut SourceTree, one: &Declared, record: Option<usize>) -> Result<(), Stop> {
    match record {
        Some(record) => tree.record_names.push(RecordName {
            name: one.name,
            stars: one.type_name.stars,
            record,
        })?,
        None => tree.aliases.push(Alias {
            name: one.name,
            type_name: one.type_name,
        })?,
    }
    Ok(())
}

fn add_value(tree: &mut SourceTree, one: &Declared) -> Result<(), Stop> {
    if one.is_prototype {
        tree.prototypes.push(Prototype {
            name: one.name,
            result: one.type_name,
            place: one.place,
        })?;
    } else {
        tree.variables.push(Variable {
            name: one.name,
            type_name: one.type_name,
            place: one.place,
            string: if one.is_constant { one.string } else { None },
        })?;
    }
    Ok(())
}

fn is_record_keyword(lexeme: &Lexeme) -> bool {
    matches!(
        lexeme.kind,
        LexemeKind::Keyword(Keyword::Struct | Keyword::Union)
    )
}

/// Returns whether the first braces of a declaration are those of a struct or a union.
fn has_record(whole: &[Lexeme]) -> bool {
    let mut is_record = false;
    for lexeme in whole {
        if lexeme.is(Punctuator::LeftBrace) {
            return is_record;
        }
        if lexeme.is(Punctuator::Equal) {
            return false;
        }
        is_record |= is_record_keyword(lexeme);
    }
    false
}

/// Reads the names that a declaration declares, up to the first that isn't understood.
fn declared_by(
    alloc: Global,
    symbols: &Symbols,
    types: &TypeNames,
    whole: &[Lexeme],
) -> Result<Vec<Declared>, Stop> {
    let mut found = Vec::new(alloc);
    let Some(last) = whole.last() else {
        return Ok(found);
    };
    let mut parser = Parser::new(alloc, Cursor::new(whole, last.place), symbols, types);
    let Ok(specifiers) = parser.specifiers() else {
        return Ok(found);
    };
    for _turn in 0..whole.len() {
        let mut declared = match parser.declared(specifiers) {
            Ok(declared) => declared,
            Err(Stop::NotRead(_)) => break,
            Err(Stop::NoMemory) => return Err(Stop::NoMemory),
        };
        declared.string = parser.first_string();
        found.push(declared)?;
        parser.skip_value();
        if !parser.cursor.eat(Punctuator::Comma) {
            break;
        }
    }
    Ok(found)
}

/// Returns whether the last lexeme between two places is `const`: the pointer that follows is constant itself.
fn ends_with_const(from: Cursor<'_>, to: Cursor<'_>) -> bool {
    match from.left().saturating_sub(to.left()).checked_sub(1) {
        Some(last) => from.ahead(last).kind == LexemeKind::Keyword(Keyword::Const),
        None => false,
    }
}

impl<'a> Parser<'a> {
    /// Reads a name with its stars, its dimensions and the parentheses after it.
    fn declared(&mut self, specifiers: Specifiers) -> Result<Declared, Stop> {
        let stars = self.cursor;
        let mut type_name = self.stars(specifiers.type_name);
        let is_constant = ends_with_const(stars, self.cursor);
        let is_pointer = self.cursor.peek().is(Punctuator::LeftParen)
            && self.cursor.ahead(1).is(Punctuator::Star);
        let name = if is_pointer {
            type_name.is_function = true;
            match self.function_pointer()? {
                Some(name) => name,
                None => return Err(self.no_name()),
            }
        } else {
            self.cursor.name()?
        };
        let is_prototype = self.cursor.peek().is(Punctuator::LeftParen);
        if is_prototype {
            self.cursor
                .skip_nested(Punctuator::LeftParen, Punctuator::RightParen);
        }
        let dimensions = self.dimensions()?;
        type_name.stars = type_name.stars.saturating_add(dimensions);
        self.attributes()?;
        Ok(Declared {
            name: name.symbol,
            type_name,
            place: name.place,
            is_prototype,
            is_constant: is_constant || (dimensions > 0 && specifiers.is_const),
            string: None,
        })
    }

    /// Returns the string that comes next as a value.
    fn first_string(&self) -> Option<Symbol> {
        let first = self.cursor.ahead(1);
        let behind = self.cursor.ahead(2);
        let is_whole = behind.kind == LexemeKind::End || behind.is(Punctuator::Comma);
        if self.cursor.peek().is(Punctuator::Equal) && first.kind == LexemeKind::Text && is_whole {
            Some(first.symbol)
        } else {
            None
        }
    }

    /// Passes `=` and the value after it.
    fn skip_value(&mut self) {
        if !self.cursor.eat(Punctuator::Equal) {
            return;
        }
        let mut depth: usize = 0;
        for _turn in 0..self.cursor.left() {
            let next = self.cursor.peek();
            if depth == 0 && next.is(Punctuator::Comma) {
                break;
            }
            if next.is(Punctuator::LeftParen) || next.is(Punctuator::LeftBrace) {
                depth = depth.saturating_add(1);
            } else if next.is(Punctuator::RightParen) || next.is(Punctuator::RightBrace) {
                depth = depth.saturating_sub(1);
            }
            self.cursor.take();
        }
    }
}
