//! Heads of functions.

use crate::cursor::Cursor;
use crate::listing::without_names;
use crate::parsing::Parser;
use crate::stop::Stop;
use crate::type_names::TypeNames;
use brc_c_text::{Keyword, Lexeme, LexemeKind, Punctuator, Symbols};
use brc_c_tree::{Parameter, Tag, TypeName};
use std::alloc::Global;

/// A function's name, what comes before it, and what its parentheses enclose.
#[derive(Clone, Copy)]
pub(crate) struct Head<'a> {
    pub(crate) name: Lexeme,
    pub(crate) before: &'a [Lexeme],
    pub(crate) inside: &'a [Lexeme],
    /// The declarations of its parameters, if it is one of the style of K&R, and otherwise nothing.
    pub(crate) declared: &'a [Lexeme],
}

/// Returns the parts of a head, or `None` if it isn't one.
pub(crate) fn head_of<'a>(symbols: &Symbols, whole: &'a [Lexeme]) -> Option<Head<'a>> {
    let behind = declared_from(whole).unwrap_or(whole.len());
    let lexemes = whole.get(..behind)?;
    let declared = whole.get(behind..)?;
    // Attributes may follow the parameters.
    let mut end = without_names(lexemes).len();
    for _turn in 0..lexemes.len() {
        let open = opening(lexemes.get(..end)?)?;
        let at = open.checked_sub(1)?;
        let name = lexemes.get(at)?;
        if name.kind != LexemeKind::Name {
            return None;
        }
        if !is_attribute(symbols.text(name.symbol)) {
            return Some(Head {
                name: *name,
                before: lexemes.get(..at)?,
                inside: lexemes.get(open.checked_add(1)?..end.checked_sub(1)?)?,
                declared,
            });
        }
        end = at;
    }
    None
}

/// Returns where the declarations of the parameters begin in a head of the style of K&R.
fn declared_from(head: &[Lexeme]) -> Option<usize> {
    if head.last()?.is(Punctuator::Semicolon) {
        names_end(head)
    } else {
        None
    }
}

/// Returns the place after the first parentheses, if they come after a name, enclose names only, and a declaration
/// follows: so a head of the style of K&R begins.
pub(crate) fn names_end(lexemes: &[Lexeme]) -> Option<usize> {
    let open = lexemes
        .iter()
        .position(|lexeme| lexeme.is(Punctuator::LeftParen))?;
    let inside = open.checked_add(1)?;
    let names = lexemes.get(inside..)?.iter().position(|lexeme| lexeme.kind != LexemeKind::Name
        && !lexeme.is(Punctuator::Comma))?;
    let close = inside.checked_add(names)?;
    let end = close.checked_add(1)?;
    let follows_name = lexemes.get(open.checked_sub(1)?)?.kind == LexemeKind::Name;
    let is_closed = names > 0 && lexemes.get(close)?.is(Punctuator::RightParen);
    let is_declared = matches!(
        lexemes.get(end)?.kind,
        LexemeKind::Name | LexemeKind::Keyword(_)
    );
    if follows_name && is_closed && is_declared {
        Some(end)
    } else {
        None
    }
}

fn is_attribute(name: &[u8]) -> bool {
    name.starts_with(b"__attribute")
}

/// Returns the place of the parenthesis that the last of these lexemes closes.
fn opening(lexemes: &[Lexeme]) -> Option<usize> {
    let mut depth: usize = 0;
    for (at, lexeme) in lexemes.iter().enumerate().rev() {
        if lexeme.is(Punctuator::RightParen) {
            depth = depth.saturating_add(1);
        } else if lexeme.is(Punctuator::LeftParen) {
            depth = depth.saturating_sub(1);
        }
        if depth == 0 {
            return if lexeme.is(Punctuator::LeftParen) {
                Some(at)
            } else {
                None
            };
        }
    }
    None
}

/// Returns the type of a function's result: the last name before its own name, with the stars after it.
pub(crate) fn result_of(types: &TypeNames, before: &[Lexeme]) -> TypeName {
    let mut found = TypeName {
        symbol: types.int(),
        tag: None,
        stars: 0,
        is_function: false,
    };
    let mut tag = None;
    for lexeme in before {
        match lexeme.kind {
            LexemeKind::Name => {
                found.symbol = lexeme.symbol;
                found.tag = tag;
                found.stars = 0;
                tag = None;
            }
            LexemeKind::Keyword(keyword) => tag = tag_of(keyword).or(tag),
            _ if lexeme.is(Punctuator::Star) => found = found.pointer(),
            _ => {}
        }
    }
    found
}

fn tag_of(keyword: Keyword) -> Option<Tag> {
    match keyword {
        Keyword::Struct => Some(Tag::Struct),
        Keyword::Union => Some(Tag::Union),
        Keyword::Enum => Some(Tag::Enum),
        _ => None,
    }
}

pub(crate) fn is_static(before: &[Lexeme]) -> bool {
    for lexeme in before {
        if lexeme.kind == LexemeKind::Keyword(Keyword::Static) {
            return true;
        }
    }
    false
}

/// Reads the parameters in a head's parentheses.
pub(crate) fn parameters_of(
    alloc: Global,
    symbols: &Symbols,
    types: &TypeNames,
    head: &Head<'_>,
) -> Result<Vec<Parameter>, Stop> {
    if !head.declared.is_empty() {
        return declared_parameters(alloc, symbols, types, head);
    }
    let cursor = Cursor::new(head.inside, head.name.place);
    let mut parser = Parser::new(alloc, cursor, symbols, types);
    let mut found = Vec::new(alloc);
    for _turn in 0..head.inside.len() {
        if parser.cursor.left() == 0 {
            break;
        }
        let parameter = parser.parameter()?;
        let is_void = parameter.name.is_none()
            && parameter.type_name.stars == 0
            && symbols.text(parameter.type_name.symbol) == b"void".as_slice();
        if !is_void {
            found.push(parameter)?;
        }
        parser.skip_to_comma();
    }
    Ok(found)
}

/// Reads the parameters of a head in the style of K&R.
fn declared_parameters(
    alloc: Global,
    symbols: &Symbols,
    types: &TypeNames,
    head: &Head<'_>,
) -> Result<Vec<Parameter>, Stop> {
    let mut found = Vec::new(alloc);
    for lexeme in head.inside {
        if lexeme.kind == LexemeKind::Name {
            found.push(Parameter {
                name: Some(lexeme.symbol),
                type_name: TypeName {
                    symbol: types.int(),
                    tag: None,
                    stars: 0,
                    is_function: false,
                },
                is_variadic: false,
            })?;
        }
    }
    let cursor = Cursor::new(head.declared, head.name.place);
    let mut parser = Parser::new(alloc, cursor, symbols, types);
    for _turn in 0..head.declared.len() {
        if parser.cursor.left() == 0 {
            break;
        }
        let specifiers = parser.specifiers()?;
        parser.type_parameters(specifiers.type_name, &mut found)?;
        parser.cursor.expect(Punctuator::Semicolon)?;
    }
    Ok(found)
}

impl<'a> Parser<'a> {
    /// Reads the names after the specifiers of a declaration, and gives the parameters of these names their types.
    fn type_parameters(
        &mut self,
        base: TypeName,
        parameters: &mut Vec<Parameter>,
    ) -> Result<(), Stop> {
        for _turn in 0..self.cursor.left() {
            let mut type_name = self.stars(base);
            let name = if self.cursor.peek().is(Punctuator::LeftParen) {
                type_name.is_function = true;
                self.function_pointer()?
            } else {
                Some(self.cursor.name()?)
            };
            let dimensions = self.dimensions()?;
            type_name.stars = type_name.stars.saturating_add(dimensions);
            let symbol = name.map(|lexeme| lexeme.symbol);
            for parameter in parameters.iter_mut() {
                if parameter.name == symbol {
                    parameter.type_name = type_name;
                }
            }
            if !self.cursor.eat(Punctuator::Comma) {
                break;
            }
        }
        Ok(())
    }

    /// Reads a parameter as far as it is understood.
    fn parameter(&mut self) -> Result<Parameter, Stop> {
        let is_variadic = self.cursor.eat(Punctuator::Ellipsis);
        let specifiers = self.specifiers()?;
        let mut type_name = self.stars(specifiers.type_name);
        let mut name = None;
        if self.cursor.peek().is(Punctuator::LeftParen) {
            type_name.is_function = true;
            name = self.function_pointer()?;
        } else if self.cursor.peek().kind == LexemeKind::Name {
            let mut last = self.cursor.take();
            if self.symbols.text(last.symbol) == b"Py_UNUSED".as_slice()
                && self.cursor.eat(Punctuator::LeftParen)
            {
                last = self.cursor.take();
                self.cursor.eat(Punctuator::RightParen);
            }
            name = Some(last);
        }
        let dimensions = self.dimensions()?;
        type_name.stars = type_name.stars.saturating_add(dimensions);
        Ok(Parameter {
            name: name.map(|lexeme| lexeme.symbol),
            type_name,
            is_variadic,
        })
    }

    /// Passes all up to the next comma outside parentheses, and the comma.
    pub(crate) fn skip_to_comma(&mut self) {
        let mut depth: usize = 0;
        for _turn in 0..self.cursor.left() {
            let next = self.cursor.take();
            if next.is(Punctuator::LeftParen) {
                depth = depth.saturating_add(1);
            } else if next.is(Punctuator::RightParen) {
                depth = depth.saturating_sub(1);
            } else if depth == 0 && next.is(Punctuator::Comma) {
                break;
            }
        }
    }
}
