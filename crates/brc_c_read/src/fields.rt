//! Fields of structs and unions.

use crate::cursor::Cursor;
use crate::parsing::Parser;
use crate::stop::Stop;
use crate::type_names::TypeNames;
use brc_c_text::{Lexeme, LexemeKind, Place, Punctuator, Symbols};
use brc_c_tree::{Field, Record, TypeName, names_objects};
use std::alloc::Global;

/// Reads the fields between the braces of a struct or a union. Those of one inside it are fields too, and
/// what isn't understood is passed over.
pub(crate) fn record_of(
    alloc: Global,
    symbols: &Symbols,
    types: &TypeNames,
    inside: &[Lexeme],
    end: Place,
) -> Result<Record, Stop> {
    let mut parser = Parser::new(alloc, Cursor::new(inside, end), symbols, types);
    let mut record = Record {
        is_object: false,
        fields: Vec::new(alloc),
    };
    for _turn in 0..inside.len() {
        if parser.cursor.left() == 0 {
            break;
        }
        let next = parser.cursor.peek();
        if next.kind == LexemeKind::Name && is_head(symbols.text(next.symbol)) {
            record.is_object = true;
            parser.cursor.take();
            continue;
        }
        match parser.field_line(&mut record) {
            Err(Stop::NoMemory) => return Err(Stop::NoMemory),
            Err(Stop::NotRead(_)) | Ok(()) => parser.skip_to_separator(),
        }
    }
    Ok(record)
}

fn is_head(name: &[u8]) -> bool {
    name == b"PyObject_HEAD".as_slice() || name == b"PyObject_VAR_HEAD".as_slice()
}

impl<'a> Parser<'a> {
    /// Reads the fields that one type has, as far as they are understood.
    fn field_line(&mut self, record: &mut Record) -> Result<(), Stop> {
        if let LexemeKind::Punctuator(_) = self.cursor.peek().kind {
            return Ok(());
        }
        let type_name = self.field_type()?;
        for _turn in 0..self.cursor.left() {
            let field = self.field(type_name)?;
            if self.symbols.text(field.name) == b"ob_base".as_slice()
                || (record.fields.is_empty() && self.is_struct_of_object(field.type_name))
            {
                record.is_object = true;
            }
            record.fields.push(field)?;
            if self.cursor.eat(Punctuator::Colon) {
                self.cursor.take();
            }
            if !self.cursor.eat(Punctuator::Comma) {
                break;
            }
        }
        Ok(())
    }

    /// Returns whether the type is that of an object itself, and not of a pointer to one.
    fn is_struct_of_object(&self, type_name: TypeName) -> bool {
        type_name.stars == 0
            && !type_name.is_function
            && names_objects(self.symbols.text(type_name.symbol))
    }

    /// Reads the type of a field. The body of a struct inside isn't passed over.
    fn field_type(&mut self) -> Result<TypeName, Stop> {
        if let LexemeKind::Keyword(keyword) = self.cursor.peek().kind {
            if keyword.has_tag() {
                for by in 1..3 {
                    if self.cursor.ahead(by).is(Punctuator::LeftBrace) {
                        return Err(self.no_name());
                    }
                }
            }
        }
        Ok(self.specifiers()?.type_name)
    }

    fn field(&mut self, base: TypeName) -> Result<Field, Stop> {
        let mut type_name = self.stars(base);
        let name = if self.cursor.peek().is(Punctuator::LeftParen) {
            type_name.is_function = true;
            match self.function_pointer()? {
                Some(name) => name,
                None => return Err(self.no_name()),
            }
        } else {
            self.cursor.name()?
        };
        type_name.stars = type_name.stars.saturating_add(self.dimensions()?);
        Ok(Field {
            name: name.symbol,
            type_name,
        })
    }

    /// Passes all up to the next semicolon or brace, and that. What a brace ends has no type of its own.
    fn skip_to_separator(&mut self) {
        for _turn in 0..self.cursor.left() {
            let next = self.cursor.take();
            if next.is(Punctuator::RightBrace) {
                // The names of a struct inside come after it.
                continue;
            }
            if next.is(Punctuator::Semicolon) || next.is(Punctuator::LeftBrace) {
                break;
            }
        }
    }
}
