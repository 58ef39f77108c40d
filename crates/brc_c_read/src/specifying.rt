//! Names of types, and where one is.

use crate::parsing::Parser;
use crate::stop::{Stop, not_read};
use brc_c_text::{Keyword, Lexeme, LexemeKind, Punctuator};
use brc_c_tree::{Expected, Reason, Tag, TypeName, names_objects};

/// The specifiers of a declaration.
#[derive(Clone, Copy)]
pub(crate) struct Specifiers {
    pub(crate) type_name: TypeName,
    pub(crate) is_static: bool,
    pub(crate) is_extern: bool,
    pub(crate) is_const: bool,
}

impl<'a> Parser<'a> {
    /// Reads specifiers. The first name among them is a type, whether it is known or not.
    pub(crate) fn specifiers(&mut self) -> Result<Specifiers, Stop> {
        let mut found = Specifiers {
            type_name: TypeName {
                symbol: self.types.int(),
                tag: None,
                stars: 0,
                is_function: false,
            },
            is_static: false,
            is_extern: false,
            is_const: false,
        };
        let mut has_word = false;
        for _turn in 0..self.cursor.left() {
            let next = self.cursor.peek();
            match next.kind {
                LexemeKind::Keyword(keyword) if keyword.is_qualifier() => {
                    self.cursor.take();
                    found.is_static |= keyword == Keyword::Static;
                    found.is_extern |= keyword == Keyword::Extern;
                    found.is_const |= keyword == Keyword::Const;
                }
                LexemeKind::Keyword(keyword) if keyword.has_tag() => {
                    found.type_name = self.tagged(keyword)?;
                    has_word = true;
                }
                LexemeKind::Name if self.is_attribute(&next) => self.attribute()?,
                LexemeKind::Name if !has_word || self.is_more_of_type(&next) => {
                    self.cursor.take();
                    found.type_name.symbol = next.symbol;
                    has_word = true;
                }
                _ => break,
            }
        }
        Ok(found)
    }

    /// Returns whether a name after a type's first symbol is a symbol of the type too: a name follows it.
    fn is_more_of_type(&self, next: &Lexeme) -> bool {
        let behind = self.cursor.ahead(1);
        self.types.is_basic(next.symbol)
            || (behind.kind == LexemeKind::Name && !self.is_attribute(&behind))
    }

    /// Reads a struct, a union or an enumeration: its tag, its body, or both.
    fn tagged(&mut self, keyword: Keyword) -> Result<TypeName, Stop> {
        let place = self.cursor.take().place;
        let mut type_name = TypeName {
            symbol: self.types.int(),
            tag: Some(match keyword {
                Keyword::Union => Tag::Union,
                Keyword::Enum => Tag::Enum,
                _ => Tag::Struct,
            }),
            stars: 0,
            is_function: false,
        };
        if self.cursor.peek().kind == LexemeKind::Name {
            type_name.symbol = self.cursor.take().symbol;
        }
        if self.cursor.peek().is(Punctuator::LeftBrace)
            && !self
                .cursor
                .skip_nested(Punctuator::LeftBrace, Punctuator::RightBrace)
        {
            return Err(not_read(place, Reason::NotClosed));
        }
        Ok(type_name)
    }

    pub(crate) fn is_attribute(&self, lexeme: &Lexeme) -> bool {
        ATTRIBUTES.contains(&self.symbols.text(lexeme.symbol))
    }

    /// Passes an attribute, and notes the function that it says to be called at the end of a variable.
    fn attribute(&mut self) -> Result<(), Stop> {
        let place = self.cursor.take().place;
        if !self.cursor.peek().is(Punctuator::LeftParen) {
            return Ok(());
        }
        let first = self.cursor;
        if !self
            .cursor
            .skip_nested(Punctuator::LeftParen, Punctuator::RightParen)
        {
            return Err(not_read(place, Reason::NotClosed));
        }
        // It may be one of several attributes in the parentheses.
        for by in 0..first.left().saturating_sub(self.cursor.left()) {
            if CLEANUPS.contains(&self.symbols.text(first.ahead(by).symbol)) {
                let function = first.ahead(by.saturating_add(2));
                if function.kind != LexemeKind::Name {
                    return Err(not_read(place, Reason::Cleanup));
                }
                self.cleanup = Some(function.symbol);
            }
        }
        Ok(())
    }

    /// Passes the attributes that come next.
    pub(crate) fn attributes(&mut self) -> Result<(), Stop> {
        for _turn in 0..self.cursor.left() {
            let next = self.cursor.peek();
            if next.kind != LexemeKind::Name || !self.is_attribute(&next) {
                break;
            }
            self.attribute()?;
        }
        Ok(())
    }

    /// Reads the stars before a name, and adds them to its type.
    pub(crate) fn stars(&mut self, to: TypeName) -> TypeName {
        let mut type_name = to;
        for _turn in 0..self.cursor.left() {
            if self.cursor.eat(Punctuator::Star) {
                type_name = type_name.pointer();
            } else if !is_behind_star(&self.cursor.peek()) {
                break;
            } else {
                self.cursor.take();
            }
        }
        type_name
    }

    /// Reads a type without a name, as in a cast.
    pub(crate) fn type_name(&mut self) -> Result<TypeName, Stop> {
        let mut base = self.specifiers()?.type_name;
        // No name is declared here, so each one is part of the type.
        if self.cursor.peek().kind == LexemeKind::Name {
            base.symbol = self.cursor.take().symbol;
        }
        let mut type_name = self.stars(base);
        if self.cursor.peek().is(Punctuator::LeftParen) {
            self.function_pointer()?;
            type_name.is_function = true;
        }
        Ok(type_name)
    }

    /// Passes `(*)(..)`, and returns the first name in the first parentheses.
    pub(crate) fn function_pointer(&mut self) -> Result<Option<Lexeme>, Stop> {
        let place = self.cursor.peek().place;
        let mut name = None;
        for by in 1..self.cursor.left() {
            let lexeme = self.cursor.ahead(by);
            if lexeme.is(Punctuator::RightParen) {
                break;
            }
            if lexeme.kind == LexemeKind::Name {
                name = Some(lexeme);
                break;
            }
        }
        let mut is_closed = self
            .cursor
            .skip_nested(Punctuator::LeftParen, Punctuator::RightParen);
        if self.cursor.peek().is(Punctuator::LeftParen) {
            is_closed &= self
                .cursor
                .skip_nested(Punctuator::LeftParen, Punctuator::RightParen);
        }
        if is_closed {
            Ok(name)
        } else {
            Err(not_read(place, Reason::NotClosed))
        }
    }

    /// Reads a cast.
    pub(crate) fn cast(&mut self) -> Result<TypeName, Stop> {
        self.cursor.take();
        let type_name = self.type_name()?;
        for _turn in 0..self.cursor.left() {
            if !self.cursor.peek().is(Punctuator::LeftBracket) {
                break;
            }
            self.cursor
                .skip_nested(Punctuator::LeftBracket, Punctuator::RightBracket);
        }
        self.cursor.expect(Punctuator::RightParen)?;
        Ok(type_name)
    }

    /// Returns whether the parenthesis that comes next begins a cast.
    pub(crate) fn is_cast(&self) -> bool {
        let first = self.cursor.ahead(1);
        match first.kind {
            LexemeKind::Keyword(keyword) => keyword.is_qualifier() || keyword.has_tag(),
            LexemeKind::Name => {
                self.is_declared_type(first.symbol)
                    || (!self.is_variable(&first) && self.is_unknown_cast(&first))
            }
            _ => false,
        }
    }

    /// Returns whether the name, of which nothing is known, is the type of a cast: it has stars after it, or the
    /// parenthesis after it doesn't end an operand.
    fn is_unknown_cast(&self, first: &Lexeme) -> bool {
        let behind = self.behind_stars(2);
        // The array of pointers that follows is one of values in braces.
        if behind > 2 && self.cursor.ahead(behind).is(Punctuator::LeftBracket) {
            return true;
        }
        if self.is_any_function_pointer(behind) {
            return true;
        }
        if !self.cursor.ahead(behind).is(Punctuator::RightParen) {
            return false;
        }
        if behind > 2 {
            return true;
        }
        let next = self.cursor.ahead(behind.saturating_add(1));
        match next.kind {
            LexemeKind::Name | LexemeKind::Number | LexemeKind::Text => true,
            // A value in braces is of the type before it.
            LexemeKind::Punctuator(Punctuator::LeftBrace) => true,
            LexemeKind::Keyword(keyword) => keyword == Keyword::Sizeof,
            LexemeKind::Punctuator(Punctuator::LeftParen | Punctuator::And) => {
                sounds_like_type(self.symbols.text(first.symbol))
            }
            _ => false,
        }
    }

    /// Returns whether `(*)` is at a place, counted from the next lexeme.
    fn is_any_function_pointer(&self, at: usize) -> bool {
        self.cursor.ahead(at).is(Punctuator::LeftParen)
            && self.cursor.ahead(at.saturating_add(1)).is(Punctuator::Star)
            && self
                .cursor
                .ahead(at.saturating_add(2))
                .is(Punctuator::RightParen)
    }

    /// Returns the first place from this one on, counted from the next lexeme, that has neither a star nor `const`.
    fn behind_stars(&self, from: usize) -> usize {
        for by in from..self.cursor.left() {
            if !is_behind_star(&self.cursor.ahead(by))
                && !self.cursor.ahead(by).is(Punctuator::Star)
            {
                return by;
            }
        }
        from
    }

    /// Returns whether an argument of a call of this function comes next that is a type.
    pub(crate) fn is_type_argument(&self, function: &Lexeme) -> bool {
        let first = self.cursor.peek();
        if !self.is_type(&first) || self.is_variable(&first) {
            return false;
        }
        if let LexemeKind::Keyword(_) = first.kind {
            return true;
        }
        let behind = self.behind_stars(1);
        let next = self.cursor.ahead(behind);
        let ends = next.is(Punctuator::Comma) || next.is(Punctuator::RightParen);
        let is_sure = behind > 1
            || self.is_declared_type(first.symbol)
            || takes_type(self.symbols.text(function.symbol));
        ends && is_sure
    }

    /// Returns whether a declaration comes next.
    pub(crate) fn is_declaration(&self) -> bool {
        let first = self.cursor.peek();
        let next = self.cursor.ahead(1);
        if first.kind == LexemeKind::Name && self.is_attribute(&first) {
            return true;
        }
        if self.is_type(&first) && !ends_operand(&next) {
            return !next.is(Punctuator::LeftParen) || self.cursor.ahead(2).is(Punctuator::Star);
        }
        if first.kind != LexemeKind::Name || self.is_variable(&first) {
            return false;
        }
        if self.declares_function_pointer() {
            return true;
        }
        let behind = self.behind_stars(1);
        let follows = self.cursor.ahead(behind.saturating_add(1));
        self.cursor.ahead(behind).kind == LexemeKind::Name
            && (follows.is(Punctuator::Equal)
                || follows.is(Punctuator::Semicolon)
                || follows.is(Punctuator::Comma)
                || follows.is(Punctuator::LeftBracket))
    }

    /// Returns whether `(*name)(` comes after the next lexeme.
    fn declares_function_pointer(&self) -> bool {
        self.cursor.ahead(1).is(Punctuator::LeftParen)
            && self.cursor.ahead(2).is(Punctuator::Star)
            && self.cursor.ahead(3).kind == LexemeKind::Name
            && self.cursor.ahead(4).is(Punctuator::RightParen)
            && self.cursor.ahead(5).is(Punctuator::LeftParen)
    }

    /// Returns that a name is expected.
    pub(crate) fn no_name(&self) -> Stop {
        self.instead(Expected::Name)
    }
}

fn is_behind_star(lexeme: &Lexeme) -> bool {
    match lexeme.kind {
        LexemeKind::Keyword(keyword) => keyword.is_qualifier(),
        _ => false,
    }
}

/// Returns whether the name before this lexeme is a value, whatever it looks like.
fn ends_operand(next: &Lexeme) -> bool {
    matches!(
        next.kind,
        LexemeKind::Punctuator(
            Punctuator::Equal
                | Punctuator::Arrow
                | Punctuator::Dot
                | Punctuator::LeftBracket
                | Punctuator::Semicolon
                | Punctuator::RightParen
                | Punctuator::Comma
                | Punctuator::EqualEqual
                | Punctuator::NotEqual
        )
    )
}

/// Returns whether a name of which nothing is known may be a type before an operand in parentheses.
fn sounds_like_type(name: &[u8]) -> bool {
    names_objects(name)
        || name.ends_with(b"_t")
        || name.ends_with(b"func")
        || name.ends_with(b"proc")
        || name.starts_with(b"PyCFunction")
}

/// Words that begin an attribute.
const ATTRIBUTES: [&[u8]; 10] = [
    b"__attribute__",
    b"__attribute",
    b"__declspec",
    b"__extension__",
    b"__thread",
    b"_Thread_local",
    b"thread_local",
    b"_Alignas",
    b"alignas",
    b"Py_ALIGNED",
];

/// The names of the attribute that calls a function where a variable ends.
const CLEANUPS: [&[u8]; 2] = [b"cleanup", b"__cleanup__"];

/// Functions and macros that take a type.
const TYPE_TAKERS: [&[u8]; 11] = [
    b"PyObject_New",
    b"PyObject_NEW",
    b"PyObject_NewVar",
    b"PyObject_GC_New",
    b"PyObject_GC_NewVar",
    b"PyMem_New",
    b"PyMem_NEW",
    b"PyMem_Resize",
    b"va_arg",
    b"offsetof",
    b"Py_OFFSETOF",
];

/// Returns whether the function or macro takes a type.
fn takes_type(name: &[u8]) -> bool {
    TYPE_TAKERS.contains(&name)
}
