use brc_c_text::{Keyword, LexemeKind, Place, Punctuator, Symbol};

/// The greatest number of functions that are read of a source.
pub const FUNCTION_LIMIT: usize = 512;

/// The greatest number of lexemes in a function's body.
pub const TOKEN_LIMIT: usize = 32768;

/// How deep statements and parentheses may be nested in one another.
pub const NESTING_LIMIT: usize = 64;

/// What the grammar has at a place.
#[derive(Clone, Copy)]
pub enum Expected {
    Punctuator(Punctuator),
    Keyword(Keyword),
    Expression,
    /// The name of a variable, a field or a label.
    Name,
}

/// Why a function isn't read.
#[derive(Clone, Copy)]
pub enum Reason {
    /// Another lexeme is there than the grammar has.
    Instead {
        found: LexemeKind,
        symbol: Symbol,
        expected: Expected,
    },
    /// A byte that C doesn't have.
    Unknown(Symbol),
    /// The use of a macro that makes too many lexemes.
    Endless(Symbol),
    /// `...` in place of code.
    MissingCode,
    /// `({ .. })`
    StatementExpression,
    /// `asm`
    Assembler,
    /// `__attribute__((cleanup(..)))`, which calls a function where a variable ends.
    Cleanup,
    /// A brace or a parenthesis isn't closed.
    NotClosed,
    /// The body has more than `TOKEN_LIMIT` lexemes.
    TooLong,
    /// Statements and parentheses are nested more than `NESTING_LIMIT` deep.
    TooDeep,
    /// The source has `FUNCTION_LIMIT` functions before it.
    TooMany,
}

/// The place at which a function isn't understood, and why.
#[derive(Clone, Copy)]
pub struct NotRead {
    pub place: Place,
    pub reason: Reason,
}
