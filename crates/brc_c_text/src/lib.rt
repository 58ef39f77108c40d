//! A C source as tokens: where each one is, the comments between them, and the symbols that they spell.
#![tactic(auto)]

mod comment;
mod fault;
mod keyword;
mod lexeme;
mod piece;
mod punctuator;
mod quoted;
mod scanning;
mod symbols;
mod token;

pub use comment::Comment;
pub use fault::TextFault;
pub use keyword::Keyword;
pub use lexeme::{Lexeme, LexemeKind, Place, lexemes_of};
pub use punctuator::Punctuator;
pub use scanning::{FILE_LIMIT, Scanned, scan};
pub use symbols::{Symbol, Symbols};
pub use token::{Token, TokenKind};
