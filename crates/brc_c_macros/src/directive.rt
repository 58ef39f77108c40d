use brc_c_text::{Keyword, Lexeme, LexemeKind, Punctuator, Symbols};

/// What a line that begins with `#` does.
#[derive(Clone, Copy, PartialEq, Eq)]
pub(crate) enum Action {
    If,
    Ifdef,
    Ifndef,
    Elif,
    Else,
    Endif,
    Define,
    Undef,
    Include,
    /// Nothing that a reader of functions asks for.
    Other,
}

/// A directive: what it does, and the lexemes after its name.
#[derive(Clone, Copy)]
pub(crate) struct Directive<'a> {
    pub(crate) action: Action,
    pub(crate) rest: &'a [Lexeme],
}

/// Returns the directive that a line is.
pub(crate) fn directive_of<'a>(symbols: &Symbols, line: &'a [Lexeme]) -> Option<Directive<'a>> {
    match line {
        [hash, name, rest @ ..] if hash.is(Punctuator::Hash) => Some(Directive {
            action: action_of(symbols, name),
            rest,
        }),
        [hash] if hash.is(Punctuator::Hash) => Some(Directive {
            action: Action::Other,
            rest: &[],
        }),
        _ => None,
    }
}

fn action_of(symbols: &Symbols, name: &Lexeme) -> Action {
    match name.kind {
        LexemeKind::Keyword(Keyword::If) => Action::If,
        LexemeKind::Keyword(Keyword::Else) => Action::Else,
        LexemeKind::Name => named(symbols.text(name.symbol)),
        _ => Action::Other,
    }
}

/// The directives whose names are no keywords. The proof of a `match` over texts has a branch for each of their bytes,
/// so they are a table.
const NAMES: &[(&[u8], Action)] = &[
    (b"ifdef", Action::Ifdef),
    (b"ifndef", Action::Ifndef),
    (b"elif", Action::Elif),
    (b"endif", Action::Endif),
    (b"define", Action::Define),
    (b"undef", Action::Undef),
    (b"include", Action::Include),
];

fn named(name: &[u8]) -> Action {
    for (text, action) in NAMES {
        if *text == name {
            return *action;
        }
    }
    Action::Other
}
