/// The keywords of C, as far as the reader asks for them.
#[derive(Clone, Copy, PartialEq, Eq)]
pub enum Keyword {
    Asm,
    Break,
    Case,
    Const,
    Continue,
    Default,
    Do,
    Else,
    Enum,
    Extern,
    For,
    Goto,
    If,
    Inline,
    Register,
    Restrict,
    Return,
    Sizeof,
    Static,
    Struct,
    Switch,
    Typedef,
    Union,
    Volatile,
    While,
}

/// How each keyword is spelled. The proof of a `match` over texts has a branch for each of their bytes, so they are a
/// table.
const SPELLINGS: &[(&[u8], Keyword)] = &[
    (b"if", Keyword::If),
    (b"else", Keyword::Else),
    (b"return", Keyword::Return),
    (b"goto", Keyword::Goto),
    (b"for", Keyword::For),
    (b"while", Keyword::While),
    (b"do", Keyword::Do),
    (b"switch", Keyword::Switch),
    (b"case", Keyword::Case),
    (b"default", Keyword::Default),
    (b"break", Keyword::Break),
    (b"continue", Keyword::Continue),
    (b"sizeof", Keyword::Sizeof),
    (b"asm", Keyword::Asm),
    (b"__asm__", Keyword::Asm),
    (b"__asm", Keyword::Asm),
    (b"static", Keyword::Static),
    (b"const", Keyword::Const),
    (b"__const", Keyword::Const),
    (b"struct", Keyword::Struct),
    (b"union", Keyword::Union),
    (b"enum", Keyword::Enum),
    (b"typedef", Keyword::Typedef),
    (b"extern", Keyword::Extern),
    (b"volatile", Keyword::Volatile),
    (b"__volatile__", Keyword::Volatile),
    (b"register", Keyword::Register),
    (b"auto", Keyword::Register),
    (b"inline", Keyword::Inline),
    (b"__inline", Keyword::Inline),
    (b"__inline__", Keyword::Inline),
    (b"restrict", Keyword::Restrict),
    (b"__restrict", Keyword::Restrict),
    (b"__restrict__", Keyword::Restrict),
];

impl Keyword {
    /// Returns the keyword that the text spells.
    pub fn of(text: &[u8]) -> Option<Keyword> {
        for (spelling, keyword) in SPELLINGS {
            if *spelling == text {
                return Some(*keyword);
            }
        }
        None
    }

    /// Returns whether a declaration's type is the same without the keyword.
    pub fn is_qualifier(self) -> bool {
        match self {
            Keyword::Static
            | Keyword::Const
            | Keyword::Extern
            | Keyword::Volatile
            | Keyword::Register
            | Keyword::Inline
            | Keyword::Restrict => true,
            _ => false,
        }
    }

    /// Returns whether a tag or a body in braces comes after the keyword.
    pub fn has_tag(self) -> bool {
        match self {
            Keyword::Struct | Keyword::Union | Keyword::Enum => true,
            _ => false,
        }
    }
}
