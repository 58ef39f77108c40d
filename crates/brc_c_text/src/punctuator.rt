ghost use Rattle.std.specs.Prelude.{◌<◌, ◌≤◌, length, IfSome, IsNone};

/// The operators and brackets of C and of its preprocessor.
#[derive(Clone, Copy, PartialEq, Eq)]
pub enum Punctuator {
    LeftParen,
    RightParen,
    LeftBracket,
    RightBracket,
    LeftBrace,
    RightBrace,
    Semicolon,
    Comma,
    Colon,
    Question,
    Dot,
    Arrow,
    Ellipsis,
    Hash,
    HashHash,
    Not,
    Tilde,
    PlusPlus,
    MinusMinus,
    Plus,
    Minus,
    Star,
    Slash,
    Percent,
    LeftShift,
    RightShift,
    Less,
    Greater,
    LessEqual,
    GreaterEqual,
    EqualEqual,
    NotEqual,
    And,
    Caret,
    Or,
    AndAnd,
    OrOr,
    Equal,
    PlusEqual,
    MinusEqual,
    StarEqual,
    SlashEqual,
    PercentEqual,
    LeftShiftEqual,
    RightShiftEqual,
    AndEqual,
    CaretEqual,
    OrEqual,
}

/// Returns the longest punctuator at the front of the text, and its length.
pub(crate) fn punctuator_at(text: &[u8]) -> Option<(Punctuator, usize)>
    ensures { IfSome result (λ found. (0 < found.1) × (found.1 ≤ length text.now)) }
{
    match text {
        [first, second, third, ..] => match of_three(*first, *second, *third) {
            Some(found) => Some((found, 3)),
            None => one_or_two(*first, Some(*second)),
        },
        [first, second] => one_or_two(*first, Some(*second)),
        [first] => one_or_two(*first, None),
        [] => None,
    }
}

fn one_or_two(first: u8, second: Option<u8>) -> Option<(Punctuator, usize)>
    ensures some { IfSome result (λ found. (0 < found.1) × (found.1 ≤ 2)) }
    ensures one { IsNone second → IfSome result (λ found. found.1 ≤ 1) }
{
    match second.and_then(|second| of_two(first, second)) {
        Some(found) => Some((found, 2)),
        None => of_one(first).map(|found| (found, 1)),
    }
}

fn of_three(first: u8, second: u8, third: u8) -> Option<Punctuator> {
    match (first, second, third) {
        (b'.', b'.', b'.') => Some(Punctuator::Ellipsis),
        (b'<', b'<', b'=') => Some(Punctuator::LeftShiftEqual),
        (b'>', b'>', b'=') => Some(Punctuator::RightShiftEqual),
        _ => None,
    }
}

fn of_two(first: u8, second: u8) -> Option<Punctuator> {
    match (first, second) {
        (b'-', b'>') => Some(Punctuator::Arrow),
        (b'#', b'#') => Some(Punctuator::HashHash),
        (b'+', b'+') => Some(Punctuator::PlusPlus),
        (b'-', b'-') => Some(Punctuator::MinusMinus),
        (b'<', b'<') => Some(Punctuator::LeftShift),
        (b'>', b'>') => Some(Punctuator::RightShift),
        (b'&', b'&') => Some(Punctuator::AndAnd),
        (b'|', b'|') => Some(Punctuator::OrOr),
        (_, b'=') => before_equal(first),
        _ => None,
    }
}

/// Returns the punctuator that this byte and `=` are.
fn before_equal(first: u8) -> Option<Punctuator> {
    match first {
        b'<' => Some(Punctuator::LessEqual),
        b'>' => Some(Punctuator::GreaterEqual),
        b'=' => Some(Punctuator::EqualEqual),
        b'!' => Some(Punctuator::NotEqual),
        b'+' => Some(Punctuator::PlusEqual),
        b'-' => Some(Punctuator::MinusEqual),
        b'*' => Some(Punctuator::StarEqual),
        b'/' => Some(Punctuator::SlashEqual),
        b'%' => Some(Punctuator::PercentEqual),
        b'&' => Some(Punctuator::AndEqual),
        b'^' => Some(Punctuator::CaretEqual),
        b'|' => Some(Punctuator::OrEqual),
        _ => None,
    }
}

fn of_one(byte: u8) -> Option<Punctuator> {
    match byte {
        b'(' => Some(Punctuator::LeftParen),
        b')' => Some(Punctuator::RightParen),
        b'[' => Some(Punctuator::LeftBracket),
        b']' => Some(Punctuator::RightBracket),
        b'{' => Some(Punctuator::LeftBrace),
        b'}' => Some(Punctuator::RightBrace),
        b';' => Some(Punctuator::Semicolon),
        b',' => Some(Punctuator::Comma),
        b':' => Some(Punctuator::Colon),
        b'?' => Some(Punctuator::Question),
        b'.' => Some(Punctuator::Dot),
        b'#' => Some(Punctuator::Hash),
        b'!' => Some(Punctuator::Not),
        b'~' => Some(Punctuator::Tilde),
        b'+' => Some(Punctuator::Plus),
        b'-' => Some(Punctuator::Minus),
        b'*' => Some(Punctuator::Star),
        b'/' => Some(Punctuator::Slash),
        b'%' => Some(Punctuator::Percent),
        b'<' => Some(Punctuator::Less),
        b'>' => Some(Punctuator::Greater),
        b'&' => Some(Punctuator::And),
        b'^' => Some(Punctuator::Caret),
        b'|' => Some(Punctuator::Or),
        b'=' => Some(Punctuator::Equal),
        _ => None,
    }
}

impl Punctuator {
    /// Returns how it is spelled.
    pub fn text(self) -> &'static str {
        match self {
            Punctuator::LeftParen => "(",
            Punctuator::RightParen => ")",
            Punctuator::LeftBracket => "[",
            Punctuator::RightBracket => "]",
            Punctuator::LeftBrace => "{",
            Punctuator::RightBrace => "}",
            Punctuator::Semicolon => ";",
            Punctuator::Comma => ",",
            Punctuator::Colon => ":",
            Punctuator::Question => "?",
            Punctuator::Dot => ".",
            Punctuator::Arrow => "->",
            Punctuator::Ellipsis => "...",
            Punctuator::Hash => "#",
            Punctuator::HashHash => "##",
            Punctuator::Not => "!",
            Punctuator::Tilde => "~",
            Punctuator::PlusPlus => "++",
            Punctuator::MinusMinus => "--",
            _ => self.operator_text(),
        }
    }

    fn operator_text(self) -> &'static str {
        match self {
            Punctuator::Plus => "+",
            Punctuator::Minus => "-",
            Punctuator::Star => "*",
            Punctuator::Slash => "/",
            Punctuator::Percent => "%",
            Punctuator::LeftShift => "<<",
            Punctuator::RightShift => ">>",
            Punctuator::Less => "<",
            Punctuator::Greater => ">",
            Punctuator::LessEqual => "<=",
            Punctuator::GreaterEqual => ">=",
            Punctuator::EqualEqual => "==",
            Punctuator::NotEqual => "!=",
            Punctuator::And => "&",
            Punctuator::Caret => "^",
            Punctuator::Or => "|",
            Punctuator::AndAnd => "&&",
            Punctuator::OrOr => "||",
            Punctuator::Equal => "=",
            _ => self.assignment_text(),
        }
    }

    fn assignment_text(self) -> &'static str {
        match self {
            Punctuator::PlusEqual => "+=",
            Punctuator::MinusEqual => "-=",
            Punctuator::StarEqual => "*=",
            Punctuator::SlashEqual => "/=",
            Punctuator::PercentEqual => "%=",
            Punctuator::LeftShiftEqual => "<<=",
            Punctuator::RightShiftEqual => ">>=",
            Punctuator::AndEqual => "&=",
            Punctuator::CaretEqual => "^=",
            Punctuator::OrEqual => "|=",
            _ => "",
        }
    }
}
