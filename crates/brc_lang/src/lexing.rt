//! Lines, words, and the values of single words.

ghost use Rattle.std.specs.Prelude.{◌≡◌, ◌≢◌, ◌∷◌, [], length, ◌&&◌, ◌==◌, false, nat_le, position, MatchOption, Ok};
ghost use Rattle.std.specs.Prelude.{Err, if◌then◌else◌, ◌+◌, ◌≤◌, count_by};
ghost use Rattle.std.specs.List.{list_any, list_all};
ghost use Rattle.std.specs.Char.{is_ascii_digit};
ghost use Rattle.std.specs.Str.Parse.{digits_value};
ghost use Rattle.brc_lang.specs.declared.fault.FaultCode.TheVariants.{Number};
ghost use Rattle.std.specs.Str.{bytes_eq};
ghost use Rattle.brc_lang.specs.Grammar.{is_name, is_name_byte};
ghost use Rattle.brc_lang.specs.InstructionWords.{words, number_in, number_between, variable_in, target_in, kind_in};
ghost use Rattle.brc_lang.specs.Fault.{is_line_feed};
ghost use Rattle.brc_lang.specs.InstructionWords.{mode_in};
ghost use Rattle.brc_lang.specs.Limits.{last_index, last_path, last_static, turn_limit};
ghost use Rattle.brc_lang.specs.Progress.{IsFirstLineOf};

use crate::fault::FaultCode;
use crate::kind::Kind;
use crate::mode::Mode;
use crate::variable::Variable;
use bitflags::Flags;

const LAST_VARIABLE: u32 = 15;

const LAST_TARGET: u32 = 255;

const LAST_INDEX: u32 = 255;

const LAST_PATH: u32 = 15;

const LAST_STATIC: u32 = 15;

const MOST_TURNS: u32 = 65535;

/// Returns the first line without its line feed and the text below it, or `None` if the text has no line feed.
pub fn split_line(text: &[u8]) -> Option<(&[u8], &[u8])>
    ensures { MatchOption result (list_any is_line_feed text.now ≡ false)
        (λ parts. IsFirstLineOf text.now parts.0.now parts.1.now) }
{
    let end = position_of(b'\n', text)?;
    Some((&text[..end], &text[end + 1..]))
}

/// Returns the first word of a line and the text after its space, or `None` for the latter if the line is one word.
pub fn split_word(line: &[u8]) -> (&[u8], Option<&[u8]>)
    ensures { MatchOption result.1 (words line.now ≡ result.0.now ∷ [])
        (λ rest. words line.now ≡ result.0.now ∷ words rest.now) }
{
    match position_of(b' ', line) {
        Some(end) => (&line[..end], Some(&line[end + 1..])),
        None => (line, None),
    }
}

/// Returns the only word of the line, or `None`.
pub fn one_word(line: &[u8]) -> Option<&[u8]>
    ensures { MatchOption result (length (words line.now) ≢ 1) (λ w. words line.now ≡ w.now ∷ []) }
{
    let (word, more) = split_word(line);
    match more {
        Some(_) => None,
        None => Some(word),
    }
}

/// Returns the two words of the line, or `None` if it has another number of words.
pub fn two_words(line: &[u8]) -> Option<(&[u8], &[u8])>
    ensures { MatchOption result (length (words line.now) ≢ 2) (λ w. words line.now ≡ w.0.now ∷ w.1.now ∷ []) }
{
    let (first, rest) = split_word(line);
    let second = one_word(rest?)?;
    Some((first, second))
}

/// Returns the three words of the line, or `None` if it has another number of words.
pub fn three_words(line: &[u8]) -> Option<(&[u8], &[u8], &[u8])>
    ensures { MatchOption result (length (words line.now) ≢ 3)
        (λ w. words line.now ≡ w.0.now ∷ w.1.now ∷ w.2.now ∷ []) }
{
    let (first, rest) = split_word(line);
    let (second, third) = two_words(rest?)?;
    Some((first, second, third))
}

type FourWords<'a> = (&'a [u8], &'a [u8], &'a [u8], &'a [u8]);

/// Returns the four words of the line, or `None` if it has another number of words.
pub fn four_words(line: &[u8]) -> Option<FourWords<'_>>
    ensures { MatchOption result (length (words line.now) ≢ 4)
        (λ w. words line.now ≡ w.0.now ∷ w.1.now ∷ w.2.now ∷ w.3.now ∷ []) }
{
    let (first, rest) = split_word(line);
    let (second, third, fourth) = three_words(rest?)?;
    Some((first, second, third, fourth))
}

type FiveWords<'a> = (&'a [u8], &'a [u8], &'a [u8], &'a [u8], &'a [u8]);

/// Returns the five words of the line, or `None` if it has another number of words.
pub(crate) fn five_words(line: &[u8]) -> Option<FiveWords<'_>>
    ensures { MatchOption result (length (words line.now) ≢ 5)
        (λ w. words line.now ≡ w.0.now ∷ w.1.now ∷ w.2.now ∷ w.3.now ∷ w.4.now ∷ []) }
{
    let (first, rest) = split_word(line);
    let (second, third, fourth, fifth) = four_words(rest?)?;
    Some((first, second, third, fourth, fifth))
}

type SixWords<'a> = (&'a [u8], &'a [u8], &'a [u8], &'a [u8], &'a [u8], &'a [u8]);

/// Returns the six words of the line, or `None` if it has another number of words.
pub(crate) fn six_words(line: &[u8]) -> Option<SixWords<'_>>
    ensures { MatchOption result (length (words line.now) ≢ 6)
        (λ w. words line.now ≡ w.0.now ∷ w.1.now ∷ w.2.now ∷ w.3.now ∷ w.4.now ∷ w.5.now ∷ []) }
{
    let (first, rest) = split_word(line);
    let (second, third, fourth, fifth, sixth) = five_words(rest?)?;
    Some((first, second, third, fourth, fifth, sixth))
}

type SevenWords<'a> = (
    &'a [u8],
    &'a [u8],
    &'a [u8],
    &'a [u8],
    &'a [u8],
    &'a [u8],
    &'a [u8],
);

/// Returns the seven words of the line, or `None` if it has another number of words.
pub(crate) fn seven_words(line: &[u8]) -> Option<SevenWords<'_>>
    ensures { MatchOption result (length (words line.now) ≢ 7)
        (λ w. words line.now ≡ w.0.now ∷ w.1.now ∷ w.2.now ∷ w.3.now ∷ w.4.now ∷ w.5.now ∷ w.6.now ∷ []) }
{
    let (first, rest) = split_word(line);
    let (second, third, fourth, fifth, sixth, seventh) = six_words(rest?)?;
    Some((first, second, third, fourth, fifth, sixth, seventh))
}

type EightWords<'a> = (
    &'a [u8],
    &'a [u8],
    &'a [u8],
    &'a [u8],
    &'a [u8],
    &'a [u8],
    &'a [u8],
    &'a [u8],
);

/// Returns the eight words of the line, or `None` if it has another number of words.
pub(crate) fn eight_words(line: &[u8]) -> Option<EightWords<'_>>
    ensures { MatchOption result (length (words line.now) ≢ 8)
        (λ w. words line.now ≡ w.0.now ∷ w.1.now ∷ w.2.now ∷ w.3.now ∷ w.4.now ∷ w.5.now ∷ w.6.now ∷ w.7.now ∷ []) }
{
    let (first, rest) = split_word(line);
    let (second, third, fourth, fifth, sixth, seventh, eighth) = seven_words(rest?)?;
    Some((first, second, third, fourth, fifth, sixth, seventh, eighth))
}

/// Returns how many words the line has: one more than spaces.
pub(crate) fn word_count(line: &[u8]) -> usize
    ensures { result ≡ length (words line.now) }
{
    count_of(b' ', line) + 1
}

fn count_of(wanted: u8, text: &[u8]) -> usize
    ensures { result ≡ count_by (λ byte. byte == wanted) text.now }
{
    text.iter().filter(|byte| **byte == wanted).count()
}

fn position_of(wanted: u8, text: &[u8]) -> Option<usize>
    ensures { result ≡ position (λ byte. byte == wanted) text.now }
{
    text.iter().position(|byte| *byte == wanted)
}

/// Returns whether the word is equal to the text.
pub fn is_word(word: &[u8], text: &[u8]) -> bool
    ensures { result ≡ bytes_eq word.now text.now }
{
    word == text
}

/// Returns whether the word is a name: a letter `a` to `z`, then 0 to 15 letters, digits and `_`.
pub fn is_name(word: &[u8]) -> bool
    ensures { result ≡ is_name word.now }
{
    match word {
        [] => false,
        [first, others @ ..] => {
            first.is_ascii_lowercase() && are_name_bytes(others) && others.len() <= 15
        }
    }
}

fn are_name_bytes(bytes: &[u8]) -> bool
    ensures { result ≡ list_all is_name_byte bytes.now }
{
    bytes.iter().all(|byte| is_name_byte(*byte))
}

fn is_name_byte(byte: u8) -> bool
    ensures { result ≡ is_name_byte byte }
{
    byte.is_ascii_lowercase() || byte.is_ascii_digit() || byte == b'_'
}

/// Reads a number from 0 to `high`: decimal digits without a leading zero, `0` aside.
///
/// Returns `Number` if the word has another form or the number is greater.
pub fn number(high: u32, word: &[u8]) -> Result<u32, FaultCode>
    ensures { result ≡ number_in high word.now }
{
    match word {
        [] | [b'0', _, ..] => Err(FaultCode::Number),
        digits => numeral(high, digits),
    }
}

fn numeral(high: u32, digits: &[u8]) -> Result<u32, FaultCode>
    ensures { result ≡ (if list_all is_ascii_digit digits.now
        && nat_le (digits_value 10 digits.now) high then Ok (digits_value 10 digits.now) else Err Number) }
{
    let mut value: u64 = 0;
    for digit in digits {
        if !digit.is_ascii_digit() {
            return Err(FaultCode::Number);
        }
        value = value * 10 + u64::from(*digit - b'0');
        if value > u64::from(high) {
            return Err(FaultCode::Number);
        }
    }
    Ok(value as u32)
}

/// Reads a number from `low` to `high`. Returns `Number` if the word has another form or the number is out of range.
pub fn number_between(low: u32, high: u32, word: &[u8]) -> Result<u32, FaultCode>
    ensures { result ≡ number_between low high word.now }
{
    let number = number(high, word)?;
    if low <= number {
        Ok(number)
    } else {
        Err(FaultCode::Number)
    }
}

/// Reads a variable: `v` and a number below 16. Returns `UnknownWord` without the `v`, and `Number` for the rest.
pub(crate) fn variable(word: &[u8]) -> Result<Variable, FaultCode>
    ensures { result ≡ variable_in word.now }
{
    match word {
        [b'v', digits @ ..] => Ok(Variable::new(number(LAST_VARIABLE, digits)? as u8)),
        _ => Err(FaultCode::UnknownWord),
    }
}

/// Reads a target: `@` and a number below 256. Returns `UnknownWord` without the `@`, and `Number` for the rest.
pub(crate) fn target(word: &[u8]) -> Result<u8, FaultCode>
    ensures { result ≡ target_in word.now }
{
    match word {
        [b'@', digits @ ..] => Ok(number(LAST_TARGET, digits)? as u8),
        _ => Err(FaultCode::UnknownWord),
    }
}

/// Reads the index of an item: a number below 256. Returns `Number` for another word.
pub(crate) fn index(word: &[u8]) -> Result<u8, FaultCode>
    ensures { result ≡ number_in last_index word.now }
{
    Ok(number(LAST_INDEX, word)? as u8)
}

/// Reads the number of a path: a number below 16. Returns `Number` for another word.
pub(crate) fn path(word: &[u8]) -> Result<u8, FaultCode>
    ensures { result ≡ number_in last_path word.now }
{
    Ok(number(LAST_PATH, word)? as u8)
}

/// Reads the number of a static line: a number below 16. Returns `Number` for another word.
pub(crate) fn static_number(word: &[u8]) -> Result<u8, FaultCode>
    ensures { result ≡ number_in last_static word.now }
{
    Ok(number(LAST_STATIC, word)? as u8)
}

/// Reads how often `again` goes back: a number from 1 to 65535. Returns `Number` for another word.
pub(crate) fn turns(word: &[u8]) -> Result<u16, FaultCode>
    ensures { result ≡ number_between 1 turn_limit word.now }
{
    Ok(number_between(1, MOST_TURNS, word)? as u16)
}

/// Reads a kind: `none`, `num`, `list`, `file` or `sock`. Returns `UnknownWord` for another word.
pub(crate) fn kind(word: &[u8]) -> Result<Kind, FaultCode>
    ensures { result ≡ kind_in word.now }
{
    if is_word(word, b"none") {
        Ok(Kind::None)
    } else if is_word(word, b"num") {
        Ok(Kind::Num)
    } else if is_word(word, b"list") {
        Ok(Kind::List)
    } else if is_word(word, b"file") {
        Ok(Kind::File)
    } else if is_word(word, b"sock") {
        Ok(Kind::Sock)
    } else {
        Err(FaultCode::UnknownWord)
    }
}

/// Reads a mode: `r`, `w`, `rw`, `wc` or `rwc`. Returns `UnknownWord` for another word.
pub(crate) fn mode(word: &[u8]) -> Result<Mode, FaultCode>
    ensures { result ≡ mode_in word.now }
{
    if is_word(word, b"r") {
        Ok(Mode::READ)
    } else if is_word(word, b"w") {
        Ok(Mode::WRITE)
    } else if is_word(word, b"rw") {
        Ok(Mode::READ.union(Mode::WRITE))
    } else if is_word(word, b"wc") {
        Ok(Mode::WRITE.union(Mode::CREATE))
    } else if is_word(word, b"rwc") {
        Ok(Mode::READ.union(Mode::WRITE).union(Mode::CREATE))
    } else {
        Err(FaultCode::UnknownWord)
    }
}
