//! A line of a table.

ghost use Rattle.std.specs.Prelude.{◌≡◌, ◌⊎◌, ◌∷◌, [], Ok, Err, MatchResult, slice_get};
ghost use Rattle.brc_c_table.specs.declared.fault.RowFault.TheVariants.{NoMemory, WordCount};
ghost use Rattle.brc_c_table.specs.Words.{words};
ghost use Rattle.brc_c_table.specs.Lines.{name_in, gives_in, index_in, takes_in, letters_in, rest_is_last, may_follow};
ghost use Rattle.brc_c_table.specs.Lines.{is_about_the_rest, is_borrowed, names_an_argument, may_fail, end_in, row_in};
ghost use Rattle.brc_c_table.specs.Lines.{line_in, are_names};

use crate::fault::RowFault;
use crate::row::{Fails, Gives, Row, Takes};
use crate::words::{
    fails_of, gives_by, gives_of, is_name, next_word, runs_of, takes_of, without_comment,
};
use brc_lang::{Sequence, is_word, number_between};
use std::alloc::Global;

const LONGEST_LINE: usize = 255;

/// The number of arguments that each compiler allows in a call (C17, 5.2.4.1).
const MOST_ARGUMENTS: usize = 127;

/// Reads a line. Returns `None` if it has no more than blanks and a comment.
pub fn read_line(alloc: Global, line: &[u8]) -> Result<Option<Row>, RowFault>
    // The line's row or its fault, unless memory is refused.
    ensures { MatchResult result (λ row. line_in line.now ≡ Ok row)
        (λ e. (e ≡ NoMemory) ⊎ (line_in line.now ≡ Err e)) }
{
    if line.len() > LONGEST_LINE {
        return Err(RowFault::LongLine);
    }
    match next_word(without_comment(line)) {
        None => Ok(None),
        Some((name, rest)) => Ok(Some(read_row(alloc, name, rest)?)),
    }
}

/// Reads a row, word by word: its first fault is that of the first word at fault.
fn read_row(alloc: Global, name: &[u8], rest: &[u8]) -> Result<Row, RowFault>
    ensures { MatchResult result (λ row. row_in name.now (words rest.now) ≡ Ok row)
        (λ e. (e ≡ NoMemory) ⊎ (row_in name.now (words rest.now) ≡ Err e)) }
{
    let (is_field, name) = read_name(name)?;
    let (gives, rest) = read_gives(rest)?;
    let (letters, rest) = read_word(rest)?;
    let takes = read_takes(alloc, letters)?;
    if !names_an_argument(gives, takes.as_slice()) {
        return Err(RowFault::ArgumentNumber);
    }
    let (fails, runs) = read_end(gives, rest)?;
    Ok(Row {
        name: copy_of(alloc, name)?,
        is_field,
        gives,
        takes,
        fails,
        runs,
    })
}

/// Returns the next word and what is after it, or `WordCount`.
fn read_word(text: &[u8]) -> Result<(&[u8], &[u8]), RowFault>
    ensures { MatchResult result (λ w. words text.now ≡ w.0.now ∷ words w.1.now)
        (λ e. (words text.now ≡ []) × (e ≡ WordCount)) }
{
    match next_word(text) {
        Some(found) => Ok(found),
        None => Err(RowFault::WordCount),
    }
}

/// Returns whether NAME is that of a field, and the name without its arrow. Returns `Name` for another word.
fn read_name(word: &[u8]) -> Result<(bool, &[u8]), RowFault>
    ensures { MatchResult result (λ n. name_in word.now ≡ Ok (n.0, n.1.now)) (λ e. name_in word.now ≡ Err e) }
{
    let is_field = word.starts_with(b"->");
    let name = if is_field { &word[2..] } else { word };
    if is_name(name) {
        Ok((is_field, name))
    } else {
        Err(RowFault::Name)
    }
}

/// Reads RESULT, of one word or two, and returns what is after it. Returns `Result`, `WordCount` or `ArgumentNumber`.
fn read_gives(text: &[u8]) -> Result<(Gives, &[u8]), RowFault>
    ensures { MatchResult result (λ g. gives_in (words text.now) ≡ Ok (g.0, words g.1.now))
        (λ e. gives_in (words text.now) ≡ Err e) }
{
    let (word, rest) = read_word(text)?;
    if let Some(gives) = gives_of(word) {
        return Ok((gives, rest));
    }
    if gives_by(word, 0).is_none() {
        return Err(RowFault::Result);
    }
    let (number, rest) = read_word(rest)?;
    match gives_by(word, read_index(number)?) {
        Some(gives) => Ok((gives, rest)),
        None => Err(RowFault::Result),
    }
}

/// Reads the number of an argument, from 1, and returns its index. Returns `ArgumentNumber` for another word.
fn read_index(word: &[u8]) -> Result<u8, RowFault>
    ensures { result ≡ index_in word.now }
{
    match number_between(1, 127, word) {
        Ok(number) => Ok(number as u8 - 1),
        Err(_) => Err(RowFault::ArgumentNumber),
    }
}

/// Reads ARGUMENTS. Returns `TooManyArguments`, `Letter` or `NotLast`.
fn read_takes(alloc: Global, word: &[u8]) -> Result<Sequence<Takes>, RowFault>
    ensures { MatchResult result (λ takes. takes_in word.now ≡ Ok takes)
        (λ e. (e ≡ NoMemory) ⊎ (takes_in word.now ≡ Err e)) }
{
    if is_word(word, b".") {
        return Ok(Sequence::new(alloc));
    }
    if word.len() > MOST_ARGUMENTS {
        return Err(RowFault::TooManyArguments);
    }
    let takes = read_letters(alloc, word)?;
    if rest_is_last(takes.as_slice()) {
        Ok(takes)
    } else {
        Err(RowFault::NotLast)
    }
}

fn read_letters(alloc: Global, word: &[u8]) -> Result<Sequence<Takes>, RowFault>
    ensures { MatchResult result (λ takes. letters_in [] word.now ≡ Ok takes)
        (λ e. (e ≡ NoMemory) ⊎ (letters_in [] word.now ≡ Err e)) }
{
    let mut takes = Sequence::new(alloc);
    let mut rest = word;
    while let [letter, behind @ ..] = rest {
        match takes_of(*letter) {
            Some(one) => takes.push(one)?,
            None => return Err(RowFault::Letter),
        }
        rest = behind;
    }
    Ok(takes)
}

/// Returns whether nothing follows what is about all arguments from there on, but an array of names after a format of
/// `PyArg_ParseTupleAndKeywords`.
fn rest_is_last(takes: &[Takes]) -> bool
    ensures { result ≡ rest_is_last takes.now }
{
    let mut rest = takes;
    while let [first, behind @ ..] = rest {
        if is_about_the_rest(*first) {
            return may_follow(*first, behind);
        }
        rest = behind;
    }
    true
}

fn may_follow(first: Takes, behind: &[Takes]) -> bool
    ensures { result ≡ may_follow first behind.now }
{
    behind.is_empty() || (matches!(first, Takes::ParseFormat) && are_names(behind))
}

/// The array of names, and all the rest.
fn are_names(takes: &[Takes]) -> bool
    ensures { result ≡ are_names takes.now }
{
    matches!(takes, [Takes::NoObject, Takes::RestNoObjects])
}

fn is_about_the_rest(takes: Takes) -> bool
    ensures { result ≡ is_about_the_rest takes }
{
    matches!(
        takes,
        Takes::ParseFormat
            | Takes::BuildFormat
            | Takes::RestBorrowed
            | Takes::RestNoObjects
            | Takes::RestFormatted
            | Takes::RestOut
    )
}

/// Returns whether the argument that RESULT names, if any, is an object that the caller has afterwards.
fn names_an_argument(gives: Gives, takes: &[Takes]) -> bool
    ensures { result ≡ names_an_argument gives takes.now }
{
    match gives {
        Gives::Item { argument } | Gives::Part { argument } | Gives::Same { argument } => {
            is_borrowed(takes.get(usize::from(argument)).copied())
        }
        _ => true,
    }
}

fn is_borrowed(takes: Option<Takes>) -> bool
    ensures { result ≡ is_borrowed takes }
{
    matches!(
        takes,
        Some(Takes::Borrowed | Takes::BorrowedOrNull | Takes::Kept | Takes::BorrowedOrFails)
    )
}

/// Reads FAILURE and CODE. Returns `WordCount`, `Failure`, `OtherFailure` or `Code`.
fn read_end(gives: Gives, text: &[u8]) -> Result<(Fails, bool), RowFault>
    ensures { result ≡ end_in gives (words text.now) }
{
    let (failure, rest) = read_word(text)?;
    let fails = fails_of(failure).ok_or(RowFault::Failure)?;
    if !may_fail(gives, fails) {
        return Err(RowFault::OtherFailure);
    }
    let (code, rest) = read_word(rest)?;
    let runs = runs_of(code).ok_or(RowFault::Code)?;
    if next_word(rest).is_some() {
        return Err(RowFault::WordCount);
    }
    Ok((fails, runs))
}

/// Returns whether a failure can show so in such a result: in an object by NULL, in a number that says so by its value.
fn may_fail(gives: Gives, fails: Fails) -> bool
    ensures { result ≡ may_fail gives fails }
{
    match gives {
        Gives::New | Gives::Item { .. } | Gives::Part { .. } | Gives::Lent | Gives::Same { .. } =>
            matches!(fails, Fails::Null | Fails::Maybe | Fails::Never),
        Gives::Number => !matches!(fails, Fails::Null | Fails::Maybe),
        Gives::Null | Gives::Other | Gives::Void | Gives::Free => matches!(fails, Fails::Never),
    }
}

fn copy_of(alloc: Global, name: &[u8]) -> Result<Sequence<u8>, RowFault>
    ensures { MatchResult result (λ copy. copy ≡ name.now) (λ e. e ≡ NoMemory) }
{
    let mut copy = Sequence::new(alloc);
    for byte in name {
        copy.push(*byte)?;
    }
    Ok(copy)
}
