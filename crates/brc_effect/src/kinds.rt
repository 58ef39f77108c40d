//! The kinds, their numbers in kind words, and what a kind word says of its object.

ghost use Rattle.std.specs.Prelude.{◌≡◌};
ghost use Rattle.brc_model.specs.Duties.{has_resource, cells_of};
ghost use Rattle.brc_model.specs.Kinds.{kind_number, kind_numbered, kind_of_word, same_kind};

use brc_lang::Kind;
use brc_word::values::{FILE, LIST, NONE, NUM, SOCK};
use brc_word::{kind_argument, kind_number as number_in};

/// Returns the number that names the kind in kind words: 0 for `Any`, which no birth stores.
pub fn kind_number(kind: Kind) -> u32
    ensures { result ≡ kind_number kind }
{
    match kind {
        Kind::Any => 0,
        Kind::None => NONE,
        Kind::Num => NUM,
        Kind::List => LIST,
        Kind::File => FILE,
        Kind::Sock => SOCK,
    }
}

/// Returns the kind that has the number, or `Any` if no kind has it.
fn kind_numbered(number: u32) -> Kind
    ensures { result ≡ kind_numbered number }
{
    match number {
        NONE => Kind::None,
        NUM => Kind::Num,
        LIST => Kind::List,
        FILE => Kind::File,
        SOCK => Kind::Sock,
        _ => Kind::Any,
    }
}

/// Returns the kind that the kind word names.
pub fn kind_of_word(word: u64) -> Kind
    ensures { result ≡ kind_of_word word }
{
    kind_numbered(number_in(word))
}

/// Returns whether the two kinds are the same.
pub fn same_kind(one: Kind, other: Kind) -> bool
    ensures { result ≡ same_kind one other }
{
    kind_number(one) == kind_number(other)
}

/// Returns whether an object with this kind word has a resource of the host: a file or a socket does.
#[inline(always)]
pub fn has_resource(word: u64) -> bool
    ensures { result ≡ has_resource word }
{
    let kind = number_in(word);
    kind == FILE || kind == SOCK
}

/// Returns how many cells an object with this kind word has.
#[inline(always)]
pub fn cells_of(word: u64) -> u32
    ensures { result ≡ cells_of word }
{
    if number_in(word) == LIST {
        kind_argument(word)
    } else {
        0
    }
}
