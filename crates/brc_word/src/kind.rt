//! The word of an object's kind: the kind's number in the high half, and an argument in the low half.

ghost use Rattle.std.specs.Prelude.{◌≡◌, ◌+◌, ◌*◌};
ghost use Rattle.brc_word.specs.Words.{half, kind_part, argument_part};

/// In the word the kind is above its argument.
const ARGUMENTS: u64 = 1 << 32;

/// Returns the word of a kind and its argument.
pub fn kind_word(kind: u32, argument: u32) -> u64
    ensures word { result ≡ kind * half + argument }
    ensures kind { kind_part result ≡ kind }
    ensures argument { argument_part result ≡ argument }
{
    u64::from(kind) * ARGUMENTS + u64::from(argument)
}

/// Returns the number of the word's kind.
pub fn kind_number(word: u64) -> u32
    ensures { result ≡ kind_part word }
{
    (word / ARGUMENTS) as u32
}

/// Returns the argument of the word's kind, as the length of a list.
pub fn kind_argument(word: u64) -> u32
    ensures { result ≡ argument_part word }
{
    (word % ARGUMENTS) as u32
}
