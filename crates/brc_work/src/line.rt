//! The text of a number, as `write` sends it.

ghost use Rattle.std.specs.Prelude.{◌≡◌, ◌++◌, ◌∷◌, []};
ghost use Rattle.std.specs.Fmt.{decimal};

/// How many digits the greatest number has.
const DIGITS: usize = 10;

/// The room for a number's digits, and for a line feed.
pub(crate) type Line = [u8; 11];

/// A line of ten digits.
pub(crate) const EMPTY: Line = *b"0000000000\n";

/// Returns the decimal digits of the number, and a line feed, which it writes to the end of `line`.
pub(crate) fn line_of(line: &mut Line, value: u32) -> &[u8]
    ensures { result.now ≡ decimal value ++ 10 ∷ [] }
{
    *line = EMPTY;
    let start = itoa::write_digits(u64::from(value), line, DIGITS);
    &line[start..]
}
