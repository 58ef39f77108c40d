//! Where strings, characters and comments end.

ghost use Rattle.std.specs.Prelude.{◌<◌, ◌≤◌, length, IfSome};

/// Returns the place after the quote that ends the string or the character, whose first byte after its own quote is
/// at `start`, or `None` if it isn't closed on its line.
pub(crate) fn past_quoted(source: &[u8], start: usize, quote: u8) -> Option<usize>
    requires { start ≤ length source.now }
    ensures { IfSome result (λ end. (start < end) × (end ≤ length source.now)) }
{
    let mut is_escaped = false;
    for at in start..source.len() {
        let byte = source[at];
        if is_escaped {
            is_escaped = byte == b'\r';
        } else if byte == b'\\' {
            is_escaped = true;
        } else if byte == b'\n' {
            return None;
        } else if byte == quote {
            return Some(at + 1);
        }
    }
    None
}

/// Returns the end of the comment whose first byte after `//` is at `start`: that of its line, or of a later one if
/// the line is continued.
pub(crate) fn past_line_comment(source: &[u8], start: usize) -> usize
    requires { start ≤ length source.now }
    ensures least { start ≤ result }
    ensures most { result ≤ length source.now }
{
    let mut is_continued = false;
    for at in start..source.len() {
        match source[at] {
            b'\n' if !is_continued => return at,
            b'\\' => is_continued = true,
            b'\r' => {}
            _ => is_continued = false,
        }
    }
    source.len()
}

/// Returns the place after the comment whose first byte after its opening is at `start`. If nothing closes it, it
/// reaches to the end of the source.
pub(crate) fn past_block_comment(source: &[u8], start: usize) -> usize
    requires { start ≤ length source.now }
    ensures least { start ≤ result }
    ensures most { result ≤ length source.now }
{
    let mut follows_star = false;
    for at in start..source.len() {
        let byte = source[at];
        if follows_star && byte == b'/' {
            return at + 1;
        }
        follows_star = byte == b'*';
    }
    source.len()
}
