//! Formats of `PyArg_ParseTuple` and `Py_BuildValue`.

use crate::passing::Passing;
use brc_c_table::Takes;

/// A part of a format: what it says of the next arguments.
#[derive(Clone, Copy)]
pub(crate) struct Item {
    /// How many bytes it has.
    pub(crate) length: usize,
    /// How many arguments come that are no objects, ..
    pub(crate) plain: usize,
    /// .. and how the object after them is passed, if there is one.
    pub(crate) object: Option<Passing>,
    /// Whether all after it may be left as they are.
    pub(crate) begins_optional: bool,
}

fn plain(length: usize, count: usize) -> Option<Item> {
    Some(Item {
        length,
        plain: count,
        object: None,
        begins_optional: false,
    })
}

fn object(length: usize, count: usize, passing: Passing) -> Option<Item> {
    Some(Item {
        length,
        plain: count,
        object: Some(passing),
        begins_optional: false,
    })
}

/// Returns the first part of a format that says what is stored where.
pub(crate) fn parse_item(text: &[u8], is_optional: bool) -> Option<Item> {
    let lent = Passing::Lent { is_optional };
    match text {
        [b'|', ..] => Some(Item {
            length: 1,
            plain: 0,
            object: None,
            begins_optional: true,
        }),
        // What comes after these is the function's name or a message.
        [b':' | b';', ..] => plain(text.len(), 0),
        [b'$' | b'(' | b')' | b' ', ..] => plain(1, 0),
        [b'O', b'!', ..] => object(2, 1, lent),
        [b'O', b'&', ..] => object(2, 1, Passing::Converted),
        [b'O' | b'S' | b'U' | b'Y', ..] => object(1, 0, lent),
        [b'e', b's' | b't', b'#', ..] => plain(3, 3),
        [b'e', b's' | b't', ..] => plain(2, 2),
        [b's' | b'z' | b'y' | b'u' | b'Z', b'#', ..] => plain(2, 2),
        [b's' | b'z' | b'y' | b'w', b'*', ..] => plain(2, 1),
        [byte, ..] if is_parsed(*byte) => plain(1, 1),
        _ => None,
    }
}

fn is_parsed(byte: u8) -> bool {
    b"szyuwZbBhHiIlkLKnCcfdDp".contains(&byte)
}

/// Returns the first part of a format that says what a value is built of.
pub(crate) fn build_item(text: &[u8]) -> Option<Item> {
    match text {
        [
            b' ' | b',' | b':' | b'\t' | b'(' | b')' | b'[' | b']' | b'{' | b'}',
            ..
        ] => plain(1, 0),
        [b'O' | b'N' | b'S', b'&', ..] => plain(2, 2),
        [b'O' | b'S' | b'U', ..] => object(1, 0, Passing::Table(Takes::BorrowedOrFails)),
        [b'N', ..] => object(1, 0, Passing::Table(Takes::StolenOrFails)),
        [b's' | b'z' | b'y' | b'u', b'#', ..] => plain(2, 2),
        [byte, ..] if is_built(*byte) => plain(1, 1),
        _ => None,
    }
}

fn is_built(byte: u8) -> bool {
    b"szyuiIbhBHlkLKncCfdDp".contains(&byte)
}
