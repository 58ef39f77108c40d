//! The values of constants, and the objects that everybody knows by name.

use brc_c_tree::Binary;

/// Returns the value of a number, or `None` if it isn't an integer of 63 bits.
pub(crate) fn integer(text: &[u8]) -> Option<i64> {
    let (digits, base) = match text {
        [b'0', b'x' | b'X', digits @ ..] => (digits, 16i64),
        [b'0', b'b' | b'B', digits @ ..] => (digits, 2),
        [b'0', digits @ ..] => (digits, 8),
        _ => (text, 10),
    };
    let mut value: i64 = 0;
    let mut is_suffix = false;
    for byte in digits {
        match digit(*byte) {
            Some(digit) if digit < base && !is_suffix => {
                value = value.checked_mul(base)?.checked_add(digit)?;
            }
            _ if matches!(*byte, b'u' | b'U' | b'l' | b'L') => is_suffix = true,
            _ => return None,
        }
    }
    Some(value)
}

fn digit(byte: u8) -> Option<i64> {
    match byte {
        b'0'..=b'9' => Some(i64::from(byte - b'0')),
        b'a'..=b'f' => Some(i64::from(byte - b'a' + 10)),
        b'A'..=b'F' => Some(i64::from(byte - b'A' + 10)),
        _ => None,
    }
}

/// Returns the value of a character, or `None` if it is escaped.
pub(crate) fn character(text: &[u8]) -> Option<i64> {
    match text {
        [b'\'', byte, b'\''] => Some(i64::from(*byte)),
        [b'\'', b'\\', b'0', b'\''] => Some(0),
        _ => None,
    }
}

/// Returns the value of two numbers with an operator between them, or `None` if it isn't one of bits or of sums.
pub(crate) fn folded(operator: Binary, left: i64, right: i64) -> Option<i64> {
    match operator {
        Binary::BitOr => Some(left | right),
        Binary::BitXor => Some(left ^ right),
        Binary::BitAnd => Some(left & right),
        Binary::Add => left.checked_add(right),
        Binary::Subtract => left.checked_sub(right),
        Binary::Multiply => left.checked_mul(right),
        Binary::ShiftLeft => shifted(left, right),
        _ => None,
    }
}

fn shifted(value: i64, by: i64) -> Option<i64> {
    let turns = match usize::try_from(by) {
        Ok(turns) if turns < 63 => turns,
        _ => return None,
    };
    let mut shifted = value;
    for _turn in 0..turns {
        shifted = shifted.checked_mul(2)?;
    }
    Some(shifted)
}

/// Returns whether the name is one of an object that lives as long as the interpreter.
pub(crate) fn is_singleton(name: &[u8]) -> bool {
    is_plain_singleton(name) || name.starts_with(b"PyExc_")
}

/// Returns whether the name is one of an object that a variable is compared with, as `None`.
pub(crate) fn is_plain_singleton(name: &[u8]) -> bool {
    matches!(
        name,
        b"Py_None" | b"Py_True" | b"Py_False" | b"Py_Ellipsis" | b"Py_NotImplemented"
    )
}

pub(crate) fn is_identifier_byte(byte: u8) -> bool {
    byte.is_ascii_alphanumeric() || byte == b'_' || byte == b'$'
}
