//! The values of constants in `#if`.

/// Returns the value of a number, or `None` if it isn't an integer. Beyond 64 bits it wraps.
pub(crate) fn integer(text: &[u8]) -> Option<i64> {
    let (digits, base) = match text {
        [b'0', b'x' | b'X', digits @ ..] => (digits, 16u64),
        [b'0', b'b' | b'B', digits @ ..] => (digits, 2),
        [b'0', digits @ ..] => (digits, 8),
        _ => (text, 10),
    };
    let mut value: u64 = 0;
    let mut is_suffix = false;
    for byte in digits {
        match digit(*byte) {
            Some(digit) if u64::from(digit) < base && !is_suffix => {
                value = value.wrapping_mul(base).wrapping_add(u64::from(digit));
            }
            _ if is_suffix_letter(*byte) => is_suffix = true,
            _ => return None,
        }
    }
    Some(value.cast_signed())
}

fn is_suffix_letter(byte: u8) -> bool {
    matches!(byte, b'u' | b'U' | b'l' | b'L')
}

fn digit(byte: u8) -> Option<u8> {
    match byte {
        b'0'..=b'9' => Some(byte - b'0'),
        b'a'..=b'f' => Some(byte - b'a' + 10),
        b'A'..=b'F' => Some(byte - b'A' + 10),
        _ => None,
    }
}

/// Returns the value of a character that isn't escaped. An escaped one counts as 0.
pub(crate) fn character(text: &[u8]) -> i64 {
    match text {
        [b'\'', byte, b'\''] => i64::from(*byte),
        _ => 0,
    }
}
