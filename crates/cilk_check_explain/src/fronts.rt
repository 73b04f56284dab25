//! Fronts of texts that have bytes of one class.

/// Bytes of which a front may be.
#[derive(Clone, Copy)]
pub(crate) enum Class {
    /// Spaces and tabs.
    Blank,
    Letter,
    /// Those of which a number is written, right or wrong.
    Numeral,
    /// Those that may stand between the `%` and the letter of a conversion of C (C 1990, 7.9.6.1).
    Modifier,
}

impl Class {
    fn has(self, byte: u8) -> bool {
        match self {
            Class::Blank => byte == b' ' || byte == b'\t',
            Class::Letter => byte.is_ascii_alphabetic(),
            Class::Numeral => byte.is_ascii_alphanumeric() || byte == b'_' || byte == b'.',
            Class::Modifier => byte.is_ascii_digit() || b"-+ #.*hlL".contains(&byte),
        }
    }
}

/// How many bytes of this class a text begins with.
pub(crate) fn count_of(text: &str, class: Class) -> usize {
    let mut count = 0usize;
    for byte in text.as_bytes() {
        if !class.has(*byte) {
            return count;
        }
        count = count.saturating_add(1);
    }
    count
}

/// The bytes of this class that a text begins with.
pub(crate) fn front_of(text: &str, class: Class) -> &str {
    text.get(..count_of(text, class)).unwrap_or("")
}
