//! Text literals of `printf` that do not fit what stands behind them: C14.

use crate::fronts::{Class, count_of};
use crate::reason::Reason;
use crate::say::say;
use cilk_check_scopes::Memory;

const COUNT: &str = " has another number of `%d` than values follow it";

const ALONE: &str =
    " has a `%` that begins neither `%d` nor `%%`: one that is written itself is `%%`";

const OTHERS: &str =
    " has `$`, but this language has no other conversions than `%d`, for an `int`, and `%%`: ";

const OF_TEXT: &str = "a text stands in the literal itself";

const OF_CHARACTER: &str = "a character stands in the literal itself";

const OF_FLOATING: &str = "its numbers are whole";

const OF_NUMBER: &str = "a number is written in decimal, as wide as it is";

// Where the first `%` stands behind which neither `d` nor another `%` stands.
fn other_conversion(text: &str) -> Option<usize> {
    let mut is_behind_percent = false;
    for (index, byte) in text.as_bytes().iter().enumerate() {
        if is_behind_percent && *byte != b'd' && *byte != b'%' {
            return Some(index.saturating_sub(1));
        }
        is_behind_percent = *byte == b'%' && !is_behind_percent;
    }
    None
}

// A conversion that begins with this `%`, as it is spelled. A lone `%` is none.
fn conversion(text: &str, at: usize) -> &str {
    let behind = text.get(at.saturating_add(1)..).unwrap_or("");
    let count = count_of(behind, Class::Modifier);
    let end = at.saturating_add(count).saturating_add(2);
    let found = text.get(at..end).unwrap_or("");
    match found.as_bytes().last() {
        Some(byte) if byte.is_ascii_alphabetic() => found,
        _ => "",
    }
}

fn advice(conversion: &str) -> &'static str {
    match conversion.as_bytes().last() {
        Some(b's') => OF_TEXT,
        Some(b'c') => OF_CHARACTER,
        Some(b'f' | b'e' | b'g' | b'E' | b'G') => OF_FLOATING,
        _ => OF_NUMBER,
    }
}

// What is said of a conversion, as it is spelled.
fn say_conversion(out: &mut String, conversion: &str) -> Result<(), Memory> {
    if conversion.is_empty() {
        return say(out, ALONE);
    }
    Reason::joined(OTHERS, advice(conversion), conversion).say(out)
}

/// C14, of a literal that is spelled so.
pub(crate) fn say_format(out: &mut String, text: &str) -> Result<(), Memory> {
    Reason::named("`$`", text).say(out)?;
    match other_conversion(text) {
        Some(at) => say_conversion(out, conversion(text, at)),
        None => say(out, COUNT),
    }
}
