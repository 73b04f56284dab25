//! Texts that have no tokens: L1 to L7.

use crate::directive::say_directive;
use crate::fronts::{Class, front_of};
use crate::lines::{behind_newline, split};
use crate::reason::Reason;
use crate::say::say;
use cilk_check_scopes::Memory;
use cilk_lex::LexFault;

const COMMENT: &str =
    "This line has `//`: this language leaves out the comments that begin so, and has those between `/*` and `*/`";

const CHARACTER: &str =
    "A `'` begins a character constant of C, but this language leaves those out: the number of the character takes its \
    place, as 10 for a newline";

const CHARACTER_IS: &str =
    "`$` is a character constant of C, but this language leaves those out: its place is taken by the number @";

const NO_TOKEN: &str = "`$` begins no token of this language";

const POINT: &str =
    "A `.` is of C's structures and floating numbers, which this language leaves out";

const BLANK: &str =
    "A text literal has the printable characters of ASCII only: a tab in it is written `\\t`, and other blanks than spaces \
    have no place in it";

const QUOTE: &str =
    "This quote is not of ASCII: a text literal of `printf` begins and ends with `\"`";

const OTHER: &str =
    "This character may stand in a comment only, since a text literal has the printable ones of ASCII";

const FLOATING: &str =
    " is a floating number of C, but this language leaves those out: its only numbers are whole";

const NUMBER: &str =
    " is no whole number from 0 to 2147483647, written in decimal, in octal behind a `0`, or in \
    hexadecimal behind `0x`, without a suffix";

pub(crate) fn say_lex(out: &mut String, text: &str, fault: LexFault) -> Result<(), Memory> {
    let (before, _) = split(text, fault.place());
    if is_behind_slashes(behind_newline(before)) {
        return say(out, COMMENT);
    }
    match fault {
        LexFault::BadByte(at) => say_bad_byte(out, text, at),
        LexFault::BadNumber(at) => say_bad_number(out, text, at),
        LexFault::BadDirective(at) => say_directive(out, text, at),
        _ => say(out, words(fault)),
    }
}

// Whether a comment of the kind that the language leaves out ends this front of a line, as far as the front alone tells.
fn is_behind_slashes(front: &str) -> bool {
    match front.split_once("//") {
        Some((code, behind)) => {
            !code.contains("\"") && !code.contains("/*") && !behind.contains("*/")
        }
        None => false,
    }
}

fn words(fault: LexFault) -> &'static str {
    match fault {
        LexFault::TooLong => "The text is longer than the 1048576 bytes that a program may have",
        LexFault::OpenComment(_) => "The comment that begins here is not closed: `*/` is missing",
        LexFault::OpenText(_) =>
            "The text literal that begins here has no closing quote on its line: a newline in it is written `\\n`",
        LexFault::BadEscape(_) => {
            "In a text literal a backslash stands before `n`, `t`, a backslash or a quote only: this language leaves out the \
            other escapes of C"
        }
        LexFault::BadByte(_)
        | LexFault::BadNumber(_)
        | LexFault::BadDirective(_)
        | LexFault::Memory => "Memory has run out",
    }
}

// What is said of a character by itself. None of a printable one of ASCII.
fn of_character(character: char) -> Option<&'static str> {
    match character {
        '.' => Some(POINT),
        '\t' | '\x0b' | '\x0c' | '\r' => Some(BLANK),
        '\u{2018}' | '\u{2019}' | '\u{201c}' | '\u{201d}' => Some(QUOTE),
        ' '..='~' => None,
        _ => Some(OTHER),
    }
}

fn say_bad_byte(out: &mut String, text: &str, at: u32) -> Result<(), Memory> {
    let (_, behind) = split(text, at);
    let Some(character) = behind.chars().next() else {
        return say(out, OTHER);
    };
    if character == '\'' {
        return say_constant(out, behind);
    }
    match of_character(character) {
        Some(words) => say(out, words),
        None => Reason::named(NO_TOKEN, behind.get(..1).unwrap_or("")).say(out),
    }
}

// A character constant of one printable character is told with its number.
fn say_constant(out: &mut String, behind: &str) -> Result<(), Memory> {
    match behind.as_bytes() {
        [_, code @ 32..=126, b'\'', ..] => Reason {
            words: CHARACTER_IS,
            more: "",
            name: behind.get(..3).unwrap_or(""),
            number: *code as usize,
        }
        .say(out),
        _ => say(out, CHARACTER),
    }
}

fn say_bad_number(out: &mut String, text: &str, at: u32) -> Result<(), Memory> {
    let (_, behind) = split(text, at);
    let number = front_of(behind, Class::Numeral);
    let words = if number.contains('.') {
        FLOATING
    } else {
        NUMBER
    };
    Reason::joined("`$`", words, number).say(out)
}
