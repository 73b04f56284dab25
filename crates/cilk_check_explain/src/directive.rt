//! Lines that begin with a `#` and include none of the headers of the language: L7.

use crate::fronts::{Class, count_of};
use crate::lines::{before_newline, split};
use crate::say::say;
use crate::words::told_in;
use cilk_check_scopes::Memory;

const DEFINE: &str =
    "`#define` is C, but this language leaves it out: a variable of the top level takes its place, as `int n = 10;`, or a C \
    function";

const CONDITION: &str =
    "This directive of C chooses what is compiled, and this language leaves it out: every line of a text is read";

const HEADER: &str =
    "A `#` may only begin a line that includes `cilk.h`, `cilk-lib.h`, `cilk-lib.cilkh`, `stdio.h` or `stdlib.h`: of C's \
    library this language has `printf` alone";

const LINE: &str =
    "The line of an `#include` has nothing else, before it or behind it, not even a comment";

const OTHER: &str =
    "A `#` may only begin a line that includes `cilk.h`, `cilk-lib.h`, `cilk-lib.cilkh`, `stdio.h` or `stdlib.h` and has \
    nothing else, not even a comment: this language leaves out the other directives of C";

const DIRECTIVES: &[(&str, &str)] = &[
    ("define", DEFINE),
    ("if", CONDITION),
    ("ifdef", CONDITION),
    ("ifndef", CONDITION),
    ("else", CONDITION),
    ("elif", CONDITION),
    ("endif", CONDITION),
    ("include", HEADER),
];

const HEADERS: &[&str] = &["cilk.h", "cilk-lib.", "stdio.h", "stdlib.h"];

// The word behind a `#`, and the rest of its line.
fn parts(line: &str) -> (&str, &str) {
    let behind = line.get(1..).unwrap_or("").trim_ascii_start();
    match behind.split_at_checked(count_of(behind, Class::Letter)) {
        Some(parts) => parts,
        None => ("", ""),
    }
}

// Whether the rest of a line names a header of the language.
fn names_header(rest: &str) -> bool {
    for header in HEADERS {
        if rest.contains(*header) {
            return true;
        }
    }
    false
}

fn words(line: &str) -> &'static str {
    let (word, rest) = parts(line);
    if word == "include" && names_header(rest) {
        return LINE;
    }
    told_in(DIRECTIVES, word).unwrap_or(OTHER)
}

/// L7, of the `#` at a place.
pub(crate) fn say_directive(out: &mut String, text: &str, at: u32) -> Result<(), Memory> {
    let (_, behind) = split(text, at);
    say(out, words(before_newline(behind)))
}
