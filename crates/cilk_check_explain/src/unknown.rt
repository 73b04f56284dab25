//! Names that nothing declares: C2.

use crate::left_out::left_out;
use crate::reason::Reason;
use crate::search::in_bodies;
use crate::site::Site;
use crate::words::told_in;
use cilk_check_scopes::Memory;

const UNKNOWN: &str = " is declared nowhere that is visible from here";

const BEHIND: &str =
    " is declared nowhere that is visible from here: the declaration in line @ stands behind this place";

const ENDED: &str =
    " is declared nowhere that is visible from here: the block of the declaration in line @ has ended";

const TRUTH: &str =
    " is declared nowhere that is visible from here: this language has the numbers 1 and 0 in its place";

const NOTHING: &str =
    " is declared nowhere that is visible from here: it is of C's pointers, which this language leaves out";

const LIBRARY: &str =
    " is declared nowhere that is visible from here: of C's library this language has `printf` alone";

// Names that C has: those of its library are some that programs often have (C 1990, 7).
const NAMES_OF_C: &[(&str, &str)] = &[
    ("true", TRUTH),
    ("false", TRUTH),
    ("NULL", NOTHING),
    ("puts", LIBRARY),
    ("putchar", LIBRARY),
    ("fprintf", LIBRARY),
    ("sprintf", LIBRARY),
    ("fflush", LIBRARY),
    ("scanf", LIBRARY),
    ("getchar", LIBRARY),
    ("gets", LIBRARY),
    ("exit", LIBRARY),
    ("assert", LIBRARY),
    ("malloc", LIBRARY),
    ("calloc", LIBRARY),
    ("free", LIBRARY),
    ("atoi", LIBRARY),
    ("rand", LIBRARY),
    ("srand", LIBRARY),
    ("abs", LIBRARY),
    ("pow", LIBRARY),
    ("sqrt", LIBRARY),
    ("time", LIBRARY),
    ("clock", LIBRARY),
    ("strlen", LIBRARY),
    ("strcmp", LIBRARY),
    ("strcpy", LIBRARY),
    ("memset", LIBRARY),
    ("memcpy", LIBRARY),
];

// Where a declaration of the name stands that is not visible.
fn of_place<'a>(site: &Site<'a, '_>) -> Reason<'a> {
    let name = site.word();
    let Some(declared) = in_bodies(site, true) else {
        return Reason::joined("`$`", UNKNOWN, name);
    };
    Reason {
        words: "`$`",
        more: if declared.at > site.at { BEHIND } else { ENDED },
        name,
        number: site.line(declared.at),
    }
}

/// C2.
pub(crate) fn say_unknown(out: &mut String, site: &Site<'_, '_>) -> Result<(), Memory> {
    let name = site.word();
    match told_in(NAMES_OF_C, name).or(left_out(name)) {
        Some(words) => Reason::joined("`$`", words, name).say(out),
        None => of_place(site).say(out),
    }
}
