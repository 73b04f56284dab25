//! Names that mean something else than is needed: C1, C3, C4 and C5.

use crate::declared::Declared;
use crate::front::Front;
use crate::reason::Reason;
use crate::remarks::{Remark, Saying, Spot, Test};
use crate::say::say;
use crate::search::meaning;
use crate::site::Site;
use crate::words::ASSIGNING;
use cilk_check_scopes::{DeclarationKind, Memory};

const SPAWNED: &str = ": a procedure is started by `spawn`, as in `spawn $(..);`";

const SPAWNED_FOR_VALUE: &str =
    ": a procedure is started by `spawn`, as in `x = spawn $(..);`, and its value is there behind a `sync;`";

const CALLED: &str =
    ": a C function is called without `spawn`, and a procedure has `cilk` before its result";

const ELEMENTS: &str = ": the elements of an array are used, as `$[0]`, and not the array itself";

const CALL_FOR_VALUE: &str = ": the value of a function is had by a call, as in `x = $(..);`";

// What is needed at the place of a name: the tokens around it say so (Cilk 5.4 manual, locks).
const NEEDED: &[Remark] = &[
    Remark {
        saying: Saying::Plain("another Cilk procedure than `main`"),
        when: &[
            Test::Is(Spot::Behind(1), &["("]),
            Test::Is(Spot::Before(1), &["spawn"]),
            Test::Is(Spot::Before(0), &["main"]),
        ],
        unless: &[],
    },
    Remark {
        saying: Saying::Plain("a Cilk procedure"),
        when: &[
            Test::Is(Spot::Behind(1), &["("]),
            Test::Is(Spot::Before(1), &["spawn"]),
        ],
        unless: &[],
    },
    Remark {
        saying: Saying::Plain("an inlet"),
        when: &[
            Test::Is(Spot::Behind(1), &["("]),
            Test::Is(Spot::Behind(2), &["spawn"]),
        ],
        unless: &[],
    },
    Remark {
        saying: Saying::Plain("a C function"),
        when: &[Test::Is(Spot::Behind(1), &["("])],
        unless: &[],
    },
    Remark {
        saying: Saying::Plain("an array"),
        when: &[Test::Is(Spot::Behind(1), &["["])],
        unless: &[],
    },
    Remark {
        saying: Saying::Plain("a lock"),
        when: &[
            Test::Is(Spot::Before(1), &["("]),
            Test::Is(
                Spot::Before(2),
                &["Cilk_lock_init", "Cilk_lock", "Cilk_unlock"],
            ),
        ],
        unless: &[],
    },
];

// What is to be written in place of a C function.
const FOR_FUNCTION: &[Remark] = &[
    Remark {
        saying: Saying::Plain(CALLED),
        when: &[Test::Is(Spot::Before(1), &["spawn"])],
        unless: &[],
    },
    Remark {
        saying: Saying::Plain(CALL_FOR_VALUE),
        when: &[],
        unless: &[Test::Is(Spot::Behind(1), &["("])],
    },
];

// The same for a Cilk procedure.
const FOR_PROCEDURE: &[Remark] = &[
    Remark {
        saying: Saying::Plain(""),
        when: &[Test::Is(Spot::Before(1), &["spawn"])],
        unless: &[],
    },
    Remark {
        saying: Saying::Plain(SPAWNED),
        when: &[Test::Is(Spot::Behind(1), &["("])],
        unless: &[Test::Is(Spot::Before(1), ASSIGNING)],
    },
    Remark {
        saying: Saying::Plain(SPAWNED_FOR_VALUE),
        when: &[],
        unless: &[],
    },
];

// The same for an array.
const FOR_ARRAY: &[Remark] = &[Remark {
    saying: Saying::Plain(ELEMENTS),
    when: &[],
    unless: &[Test::Is(Spot::Behind(1), &["("])],
}];

// What the first of these remarks says that holds.
fn words_in(front: &Front<'_>, remarks: &'static [Remark]) -> Option<&'static str> {
    match front.remark_in(remarks)?.saying {
        Saying::Plain(words) | Saying::Named(words, _) | Saying::Call(words, _) => Some(words),
    }
}

// The name at a place, with the line of its declaration, and words behind that.
fn about<'a>(site: &Site<'a, '_>, found: Option<Declared>, more: &'a str) -> Reason<'a> {
    let name = site.word();
    match found {
        None => Reason::joined("`$`", more, name),
        Some(declared) => Reason {
            words: "`$`, declared in line @,",
            more,
            name,
            number: site.line(declared.at),
        },
    }
}

/// C1, C4 and C5: the name, and words that say what is wrong.
pub(crate) fn say_of_name(
    out: &mut String,
    site: &Site<'_, '_>,
    words: &str,
) -> Result<(), Memory> {
    about(site, meaning(site), words).say(out)
}

// What is to be written in place of a name that is of another kind than is needed.
fn advice(front: &Front<'_>, kind: DeclarationKind) -> &'static str {
    let remarks = match kind {
        DeclarationKind::Function(_, _) => FOR_FUNCTION,
        DeclarationKind::Procedure(_, _) => FOR_PROCEDURE,
        DeclarationKind::Array(_) => FOR_ARRAY,
        _ => return "",
    };
    words_in(front, remarks).unwrap_or("")
}

/// C3.
pub(crate) fn say_kind(out: &mut String, site: &Site<'_, '_>) -> Result<(), Memory> {
    let Some(declared) = meaning(site) else {
        return say_needed(out, site, about(site, None, " is something else"));
    };
    let told = about(site, Some(declared), declared.words());
    if matches!(declared.kind, DeclarationKind::Strings) {
        return told.say(out);
    }
    say_needed(out, site, told)?;
    Reason::named(advice(&site.front, declared.kind), site.word()).say(out)
}

// What is told of a name, and what is needed in its place.
fn say_needed(out: &mut String, site: &Site<'_, '_>, told: Reason<'_>) -> Result<(), Memory> {
    told.say(out)?;
    let needed = words_in(&site.front, NEEDED).unwrap_or("an `int` variable");
    Reason::named(", but $ is needed here", needed).say(out)
}

/// C4.
pub(crate) fn say_count(out: &mut String, site: &Site<'_, '_>) -> Result<(), Memory> {
    say_of_name(
        out,
        site,
        " is given another number of arguments here than it has parameters",
    )?;
    let Some(declared) = meaning(site) else {
        return Ok(());
    };
    if let Some(count) = declared.parameters() {
        Reason::numbered(": it has @", count).say(out)?;
    }
    match declared.kind {
        DeclarationKind::Inlet(_) => {
            say(out, ", and the value of the `spawn` is an argument too")
        }
        _ => Ok(()),
    }
}
