//! What C, Cilk 5.4 and later dialects of Cilk have, and the language has not; and what it has in its place.

use crate::front::ends_sentence;
use crate::reason::Reason;
use crate::source::Source;
use crate::words::told_in;
use cilk_check_scopes::Memory;
use cilk_lex::TokenKind;

const CHARACTER: &str =
    " is C, but this language leaves it out, except in the parameters `int argc, char *argv[]` of `main`: a character is \
    the `int` that is its number, and texts stand in `printf` only";

const FLOATING: &str =
    " is C, but this language leaves it out: its only numbers are whole, and of the type `int`";

const WHOLE: &str =
    " is C, but this language leaves it out: its only type of numbers is `int`, from -2147483648 to 2147483647";

const CONSTANT: &str =
    " is C, but this language leaves it out: a declaration does without it, and a variable of the top level that nothing \
    assigns keeps its value";

const STATIC: &str =
    " is C, but this language leaves it out: a variable of the top level keeps its value between calls";

const BARE: &str = " is C, but this language leaves it out: a declaration does without it";

const STRUCTURE: &str =
    " is C, but this language leaves it out: variables and arrays of `int` take its place, one for each member";

const NAMED: &str =
    " is C, but this language leaves it out: variables of the top level take its place, as `int red = 0, green = 1;`";

const TYPE: &str = " is C, but this language leaves it out: its only type is `int`";

const JUMP: &str =
    " is C, but this language leaves it out: loops take its place, with `break` and `continue`";

const SIZE: &str =
    " is C, but this language leaves it out: it counts no bytes, and an array has the length that its declaration says";

const SHARED: &str =
    " is Cilk 5.4, but this language leaves it out: variables of the top level are shared without it";

const PRIVATE: &str =
    " is Cilk 5.4, but this language leaves it out: variables of a body belong to one instance without it";

const WORKER: &str =
    " is Cilk 5.4, but this language leaves it out: a program does not know which worker runs it";

const ROOM: &str =
    " is Cilk 5.4, but this language leaves it out: an array is declared, with a number as its length";

const FENCE: &str =
    " is Cilk 5.4, but this language leaves it out: what a step writes is there for each step behind it";

const SPAWN: &str = " is of later dialects of Cilk: Cilk 5.4 has `spawn` in its place";

const SYNC: &str = " is of later dialects of Cilk: Cilk 5.4 has `sync` in its place";

const LOOP: &str =
    " is of later dialects of Cilk: Cilk 5.4 has a `for` in its place whose body spawns, and a `sync` behind it";

const SCOPE: &str =
    " is of later dialects of Cilk: Cilk 5.4 has a procedure in its place, which syncs before it returns";

// The words of C (C 1990, 6.1.1), those of Cilk 5.4 (Cilk 5.4 manual, keywords), and those of Cilk Plus and OpenCilk, which are names
// here.
const LEFT_OUT: &[(&str, &str)] = &[
    ("char", CHARACTER),
    ("float", FLOATING),
    ("double", FLOATING),
    ("long", WHOLE),
    ("short", WHOLE),
    ("signed", WHOLE),
    ("unsigned", WHOLE),
    ("struct", STRUCTURE),
    ("union", STRUCTURE),
    ("enum", NAMED),
    ("typedef", TYPE),
    ("const", CONSTANT),
    ("static", STATIC),
    ("auto", BARE),
    ("extern", BARE),
    ("register", BARE),
    ("volatile", BARE),
    ("goto", JUMP),
    ("sizeof", SIZE),
    ("shared", SHARED),
    ("private", PRIVATE),
    ("Self", WORKER),
    ("Cilk_alloca", ROOM),
    ("Cilk_fence", FENCE),
    ("cilk_spawn", SPAWN),
    ("_Cilk_spawn", SPAWN),
    ("cilk_sync", SYNC),
    ("_Cilk_sync", SYNC),
    ("cilk_for", LOOP),
    ("_Cilk_for", LOOP),
    ("cilk_scope", SCOPE),
];

/// What is said behind a word that is left out. None of another word.
pub(crate) fn left_out(word: &str) -> Option<&'static str> {
    told_in(LEFT_OUT, word)
}

pub(crate) fn say_left_out(out: &mut String, word: &str) -> Result<(), Memory> {
    Reason::joined("`$`", left_out(word).unwrap_or(""), word).say(out)
}

/// The last word that is left out, in the statement or declaration that a place stands in, up to that place.
pub(crate) fn left_out_word<'a>(source: &Source<'a>, at: u32) -> Option<&'a str> {
    let mut found = None;
    for token in source.tokens {
        if token.start > at {
            return found;
        }
        if matches!(token.kind, TokenKind::Name) {
            let word = source.cut(*token);
            if left_out(word).is_some() {
                found = Some(word);
            }
        } else if token.start < at && ends_sentence(token.kind) {
            found = None;
        }
    }
    found
}
