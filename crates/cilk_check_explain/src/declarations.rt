//! Declarations, and heads of functions, that cannot stand where they do or are not written so.

use crate::remarks::{Remark, Saying, Sort, Spot, Test};

const FOR_VARIABLE: &str =
    " cannot stand here, since a `for` declares no variable: write `int $;` at the head of the block, and `for ($ = ..`";

const INLET_RESULT: &str =
    " cannot stand here, since an inlet has no result: it is written as `inlet void $(..)`";

const BEHIND_STATEMENT: &str =
    " cannot stand here, since variables are declared at the top level and at the head of a block only, before its statements";

const AS_STATEMENT: &str =
    " cannot stand here, since a declaration is no statement: variables are declared at the top level and at the head of a \
    block only";

const INLET_BEHIND_STATEMENT: &str =
    " cannot stand here, since inlets are declared at the head of the outermost block of a Cilk procedure only, before its \
    statements";

const LOCK_IN_BODY: &str = " cannot stand here, since locks are declared at the top level only";

const EMPTY_ARGUMENTS: &str =
    " cannot stand here, since a call without arguments is written as `$()`";

const ARRAY_PARAMETER: &str =
    " cannot stand here, since no array is a parameter: one of the top level is there for all functions and procedures";

const DIMENSION: &str =
    " cannot stand here, since an array has one dimension: `a[i * n + j]` takes the place of `a[i][j]`";

const LENGTH_MISSING: &str =
    " is found where the length of the array is wanted: a number, as in `int a[10];`";

const LENGTH: &str =
    " cannot stand here, since the length of an array is a number, and no variable and no expression";

const GLOBAL_INITIALISER: &str =
    " cannot stand here, since a variable of the top level starts with a number: another value is assigned in a body";

const UNTYPED: &str = " cannot stand here, since each parameter has its type: write `int $`";

const NO_RESULT: &str =
    " begins a function without a result: write `int $(..)` or `void $(..)`, and `cilk` before it for a Cilk procedure";

const NO_RESULT_OF_PROCEDURE: &str =
    " cannot stand here, since a procedure has a result: write `cilk int $(..)` or `cilk void $(..)`";

const NO_TYPE: &str = " is no type of this language, whose variables are declared by `int` alone";

const BEHIND_NO_TYPE: &str =
    " cannot stand behind `$`, which is no type and no word of this language: a variable is declared by `int`";

const NO_PARAMETERS: &str =
    " cannot stand here, since the parameters are missing: without any it is `$(void)`";

const WORD_AS_NAME: &str = " cannot stand here, since it is a word of this language, and no name";

const MAIN: &str =
    " cannot stand here, since these are the parameters of a Cilk procedure: write `cilk int main(int argc, char *argv[])`";

/// Why the token is no length of an array.
pub(crate) const LENGTHS: &[Remark] = &[
    Remark {
        saying: Saying::Plain(LENGTH_MISSING),
        when: &[
            Test::Is(Spot::Opener(0), &["["]),
            Test::Is(Spot::Begin(0), &["int"]),
            Test::Is(Spot::Before(0), &["]"]),
        ],
        unless: &[Test::Has("=")],
    },
    Remark {
        saying: Saying::Plain(LENGTH),
        when: &[
            Test::Is(Spot::Opener(0), &["["]),
            Test::Is(Spot::Begin(0), &["int"]),
        ],
        unless: &[Test::Has("=")],
    },
];

/// Why a word that declares cannot stand here.
pub(crate) const DECLARING_WORDS: &[Remark] = &[
    Remark {
        saying: Saying::Named(FOR_VARIABLE, Spot::Behind(1)),
        when: &[
            Test::Is(Spot::Before(0), &["int"]),
            Test::Is(Spot::Before(1), &["("]),
            Test::Is(Spot::Before(2), &["for"]),
        ],
        unless: &[],
    },
    Remark {
        saying: Saying::Named(INLET_RESULT, Spot::Behind(1)),
        when: &[
            Test::Is(Spot::Before(0), &["int"]),
            Test::Is(Spot::Before(1), &["inlet"]),
        ],
        unless: &[],
    },
    Remark {
        saying: Saying::Plain(BEHIND_STATEMENT),
        when: &[
            Test::Is(Spot::Before(0), &["int"]),
            Test::Is(Spot::Before(1), &[";", "}"]),
            Test::Is(Spot::Brace, &["{"]),
        ],
        unless: &[],
    },
    Remark {
        saying: Saying::Plain(AS_STATEMENT),
        when: &[
            Test::Is(Spot::Before(0), &["int"]),
            Test::Is(Spot::Before(1), &[")", "else", "do"]),
            Test::Is(Spot::Brace, &["{"]),
        ],
        unless: &[],
    },
    Remark {
        saying: Saying::Plain(INLET_BEHIND_STATEMENT),
        when: &[Test::Is(Spot::Before(0), &["inlet"])],
        unless: &[],
    },
    Remark {
        saying: Saying::Plain(LOCK_IN_BODY),
        when: &[
            Test::Is(Spot::Before(0), &["Cilk_lockvar"]),
            Test::Is(Spot::Brace, &["{"]),
        ],
        unless: &[],
    },
    Remark {
        saying: Saying::Named(EMPTY_ARGUMENTS, Spot::Before(2)),
        when: &[
            Test::Is(Spot::Before(0), &["void"]),
            Test::Is(Spot::Before(1), &["("]),
        ],
        unless: &[],
    },
];

/// Why a word of the language is no name here.
pub(crate) const NO_NAMES: &[Remark] = &[Remark {
    saying: Saying::Plain(WORD_AS_NAME),
    when: &[Test::Is(Spot::Before(1), &["int", "void", "spawn", "Cilk_lockvar"])],
    unless: &[],
}];

/// Why no bracket can open here.
pub(crate) const BRACKETS: &[Remark] = &[
    Remark {
        saying: Saying::Plain(DIMENSION),
        when: &[Test::Is(Spot::Before(1), &["]"])],
        unless: &[],
    },
    Remark {
        saying: Saying::Plain(ARRAY_PARAMETER),
        when: &[
            Test::Is(Spot::Begin(0), &["int", "void", "cilk", "inlet"]),
            Test::Is(Spot::Opener(0), &["("]),
        ],
        unless: &[Test::Has("=")],
    },
];

/// Why a body cannot open here.
pub(crate) const BODIES: &[Remark] = &[Remark {
    saying: Saying::Named(NO_PARAMETERS, Spot::Before(1)),
    when: &[Test::Sorted(Spot::Before(1), Sort::Name)],
    unless: &[
        Test::Is(Spot::Brace, &["{"]),
        Test::Is(Spot::Opener(0), &["(", "["]),
    ],
}];

/// Why a name cannot stand here, where something is declared.
pub(crate) const NAMES: &[Remark] = &[
    Remark {
        saying: Saying::Named(NO_RESULT_OF_PROCEDURE, Spot::Before(0)),
        when: &[Test::Is(Spot::Before(1), &["cilk"])],
        unless: &[],
    },
    Remark {
        saying: Saying::Plain(NO_TYPE),
        when: &[
            Test::Same(Spot::Before(0), Spot::Begin(0)),
            Test::Sorted(Spot::Behind(1), Sort::Name),
        ],
        unless: &[Test::Is(Spot::Brace, &["{"])],
    },
    Remark {
        saying: Saying::Named(NO_RESULT, Spot::Before(0)),
        when: &[
            Test::Same(Spot::Before(0), Spot::Begin(0)),
            Test::Is(Spot::Behind(1), &["("]),
        ],
        unless: &[Test::Is(Spot::Brace, &["{"])],
    },
    Remark {
        saying: Saying::Named(UNTYPED, Spot::Before(0)),
        when: &[
            Test::Is(Spot::Begin(0), &["int", "void", "cilk", "inlet"]),
            Test::Is(Spot::Opener(0), &["("]),
            Test::Is(Spot::Before(1), &["(", ","]),
        ],
        unless: &[Test::Has("=")],
    },
    Remark {
        saying: Saying::Plain(GLOBAL_INITIALISER),
        when: &[Test::Is(Spot::Before(1), &["="])],
        unless: &[Test::Is(Spot::Brace, &["{"])],
    },
    Remark {
        saying: Saying::Named(BEHIND_NO_TYPE, Spot::Before(1)),
        when: &[
            Test::Sorted(Spot::Before(1), Sort::Name),
            Test::Same(Spot::Before(0), Spot::Begin(1)),
        ],
        unless: &[],
    },
];

/// What is said of a `main` that is told of the command line and lacks the word `cilk`.
pub(crate) const MAINS: &[Remark] = &[Remark {
    saying: Saying::Plain(MAIN),
    when: &[
        Test::Is(Spot::Begin(0), &["int"]),
        Test::Is(Spot::Begin(1), &["main"]),
        Test::Is(Spot::Before(0), &["char"]),
    ],
    unless: &[],
}];
