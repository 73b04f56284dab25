//! Parts of statements that cannot stand where they do.

use crate::remarks::{Remark, Saying, Sort, Spot, Test};
use crate::words::TESTING;

const TEST_IN_PARENTHESES: &str =
    " cannot stand here, since parentheses stand behind `$`: write `$ (..)`";

const ELSE_BEHIND_NOTHING: &str =
    " has no `if`: the `;` before it is a statement that stands between them";

const ELSE_BEHIND_TWO: &str =
    " has no `if`: one statement stands between `if` and `else`, and more of them in `{` and `}`";

const ELSE: &str =
    " has no `if`: nothing but its statement or block stands between `if` and `else`";

const OUTSIDE: &str =
    " cannot stand here, since statements stand in the body of a function or a procedure only";

const OUTSIDE_BEHIND: &str =
    " cannot stand here, since statements stand in a body only, and the `}` in line @ ends the last one";

const NOTHING_TO_CLOSE: &str = " closes nothing: each `{` before it has its `}`";

const NO_PARENTHESIS: &str = " closes nothing: no `(` is open here";

const BODY_WANTED: &str =
    " is found where the statement is wanted that belongs to `$`: one that does nothing is `;`";

const HEADER_TOO_SHORT: &str =
    " ends the header of the `for` too early: two `;` stand in it, as in `for (i = 0; i < n; i++)`";

const HEADER_TOO_LONG: &str =
    " is the third in the header of the `for`, and two stand there, as in `for (i = 0; i < n; i++)`";

const VALUE_WANTED: &str = " is found where a value is wanted, behind `$`";

const NAME_ALONE: &str =
    " is found behind a name alone, which is no statement: a call is written as `$();`, and an assignment as `$ = ..;`";

const SPAWN_WITHOUT_ARGUMENTS: &str =
    " is found where the arguments of `$` are wanted: without any it is `spawn $();`";

const BEHIND_BODY: &str = " declares nothing: no `;` stands behind the `}` of a body";

const NUMBER_FIRST: &str = " cannot stand here, since no statement begins with a number";

const TEXTS: &str = " cannot stand here, since one text stands in a `printf`: write both as one";

const TEXT: &str =
    " cannot stand here, since a text literal is the first argument of a `printf` statement only";

const TEXT_OF_ANOTHER: &str =
    " cannot stand here, since a text literal is the first argument of a `printf` statement only, and none of `$`";

const NO_TEXT: &str =
    " cannot stand here, since a `printf` begins with a text literal, as in `printf(\"%d\\n\", x);`";

const HEADER: &str = " cannot stand here, since headers are included before all else";

/// Why a word that begins a statement cannot stand here.
pub(crate) const STATEMENT_WORDS: &[Remark] = &[
    Remark {
        saying: Saying::Plain(OUTSIDE_BEHIND),
        when: &[
            Test::Same(Spot::Before(0), Spot::Begin(0)),
            Test::Is(Spot::Before(1), &["}"]),
        ],
        unless: &[
            Test::Is(Spot::Brace, &["{"]),
            Test::Is(
                Spot::Before(0),
                &["cilk", "int", "void", "Cilk_lockvar", "inlet"],
            ),
        ],
    },
    Remark {
        saying: Saying::Plain(OUTSIDE),
        when: &[Test::Same(Spot::Before(0), Spot::Begin(0))],
        unless: &[
            Test::Is(Spot::Brace, &["{"]),
            Test::Is(
                Spot::Before(0),
                &["cilk", "int", "void", "Cilk_lockvar", "inlet"],
            ),
        ],
    },
    Remark {
        saying: Saying::Plain(ELSE_BEHIND_NOTHING),
        when: &[
            Test::Is(Spot::Before(0), &["else"]),
            Test::Is(Spot::Before(1), &[";"]),
            Test::Is(Spot::Before(2), &["}"]),
        ],
        unless: &[],
    },
    Remark {
        saying: Saying::Plain(ELSE_BEHIND_TWO),
        when: &[
            Test::Is(Spot::Before(0), &["else"]),
            Test::Is(Spot::Before(1), &[";"]),
        ],
        unless: &[],
    },
    Remark {
        saying: Saying::Plain(ELSE),
        when: &[
            Test::Is(Spot::Before(0), &["else"]),
            Test::Is(Spot::Before(1), &["}", "{"]),
        ],
        unless: &[],
    },
];

/// Why a name or a number cannot stand here, in a statement.
pub(crate) const OPERANDS: &[Remark] = &[
    Remark {
        saying: Saying::Named(TEST_IN_PARENTHESES, Spot::Before(1)),
        when: &[Test::Is(Spot::Before(1), TESTING)],
        unless: &[],
    },
    Remark {
        saying: Saying::Plain(NO_TEXT),
        when: &[
            Test::Is(Spot::Before(1), &["("]),
            Test::Is(Spot::Before(2), &["printf"]),
        ],
        unless: &[],
    },
    Remark {
        saying: Saying::Plain(OUTSIDE_BEHIND),
        when: &[
            Test::Same(Spot::Before(0), Spot::Begin(0)),
            Test::Is(Spot::Before(1), &["}"]),
        ],
        unless: &[Test::Is(Spot::Brace, &["{"])],
    },
    Remark {
        saying: Saying::Plain(OUTSIDE),
        when: &[Test::Same(Spot::Before(0), Spot::Begin(0))],
        unless: &[Test::Is(Spot::Brace, &["{"])],
    },
    Remark {
        saying: Saying::Plain(NUMBER_FIRST),
        when: &[
            Test::Sorted(Spot::Before(0), Sort::Number),
            Test::Is(Spot::Before(1), &[";", "}", "{"]),
        ],
        unless: &[],
    },
];

/// Why a text literal or a header cannot stand here.
pub(crate) const TEXT_REMARKS: &[Remark] = &[
    Remark {
        saying: Saying::Plain(HEADER),
        when: &[Test::Sorted(Spot::Before(0), Sort::Header)],
        unless: &[],
    },
    Remark {
        saying: Saying::Plain(TEXTS),
        when: &[Test::Sorted(Spot::Before(1), Sort::Text)],
        unless: &[],
    },
    Remark {
        saying: Saying::Named(TEXT_OF_ANOTHER, Spot::Before(2)),
        when: &[Test::Is(Spot::Before(1), &["("])],
        unless: &[],
    },
    Remark {
        saying: Saying::Plain(TEXT),
        when: &[],
        unless: &[],
    },
];

/// Why what ends or closes something cannot stand here.
pub(crate) const ENDS: &[Remark] = &[
    Remark {
        saying: Saying::Plain(HEADER_TOO_SHORT),
        when: &[Test::Is(Spot::Before(0), &[")"]), Test::Parts(0)],
        unless: &[],
    },
    Remark {
        saying: Saying::Plain(HEADER_TOO_SHORT),
        when: &[Test::Is(Spot::Before(0), &[")"]), Test::Parts(1)],
        unless: &[],
    },
    Remark {
        saying: Saying::Plain(HEADER_TOO_LONG),
        when: &[Test::Is(Spot::Before(0), &[";"]), Test::Parts(2)],
        unless: &[],
    },
    Remark {
        saying: Saying::Named(VALUE_WANTED, Spot::Before(1)),
        when: &[Test::Sorted(Spot::Before(1), Sort::Mark)],
        unless: &[Test::Is(Spot::Before(1), &[")", "]", "}", "{", ";", "++", "--"])],
    },
    Remark {
        saying: Saying::Plain(BEHIND_BODY),
        when: &[
            Test::Is(Spot::Before(0), &[";"]),
            Test::Is(Spot::Before(1), &["}"]),
        ],
        unless: &[Test::Is(Spot::Brace, &["{"])],
    },
    Remark {
        saying: Saying::Named(SPAWN_WITHOUT_ARGUMENTS, Spot::Before(1)),
        when: &[
            Test::Is(Spot::Before(0), &[";"]),
            Test::Sorted(Spot::Before(1), Sort::Name),
            Test::Is(Spot::Before(2), &["spawn"]),
        ],
        unless: &[],
    },
    Remark {
        saying: Saying::Named(NAME_ALONE, Spot::Before(1)),
        when: &[
            Test::Is(Spot::Before(0), &[";"]),
            Test::Sorted(Spot::Before(1), Sort::Name),
            Test::Same(Spot::Before(0), Spot::Begin(1)),
        ],
        unless: &[],
    },
    Remark {
        saying: Saying::Plain(NOTHING_TO_CLOSE),
        when: &[Test::Is(Spot::Before(0), &["}"])],
        unless: &[
            Test::Is(Spot::Brace, &["{"]),
            Test::Is(Spot::Before(1), &[""]),
        ],
    },
    Remark {
        saying: Saying::Named(BODY_WANTED, Spot::Before(1)),
        when: &[
            Test::Is(Spot::Before(0), &["}"]),
            Test::Is(Spot::Before(1), &["else", "do"]),
        ],
        unless: &[],
    },
    Remark {
        saying: Saying::Named(BODY_WANTED, Spot::Group(1)),
        when: &[
            Test::Is(Spot::Before(0), &["}"]),
            Test::Is(Spot::Before(1), &[")"]),
            Test::Is(Spot::Group(1), TESTING),
        ],
        unless: &[],
    },
    Remark {
        saying: Saying::Plain(NO_PARENTHESIS),
        when: &[Test::Is(Spot::Before(0), &[")"])],
        unless: &[
            Test::Is(Spot::Opener(0), &["(", "["]),
            Test::Is(Spot::Before(1), &[""]),
        ],
    },
];
