//! Marks that cannot stand where they do.

use crate::remarks::{Remark, Saying, Sort, Spot, Test};
use crate::words::{ASSIGNING, TESTING};

const COMMENT: &str =
    " is of a comment that begins with `//`: this language leaves those out, and has those between `/*` and `*/`";

const POINTER: &str =
    " makes a pointer, and this language leaves pointers out: arrays with their subscripts take their place";

const POINTER_PARAMETER: &str =
    " makes a pointer, and this language leaves pointers out: what functions share is a variable or an array of the top level";

const ADDRESS: &str =
    " takes an address, and this language leaves pointers out: what functions share is a variable of the top level, and a \
    lock is named as it is, as in `Cilk_lock(l);`";

const ARROW: &str = " is of `->`: this language leaves structures and pointers out";

const ARRAY_INITIALISER: &str =
    " cannot stand here, since an array has no initialiser: its elements are 0 at first, and each is assigned in a statement";

const ASSIGNING_TEST: &str = " assigns, and no assignment stands in a test: `==` is what compares";

const ASSIGNING_AGAIN: &str =
    " cannot stand here, since an assignment has no value: `x = y = 1;` is two statements, `y = 1;` and `x = y;`";

const SPAWN_ASSIGNED: &str =
    " cannot stand behind `spawn`, which is the right side of its assignment: write `$ = spawn f(..);`";

const ASSIGNED_WITHIN: &str =
    " cannot stand here, since an assignment is a statement of its own that has no value";

const STEP: &str =
    " cannot stand here, since it makes a statement of its own that has no value: write `x++;` or `x--;` before or behind";

const COMMA_IN_HEADER: &str =
    " cannot stand here, since the header of a `for` has one assignment before its first `;`, and one behind its second";

const COMMA_OF_STATEMENTS: &str =
    " cannot stand here, since each assignment is a statement of its own, which ends in `;`";

const COMMA: &str =
    " cannot stand here, since a comma parts declarators, parameters and arguments only";

const COMPARING: &str = " compares, and a comparison is no statement: `=` is what assigns";

const COMPUTING: &str =
    " cannot stand here, since an expression is no statement: its value is assigned, as in `x = ..;`";

const LABEL: &str =
    " makes a label, and this language leaves labels and `goto` out: loops take their place, with `break` and `continue`";

/// Where a comment of the kind that the language leaves out begins.
pub(crate) const COMMENTS: &[Remark] = &[
    Remark {
        saying: Saying::Plain(COMMENT),
        when: &[
            Test::Is(Spot::Before(0), &["/"]),
            Test::Is(Spot::Before(1), &["/"]),
        ],
        unless: &[],
    },
    Remark {
        saying: Saying::Plain(COMMENT),
        when: &[
            Test::Is(Spot::Before(0), &["/"]),
            Test::Is(Spot::Behind(1), &["/"]),
        ],
        unless: &[],
    },
];

/// Why an operator or a separator cannot stand here.
pub(crate) const OPERATORS: &[Remark] = &[
    Remark {
        saying: Saying::Plain(ARROW),
        when: &[
            Test::Is(Spot::Before(0), &[">"]),
            Test::Is(Spot::Before(1), &["-"]),
        ],
        unless: &[],
    },
    Remark {
        saying: Saying::Plain(ARROW),
        when: &[
            Test::Is(Spot::Before(0), &["-"]),
            Test::Is(Spot::Behind(1), &[">"]),
        ],
        unless: &[],
    },
    Remark {
        saying: Saying::Plain(ADDRESS),
        when: &[Test::Is(Spot::Before(0), &["&"])],
        unless: &[
            Test::Sorted(Spot::Before(1), Sort::Name),
            Test::Sorted(Spot::Before(1), Sort::Number),
            Test::Is(Spot::Before(1), &[")", "]", "++", "--"]),
        ],
    },
    Remark {
        saying: Saying::Plain(POINTER_PARAMETER),
        when: &[
            Test::Is(Spot::Before(0), &["*"]),
            Test::Is(Spot::Opener(0), &["(", "["]),
        ],
        unless: &[
            Test::Sorted(Spot::Before(1), Sort::Number),
            Test::Is(Spot::Before(1), &[")", "]", "++", "--"]),
        ],
    },
    Remark {
        saying: Saying::Plain(POINTER),
        when: &[Test::Is(Spot::Before(0), &["*"])],
        unless: &[
            Test::Sorted(Spot::Before(1), Sort::Number),
            Test::Is(Spot::Before(1), &[")", "]", "++", "--"]),
        ],
    },
    Remark {
        saying: Saying::Plain(ARRAY_INITIALISER),
        when: &[
            Test::Is(Spot::Before(0), ASSIGNING),
            Test::Is(Spot::Begin(0), &["int"]),
            Test::Is(Spot::Before(1), &["]"]),
        ],
        unless: &[],
    },
    Remark {
        saying: Saying::Named(SPAWN_ASSIGNED, Spot::Before(1)),
        when: &[
            Test::Is(Spot::Before(0), ASSIGNING),
            Test::Is(Spot::Begin(0), &["spawn"]),
        ],
        unless: &[],
    },
    Remark {
        saying: Saying::Plain(ASSIGNING_TEST),
        when: &[
            Test::Is(Spot::Before(0), ASSIGNING),
            Test::Is(Spot::Opener(1), TESTING),
        ],
        unless: &[],
    },
    Remark {
        saying: Saying::Plain(ASSIGNING_AGAIN),
        when: &[Test::Is(Spot::Before(0), ASSIGNING), Test::Has("=")],
        unless: &[],
    },
    Remark {
        saying: Saying::Plain(ASSIGNED_WITHIN),
        when: &[Test::Is(Spot::Before(0), ASSIGNING)],
        unless: &[],
    },
    Remark {
        saying: Saying::Plain(LABEL),
        when: &[
            Test::Is(Spot::Before(0), &[":"]),
            Test::Sorted(Spot::Begin(0), Sort::Name),
            Test::Is(Spot::Brace, &["{"]),
            Test::Same(Spot::Before(0), Spot::Begin(1)),
        ],
        unless: &[],
    },
    Remark {
        saying: Saying::Plain(LABEL),
        when: &[
            Test::Is(Spot::Before(0), &[":"]),
            Test::Sorted(Spot::Begin(0), Sort::Name),
            Test::Is(Spot::Brace, &["{"]),
            Test::Is(Spot::Before(1), &["]"]),
            Test::Same(Spot::Group(0), Spot::Begin(1)),
        ],
        unless: &[],
    },
    Remark {
        saying: Saying::Plain(COMPARING),
        when: &[
            Test::Is(Spot::Before(0), &["=="]),
            Test::Sorted(Spot::Begin(0), Sort::Name),
            Test::Is(Spot::Brace, &["{"]),
            Test::Same(Spot::Before(0), Spot::Begin(1)),
        ],
        unless: &[],
    },
    Remark {
        saying: Saying::Plain(COMPARING),
        when: &[
            Test::Is(Spot::Before(0), &["=="]),
            Test::Sorted(Spot::Begin(0), Sort::Name),
            Test::Is(Spot::Brace, &["{"]),
            Test::Is(Spot::Before(1), &["]"]),
            Test::Same(Spot::Group(0), Spot::Begin(1)),
        ],
        unless: &[],
    },
    Remark {
        saying: Saying::Plain(COMPUTING),
        when: &[
            Test::Is(
                Spot::Before(0),
                &["+", "-", "/", "%", "<", ">", "<=", ">=", "!=", "&&", "||"],
            ),
            Test::Sorted(Spot::Begin(0), Sort::Name),
            Test::Is(Spot::Brace, &["{"]),
            Test::Same(Spot::Before(0), Spot::Begin(1)),
        ],
        unless: &[],
    },
    Remark {
        saying: Saying::Plain(COMPUTING),
        when: &[
            Test::Is(
                Spot::Before(0),
                &["+", "-", "/", "%", "<", ">", "<=", ">=", "!=", "&&", "||"],
            ),
            Test::Sorted(Spot::Begin(0), Sort::Name),
            Test::Is(Spot::Brace, &["{"]),
            Test::Is(Spot::Before(1), &["]"]),
            Test::Same(Spot::Group(0), Spot::Begin(1)),
        ],
        unless: &[],
    },
    Remark {
        saying: Saying::Plain(STEP),
        when: &[Test::Is(Spot::Before(0), &["++", "--"])],
        unless: &[],
    },
    Remark {
        saying: Saying::Plain(COMMA_IN_HEADER),
        when: &[
            Test::Is(Spot::Before(0), &[","]),
            Test::Is(Spot::Opener(1), &["for"]),
        ],
        unless: &[],
    },
    Remark {
        saying: Saying::Plain(COMMA),
        when: &[
            Test::Is(Spot::Before(0), &[","]),
            Test::Is(Spot::Opener(0), &["(", "["]),
        ],
        unless: &[],
    },
    Remark {
        saying: Saying::Plain(COMMA_OF_STATEMENTS),
        when: &[Test::Is(Spot::Before(0), &[","]), Test::Has("=")],
        unless: &[Test::Is(Spot::Begin(0), &["int"])],
    },
    Remark {
        saying: Saying::Plain(COMMA),
        when: &[Test::Is(Spot::Before(0), &[","])],
        unless: &[],
    },
];
